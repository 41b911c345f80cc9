//! Names, types, classes, the encoder and the decoder: what the messages and records above stand on.
#![tactic(auto)]

pub mod dns_class;
pub mod error;
mod labels;
pub mod limits;
pub mod lower_name;
pub mod name;
pub mod record_type;
pub mod rr_key;
pub mod text;
pub mod types;
pub mod wire;

pub use dns_class::DNSClass;
pub use error::{DecodeError, ParseError, ProtoError};
pub use lower_name::LowerName;
pub use name::Name;
pub use record_type::RecordType;
pub use rr_key::RrKey;
pub use text::{Lexer, Token, TokenRef, parse_ttl};
pub use wire::{
    BinDecodable, BinDecoder, BinEncodable, BinEncoder, EmitAndCount, EncodedSize, Place,
    emit_sized, read_many,
};
