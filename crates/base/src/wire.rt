//! The encoder and the decoder, and what is written and read through them.

pub mod decodable;
pub mod decoder;
pub mod emit_and_count;
pub mod encodable;
pub mod encoder;
pub mod laws;
pub mod many;
mod numbers;
pub mod place;
pub(crate) mod pointer_cache;
pub mod sized;
pub mod suffix;
pub mod suffix_table;

pub use decodable::BinDecodable;
pub use decoder::BinDecoder;
pub use emit_and_count::EmitAndCount;
pub use encodable::{BinEncodable, EncodedSize};
pub use encoder::BinEncoder;
pub use many::read_many;
pub use place::Place;
pub use sized::emit_sized;
