//! The refusals of reading, of zone text and of every other call.

pub mod decode_error;
pub mod parse_error;
pub mod proto_error;

pub use decode_error::DecodeError;
pub use parse_error::ParseError;
pub use proto_error::ProtoError;
