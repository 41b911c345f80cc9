//! Bytes from hexadecimal text.

use base::ProtoError;
use std::alloc::Global;

/// The bytes that the text spells in hexadecimal, with blanks dropped.
pub fn decode(alloc: Global, text: &str) -> Result<Vec<u8>, ProtoError> {
    let mut digits = Vec::with_capacity(alloc, text.len())?;
    digits.extend(text.bytes().filter(|byte| *byte != b' '))?;
    match hex::decode(alloc, digits) {
        Ok(bytes) => Ok(bytes),
        Err(hex::FromHexError::OutOfMemory) => Err(ProtoError::Memory),
        Err(_) => Err(ProtoError::Message("no hexadecimal text")),
    }
}
