//! Bytes from hexadecimal text.

ghost use Rattle.std.specs.Prelude.{◌≡◌, IfOk, not, filter};
ghost use Rattle.commands.specs.Answering.{Decodes};
ghost use Rattle.commands.specs.HexInput.{is_hex_blank, bytes_of};

use crate::refusal::Refusal;
use base::ProtoError;
use hex::FromHexError;
use std::alloc::{AllocError, Global};

/// Whether the byte only sets others apart.
fn is_blank(byte: u8) -> bool
    ensures { result ≡ is_hex_blank byte }
{
    matches!(byte, b' ' | b'\t' | b'\n' | b'\r')
}

/// The bytes of a text that aren't blanks.
fn without_blanks(alloc: Global, text: &[u8]) -> Result<Vec<u8>, AllocError>
    ensures { IfOk result (λ v. v.items ≡ filter (λ c. not (is_hex_blank c)) text.now) }
{
    let mut digits = Vec::with_capacity(alloc, text.len())?;
    digits.extend(text.iter().copied().filter(|byte| !is_blank(*byte)))?;
    Ok(digits)
}

/// The bytes that the text spells in hexadecimal, in letters of either case, with blanks dropped wherever they stand.
///
/// # Errors
///
/// 24 for a text that isn't hexadecimal; `Memory` if memory runs out.
pub fn decode(alloc: Global, text: &[u8]) -> Result<Vec<u8>, Refusal>
    ensures { Decodes (bytes_of text.now) result }
{
    let digits = without_blanks(alloc, text)?;
    match hex::decode(alloc, digits) {
        Ok(bytes) => Ok(bytes),
        Err(FromHexError::OutOfMemory) => Err(Refusal::Proto(ProtoError::Memory)),
        Err(_) => Err(Refusal::Input),
    }
}
