//! What the tests ask of a value: its text, its bytes, and what is read of bytes. Where memory is wanting, each
//! question is answered by no.

use base::{BinDecodable, BinDecoder, BinEncodable, BinEncoder, DecodeError, ProtoError};
use std::alloc::{AllocError, Global};
use std::fmt;

/// Whether the value is shown as this text.
pub fn has_text<T: fmt::Display>(alloc: Global, value: &T, text: &str) -> bool {
    let shown = value.to_string(alloc);
    let same = match &shown {
        Ok(shown) => shown.as_str() == text,
        Err(_) => false,
    };
    drop(shown);
    same
}

/// Whether the value is written.
pub fn is_emitted<T: BinEncodable>(encoder: &mut BinEncoder<'_>, value: &T) -> bool {
    let emitted = value.emit(encoder);
    let is_emitted = emitted.is_ok();
    drop(emitted);
    is_emitted
}

/// Whether the value is written as these bytes.
pub fn is_written_as<T: BinEncodable>(alloc: Global, value: &T, wire: &[u8]) -> bool {
    let mut bytes = Vec::new(alloc);
    let mut encoder = BinEncoder::new(&mut bytes);
    let is_emitted = is_emitted(&mut encoder, value);
    drop(encoder);
    let same = is_emitted && bytes.as_slice() == wire;
    drop(bytes);
    same
}

/// Whether these bytes were written.
pub fn are_bytes(written: Result<Vec<u8>, ProtoError>, wanted: &[u8]) -> bool {
    let same = match &written {
        Ok(bytes) => bytes.as_slice() == wanted,
        Err(_) => false,
    };
    drop(written);
    same
}

/// The value that the bytes begin with.
pub fn read<T: BinDecodable>(alloc: Global, wire: &[u8]) -> Result<T, DecodeError> {
    T::read(&mut BinDecoder::new(alloc, wire))
}

/// Whether the value that the bytes begin with ends there.
pub fn is_read_to<T: BinDecodable>(alloc: Global, wire: &[u8], end: usize) -> bool {
    let mut decoder = BinDecoder::new(alloc, wire);
    let found = T::read(&mut decoder);
    let is_read = found.is_ok();
    drop(found);
    is_read && decoder.index() == end
}

/// Whether this value is read of the bytes.
pub fn is_read_as<T: BinDecodable + PartialEq>(alloc: Global, wire: &[u8], value: &T) -> bool {
    let found: Result<T, DecodeError> = read(alloc, wire);
    let same = match &found {
        Ok(found) => *found == *value,
        Err(_) => false,
    };
    drop(found);
    same
}

/// Whether the value that the bytes begin with has this text.
pub fn is_read_with_text<T: BinDecodable + fmt::Display>(
    alloc: Global,
    wire: &[u8],
    text: &str,
) -> bool {
    let found: Result<T, DecodeError> = read(alloc, wire);
    let has_text = match &found {
        Ok(found) => has_text(alloc, found, text),
        Err(_) => false,
    };
    drop(found);
    has_text
}

/// Whether a value is read of the bytes and written as the same bytes.
pub fn is_written_back<T: BinDecodable + BinEncodable>(alloc: Global, wire: &[u8]) -> bool {
    let found: Result<T, DecodeError> = read(alloc, wire);
    let same = match &found {
        Ok(found) => is_written_as(alloc, found, wire),
        Err(_) => false,
    };
    drop(found);
    same
}

/// Whether the bytes end before the value does.
pub fn is_cut<T: BinDecodable>(alloc: Global, wire: &[u8]) -> bool {
    let found: Result<T, DecodeError> = read(alloc, wire);
    let is_cut = matches!(&found, Err(DecodeError::InsufficientBytes));
    drop(found);
    is_cut
}

/// Whether a value is equal to its copy.
pub fn is_copied<T: Clone + PartialEq + Drop>(value: T) -> bool {
    let copied: Result<T, AllocError> = value.clone();
    let same = match &copied {
        Ok(copy) => *copy == value,
        Err(_) => false,
    };
    drop(copied);
    drop(value);
    same
}

/// Whether a value could be made, and is equal to its copy.
pub fn equals_its_copy<T: Clone + PartialEq + Drop, E: Drop>(made: Result<T, E>) -> bool {
    match made {
        Ok(value) => is_copied(value),
        Err(_) => false,
    }
}
