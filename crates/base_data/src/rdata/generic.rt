//! The generic form, in which zone text has types without a name and data of any type (RFC 3597, 5).

ghost use Rattle.std.specs.Prelude.{map};
ghost use Rattle.std.specs.Option.{ok_or, option_copied};
ghost use Rattle.std.specs.String.{string_bytes};
ghost use Rattle.base.specs.texts.TextFaults.{Gives, bad_data, unknown_type};
ghost use Rattle.base_data.specs.Generic.{any_data, any_type, bytes_of_words, counted_data, numbered_type};
ghost use Rattle.base_data.specs.ItemFault.{GivesItems};

use crate::rdata::RData;
use crate::rdata::fields::{ItemFault, u16_item};
use base::{BinDecoder, DecodeError, Name, ParseError, RecordType};
use hex::FromHexError;
use std::alloc::Global;

/// The type that a text in upper case names: by its name (RFC 1035, 3.2.2 and 3.2.3), or any type by `TYPE` and its
/// number in decimal, as `TYPE731` (RFC 3597, 5).
///
/// # Errors
///
/// `UnknownRecordType` for another text.
pub fn parse_type(text: String) -> Result<RecordType, ParseError>
    ensures { Gives (λ t. t) result
        (ok_or (any_type (string_bytes text)) (unknown_type (string_bytes text))) }
{
    if let Some(named) = RecordType::from_text(text.as_str()) {
        return Ok(named);
    }
    match numbered_type(text.as_str()) {
        Ok(numbered) => Ok(numbered),
        Err(ItemFault::Bad) => Err(ParseError::UnknownRecordType(text)),
        Err(ItemFault::Memory) => Err(ParseError::Memory),
    }
}

/// The type that `TYPE` and its number name.
fn numbered_type(text: &str) -> Result<RecordType, ItemFault>
    ensures { GivesItems (λ t. t) result (numbered_type text.now) }
{
    let Some(number) = text.strip_prefix("TYPE") else {
        return Err(ItemFault::Bad);
    };
    Ok(RecordType::from(u16_item(number)?))
}

impl RData {
    /// The data of a type that these items name, as `from_items` reads them, or, where the first is `\#`, data of any
    /// type in the generic form (RFC 3597, 5): after the sign come the number of bytes in decimal, and words of
    /// hexadecimal digits in letters of either case, which are the bytes one after another. They are read as `read` does:
    /// none are `Update0`.
    ///
    /// # Errors
    ///
    /// Those of `from_items`; `BadData` also where the digits aren't as many bytes as the number says, 65,535 at most,
    /// or the bytes are no data of the type.
    pub fn from_any_items(
        alloc: Global,
        record_type: RecordType,
        items: &[&str],
        origin: Option<&Name>,
    ) -> Result<RData, ParseError>
        ensures { Gives (λ d. d) result
            (any_data record_type (map (λ item. item.now) items.now) (option_copied origin.entry)) }
    {
        match items {
            [first, rest @ ..] if *first == "\\#" => generic_data(alloc, record_type, rest),
            _ => RData::from_items(alloc, record_type, items, origin),
        }
    }
}

/// The data of a type in the generic form, after the sign.
fn generic_data(alloc: Global, record_type: RecordType, items: &[&str]) -> Result<RData, ParseError>
    ensures { Gives (λ d. d) result
        (ok_or (counted_data record_type (map (λ item. item.now) items.now))
        (bad_data record_type)) }
{
    match counted_data(alloc, record_type, items) {
        Ok(rdata) => Ok(rdata),
        Err(ItemFault::Bad) => Err(ParseError::BadData(record_type)),
        Err(ItemFault::Memory) => Err(ParseError::Memory),
    }
}

/// The data of a type whose number of bytes and bytes items are.
fn counted_data(alloc: Global, record_type: RecordType, items: &[&str]) -> Result<RData, ItemFault>
    ensures { GivesItems (λ d. d) result
        (counted_data record_type (map (λ item. item.now) items.now)) }
{
    let [count, words @ ..] = items else {
        return Err(ItemFault::Bad);
    };
    let len = u16_item(count)?;
    let bytes = bytes_of(alloc, words)?;
    if bytes.len() != usize::from(len) {
        return Err(ItemFault::Bad);
    }
    match RData::read(&mut BinDecoder::new(alloc, &bytes), record_type, len) {
        Ok(rdata) => Ok(rdata),
        Err(DecodeError::Memory) => Err(ItemFault::Memory),
        Err(_) => Err(ItemFault::Bad),
    }
}

/// The bytes whose hexadecimal digits words are, one after another.
fn bytes_of(alloc: Global, words: &[&str]) -> Result<Vec<u8>, ItemFault>
    ensures { GivesItems (λ bytes. bytes.items) result
        (bytes_of_words (map (λ word. word.now) words.now)) }
{
    let mut digits = String::new(alloc);
    for word in words {
        digits.push_str(word)?;
    }
    match hex::decode(alloc, digits.as_bytes()) {
        Ok(bytes) => Ok(bytes),
        Err(FromHexError::OutOfMemory) => Err(ItemFault::Memory),
        Err(_) => Err(ItemFault::Bad),
    }
}
