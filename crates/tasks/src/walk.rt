//! What stands at a place of a message, found without a copy: places count from the first byte (RFC 1035, 4.1).

ghost use Rattle.std.specs.Prelude.{◌≡◌, ◌<◌, ◌^◌, IfOk};
ghost use Rattle.tasks.specs.Asked.{Makes};
ghost use Rattle.tasks.specs.Walk.{Finds, data_text_at, fields_found, name_found, name_text_at, option_found, query_found, record_end, record_found};

pub mod whole;

use crate::refusal::Refusal;
use base::{BinDecodable, BinDecoder, DecodeError, Name};
use rr::Record;
use std::alloc::Global;

/// Where a question stands, and its fields (RFC 1035, 4.1.2).
#[repr(C)]
#[derive(Drop)]
pub struct QueryFound {
    /// The place of its name.
    pub name: usize,
    /// QTYPE.
    pub query_type: u16,
    /// The class field, with the bit that asks for a unicast response (RFC 6762, 5.4).
    pub class: u16,
}

/// Where a record stands, and its fields (RFC 1035, 4.1.3).
#[repr(C)]
#[derive(Clone, Copy, Drop)]
pub struct RecordFound {
    /// The place of its owner.
    pub name: usize,
    /// The place of its data.
    pub data_place: usize,
    /// How many seconds it may be kept; of an OPT record, code, version and flags (RFC 6891, 6.1.3).
    pub ttl: u32,
    /// The type.
    pub record_type: u16,
    /// The class field, with the cache-flush bit (RFC 6762, 10.2); of an OPT record, the payload size.
    pub class: u16,
    /// How many bytes its data has.
    pub data_len: u16,
}

/// Where an EDNS option stands in the data of an OPT record (RFC 6891, 6.1.2).
#[repr(C)]
#[derive(Drop)]
pub struct OptionFound {
    /// The place of its data.
    pub data_place: usize,
    /// The code.
    pub code: u16,
    /// How many bytes its data has.
    pub data_len: u16,
}

/// The question at a place, and the place after it (RFC 1035, 4.1.2).
///
/// # Errors
///
/// The first fault; of a place that passes the end, that the bytes end early.
pub fn query_at(
    alloc: Global,
    bytes: &[u8],
    place: usize,
) -> Result<(QueryFound, usize), DecodeError>
    ensures found { Finds (query_found bytes.now place) result }
    // The place is below 2^63, so that it can be answered as an `i64`.
    ensures addressable { IfOk result (λ r. r.1 < 2 ^ 63) }
{
    let mut decoder = BinDecoder::new(alloc, bytes);
    let _before = decoder.read_slice(place)?;
    let _name = Name::read(&mut decoder)?;
    let query_type = decoder.read_u16()?;
    let class = decoder.read_u16()?;
    let found = QueryFound {
        name: place,
        query_type,
        class,
    };
    Ok((found, decoder.index()))
}

/// The record at a place, and the place after it (RFC 1035, 4.1.3).
///
/// # Errors
///
/// The first fault; of a place that passes the end, that the bytes end early.
pub fn record_at(
    alloc: Global,
    bytes: &[u8],
    place: usize,
) -> Result<(RecordFound, usize), DecodeError>
    ensures found { Finds (record_found bytes.now place) result }
    // The place is below 2^63, so that it can be answered as an `i64`.
    ensures addressable { IfOk result (λ r. r.1 < 2 ^ 63) }
{
    let end = record_end(alloc, bytes, place)?;
    let mut decoder = BinDecoder::new(alloc, bytes);
    let _before = decoder.read_slice(place)?;
    let _name = Name::read(&mut decoder)?;
    Ok((read_fields(&mut decoder, place)?, end))
}

/// Reads the fields of a record, which stand after its owner, and answers these and the places of both.
fn read_fields(decoder: &mut BinDecoder<'_>, owner: usize) -> Result<RecordFound, DecodeError>
    ensures { Finds (fields_found decoder.old.bytes owner decoder.old.index) result }
{
    let record_type = decoder.read_u16()?;
    let class = decoder.read_u16()?;
    let ttl = decoder.read_u32()?;
    let data_len = decoder.read_u16()?;
    Ok(RecordFound {
        name: owner,
        data_place: decoder.index(),
        ttl,
        record_type,
        class,
        data_len,
    })
}

/// The place after the record at a place.
fn record_end(alloc: Global, bytes: &[u8], place: usize) -> Result<usize, DecodeError>
    ensures found { Finds (record_end bytes.now place) result }
    // The place is below 2^63, so that it can be answered as an `i64`.
    ensures addressable { IfOk result (λ end. end < 2 ^ 63) }
{
    let mut decoder = BinDecoder::new(alloc, bytes);
    let _before = decoder.read_slice(place)?;
    let _record = Record::read(&mut decoder)?;
    Ok(decoder.index())
}

/// The option at a place, and the place after it (RFC 6891, 6.1.2).
///
/// # Errors
///
/// If the option passes the end.
pub fn option_at(
    alloc: Global,
    bytes: &[u8],
    place: usize,
) -> Result<(OptionFound, usize), DecodeError>
    ensures found { result ≡ option_found bytes.now place }
    // The place is below 2^63, so that it can be answered as an `i64`.
    ensures addressable { IfOk result (λ r. r.1 < 2 ^ 63) }
{
    let mut decoder = BinDecoder::new(alloc, bytes);
    let _before = decoder.read_slice(place)?;
    let code = decoder.read_u16()?;
    let data_len = decoder.read_u16()?;
    let data_place = decoder.index();
    let _text = decoder.read_slice(usize::from(data_len))?;
    let found = OptionFound {
        data_place,
        code,
        data_len,
    };
    Ok((found, decoder.index()))
}

/// The text of the name at a place (RFC 1035, 5.1).
///
/// # Errors
///
/// The number of the first fault: 4 or 5.
pub fn name_text(alloc: Global, bytes: &[u8], place: usize) -> Result<Vec<u8>, Refusal>
    ensures { Makes (λ text. text.items) (name_text_at bytes.now place) result }
{
    let name = name_at(alloc, bytes, place)?;
    Ok(name.to_string(alloc)?.into_bytes())
}

/// The text of the data of the record at a place.
///
/// # Errors
///
/// The number of the first fault: 4 to 8.
pub fn data_text(alloc: Global, bytes: &[u8], place: usize) -> Result<Vec<u8>, Refusal>
    ensures { Makes (λ text. text.items) (data_text_at bytes.now place) result }
{
    let mut decoder = BinDecoder::new(alloc, bytes);
    let _before = decoder.read_slice(place)?;
    let record = Record::read(&mut decoder)?;
    Ok(record.rdata.to_string(alloc)?.into_bytes())
}

/// The name at a place.
fn name_at(alloc: Global, bytes: &[u8], place: usize) -> Result<Name, DecodeError>
    ensures { Finds (name_found bytes.now place) result }
{
    let mut decoder = BinDecoder::new(alloc, bytes);
    let _before = decoder.read_slice(place)?;
    Name::read(&mut decoder)
}
