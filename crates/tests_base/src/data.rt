//! Data of every kind: how it is written, read, shown, ordered, and taken out of the data of any record.

mod kinds;
mod options;
mod order;
mod reading;

use base::{BinDecoder, DecodeError, RecordType};
use base_data::{NULL, RData};
use std::alloc::Global;

/// Twelve zero bytes and a name `a.`; after them a preference, a name that ends in a pointer, and a byte more.
const MAIL_HOST: &[u8] = &[
    0, 0, 0, 0, 0, 0, 0, 0, 0, 0, 0, 0, 1, b'a', 0, 0, 10, 1, b'b', 0xC0, 12, 9,
];

const ADDRESS: &[u8] = &[192, 0, 2, 1];

/// What is read of the bytes from a place on, of this type and length.
fn read_at(
    alloc: Global,
    record_type: RecordType,
    bytes: &[u8],
    at: usize,
    len: u16,
) -> Result<RData, DecodeError> {
    let mut decoder = BinDecoder::new(alloc, bytes);
    decoder.read_slice(at)?;
    RData::read(&mut decoder, record_type, len)
}

/// How the data of a row is made.
#[derive(Clone, Copy)]
enum Datum {
    /// It is read of these bytes.
    Wire(RecordType, &'static [u8]),
    /// It is read of these bytes, from this place on, by this length.
    Part(RecordType, &'static [u8], usize, u16),
    /// It is read of these items.
    Text(RecordType, &'static [&'static str]),
    /// These bytes are carried for a type.
    Carried(RecordType, &'static [u8]),
    /// Empty, as in updates.
    Empty(RecordType),
}

/// The data of a row; none where the row isn't read.
fn make(alloc: Global, datum: Datum) -> Option<RData> {
    match datum {
        Datum::Wire(record_type, bytes) => {
            let len = bytes.len().min(65_535) as u16;
            read_at(alloc, record_type, bytes, 0, len).ok()
        }
        Datum::Part(record_type, bytes, at, len) => {
            read_at(alloc, record_type, bytes, at, len).ok()
        }
        Datum::Text(record_type, items) => {
            RData::from_items(alloc, record_type, items, None).ok()
        }
        Datum::Carried(code, bytes) => {
            let rdata = NULL::new(Vec::from_slice(alloc, bytes).ok()?);
            Some(RData::Unknown { code, rdata })
        }
        Datum::Empty(record_type) => Some(RData::Update0(record_type)),
    }
}
