//! Numbers that are written, and limits.

use super::Step::{
    Byte, Bytes, Class, Limit, Name, Plain, SizedName, SizedValue, Type, U16, U32, Value, Zeros,
};
use super::{Row, Step, leave};
use base::{BinEncoder, DNSClass, ProtoError, RecordType};

/// Numbers, types and classes that are written over other bytes, and their bytes.
pub(super) const ROWS: &[Row] = &[
    // types and classes
    (
        &[
            (Type(RecordType::MX), 0),
            (Type(RecordType::ANAME), 0),
            (Type(RecordType::Unknown(1000)), 0),
            (Class(DNSClass::IN), 0),
            (Class(DNSClass::OPT(1232)), 0),
        ],
        0,
        b"\x00\x0F\xFF\x19\x03\xE8\x00\x01\x04\xD0",
    ),
    // a byte more fits, and nothing but nothing after it
    (
        &[
            (Limit(5), 0),
            (U32(0x0102_0304), 0),
            (U16(0x0506), 1),
            (Byte(5), 0),
            (Byte(6), 1),
            (Bytes(&[]), 0),
        ],
        0,
        &[1, 2, 3, 4, 5],
    ),
    // each width
    (
        &[
            (Byte(0x01), 0),
            (U16(0x0203), 0),
            (U32(0x0405_0607), 0),
            (Bytes(&[8, 9]), 0),
            (Value(0x0A0B), 0),
        ],
        0,
        &[1, 2, 3, 4, 5, 6, 7, 8, 9, 0x0A, 0x0B],
    ),
    // the first limit is the largest message
    (&[(Zeros(65_535), 0), (Byte(0), 1)], 65_535, &[]),
];

/// Values, and their bytes.
const VALUES: &[(Step, &'static [u8])] = &[
    (Byte(1), &[1]),
    (U16(0x0203), &[2, 3]),
    (U32(0x0405_0607), &[4, 5, 6, 7]),
    (Bytes(&[8, 9, 10]), &[8, 9, 10]),
    (Value(0x0A0B), &[0x0A, 0x0B]),
    (SizedValue(0x0C0D), &[0, 2, 0x0C, 0x0D]),
    (Type(RecordType::MX), &[0, 15]),
    (Class(DNSClass::IN), &[0, 1]),
    (Name(b"\x01a\0"), b"\x01a\0"),
    (Plain(b"\x01b\0"), b"\x01b\0"),
    (SizedName(b"\x01c\0"), b"\0\x03\x01c\0"),
];

/// More than a buffer has room for at first, so that its room ends in each of these places.
const ENDS: usize = 65;

#[test]
fn values_are_written_wherever_room_ends(rt: HostRuntime) {
    for &(value, wanted) in VALUES {
        for before in 0..ENDS {
            let mut bytes = Vec::new(rt.alloc());
            let steps = [(Zeros(before), 0), (value, 0)];
            let is_written = leave(rt.alloc(), &mut bytes, &steps, before, wanted);
            drop(bytes);
            assert!(rt; is_written, "{wanted:?} after {before}");
        }
    }
}

/// Fills room after a byte, and answers whether nothing stood after it, before three bytes came.
fn fill_room(encoder: &mut BinEncoder<'_>) -> Result<bool, ProtoError> {
    encoder.emit(7)?;
    let place = encoder.place::<u16>()?;
    let before = encoder.len_since_place(&place);
    encoder.emit_slice(&[1, 2, 3])?;
    let then = encoder.len_since_place(&place);
    encoder.replace(place, &0x1003);
    Ok(before == 0 && then == 3)
}

/// Whether no room of two bytes is left under this limit.
fn is_full(encoder: &mut BinEncoder<'_>, limit: u16) -> bool {
    encoder.set_max_size(limit);
    let none = encoder.place::<u16>();
    let is_full = matches!(&none, Err(ProtoError::MaxBufferSizeExceeded));
    drop(none);
    is_full
}

#[test]
fn room_is_kept_and_filled(rt: HostRuntime) {
    let mut bytes = Vec::new(rt.alloc());
    let mut encoder = BinEncoder::new(&mut bytes);
    let is_filled = matches!(fill_room(&mut encoder), Ok(true));
    let is_full = is_full(&mut encoder, 7);
    drop(encoder);
    let same = bytes.as_slice() == [7, 0x10, 3, 1, 2, 3].as_slice();
    drop(bytes);
    assert!(rt; is_filled && is_full && same);
}
