//! Names that are written: what is pointed at, and what isn't.

use super::Step::{self, Alike, Bytes, Letters, Limit, Name, Plain, SizedName, SizedValue, Zeros};
use super::{Row, are_taken};
use base::BinEncoder;

/// The name `a.b.`.
const AB: &[u8] = b"\x01a\x01b\0";

/// Names that are written, and their bytes.
pub(super) const ROWS: &[Row] = &[
    // stored suffixes
    (
        &[(Name(AB), 0), (Name(b"\x01c\x01b\0"), 0)],
        0,
        b"\x01a\x01b\0\x01c\xC0\x02",
    ),
    // c.b. is stored at 5, and spelled by a pointer from 7 on
    (
        &[
            (Name(AB), 0),
            (Name(b"\x01c\x01b\0"), 0),
            (Name(b"\x01d\x01c\x01b\0"), 0),
        ],
        0,
        b"\x01a\x01b\0\x01c\xC0\x02\x01d\xC0\x05",
    ),
    // whole names
    (
        &[
            (Name(AB), 0),
            (Name(AB), 0),
            (Name(b"\x01b\0"), 0),
            (Name(b"\0"), 0),
            (Name(b"\x01a\0"), 0),
        ],
        0,
        b"\x01a\x01b\0\xC0\x00\xC0\x02\0\x01a\0",
    ),
    // letters are compared as they are
    (
        &[
            (Name(b"\x01a\0"), 0),
            (Name(b"\x01A\0"), 0),
            (Name(b"\x01A\0"), 0),
        ],
        0,
        b"\x01a\0\x01A\0\xC0\x03",
    ),
    // after a header
    (
        &[
            (Zeros(12), 0),
            (Name(AB), 0),
            (Bytes(&[0, 1, 0, 1]), 0),
            (Name(b"\x01c\x01b\0"), 0),
        ],
        12,
        b"\x01a\x01b\0\0\x01\0\x01\x01c\xC0\x0E",
    ),
    (
        &[
            (Zeros(12), 0),
            (Name(b"\x01a\0"), 0),
            (Bytes(&[0, 1, 0, 1]), 0),
            (Name(b"\x01A\0"), 0),
        ],
        12,
        b"\x01a\0\0\x01\0\x01\x01A\0",
    ),
    // z.a. after filling begins at 0x83, and at 16,384, where it isn't stored
    (
        &[
            (Zeros(12), 0),
            (Name(b"\x01a\0"), 0),
            (Zeros(116), 0),
            (Name(b"\x01z\x01a\0"), 0),
            (Name(b"\x01z\x01a\0"), 0),
        ],
        0x83,
        b"\x01z\xC0\x0C\xC0\x83",
    ),
    (
        &[
            (Zeros(12), 0),
            (Name(b"\x01a\0"), 0),
            (Zeros(16_369), 0),
            (Name(b"\x01z\x01a\0"), 0),
            (Name(b"\x01z\x01a\0"), 0),
        ],
        16_384,
        b"\x01z\xC0\x0C\x01z\xC0\x0C",
    ),
    // a.b. begins at 16,382 and is stored, b. begins at 16,384 and isn't
    (
        &[
            (Zeros(16_382), 0),
            (Name(AB), 0),
            (Name(AB), 0),
            (Name(b"\x01b\0"), 0),
            (Name(b"\x01b\0"), 0),
        ],
        16_382,
        b"\x01a\x01b\0\xFF\xFE\x01b\0\x01b\0",
    ),
    // the last place that is stored
    (
        &[
            (Zeros(16_383), 0),
            (Name(b"\x01a\0"), 0),
            (Name(b"\x01a\0"), 0),
        ],
        16_383,
        b"\x01a\0\xFF\xFF",
    ),
];

/// Names under a limit, plain names, names after their length, and names among many.
pub(super) const MORE_ROWS: &[Row] = &[
    // the limit is reached
    (
        &[(Limit(9), 0), (Name(AB), 0), (Name(b"\x01c\x01b\0"), 0)],
        0,
        b"\x01a\x01b\0\x01c\xC0\x02",
    ),
    // plain names stand apart
    (
        &[
            (Plain(AB), 0),
            (Name(AB), 0),
            (Plain(AB), 0),
            (Name(AB), 0),
            (Plain(b"\0"), 0),
        ],
        0,
        b"\x01a\x01b\0\x01a\x01b\0\x01a\x01b\0\xC0\x05\0",
    ),
    // the length of what is written stands before it
    (
        &[
            (SizedName(b"\x03www\x03org\0"), 0),
            (SizedName(b"\x03www\x03org\0"), 0),
            (SizedValue(7), 0),
            (Limit(18), 0),
            (SizedValue(7), 1),
        ],
        0,
        b"\x00\x09\x03www\x03org\0\x00\x02\xC0\x02\x00\x02\x00\x07",
    ),
    // each of many is found, and letters are compared as they are
    (
        &[
            (Letters(40), 0),
            (Name(b"\x02aa\0"), 0),
            (Name(b"\x02ax\0"), 0),
            (Name(b"\x02ay\0"), 0),
            (Name(b"\x02bn\0"), 0),
            (Name(b"\x02bo\0"), 0),
            (Name(b"\x02bo\0"), 0),
        ],
        160,
        b"\xC0\x00\xC0\x5C\xC0\x60\xC0\x9C\x02bo\0\xC0\xA8",
    ),
    (
        &[
            (Letters(40), 0),
            (Name(b"\x02BN\0"), 0),
            (Name(b"\x02bN\0"), 0),
            (Name(b"\x02BN\0"), 0),
            (Name(b"\x02bN\0"), 0),
        ],
        160,
        b"\x02BN\0\x02bN\0\xC0\xA0\xC0\xA4",
    ),
    // each of many whose labels have one number is found
    (
        &[(Letters(24), 0), (Alike(12), 0), (Alike(12), 0)],
        684,
        b"\xC0\x60\xC0\x91\xC0\xC2\xC0\xF3\xC1\x24\xC1\x55\xC1\x86\xC1\xB7\xC1\xE8\xC2\x19\xC2\x4A\xC2\x7B",
    ),
];

/// A name that fits, and two that don't.
const FIRST_ALONE: &[(Step, u8)] = &[
    (Limit(8), 0),
    (Name(AB), 0),
    (Name(b"\x01c\x01b\0"), 1),
    (Plain(AB), 1),
];

/// Where only the first fits in eight bytes, a second name and a plain one are refused, and no more are written.
#[test]
fn names_past_the_limit_are_refused(rt: HostRuntime) {
    let mut bytes = Vec::new(rt.alloc());
    let mut encoder = BinEncoder::new(&mut bytes);
    let are_taken = are_taken(rt.alloc(), FIRST_ALONE, &mut encoder);
    drop(encoder);
    let is_first = bytes.get(..5) == Some(AB) && bytes.len() <= 8;
    drop(bytes);
    assert!(rt; are_taken && is_first);
}
