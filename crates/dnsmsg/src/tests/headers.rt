//! Rows of the command `header`, and words that are no command's.

use super::{Row, USAGE, all_give};
use std::alloc::AllocError;

/// The words of the command, the bytes of a header, and the refusal of bytes that are none.
const HEADER: &[&str] = &["header"];

const BYTES: &[&str] = &["0110AA83 88776655 44332211\n"];

const NO_HEADER: &[&str] = &["refused 24\n"];

/// Inputs, and what is printed of them.
const ROWS: &[Row] = &[
    (
        HEADER,
        BYTES,
        0,
        &[
            "272:RESPONSE:TC,RA:NXDomain:UPDATE\ncounts 34935 26197 17459 8721\n0110aa838877665544332211\n",
        ],
    ),
    (
        HEADER,
        &["00 0A 01 00 00 01 00 00 00 00 00 00"],
        0,
        &["10:QUERY:RD:NoError:QUERY\ncounts 1 0 0 0\n000a01000001000000000000\n"],
    ),
    (
        HEADER,
        &["FF FF F9 7F 00 00 00 00 00 00 00 00"],
        0,
        &[
            "65535:RESPONSE:RD,CD,AD:Unknown(15):Unknown opcode (15)\ncounts 0 0 0 0\nfffff93f0000000000000000\n",
        ],
    ),
    (
        HEADER,
        &["000a0100\t0001\r\n0000 0000000\n0\n"],
        0,
        &["10:QUERY:RD:NoError:QUERY\ncounts 1 0 0 0\n000a01000001000000000000\n"],
    ),
    (HEADER, &[""], 1, NO_HEADER),
    (HEADER, &["0g"], 1, NO_HEADER),
    (HEADER, &["0"], 1, NO_HEADER),
    (HEADER, &["0110AA83 88776655 443322"], 1, NO_HEADER),
    (HEADER, &["0110AA83 88776655 44332211 00"], 1, NO_HEADER),
    (HEADER, &["0110AA83 88776655 44332211 0"], 1, NO_HEADER),
    (HEADER, &["0110AA83,88776655 44332211"], 1, NO_HEADER),
    (HEADER, &["0110AA83 88776655 443322\u{0431}1"], 1, NO_HEADER),
    (&[], BYTES, 2, USAGE),
    (&["header", "x"], BYTES, 2, USAGE),
    (&["HEADER"], BYTES, 2, USAGE),
    (&["headers"], BYTES, 2, USAGE),
    (&[""], BYTES, 2, USAGE),
    (&["read", "x"], BYTES, 2, USAGE),
    (&["reads"], BYTES, 2, USAGE),
    (&["header", "header", "header"], BYTES, 2, USAGE),
];

#[test]
fn rows_of_headers(rt: HostRuntime) -> Result<(), AllocError> {
    all_give(&rt, ROWS)
}
