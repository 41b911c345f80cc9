//! Rows of the command `cut`, and tables of limits.

use super::{Row, USAGE, all_give, run_on};
use std::alloc::{AllocError, Global};

/// The words of a cut with the largest limit.
const CUT: &[&str] = &["cut", "65535"];

/// A response with a question and an answer, and its cut without the answer.
const WWW: &str = "100081800001000100000000037777770765\
    78616d706c6503636f6d0000010001c00c0001000100000002\
    00045db8d70e";

const WWW_CUT: &str = "1000838000010000000000000377777707\
    6578616d706c6503636f6d0000010001";

/// A response with a question, an answer of 53 bytes, an additional record of 16, EDNS of 35 and a signature of 12.
const SIGNED: &str = "000780000001000100000003\
    01610000010001\
    c00c001000010000003c0029\
    2878787878787878787878787878787878787878787878787878787878787878787878787878787878\
    c00c000100010000003c0004c0000201\
    00002904d0000000000018fde900140000000000000000000000000000000000000000\
    0000fa00ff000000000001aa";

/// A response whose answer and additional record have the same owner, which is stored with the answer.
const SAME_OWNER: &str = "000880000001000100000001\
    01610000010001\
    0178c00c001000010000003c0029\
    2878787878787878787878787878787878787878787878787878787878787878787878787878787878\
    c013000100010000003c0004c0000201";

/// Limits of the first response, and what is printed.
const OF_WWW: &[Row] = &[
    // a message under limits
    (&["cut", "65535"], &[WWW], 0, &[WWW, "\n"]),
    (&["cut", "49"], &[WWW], 0, &[WWW, "\n"]),
    (&["cut", "000049"], &[WWW], 0, &[WWW, "\n"]),
    (&["cut", "48"], &[WWW], 0, &[WWW_CUT, "\n"]),
    (&["cut", "33"], &[WWW], 0, &[WWW_CUT, "\n"]),
    (&["cut", "32"], &[WWW], 1, &["refused 2\n"]),
    (&["cut", "11"], &[WWW], 1, &["refused 1\n"]),
    // the reserved bit and bytes after the message are not written
    (
        CUT,
        &[
            "10 00 81 C0 00 01 00 01 00 00 00 00 03 77 77 77 07 65 78 61 6D 70 6C 65 03 63 6F 6D 00 00 01 00 01 C0 0C 00 01 00 01 00 00 00 02 00 04 5D B8 D7 0E FF FF",
        ],
        0,
        &[WWW, "\n"],
    ),
];

/// Words that name no limit.
const WORDS: &[Row] = &[
    // wrong words
    (&["cut", "65536"], &[WWW], 2, USAGE),
    (&["cut"], &[WWW], 2, USAGE),
    (&["cut", "x"], &[WWW], 2, USAGE),
    (&["cut", "+5"], &[WWW], 2, USAGE),
    (&["cut", "5", "6"], &[WWW], 2, USAGE),
];

/// Messages, and what is printed: owners, updates and suffixes.
const COMPRESSED: &[Row] = &[
    // a second owner is a pointer
    (
        CUT,
        &[
            "000084000000000100000001\
        2431653065653364332d643432342d346637382d396534632d633338333337373830663262056c6f63616c00\
        0001800100000078 0004c0a80111\
        2431653065653364332d643432342d346637382d396534632d633338333337373830663262056c6f63616c00\
        002f800100000078 0005c046000140",
        ],
        0,
        &[
            "000084000000000100000001\
        2431653065653364332d643432342d346637382d396534632d633338333337373830663262056c6f63616c00\
        00018001000000780004c0a80111\
        c00c002f8001000000780005c046000140",
            "\n",
        ],
    ),
    // an update keeps its empty records
    (
        CUT,
        &["0001280000000001000000000000010001000000000000"],
        0,
        &["0001280000000001000000000000010001000000000000\n"],
    ),
    (
        CUT,
        &["0001280000000000000000010000fa00ff000000000000"],
        0,
        &["0001280000000000000000010000fa00ff000000000000\n"],
    ),
    // suffixes are pointed at
    (
        CUT,
        &["000080000002000000000000 016101620000010001 016301620000010001"],
        0,
        &["0000800000020000000000000161016200000100010163c00e00010001\n"],
    ),
    (
        CUT,
        &["000080000001000100000000 01610000010001 0141000001000100000000 0004c0000201"],
        0,
        &["0000800000010001000000000161000001000101410000010001000000000004c0000201\n"],
    ),
    (
        CUT,
        &["000000000001000000000000 c00400010001"],
        0,
        &["0000000000010000000000000000010001\n"],
    ),
];

/// Limits, and what is printed: the bytes of cuts, and whole messages.
const CUTS: &[Row] = &[
    // bytes of cuts
    (
        &["cut", "47"],
        &[SIGNED],
        0,
        &[
            "00078200000100000000000201610000010001c00c000100010000003c0004c00002010000fa00ff000000000001aa\n",
        ],
    ),
    (
        &["cut", "46"],
        &[SIGNED],
        0,
        &["00078200000100000000000101610000010001c00c000100010000003c0004c0000201\n"],
    ),
    (
        &["cut", "37"],
        &[SAME_OWNER],
        0,
        &["000882000001000000000001016100000100010178c00c000100010000003c0004c0000201\n"],
    ),
    // whole messages
    (&["cut", "135"], &[SIGNED], 0, &[SIGNED, "\n"]),
    (&["cut", "90"], &[SAME_OWNER], 0, &[SAME_OWNER, "\n"]),
];

#[test]
fn cuts_of_a_response(rt: HostRuntime) -> Result<(), AllocError> {
    all_give(&rt, OF_WWW)
}

#[test]
fn limits_that_are_none(rt: HostRuntime) -> Result<(), AllocError> {
    all_give(&rt, WORDS)
}

#[test]
fn cuts_that_write_pointers(rt: HostRuntime) -> Result<(), AllocError> {
    all_give(&rt, COMPRESSED)
}

#[test]
fn bytes_of_cuts(rt: HostRuntime) -> Result<(), AllocError> {
    all_give(&rt, CUTS)
}

/// The status and the output under a limit.
fn cut(alloc: Global, input: &str, limit: u16) -> Result<(u8, Vec<u8>), AllocError> {
    let number = format!(in alloc; "{limit}")?;
    run_on(alloc, &["cut", &number], &mut input.as_bytes())
}

/// Whether the limit gives a message of this many bytes that begins with this header.
fn begins(
    alloc: Global,
    input: &str,
    limit: u16,
    len: usize,
    header: &str,
) -> Result<bool, AllocError> {
    let (status, printed) = cut(alloc, input, limit)?;
    Ok(status == 0 && printed.len() / 2 == len && printed.starts_with(header.as_bytes()))
}

/// Whether the limit is refused with this line.
fn is_refused(alloc: Global, input: &str, limit: u16, line: &str) -> Result<bool, AllocError> {
    let (status, printed) = cut(alloc, input, limit)?;
    Ok(status == 1 && printed.as_slice() == line.as_bytes())
}

/// Whether each limit from `first` to `last` gives a message of this many bytes that begins with this header.
fn all_begin(
    alloc: Global,
    input: &str,
    first: u16,
    last: u16,
    len: usize,
    header: &str,
) -> Result<bool, AllocError> {
    for limit in first..=last {
        if !begins(alloc, input, limit, len, header)? {
            return Ok(false);
        }
    }
    Ok(true)
}

/// A message, the first and the last of some limits, and the length and the header of what is written under each of
/// them.
const LIMITS: &[(&'static str, u16, u16, usize, &'static str)] = &[
    (SIGNED, 19, 30, 19, "000782000001000000000000"),
    (SIGNED, 31, 34, 31, "000782000001000000000001"),
    (SIGNED, 35, 46, 35, "000782000001000000000001"),
    (SIGNED, 47, 69, 47, "000782000001000000000002"),
    (SIGNED, 70, 71, 70, "000782000001000000000002"),
    (SIGNED, 72, 83, 72, "000782000001000100000000"),
    (SIGNED, 84, 87, 84, "000782000001000100000001"),
    (SIGNED, 88, 99, 88, "000782000001000100000001"),
    (SIGNED, 100, 122, 100, "000782000001000100000002"),
    (SIGNED, 123, 134, 123, "000782000001000100000002"),
    (SIGNED, 135, 140, 135, "000780000001000100000003"),
    (SIGNED, 65535, 65535, 135, "000780000001000100000003"),
    (SAME_OWNER, 19, 36, 19, "000882000001000000000000"),
    (SAME_OWNER, 37, 73, 37, "000882000001000000000001"),
    (SAME_OWNER, 74, 89, 74, "000882000001000100000000"),
    (SAME_OWNER, 90, 95, 90, "000880000001000100000001"),
];

#[test]
fn messages_under_every_limit(rt: HostRuntime) -> Result<(), AllocError> {
    for &(input, first, last, len, header) in LIMITS {
        assert!(rt;
            all_begin(rt.alloc(), input, first, last, len, header)?,
            "under {first} to {last} bytes"
        );
    }
    Ok(())
}

#[test]
fn limits_without_room_are_refused(rt: HostRuntime) -> Result<(), AllocError> {
    for limit in 0..19u16 {
        let line = if limit < 12 {
            "refused 1\n"
        } else {
            "refused 2\n"
        };
        assert!(rt;
            is_refused(rt.alloc(), SIGNED, limit, line)?,
            "under {limit} bytes"
        );
    }
    Ok(())
}
