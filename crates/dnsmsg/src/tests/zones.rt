//! Rows of the command `zone`.

use super::{Row, USAGE, all_give, gives};
use std::alloc::{AllocError, Global};

/// The words of a text under the origin `a.`.
const A: &[&str] = &["zone", "a."];

/// Texts of zones, and what is printed.
const ZONES: &[Row] = &[
    // a zone with its SOA
    (
        &["zone", "-"],
        &[
            "$ORIGIN example.\n$TTL 1h\n@ IN SOA ns hostmaster (\n 1 7200 3600 1209600 300 ) ; first\n NS ns\nns 60 A 192.0.2.1\n A 192.0.2.2\nwww CNAME ns\n",
        ],
        0,
        &[
            "$ORIGIN example.\nexample. 3600 IN NS ns.example.\nexample. 3600 IN SOA ns.example. hostmaster.example. 1 7200 3600 1209600 300\n\
         ns.example. 60 IN A 192.0.2.1\nns.example. 3600 IN A 192.0.2.2\nwww.example. 3600 IN CNAME ns.example.\n",
        ],
    ),
    // records of many types
    (
        &["zone", "a."],
        &[
            "v6 60 AAAA 2001:DB8:0:0:1:0:0:1\nt TXT \"x;y\" z\\\"q\ns SRV 1 2 443 w\nc CH TXT x\n TXT y\n",
        ],
        0,
        &[
            "$ORIGIN a.\nc.a. 60 CH TXT \"x\"\nc.a. 60 CH TXT \"y\"\ns.a. 60 IN SRV 1 2 443 w.a.\nt.a. 60 IN TXT \"x;y\" \"z\\\"q\"\nv6.a. 60 IN AAAA 2001:db8::1:0:0:1\n",
        ],
    ),
    // an owner, data and an origin that have memory of their own
    (
        &["zone", "a-name-with-memory-of-its-own."],
        &[
            "another-name-with-memory-of-its-own 60 A 192.0.2.1\nanother-name-with-memory-of-its-own A 192.0.2.2\n MX 10 a-name-with-memory-of-its-own.\n MX 20 mail\n",
        ],
        0,
        &[
            "$ORIGIN a-name-with-memory-of-its-own.\n",
            "another-name-with-memory-of-its-own.a-name-with-memory-of-its-own. 60 IN A 192.0.2.1\n",
            "another-name-with-memory-of-its-own.a-name-with-memory-of-its-own. 60 IN A 192.0.2.2\n",
            "another-name-with-memory-of-its-own.a-name-with-memory-of-its-own. 60 IN MX 10 a-name-with-memory-of-its-own.\n",
            "another-name-with-memory-of-its-own.a-name-with-memory-of-its-own. 60 IN MX 20 mail.a-name-with-memory-of-its-own.\n",
        ],
    ),
    // owners and TTLs
    (
        &["zone", "-"],
        &["$ORIGIN a. www 60 A 192.0.2.1\n"],
        0,
        &["$ORIGIN a.\nwww.a. 60 IN A 192.0.2.1\n"],
    ),
    (
        &["zone", "a."],
        &["$TTL 300\na. 60\n A 192.0.2.1\n TXT x\n"],
        0,
        &["$ORIGIN a.\na. 60 IN A 192.0.2.1\na. 300 IN TXT \"x\"\n"],
    ),
    (
        &["zone", "a."],
        &["w 60 A 192.0.2.1\nw 90 A 192.0.2.1\n"],
        0,
        &["$ORIGIN a.\nw.a. 90 IN A 192.0.2.1\n"],
    ),
    (
        &["zone", "a."],
        &["a. 60 A 192.0.2.1"],
        0,
        &["$ORIGIN a.\na. 60 IN A 192.0.2.1\n"],
    ),
    (&["zone", "a."], &[""], 0, &["$ORIGIN a.\n"]),
    (&["zone", "a"], &[""], 0, &["$ORIGIN a.\n"]),
];

/// Texts that are refused.
const REFUSED: &[Row] = &[
    (A, &["www 60 CNAME @\n"], 1, &["refused 17\n"]),
    (A, &["$X y\n"], 1, &["refused 18\n"]),
    (A, &["w 60 A ( 192.0.2.1\n"], 1, &["refused 18\n"]),
    (A, &["n A 192.0.2.1\n"], 1, &["refused 19\n"]),
    (A, &["n 60 TYPE11 x\n"], 1, &["refused 21\n"]),
    (A, &["n 60 NULL x\n"], 1, &["refused 22\n"]),
    (A, &["n 60 RRSIG x\n"], 1, &["refused 22\n"]),
    (A, &["$TTL x\n"], 1, &["refused 23\n"]),
    (A, &["a..b 60 A 192.0.2.1\n"], 1, &["refused 23\n"]),
    (A, &["n 60 A 1.2.3\n"], 1, &["refused 23\n"]),
    (
        A,
        &["@ 5 SOA a b 1 1 1 1 1\n@ SOA a b 2 1 1 1 1\n"],
        1,
        &["refused 19\n"],
    ),
    (
        &["zone", "-"],
        &["$ORIGIN parsed.zone.origin.org.\n faulty-record-type 60 IN A 1.2.3.4\n"],
        1,
        &["refused 21\n"],
    ),
    (
        &["zone", "-"],
        &["@ 60 A 192.0.2.1\n"],
        1,
        &["refused 19\n"],
    ),
    (&["zone", "-"], &["a. 60 A 192.0.2.1"], 1, &["refused 19\n"]),
    // words of zones
    (&["zone"], &[""], 2, USAGE),
    (&["zone", "a..b"], &[""], 2, USAGE),
    (&["zone", ""], &[""], 2, USAGE),
    (&["zone", "a.", "f"], &[""], 2, USAGE),
    (&["zone", "a.", "f=x", "g"], &[""], 2, USAGE),
];

#[test]
fn rows_of_zones(rt: HostRuntime) -> Result<(), AllocError> {
    all_give(&rt, ZONES)
}

#[test]
fn rows_of_refused_zones(rt: HostRuntime) -> Result<(), AllocError> {
    all_give(&rt, REFUSED)
}

/// The numbers of owners, of which there are more than sets in a block.
const FIRST: u32 = 100;

const LAST: u32 = 299;

/// The text of a zone with an address for each, and what is printed of it under the origin `a.`.
fn many_owners(alloc: Global) -> Result<(String, String), AllocError> {
    let mut text = String::new(alloc);
    let mut printed = String::from_str(alloc, "$ORIGIN a.\n")?;
    for number in FIRST..=LAST {
        write!(text, "n{number} 60 A 192.0.2.1\n")?;
        write!(printed, "n{number}.a. 60 IN A 192.0.2.1\n")?;
    }
    Ok((text, printed))
}

#[test]
fn a_zone_of_many_owners(rt: HostRuntime) -> Result<(), AllocError> {
    let (text, printed) = many_owners(rt.alloc())?;
    gives(&rt, A, &text, 0, &printed)
}
