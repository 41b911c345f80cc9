//! Queries and NOTIFY that are built, and what a response says.

use crate::query::{fuzsbanel_build_notify, fuzsbanel_build_query};
use crate::response::fuzsbanel_response;
use tasks::response::ResponseFacts;

const QUERY: &[u8] = b"\0\x09\x01\0\0\x01\0\0\0\0\0\0\x03www\x07example\0\0\x01\0\x01";

/// The same with the OPT record of EDNS, which takes 512 bytes.
const WITH_EDNS: &[u8] = b"\0\x09\0\0\0\x01\0\0\0\0\0\x01\x03www\x07example\0\0\x01\0\x01\
\0\0\x29\x02\0\0\0\0\0\0\0";

/// A name, RD, the payload, and what is answered and written.
struct Row {
    name: &'static [u8],
    recursion: bool,
    payload: u16,
    answer: i64,
    query: &'static [u8],
}

const ROWS: &[Row] = &[
    Row {
        name: b"www.example",
        recursion: true,
        payload: 0,
        answer: 29,
        query: QUERY,
    },
    Row {
        name: b"www.example.",
        recursion: false,
        payload: 7,
        answer: 40,
        query: WITH_EDNS,
    },
    Row {
        name: b"",
        recursion: true,
        payload: 0,
        answer: -26,
        query: b"",
    },
    Row {
        name: b"a..b",
        recursion: true,
        payload: 0,
        answer: -23,
        query: b"",
    },
    Row {
        name: b"\xff",
        recursion: true,
        payload: 0,
        answer: -24,
        query: b"",
    },
];

#[test]
fn queries_are_built(rt: HostRuntime) {
    for row in ROWS {
        let mut out = [7; 64];
        let mut needed = 0;
        let (name, recursion, payload) = (row.name, row.recursion, row.payload);
        let alloc = rt.alloc();
        let answer = fuzsbanel_build_query(
            alloc,
            9,
            name,
            1,
            1,
            recursion,
            payload,
            &mut out,
            &mut needed,
        );
        assert!(rt; answer == row.answer && needed == row.query.len());
        assert!(rt; out.starts_with(row.query) && out[row.query.len()] == 7);
    }
}

/// The NOTIFY of `example.`: operation 4, AA, and its SOA (RFC 1996, 3).
const NOTIFY: &[u8] = b"\0\x09\x24\0\0\x01\0\0\0\0\0\0\x07example\0\0\x06\0\x01";

#[test]
fn secondaries_are_told(rt: HostRuntime) {
    let rows: &[(&[u8], i64, &[u8])] = &[
        (b"example", 25, NOTIFY),
        (b"example.", 25, NOTIFY),
        (b"", -26, b""),
        (b"a..b", -23, b""),
        (b"\xff", -24, b""),
    ];
    for &(origin, wanted, message) in rows {
        let mut out = [7; 64];
        let mut needed = 9;
        let answer = fuzsbanel_build_notify(rt.alloc(), 9, origin, &mut out, &mut needed);
        assert!(rt; answer == wanted && needed == message.len());
        assert!(rt; out.starts_with(message) && out[message.len()] == 7);
    }
}

/// NXDomain for `www.example.`, with an SOA whose TTL is 60 and whose MINIMUM is 5 (RFC 2308, 5).
const DENIED: &[u8] = b"\0\x09\x81\x03\0\x01\0\0\0\x01\0\0\x03www\x07example\0\0\x01\0\x01\
\xc0\x10\0\x06\0\x01\0\0\0\x3c\0\x18\xc0\x0c\xc0\x0c\0\0\0\x01\0\0\0\x02\0\0\0\x03\0\0\0\x04\0\0\0\x05";

/// The address of the same name, and EDNS that takes 1,232 bytes.
const ANSWERED: &[u8] = b"\0\x09\x81\x80\0\x01\0\x01\0\0\0\x01\x03www\x07example\0\0\x01\0\x01\
\xc0\x0c\0\x01\0\x01\0\0\0\x3c\0\x04\xc0\0\x02\x01\0\0\x29\x04\xd0\0\0\0\0\0\0";

#[test]
fn responses_say_whether_they_answer(rt: HostRuntime) {
    // what is answered; the payload, whether there is a negative TTL, and which
    let rows: &[(&[u8], i64, u16, bool, u32)] = &[
        (DENIED, 0, 512, true, 5),
        (ANSWERED, 1, 1232, false, 0),
        (QUERY, -16, 9, false, 9),
        (b"\0", -4, 9, false, 9),
    ];
    for &(message, wanted, max_payload, has_negative_ttl, negative_ttl) in rows {
        let mut found = ResponseFacts {
            negative_ttl: 9,
            max_payload: 9,
            has_negative_ttl: false,
        };
        let answer = fuzsbanel_response(rt.alloc(), message, &mut found);
        assert!(rt; answer == wanted && found.max_payload == max_payload);
        assert!(rt;
            found.has_negative_ttl == has_negative_ttl && found.negative_ttl == negative_ttl
        );
    }
}
