//! A zone that is held: each export on it, over updates of RFC 2136.

use super::open;
use crate::update::{fuzsbanel_create, fuzsbanel_delete_all};
use crate::zone_check::FaultFound;
use crate::zone_handle::handle::ZoneHandle;
use crate::zone_handle::{
    free, fuzsbanel_zone_answer, fuzsbanel_zone_close, fuzsbanel_zone_open, fuzsbanel_zone_text,
    fuzsbanel_zone_update,
};
use std::alloc::Global;
use tasks::included::Included;

const ORIGIN: &[u8] = b"example.";

const ZONE: &[u8] = b"@ 60 NS ns\nns 60 A 192.0.2.1\n";

const WWW: &[u8] = b"www 300 A 192.0.2.2\n";

/// What is answered to each call on a closed handle, the text last.
#[test]
fn a_closed_handle_says_so(rt: HostRuntime) {
    let mut handle = ZoneHandle::closed();
    let mut out = [7; 8];
    let mut needed = 9;
    let mut is_changed = true;
    let updated = fuzsbanel_zone_update(rt.alloc(), &mut handle, WWW, &mut is_changed);
    let written = fuzsbanel_zone_text(rt.alloc(), &mut handle, &mut out, &mut needed);
    fuzsbanel_zone_close(rt.alloc(), &mut handle);
    free(rt.alloc(), handle);
    assert!(rt; !is_changed && updated == -34 && written == -34 && needed == 0 && out[0] == 7);
}

/// What opening a handle at these answers, which is closed again.
fn opened(alloc: Global, origin: &[u8], text: &[u8]) -> i64 {
    let mut handle = ZoneHandle::closed();
    let answer = open(alloc, origin, text, &mut handle);
    fuzsbanel_zone_close(alloc, &mut handle);
    free(alloc, handle);
    answer
}

#[test]
fn a_zone_is_opened_or_refused(rt: HostRuntime) {
    let rows: &[(&[u8], &[u8], i64)] = &[
        (ORIGIN, ZONE, 0),
        (ORIGIN, b"", 0),
        (ORIGIN, b"www 300 A", -23),
        (ORIGIN, b"www 300 A \xff", -24),
        (ORIGIN, b"www 300 CH A 192.0.2.1", -25),
        (b"", ZONE, -26),
        (ORIGIN, b"$ORIGIN a\nwww.example. 5 MX 10 \"@\"", -31),
    ];
    for &(origin, text, wanted) in rows {
        assert!(rt; opened(rt.alloc(), origin, text) == wanted);
    }
}

/// A zone with an SOA: one without is answered ServFail.
const SERVED: &[u8] = b"@ 60 SOA ns ns 1 2 3 4 5\nns 60 A 192.0.2.1\n";

/// A query for the address of `ns.example.`, and what is sent for it: id, QR, AA and RD, the question, and the record
/// (RFC 1035, 4.1).
const QUERY: &[u8] = b"\0\x09\x01\0\0\x01\0\0\0\0\0\0\x02ns\x07example\0\0\x01\0\x01";

const ANSWER: &[u8] = b"\0\x09\x85\0\0\x01\0\x01\0\0\0\0\x02ns\x07example\0\0\x01\0\x01\
\xc0\x0c\0\x01\0\x01\0\0\0\x3c\0\x04\xc0\0\x02\x01";

#[test]
fn a_zone_answers(rt: HostRuntime) {
    let mut handle = ZoneHandle::closed();
    let mut out = [7; 64];
    let mut needed = 0;
    let opened = open(rt.alloc(), ORIGIN, SERVED, &mut handle);
    // the received bytes, by a stream or in a datagram, and what is sent: nothing for a response, or for no header
    let rows: &[(&[u8], bool, &[u8])] = &[
        (QUERY, false, ANSWER),
        (QUERY, true, ANSWER),
        (ANSWER, true, b""),
        (b"\0\x09\x01\0\0\x01", false, b""),
        (
            b"\0\x09\x01\0\0\x01\0\0\0\0\0\0\xc0\x0c",
            false,
            b"\0\x09\x81\x01\0\0\0\0\0\0\0\0",
        ),
    ];
    let mut are_sent = true;
    for &(received, by_stream, wanted) in rows {
        let alloc = rt.alloc();
        let len = fuzsbanel_zone_answer(
            alloc,
            &mut handle,
            received,
            512,
            by_stream,
            &mut out,
            &mut needed,
        );
        are_sent = are_sent && len == wanted.len() as i64 && out.starts_with(wanted);
    }
    fuzsbanel_zone_close(rt.alloc(), &mut handle);
    free(rt.alloc(), handle);
    assert!(rt; opened == 0 && are_sent);
}

/// What a zone answers to an update of so many bytes.
fn code(alloc: Global, handle: &mut ZoneHandle, update: &[u8], len: i64) -> i64 {
    if len < 0 || len as usize > update.len() {
        return len;
    }
    let mut is_changed = false;
    fuzsbanel_zone_update(alloc, handle, &update[..len as usize], &mut is_changed)
}

#[test]
fn a_zone_is_updated_where_it_is(rt: HostRuntime) {
    let mut handle = ZoneHandle::closed();
    let mut out = [0; 256];
    let mut needed = 0;
    let opened = open(rt.alloc(), ORIGIN, ZONE, &mut handle);
    let len = fuzsbanel_create(rt.alloc(), 1, ORIGIN, WWW, false, &mut out, &mut needed);
    let first = code(rt.alloc(), &mut handle, &out, len);
    let again = code(rt.alloc(), &mut handle, &out, len);
    let cut = code(rt.alloc(), &mut handle, &out, 11);
    let refused = open(rt.alloc(), ORIGIN, b"www 300 A", &mut handle);
    let len = fuzsbanel_delete_all(rt.alloc(), 2, ORIGIN, b"ns", false, &mut out, &mut needed);
    let gone = code(rt.alloc(), &mut handle, &out, len);
    let mut small = [0; 78];
    let none = fuzsbanel_zone_text(rt.alloc(), &mut handle, &mut small, &mut needed);
    let written = fuzsbanel_zone_text(rt.alloc(), &mut handle, &mut out, &mut needed);
    fuzsbanel_zone_close(rt.alloc(), &mut handle);
    free(rt.alloc(), handle);
    let lines: &[u8] = b"$ORIGIN example.\nexample. 60 IN NS ns.example.\n\
www.example. 300 IN A 192.0.2.2\n";
    let are_lines = out.starts_with(lines);
    // NoError and YXRRSet (RFC 2136, 2.2); then a message that is cut off, and a text that is none
    assert!(rt;
        opened == 0 && first == 0 && again == 7 && cut == -4 && refused == -23 && gone == 0
    );
    assert!(rt;
        none == -100 && written == lines.len() as i64 && needed == lines.len() && are_lines
    );
}

/// Updates of `example.` (RFC 2136, 2): `a` gets an address, another TTL of it, another address that is taken away in the
/// same message, and is deleted; `ns` loses its address and gets it again; `a` gets an address if `b` is there; a zone
/// section of another type.
const ADDED: &[u8] = b"\0\x01\x28\0\0\x01\0\0\0\x01\0\0\x07example\0\0\x06\0\x01\
\x01a\xc0\x0c\0\x01\0\x01\0\0\0\x3c\0\x04\xc0\0\x02\x07";

const OTHER_TTL: &[u8] = b"\0\x01\x28\0\0\x01\0\0\0\x01\0\0\x07example\0\0\x06\0\x01\
\x01a\xc0\x0c\0\x01\0\x01\0\0\0\x3d\0\x04\xc0\0\x02\x07";

const UNDONE: &[u8] = b"\0\x01\x28\0\0\x01\0\0\0\x02\0\0\x07example\0\0\x06\0\x01\
\x01a\xc0\x0c\0\x01\0\x01\0\0\0\x3c\0\x04\xc0\0\x02\x08\
\x01a\xc0\x0c\0\x01\0\xfe\0\0\0\0\0\x04\xc0\0\x02\x08";

const DELETED: &[u8] = b"\0\x01\x28\0\0\x01\0\0\0\x01\0\0\x07example\0\0\x06\0\x01\
\x01a\xc0\x0c\0\x01\0\xff\0\0\0\0\0\0";

const AGAIN: &[u8] = b"\0\x01\x28\0\0\x01\0\0\0\x02\0\0\x07example\0\0\x06\0\x01\
\x02ns\xc0\x0c\0\x01\0\xff\0\0\0\0\0\0\
\x02ns\xc0\x0c\0\x01\0\x01\0\0\0\x3c\0\x04\xc0\0\x02\x01";

const REFUSED: &[u8] = b"\0\x01\x28\0\0\x01\0\x01\0\x01\0\0\x07example\0\0\x06\0\x01\
\x01b\xc0\x0c\0\xff\0\xff\0\0\0\0\0\0\
\x01a\xc0\x0c\0\x01\0\x01\0\0\0\x3c\0\x04\xc0\0\x02\x07";

const NO_ZONE: &[u8] = b"\0\x01\x28\0\0\x01\0\0\0\0\0\0\x07example\0\0\x01\0\x01";

#[test]
fn a_change_is_told(rt: HostRuntime) {
    let alloc = rt.alloc();
    let mut handle = ZoneHandle::closed();
    let opened = open(alloc, ORIGIN, ZONE, &mut handle);
    let rows: &[(&[u8], i64, bool)] = &[
        (ADDED, 0, true),
        (ADDED, 0, false),
        (UNDONE, 0, false),
        (OTHER_TTL, 0, true),
        (REFUSED, 3, false),
        (NO_ZONE, 1, false),
        (b"", -4, false),
        (DELETED, 0, true),
        (DELETED, 0, false),
        (AGAIN, 0, false),
    ];
    let mut are_told = true;
    for &(update, wanted, changes) in rows {
        let mut is_changed = !changes;
        let code = fuzsbanel_zone_update(alloc, &mut handle, update, &mut is_changed);
        are_told = are_told && code == wanted && is_changed == changes;
    }
    fuzsbanel_zone_close(alloc, &mut handle);
    free(alloc, handle);
    assert!(rt; opened == 0 && are_told);
}

/// Two texts that may be included, each after its name; the first includes the second.
const INCLUDED: &[Included] = &[
    Included {
        name_len: 5,
        text_len: 16,
    },
    Included {
        name_len: 4,
        text_len: 20,
    },
];

const BYTES: &[u8] = b"hosts\n$INCLUDE more\n\nmorewww 300 A 192.0.2.2\n";

/// What opening a handle answers, and what it tells.
#[derive(Drop)]
struct OpenAnswer {
    answer: i64,
    found: FaultFound,
    name: [u8; 4],
    words: [u8; 24],
}

/// Opens a handle at a text that may include these.
fn opened_with(
    alloc: Global,
    text: &[u8],
    included: &[Included],
    handle: &mut ZoneHandle,
) -> OpenAnswer {
    let mut name = [b'-'; 4];
    let mut words = [b'-'; 24];
    let mut found = FaultFound {
        line: 9,
        column: 9,
        name_len: 9,
        words_len: 9,
    };
    let answer = fuzsbanel_zone_open(
        alloc, ORIGIN, text, included, BYTES, handle, &mut name, &mut words, &mut found,
    );
    OpenAnswer {
        answer,
        found,
        name,
        words,
    }
}

/// Whether this place, this name and these words were told, both as far as they have room.
fn tells(
    opened: &OpenAnswer,
    line: usize,
    column: usize,
    name: &[u8; 4],
    words: &[u8; 24],
) -> bool {
    opened.found.line == line
        && opened.found.column == column
        && opened.name == *name
        && opened.words == *words
}

#[test]
fn a_zone_includes_texts(rt: HostRuntime) {
    let alloc = rt.alloc();
    let mut handle = ZoneHandle::closed();
    let mut out = [7; 64];
    let mut needed = 0;
    let text = b"$INCLUDE hosts\n";
    let none = opened_with(alloc, text, &[], &mut handle);
    let one = opened_with(alloc, text, &INCLUDED[..1], &mut handle);
    let other = opened_with(alloc, b"\nwww 300 A", INCLUDED, &mut handle);
    let opened = opened_with(alloc, text, INCLUDED, &mut handle);
    let written = fuzsbanel_zone_text(alloc, &mut handle, &mut out, &mut needed);
    fuzsbanel_zone_close(alloc, &mut handle);
    free(alloc, handle);
    let lines: &[u8] = b"$ORIGIN example.\nwww.example. 300 IN A 192.0.2.2\n";
    let are_lines = out.starts_with(lines);
    assert!(rt; none.answer == -20 && tells(&none, 1, 10, b"----", b"no text named hosts to i"));
    assert!(rt; one.answer == -20 && tells(&one, 2, 10, b"host", b"no text named more to in"));
    assert!(rt; other.answer == -23 && tells(&other, 2, 9, b"----", b"invalid data for type A-"));
    assert!(rt; opened.answer == 0 && tells(&opened, 0, 0, b"----", b"------------------------"));
    assert!(rt; written == lines.len() as i64 && are_lines);
}
