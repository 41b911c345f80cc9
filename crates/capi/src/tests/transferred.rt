//! A zone that is held: its serial raised, and its transfers (RFC 2136, 3.6; RFC 5936, 2.2).

use super::open;
use crate::zone_handle::handle::ZoneHandle;
use crate::zone_handle::place::KeptPlace;
use crate::zone_handle::transfer::fuzsbanel_zone_serve_transfer;
use crate::zone_handle::{
    free, fuzsbanel_zone_close, fuzsbanel_zone_raise_serial, fuzsbanel_zone_text,
};
use authority::TransferPlace;
use std::alloc::Global;

const ORIGIN: &[u8] = b"example.";

/// What raising the serial of a zone of this text answers, twice, and its text then.
fn raised(alloc: Global, text: &[u8], out: &mut [u8], needed: &mut usize) -> (i64, i64) {
    let mut handle = ZoneHandle::closed();
    let _opened = open(alloc, ORIGIN, text, &mut handle);
    let first = fuzsbanel_zone_raise_serial(alloc, &mut handle);
    let second = fuzsbanel_zone_raise_serial(alloc, &mut handle);
    let _written = fuzsbanel_zone_text(alloc, &mut handle, out, needed);
    fuzsbanel_zone_close(alloc, &mut handle);
    free(alloc, handle);
    (first, second)
}

#[test]
fn a_serial_is_raised(rt: HostRuntime) {
    // the text of a zone, what is answered to the first call and to the second, and the text then
    let rows: &[(&[u8], i64, i64, &[u8])] = &[
        (
            b"@ 60 SOA ns ns 7 2 3 4 5\nns 9 A 192.0.2.1\n",
            8,
            9,
            b"$ORIGIN example.\nexample. 60 IN SOA ns.example. ns.example. 9 2 3 4 5\n\
ns.example. 9 IN A 192.0.2.1\n",
        ),
        (
            b"@ 60 SOA ns ns 4294967295 2 3 4 5\n",
            0,
            1,
            b"$ORIGIN example.\nexample. 60 IN SOA ns.example. ns.example. 1 2 3 4 5\n",
        ),
        (
            b"ns 9 A 192.0.2.1\n",
            -35,
            -35,
            b"$ORIGIN example.\nns.example. 9 IN A 192.0.2.1\n",
        ),
        (
            b"@ 60 SOA \\# 0\n",
            -35,
            -35,
            b"$ORIGIN example.\nexample. 60 IN SOA \\# 0\n",
        ),
    ];
    for &(text, first, second, lines) in rows {
        let mut out = [7; 256];
        let mut needed = 0;
        let answers = raised(rt.alloc(), text, &mut out, &mut needed);
        assert!(rt; answers.0 == first && answers.1 == second);
        assert!(rt; needed == lines.len() && out.starts_with(lines));
    }
}

/// A zone, a query for its transfer, and the one message of that: the SOA, the address, and the SOA once more.
const SERVED: &[u8] = b"@ 60 SOA ns ns 1 2 3 4 5\nns 60 A 192.0.2.1\n";

const QUERY: &[u8] = b"\0\x09\0\0\0\x01\0\0\0\0\0\0\x07example\0\0\xfc\0\x01";

const MESSAGE: &[u8] = b"\0\x09\x84\0\0\x01\0\x03\0\0\0\0\x07example\0\0\xfc\0\x01\
\xc0\x0c\0\x06\0\x01\0\0\0\x3c\0\x1b\x02ns\xc0\x0c\xc0\x25\
\0\0\0\x01\0\0\0\x02\0\0\0\x03\0\0\0\x04\0\0\0\x05\
\xc0\x25\0\x01\0\x01\0\0\0\x3c\0\x04\xc0\0\x02\x01\
\xc0\x0c\0\x06\0\x01\0\0\0\x3c\0\x18\xc0\x25\xc0\x25\
\0\0\0\x01\0\0\0\x02\0\0\0\x03\0\0\0\x04\0\0\0\x05";

/// The last SOA alone, in a message without a question.
const LAST: &[u8] = b"\0\x09\x84\0\0\0\0\x01\0\0\0\0\
\x07example\0\0\x06\0\x01\0\0\0\x3c\0\x1b\x02ns\xc0\x0c\xc0\x1f\
\0\0\0\x01\0\0\0\x02\0\0\0\x03\0\0\0\x04\0\0\0\x05";

#[test]
fn a_zone_is_transferred(rt: HostRuntime) {
    let mut handle = ZoneHandle::closed();
    let mut place = KeptPlace::of(&TransferPlace::Start);
    let mut out = [7; 256];
    let mut needed = 9;
    let closed = fuzsbanel_zone_serve_transfer(
        rt.alloc(),
        &mut handle,
        QUERY,
        &mut place,
        &mut out,
        &mut needed,
    );
    assert!(rt; closed == -34 && needed == 0 && place.kind == 0);
    let opened = open(rt.alloc(), ORIGIN, SERVED, &mut handle);
    // a query, the kind of the place, the room for a message; what is answered, what is written, and the kind then
    let rows: &[(&[u8], u8, usize, i64, &[u8], u8)] = &[
        (QUERY, 0, 107, -100, b"", 0),
        (QUERY, 0, 256, 116, MESSAGE, 3),
        (QUERY, 3, 256, 0, b"", 3),
        (QUERY, 2, 256, 58, LAST, 3),
        (MESSAGE, 0, 256, 0, b"", 0),
        (b"\0\x09", 0, 256, -4, b"", 0),
        (QUERY, 4, 256, -36, b"", 4),
        (QUERY, 1, 256, -36, b"", 1),
    ];
    for &(query, kind, room, answer, bytes, then) in rows {
        place = KeptPlace::of(&TransferPlace::Start);
        place.kind = kind;
        let told = fuzsbanel_zone_serve_transfer(
            rt.alloc(),
            &mut handle,
            query,
            &mut place,
            &mut out[..room],
            &mut needed,
        );
        assert!(rt; told == answer && out.starts_with(bytes) && place.kind == then);
    }
    fuzsbanel_zone_close(rt.alloc(), &mut handle);
    free(rt.alloc(), handle);
    assert!(rt; opened == 0);
}
