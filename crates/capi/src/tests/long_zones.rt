//! Queries, zone checks and transfers over a name of 38 bytes, which takes memory of its own.

use super::open;
use crate::query::fuzsbanel_build_query;
use crate::zone_check::{FaultFound, fuzsbanel_zone_check};
use crate::zone_handle::handle::ZoneHandle;
use crate::zone_handle::place::KeptPlace;
use crate::zone_handle::transfer::fuzsbanel_zone_serve_transfer;
use crate::zone_handle::{free, fuzsbanel_zone_close};

const ORIGIN: &[u8] = b"a-name-with-memory-of-its-own.example.";

/// The name as it stands in a message (RFC 1035, 3.1).
const WIRE: &[u8] = b"\x1da-name-with-memory-of-its-own\x07example\0";

const QUERY: &[u8] = b"\0\x09\x01\0\0\x01\0\0\0\0\0\0\
\x1da-name-with-memory-of-its-own\x07example\0\0\x01\0\x01";

#[test]
fn a_query_of_a_long_name_is_built(rt: HostRuntime) {
    let mut out = [7; 64];
    let mut needed = 0;
    let alloc = rt.alloc();
    let len = fuzsbanel_build_query(alloc, 9, ORIGIN, 1, 1, true, 0, &mut out, &mut needed);
    assert!(rt; len == 55 && needed == 55 && out.starts_with(QUERY));
}

#[test]
fn zone_text_under_a_long_name_is_checked(rt: HostRuntime) {
    let rows: &[(&[u8], i64, usize, usize)] = &[
        (b"n 6 A 192.0.2.1\n", 0, 0, 0),
        (b"\nn 6 A 1\n", -23, 2, 5),
    ];
    for &(text, wanted, line, column) in rows {
        let mut found = FaultFound {
            line: 9,
            column: 9,
            name_len: 9,
            words_len: 9,
        };
        let alloc = rt.alloc();
        let answer = fuzsbanel_zone_check(
            alloc,
            ORIGIN,
            text,
            &[],
            b"",
            &mut [],
            &mut [],
            &mut found,
        );
        assert!(rt; answer == wanted && found.line == line && found.column == column);
    }
}

const ZONE: &[u8] = b"@ 60 SOA ns ns 1 2 3 4 5\n@ 60 A 192.0.2.1\n";

/// A query for the zone's transfer (RFC 5936, 2.1).
const TRANSFER: &[u8] = b"\0\x09\0\0\0\x01\0\0\0\0\0\0\
\x1da-name-with-memory-of-its-own\x07example\0\0\xfc\0\x01";

/// What is left of the transfer at the address: that and the last SOA (RFC 5936, 2.2).
const LEFT: &[u8] = b"\0\x09\x84\0\0\0\0\x02\0\0\0\0\
\x1da-name-with-memory-of-its-own\x07example\0\0\x01\0\x01\0\0\0\x3c\0\x04\xc0\0\x02\x01\
\xc0\x0c\0\x06\0\x01\0\0\0\x3c\0\x1b\x02ns\xc0\x0c\xc0\x4d\
\0\0\0\x01\0\0\0\x02\0\0\0\x03\0\0\0\x04\0\0\0\x05";

#[test]
fn a_transfer_goes_on_at_a_long_name(rt: HostRuntime) {
    let mut handle = ZoneHandle::closed();
    let mut name = [0; 255];
    name[..WIRE.len()].copy_from_slice(WIRE);
    let mut place = KeptPlace {
        index: 0,
        record_type: 1,
        kind: 1,
        is_unknown: 0,
        is_absolute: 1,
        name_len: 39,
        name,
    };
    let mut out = [7; 128];
    let mut needed = 0;
    let opened = open(rt.alloc(), ORIGIN, ZONE, &mut handle);
    let served = fuzsbanel_zone_serve_transfer(
        rt.alloc(),
        &mut handle,
        TRANSFER,
        &mut place,
        &mut out,
        &mut needed,
    );
    fuzsbanel_zone_close(rt.alloc(), &mut handle);
    free(rt.alloc(), handle);
    assert!(rt; opened == 0 && served == 104 && out.starts_with(LEFT) && place.kind == 3);
}
