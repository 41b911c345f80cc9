//! Each export that names a name, over names of 38 bytes, which take memory of their own.

use crate::applied::fuzsbanel_apply;
use crate::tests::{NO_ITEM, NO_RECORD};
use crate::update::{
    fuzsbanel_create, fuzsbanel_delete_all, fuzsbanel_delete_rrset, fuzsbanel_zone_transfer,
};
use crate::walk::whole::{RoomNeeded, fuzsbanel_walk};
use crate::walk::{fuzsbanel_data_text, fuzsbanel_name, fuzsbanel_query, fuzsbanel_record};
use crate::zone::fuzsbanel_zone;
use tasks::walk::QueryFound;

const ORIGIN: &[u8] = b"a-name-with-memory-of-its-own.example.";

/// A response with a record in each section: an exchange, a name server and an address, each of the name and to it (RFC
/// 1035, 3.3.9, 3.3.11, 4.1.4).
const MESSAGE: &[u8] = b"\0\x09\x81\x80\0\x01\0\x01\0\x01\0\x01\
\x1da-name-with-memory-of-its-own\x07example\0\0\x0f\0\x01\
\xc0\x0c\0\x0f\0\x01\0\0\x01\x2c\0\x04\0\x0a\xc0\x0c\
\xc0\x0c\0\x02\0\x01\0\0\x01\x2c\0\x02\xc0\x0c\
\xc0\x0c\0\x01\0\x01\0\0\x01\x2c\0\x04\xc0\0\x02\x01";

#[test]
fn long_names_of_messages_are_found(rt: HostRuntime) {
    let mut query = QueryFound {
        name: 0,
        query_type: 0,
        class: 0,
    };
    let mut record = NO_RECORD;
    assert!(rt; fuzsbanel_query(rt.alloc(), MESSAGE, 12, &mut query) == 55);
    assert!(rt; fuzsbanel_record(rt.alloc(), MESSAGE, 55, &mut record) == 71);
    assert!(rt; query.name == 12 && record.name == 55 && record.data_place == 67);
    let mut out = [0; 64];
    let mut needed = 0;
    for &place in &[12, 55] {
        let len = fuzsbanel_name(rt.alloc(), MESSAGE, place, &mut out, &mut needed);
        let is_text = out.starts_with(ORIGIN);
        assert!(rt; len == 38 && is_text);
    }
    let len = fuzsbanel_data_text(rt.alloc(), MESSAGE, 55, &mut out, &mut needed);
    let is_text = out.starts_with(b"10 ") && out[3..].starts_with(ORIGIN);
    assert!(rt; len == 41 && is_text);
    let mut items = [NO_ITEM; 4];
    let mut names = [0; 156];
    let mut room = RoomNeeded { items: 0, names: 0 };
    let end = fuzsbanel_walk(rt.alloc(), MESSAGE, &mut items, &mut names, &mut room);
    assert!(rt; end == 101 && room.items == 4 && room.names == 156);
}

/// The zone of the name, with a name server under it.
const ZONE: &[u8] = b"NoError\n$ORIGIN a-name-with-memory-of-its-own.example.\n\
a-name-with-memory-of-its-own.example. 60 IN NS ns.a-name-with-memory-of-its-own.example.\n";

/// An update that asks for nothing of it (RFC 2136, 2.3).
const UPDATE: &[u8] = b"\0\x01\x28\0\0\x01\0\0\0\0\0\0\
\x1da-name-with-memory-of-its-own\x07example\0\0\x06\0\x01";

#[test]
fn zones_of_long_names_are_read(rt: HostRuntime) {
    let mut out = [0; 512];
    let mut needed = 0;
    let text = b"@ 60 NS ns\n";
    let len = fuzsbanel_apply(rt.alloc(), UPDATE, ORIGIN, text, &mut out, &mut needed);
    let is_applied = out.starts_with(ZONE);
    assert!(rt; len == ZONE.len() as i64 && is_applied);
    let zone = &ZONE[8..];
    let len = fuzsbanel_zone(rt.alloc(), ORIGIN, text, &mut out, &mut needed);
    let is_zone = out.starts_with(zone);
    assert!(rt; len == zone.len() as i64 && is_zone);
}

#[test]
fn updates_of_long_names_are_built(rt: HostRuntime) {
    let mut out = [0; 512];
    let mut needed = 0;
    // the zone ends at 55, and a record of `www` without data takes 16 bytes (RFC 2136, 2.3 and 2.4)
    let set = b"www 300 A 192.0.2.2\n";
    let made = fuzsbanel_create(rt.alloc(), 1, ORIGIN, set, false, &mut out, &mut needed);
    assert!(rt; made == 55 + 16 + 16);
    let name = b"www";
    let made = fuzsbanel_delete_rrset(rt.alloc(), 1, ORIGIN, name, 1, false, &mut out, &mut needed);
    assert!(rt; made == 55 + 16);
    let made = fuzsbanel_delete_all(rt.alloc(), 1, ORIGIN, name, false, &mut out, &mut needed);
    assert!(rt; made == 55 + 16);
    // the SOA: 12 bytes, names of 5 and 13, and five numbers (RFC 1035, 3.3.13; RFC 1995, 3); and EDNS (RFC 6891, 6.1.2)
    let soa = b"@ 5 SOA ns hostmaster 1 2 3 4 5";
    let made = fuzsbanel_zone_transfer(rt.alloc(), 1, ORIGIN, soa, &mut out, &mut needed);
    assert!(rt; made == 55 + 12 + 5 + 13 + 20 + 11);
}
