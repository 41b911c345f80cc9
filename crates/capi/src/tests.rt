//! Each export that reads messages, over the worked messages (bindings/worked/messages) and what RFC 1035 says of them.

mod asked;
mod generic;
mod held;
mod long_names;
mod long_zones;
mod mnemonics;
mod replies;
mod shared;
mod transferred;
mod updates;
mod wire_forms;
mod zone_check;

use crate::header::fuzsbanel_header;
use crate::message::{fuzsbanel_check, fuzsbanel_cut, fuzsbanel_text};
use crate::walk::whole::{Item, RoomNeeded, fuzsbanel_walk};
use crate::walk::{
    fuzsbanel_data_text, fuzsbanel_name, fuzsbanel_option, fuzsbanel_query, fuzsbanel_record,
};
use crate::zone_check::FaultFound;
use crate::zone_handle::fuzsbanel_zone_open;
use crate::zone_handle::handle::ZoneHandle;
use std::alloc::Global;
use tasks::header::HeaderNumbers;
use tasks::walk::{OptionFound, QueryFound, RecordFound};

/// A response with the address of `www.example.com`.
const RESPONSE: &[u8] =
    b"\x10\x00\x81\x80\0\x01\0\x01\0\0\0\0\x03www\x07example\x03com\0\0\x01\0\x01\
\xc0\x0c\0\x01\0\x01\0\0\0\x02\0\x04\x5d\xb8\xd7\x0e";

/// A response with the mail exchange of `example`, whose name ends in a pointer (RFC 1035, 3.3.9 and 4.1.4).
const EXCHANGE: &[u8] = b"\0\x09\x81\x80\0\x01\0\x01\0\0\0\0\x07example\0\0\x0f\0\x01\
\xc0\x0c\0\x0f\0\x01\0\0\x01\x2c\0\x09\0\x0a\x04mail\xc0\x0c";

/// A response with an OPT record of one option, NSID (RFC 5001, 2.3; RFC 6891, 6.1.2).
const WITH_EDNS: &[u8] =
    b"\0\x09\x80\x80\0\0\0\0\0\0\0\x01\0\0\x29\x04\xd0\0\0\0\0\0\x06\0\x03\0\x02ab";

const NO_RECORD: RecordFound = RecordFound {
    name: 0,
    data_place: 0,
    ttl: 0,
    record_type: 0,
    class: 0,
    data_len: 0,
};

const NO_ITEM: Item = Item {
    found: NO_RECORD,
    name: 0,
    name_len: 0,
    section: 9,
};

/// Opens a handle at a zone whose text includes no other, and answers what that does.
fn open(alloc: Global, origin: &[u8], text: &[u8], handle: &mut ZoneHandle) -> i64 {
    let mut found = FaultFound::NONE;
    fuzsbanel_zone_open(
        alloc,
        origin,
        text,
        &[],
        &[],
        handle,
        &mut [],
        &mut [],
        &mut found,
    )
}

#[test]
fn messages_are_checked(rt: HostRuntime) {
    let rows: &[(&[u8], i64)] = &[
        (RESPONSE, 49),
        (EXCHANGE, 46),
        (WITH_EDNS, 29),
        (b"", -4),
        (b"\0\x01\0\0\0\x01\0\0\0\0\0\0\xc0\x0c\0\x01\0\x01", -5),
    ];
    for &(message, answer) in rows {
        assert!(rt; fuzsbanel_check(rt.alloc(), message) == answer);
    }
    // RDLENGTH says more than is left
    assert!(rt; fuzsbanel_check(rt.alloc(), &RESPONSE[..48]) == -7);
}

#[test]
fn a_message_is_cut(rt: HostRuntime) {
    let mut out = [7; 64];
    let mut needed = 9;
    // all fits; the record doesn't, and TC is set (RFC 2181, 9); the question doesn't; the header doesn't
    let rows: &[(u16, i64, usize)] = &[(49, 49, 49), (48, 33, 33), (32, -2, 0), (11, -1, 0)];
    for &(limit, answer, takes) in rows {
        let answered = fuzsbanel_cut(rt.alloc(), RESPONSE, limit, &mut out, &mut needed);
        assert!(rt; answered == answer && needed == takes);
    }
    let cut = fuzsbanel_cut(rt.alloc(), RESPONSE, 48, &mut out, &mut needed);
    let is_cut = out.starts_with(b"\x10\0\x83\x80\0\x01\0\0\0\0\0\0");
    assert!(rt; cut == 33 && is_cut && out[49] == 7);
    let mut small = [7; 32];
    let answered = fuzsbanel_cut(rt.alloc(), RESPONSE, 48, &mut small, &mut needed);
    assert!(rt; answered == -100 && needed == 33 && small == [7; 32]);
}

#[test]
fn a_message_is_shown(rt: HostRuntime) {
    let text = b"; header 9:RESPONSE:RD,RA:NoError:QUERY\n; query\n\
;; example. IN MX; mdns_unicast_response: false\n; answers 1\nexample. 300 IN MX 10 mail.example.\n\
; authorities 0\n; additionals 0\n";
    let mut out = [0; 256];
    let mut needed = 0;
    let len = fuzsbanel_text(rt.alloc(), EXCHANGE, &mut out, &mut needed);
    let is_text = out.starts_with(text);
    assert!(rt; len == text.len() as i64 && needed == text.len() && is_text);
}

#[test]
fn a_header_is_told(rt: HostRuntime) {
    let mut header = HeaderNumbers {
        id: 1,
        queries: 9,
        answers: 9,
        authorities: 9,
        additionals: 9,
        opcode: 9,
        rcode: 9,
        response: false,
        authoritative: true,
        truncated: true,
        recursion_desired: false,
        recursion_available: false,
        authentic_data: true,
        checking_disabled: true,
    };
    assert!(rt; fuzsbanel_header(rt.alloc(), &RESPONSE[..11], &mut header) == -4);
    assert!(rt; header.id == 1 && header.opcode == 9);
    assert!(rt; fuzsbanel_header(rt.alloc(), RESPONSE, &mut header) == 12);
    assert!(rt; header.id == 4096 && header.opcode == 0 && header.rcode == 0);
    assert!(rt; header.queries == 1 && header.answers == 1);
    assert!(rt; header.authorities == 0 && header.additionals == 0);
    assert!(rt; header.response && header.recursion_desired && header.recursion_available);
    assert!(rt; !header.authoritative && !header.truncated);
    assert!(rt; !header.authentic_data && !header.checking_disabled);
}

#[test]
fn questions_and_records_are_found(rt: HostRuntime) {
    let mut query = QueryFound {
        name: 0,
        query_type: 0,
        class: 0,
    };
    assert!(rt; fuzsbanel_query(rt.alloc(), EXCHANGE, 12, &mut query) == 25);
    assert!(rt; query.name == 12 && query.query_type == 15 && query.class == 1);
    let mut record = NO_RECORD;
    assert!(rt; fuzsbanel_record(rt.alloc(), EXCHANGE, 25, &mut record) == 46);
    assert!(rt; record.name == 25 && record.record_type == 15 && record.class == 1);
    assert!(rt; record.ttl == 300 && record.data_place == 37 && record.data_len == 9);
    // past the end, both stay
    assert!(rt; fuzsbanel_query(rt.alloc(), EXCHANGE, 47, &mut query) == -4);
    assert!(rt; fuzsbanel_record(rt.alloc(), EXCHANGE, 46, &mut record) == -4);
    assert!(rt; query.name == 12 && record.name == 25);
}

#[test]
fn options_are_found(rt: HostRuntime) {
    let mut option = OptionFound {
        data_place: 0,
        code: 0,
        data_len: 0,
    };
    assert!(rt; fuzsbanel_option(rt.alloc(), WITH_EDNS, 23, &mut option) == 29);
    assert!(rt; option.code == 3 && option.data_place == 27 && option.data_len == 2);
    assert!(rt; fuzsbanel_option(rt.alloc(), &WITH_EDNS[..28], 23, &mut option) == -4);
    assert!(rt; option.data_place == 27);
}

#[test]
fn names_are_shown(rt: HostRuntime) {
    let mut out = [0; 64];
    let mut needed = 0;
    // at a question, at a pointer, and in the data of a record
    let rows: &[(usize, &[u8])] = &[
        (12, b"example."),
        (25, b"example."),
        (39, b"mail.example."),
        (44, b"example."),
    ];
    for &(place, text) in rows {
        let len = fuzsbanel_name(rt.alloc(), EXCHANGE, place, &mut out, &mut needed);
        let is_text = out.starts_with(text);
        assert!(rt; len == text.len() as i64 && is_text);
    }
    assert!(rt; fuzsbanel_name(rt.alloc(), EXCHANGE, 47, &mut out, &mut needed) == -4);
    assert!(rt; fuzsbanel_name(rt.alloc(), RESPONSE, 45, &mut out, &mut needed) == -5);
}

#[test]
fn data_is_shown(rt: HostRuntime) {
    let mut out = [0; 64];
    let mut needed = 0;
    let rows: &[(&[u8], usize, &[u8])] = &[
        (RESPONSE, 33, b"93.184.215.14"),
        (EXCHANGE, 25, b"10 mail.example."),
    ];
    for &(message, place, text) in rows {
        let len = fuzsbanel_data_text(rt.alloc(), message, place, &mut out, &mut needed);
        let is_text = out.starts_with(text);
        assert!(rt; len == text.len() as i64 && is_text);
    }
    let refused = fuzsbanel_data_text(rt.alloc(), &RESPONSE[..48], 33, &mut out, &mut needed);
    assert!(rt; refused == -7 && needed == 0);
}

#[test]
fn a_message_is_walked(rt: HostRuntime) {
    let mut items = [NO_ITEM; 3];
    let mut names = [7; 24];
    let mut needed = RoomNeeded { items: 9, names: 9 };
    let end = fuzsbanel_walk(rt.alloc(), EXCHANGE, &mut items, &mut names, &mut needed);
    assert!(rt; end == 46 && needed.items == 2 && needed.names == 18);
    let are_names = names.starts_with(b"\x07example\0\x07example\0\x07");
    assert!(rt; are_names);
    let question = items[0];
    assert!(rt; question.section == 0 && question.name == 0 && question.name_len == 9);
    assert!(rt; question.found.name == 12 && question.found.record_type == 15);
    assert!(rt; question.found.data_place == 25 && question.found.data_len == 0);
    let answer = items[1];
    assert!(rt; answer.section == 1 && answer.name == 9 && answer.name_len == 9);
    assert!(rt; answer.found.name == 25 && answer.found.data_place == 37);
    assert!(rt; answer.found.ttl == 300 && answer.found.data_len == 9);
    assert!(rt; items[2].section == 9);
}

#[test]
fn a_walk_without_room_writes_nothing(rt: HostRuntime) {
    let mut items = [NO_ITEM; 2];
    let mut names = [7; 18];
    let mut needed = RoomNeeded { items: 9, names: 9 };
    let few = fuzsbanel_walk(
        rt.alloc(),
        EXCHANGE,
        &mut items[..1],
        &mut names,
        &mut needed,
    );
    assert!(rt; few == -100 && needed.items == 2 && needed.names == 18);
    let short = fuzsbanel_walk(
        rt.alloc(),
        EXCHANGE,
        &mut items,
        &mut names[..17],
        &mut needed,
    );
    assert!(rt; short == -100 && needed.items == 2 && needed.names == 18);
    let refused = fuzsbanel_walk(
        rt.alloc(),
        &EXCHANGE[..45],
        &mut items,
        &mut names,
        &mut needed,
    );
    assert!(rt; refused == -7 && needed.items == 0 && needed.names == 0);
    assert!(rt; items[0].section == 9 && items[1].section == 9 && names == [7; 18]);
    let just = fuzsbanel_walk(
        rt.alloc(),
        WITH_EDNS,
        &mut items[..1],
        &mut names[..1],
        &mut needed,
    );
    assert!(rt; just == 29 && items[0].section == 3 && items[0].found.class == 1232);
    assert!(rt; items[0].name_len == 1 && names[0] == 0 && names[1] == 7);
}
