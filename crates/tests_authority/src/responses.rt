//! Which bytes are sent for those that are received (RFC 1035, 4.1.1; RFC 6891, 6 and 7).

ghost use Rattle.authority.specs.ZoneRef.{AreUnderKeys};

use crate::zone::{self, ZONE, parsed};
use authority::{Carrier, respond};
use base::{DNSClass, Name, RrKey};
use op::Message;
use rr::RecordSet;
use std::alloc::Global;
use std::collections::BTreeMap;
use std::test::Fail;

/// What is received; and of the reply the number of its code, AA, TC, how many questions it has, how many records in
/// each section, and whether EDNS and DO are in it. Nothing where nothing is sent.
type Row = (&'static [u8], &'static str);

/// Questions of each kind.
const QUESTIONS: &[Row] = &[
    (
        b"\x12\x34\x01\x00\x00\x01\x00\x00\x00\x00\x00\x00\x03www\x07example\x00\x00\x01\x00\x01",
        "0 true false 1 2 0 0 false false",
    ),
    (
        b"\x12\x34\x01\x00\x00\x01\x00\x00\x00\x00\x00\x00\x05child\x07example\x00\x00\x01\x00\x01",
        "0 false false 1 0 3 3 false false",
    ),
    (
        b"\x12\x34\x01\x00\x00\x01\x00\x00\x00\x00\x00\x00\x02no\x07example\x00\x00\x01\x00\x01",
        "3 true false 1 0 1 0 false false",
    ),
    // another zone
    (
        b"\x12\x34\x01\x00\x00\x01\x00\x00\x00\x00\x00\x00\x09elsewhere\x00\x00\x01\x00\x01",
        "5 false false 1 0 0 0 false false",
    ),
    // the classes CH and ANY, and IN with its top bit set
    (
        b"\x12\x34\x01\x00\x00\x01\x00\x00\x00\x00\x00\x00\x03www\x07example\x00\x00\x01\x00\x03",
        "5 false false 1 0 0 0 false false",
    ),
    (
        b"\x12\x34\x01\x00\x00\x01\x00\x00\x00\x00\x00\x00\x03www\x07example\x00\x00\x01\x00\xFF",
        "5 false false 1 0 0 0 false false",
    ),
    (
        b"\x12\x34\x01\x00\x00\x01\x00\x00\x00\x00\x00\x00\x03www\x07example\x00\x00\x01\x80\x01",
        "5 false false 1 0 0 0 false false",
    ),
    // MAILB and AXFR
    (
        b"\x12\x34\x01\x00\x00\x01\x00\x00\x00\x00\x00\x00\x07example\x00\x00\xFD\x00\x01",
        "4 false false 1 0 0 0 false false",
    ),
    (
        b"\x12\x34\x01\x00\x00\x01\x00\x00\x00\x00\x00\x00\x07example\x00\x00\xFC\x00\x01",
        "4 false false 1 0 0 0 false false",
    ),
    // bytes after the end
    (
        b"\x12\x34\x01\x00\x00\x01\x00\x00\x00\x00\x00\x00\x03www\x07example\x00\x00\x01\x00\x01\xFF",
        "0 true false 1 2 0 0 false false",
    ),
];

/// EDNS of versions 0 and 1.
const EDNS: &[Row] = &[
    (
        b"\x12\x34\x01\x00\x00\x01\x00\x00\x00\x00\x00\x01\x03www\x07example\x00\x00\x01\x00\x01\x00\x00\x29\x10\x00\x00\x00\x80\x00\x00\x00",
        "0 true false 1 2 0 0 true true",
    ),
    (
        b"\x12\x34\x01\x00\x00\x01\x00\x00\x00\x00\x00\x01\x03www\x07example\x00\x00\x01\x00\x01\x00\x00\x29\x10\x00\x00\x00\x00\x00\x00\x00",
        "0 true false 1 2 0 0 true false",
    ),
    (
        b"\x12\x34\x01\x00\x00\x01\x00\x00\x00\x00\x00\x01\x03www\x07example\x00\x00\x01\x00\x01\x00\x00\x29\x10\x00\x00\x01\x80\x00\x00\x00",
        "16 false false 1 0 0 0 true true",
    ),
    // with STATUS, and with two questions
    (
        b"\x12\x34\x11\x00\x00\x01\x00\x00\x00\x00\x00\x01\x03www\x07example\x00\x00\x01\x00\x01\x00\x00\x29\x10\x00\x00\x01\x00\x00\x00\x00",
        "16 false false 1 0 0 0 true false",
    ),
    (
        b"\x12\x34\x01\x00\x00\x02\x00\x00\x00\x00\x00\x01\x01a\x00\x00\x01\x00\x01\x01b\x00\x00\x01\x00\x01\x00\x00\x29\x10\x00\x00\x01\x00\x00\x00\x00",
        "16 false false 0 0 0 0 true false",
    ),
    // two OPT records
    (
        b"\x12\x34\x01\x00\x00\x00\x00\x00\x00\x00\x00\x02\x00\x00\x29\x10\x00\x00\x00\x00\x00\x00\x00\x00\x00\x29\x10\x00\x00\x00\x00\x00\x00\x00",
        "1 false false 0 0 0 0 false false",
    ),
];

/// Other messages, and bytes that are none.
const OTHERS: &[Row] = &[
    // no question, and two
    (
        b"\x12\x34\x01\x00\x00\x00\x00\x00\x00\x00\x00\x00",
        "1 false false 0 0 0 0 false false",
    ),
    (
        b"\x12\x34\x01\x00\x00\x02\x00\x00\x00\x00\x00\x00\x01a\x00\x00\x01\x00\x01\x01b\x00\x00\x01\x00\x01",
        "1 false false 0 0 0 0 false false",
    ),
    // STATUS
    (
        b"\x12\x34\x11\x00\x00\x01\x00\x00\x00\x00\x00\x00\x03www\x07example\x00\x00\x01\x00\x01",
        "4 false false 1 0 0 0 false false",
    ),
    // a response, and one that is cut in its name
    (
        b"\x12\x34\x81\x00\x00\x01\x00\x00\x00\x00\x00\x00\x03www\x07example\x00\x00\x01\x00\x01",
        "",
    ),
    (
        b"\x12\x34\x81\x00\x00\x01\x00\x00\x00\x00\x00\x00\x03ww",
        "",
    ),
    // less than a header, and a query that is cut in its name
    (b"\x12\x34\x01\x00\x00\x01\x00\x00\x00\x00\x00", ""),
    (
        b"\x12\x34\x01\x00\x00\x01\x00\x00\x00\x00\x00\x00\x03ww",
        "1 false false 0 0 0 0 false false",
    ),
];

/// Answers that 512 bytes don't hold: three TXT records, and five MX records with the addresses of their hosts.
const WIDE: &[Row] = &[
    (
        b"\x12\x34\x01\x00\x00\x01\x00\x00\x00\x00\x00\x00\x05large\x07example\x00\x00\x10\x00\x01",
        "0 true true 1 1 0 0 false false",
    ),
    (
        b"\x12\x34\x01\x00\x00\x01\x00\x00\x00\x00\x00\x00\x04mail\x07example\x00\x00\x0F\x00\x01",
        "0 true false 1 5 0 0 false false",
    ),
    // with room for 4,096 bytes
    (
        b"\x12\x34\x01\x00\x00\x01\x00\x00\x00\x00\x00\x01\x04mail\x07example\x00\x00\x0F\x00\x01\x00\x00\x29\x10\x00\x00\x00\x00\x00\x00\x00",
        "0 true false 1 5 0 10 true false",
    ),
];

/// Questions for names that take memory of their own: an address, all of a name, an alias of an alias, a service at a
/// wildcard, a name below a cut, none, and no data.
const LONG: &[Row] = &[
    (
        b"\x12\x34\x01\x00\x00\x01\x00\x00\x00\x00\x00\x00\x03www\x1Da-name-with-memory-of-its-own\x07example\x00\x00\x01\x00\x01",
        "0 true false 1 2 0 0 false false",
    ),
    (
        b"\x12\x34\x01\x00\x00\x01\x00\x00\x00\x00\x00\x00\x03www\x1Da-name-with-memory-of-its-own\x07example\x00\x00\xFF\x00\x01",
        "0 true false 1 3 0 0 false false",
    ),
    (
        b"\x12\x34\x01\x00\x00\x01\x00\x00\x00\x00\x00\x00\x05alias\x1Da-name-with-memory-of-its-own\x07example\x00\x00\x01\x00\x01",
        "0 true false 1 4 0 0 false false",
    ),
    (
        b"\x12\x34\x01\x00\x00\x01\x00\x00\x00\x00\x00\x00\x01x\x04wild\x1Da-name-with-memory-of-its-own\x07example\x00\x00\x21\x00\x01",
        "0 true false 1 1 0 2 false false",
    ),
    (
        b"\x12\x34\x01\x00\x00\x01\x00\x00\x00\x00\x00\x00\x03www\x05child\x1Da-name-with-memory-of-its-own\x07example\x00\x00\x01\x00\x01",
        "0 false false 1 0 1 2 false false",
    ),
    (
        b"\x12\x34\x01\x00\x00\x01\x00\x00\x00\x00\x00\x00\x02no\x1Da-name-with-memory-of-its-own\x07example\x00\x00\x01\x00\x01",
        "3 true false 1 0 1 0 false false",
    ),
    (
        b"\x12\x34\x01\x00\x00\x01\x00\x00\x00\x00\x00\x00\x03www\x1Da-name-with-memory-of-its-own\x07example\x00\x00\x0F\x00\x01",
        "0 true false 1 0 1 0 false false",
    ),
];

/// What a reply says, as a row has it.
fn shown(alloc: Global, reply: &Message) -> Result<String, Fail> {
    let do_bit = match &reply.edns {
        Some(edns) => edns.flags.dnssec_ok,
        None => false,
    };
    let text = format!(in alloc;
        "{} {} {} {} {} {} {} {} {}",
        u16::from(reply.metadata.response_code),
        reply.metadata.authoritative,
        reply.metadata.truncation,
        reply.queries.len(),
        reply.answers.len(),
        reply.authorities.len(),
        reply.additionals.len(),
        reply.edns.is_some(),
        do_bit
    )?;
    Ok(text)
}

/// Whether a row is answered so, with the query's id.
fn is_sent(
    alloc: Global,
    origin: &Name,
    sets: &BTreeMap<RrKey, RecordSet>,
    row: &Row,
) -> Result<bool, Fail>
    requires { AreUnderKeys sets.now }
{
    let carrier = Carrier::Datagram(4096);
    let sent = respond(alloc, sets, origin, DNSClass::IN, row.0, carrier)?;
    let Some(bytes) = sent else {
        return Ok(row.1.is_empty());
    };
    let reply = Message::from_vec(alloc, &bytes)?;
    let text = shown(alloc, &reply)?;
    Ok(text.as_str() == row.1 && reply.metadata.id == 0x1234)
}

/// What is received of the first row that isn't answered so by the zone of a text.
fn first_wrong(
    alloc: Global,
    zone: &str,
    rows: &'static [Row],
) -> Result<Option<&'static [u8]>, Fail> {
    let (origin, sets) = parsed(alloc, zone)?;
    for row in rows {
        if !is_sent(alloc, &origin, &sets, row)? {
            return Ok(Some(row.0));
        }
    }
    Ok(None)
}

/// All rows, and the zones that are asked.
const TABLES: &[(&str, &[Row])] = &[
    (ZONE, QUESTIONS),
    (ZONE, EDNS),
    (ZONE, OTHERS),
    (zone::WIDE, WIDE),
    (zone::LONG, LONG),
];

#[test]
fn messages_are_answered(rt: HostRuntime) -> Result<(), Fail> {
    for &(zone, rows) in TABLES {
        let wrong = first_wrong(rt.alloc(), zone, rows)?;
        assert_eq!(rt; wrong, None);
    }
    Ok(())
}
