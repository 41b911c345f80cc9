//! Which messages are sent for a zone transfer (RFC 5936, 2.2).

use crate::zone::{LONG_ORIGIN, ZONE, parsed};
use authority::{TransferPlace, transfer};
use base::{DNSClass, Name, RecordType, RrKey};
use base_data::RData;
use op::Message;
use rr::{Record, RecordSet};
use std::alloc::Global;
use std::collections::BTreeMap;
use std::test::Fail;

/// A query, and the number of the code of the one message that it is answered with.
type Row = (&'static [u8], u16);

/// Queries that ask for no transfer of the zone.
const REFUSED: &[Row] = &[
    // another type: A and IXFR
    (
        b"\x12\x34\x01\x00\x00\x01\x00\x00\x00\x00\x00\x00\x07example\x00\x00\x01\x00\x01",
        4,
    ),
    (
        b"\x12\x34\x01\x00\x00\x01\x00\x00\x00\x00\x00\x00\x07example\x00\x00\xFB\x00\x01",
        4,
    ),
    // another name: below the origin, and elsewhere
    (
        b"\x12\x34\x01\x00\x00\x01\x00\x00\x00\x00\x00\x00\x03www\x07example\x00\x00\xFC\x00\x01",
        9,
    ),
    (
        b"\x12\x34\x01\x00\x00\x01\x00\x00\x00\x00\x00\x00\x09elsewhere\x00\x00\xFC\x00\x01",
        9,
    ),
    // the class CH, and IN with its top bit set
    (
        b"\x12\x34\x01\x00\x00\x01\x00\x00\x00\x00\x00\x00\x07example\x00\x00\xFC\x00\x03",
        5,
    ),
    (
        b"\x12\x34\x01\x00\x00\x01\x00\x00\x00\x00\x00\x00\x07example\x00\x00\xFC\x80\x01",
        5,
    ),
    // no question, and STATUS
    (b"\x12\x34\x01\x00\x00\x00\x00\x00\x00\x00\x00\x00", 1),
    (
        b"\x12\x34\x11\x00\x00\x01\x00\x00\x00\x00\x00\x00\x07example\x00\x00\xFC\x00\x01",
        4,
    ),
    // EDNS of version 1
    (
        b"\x12\x34\x01\x00\x00\x01\x00\x00\x00\x00\x00\x01\x07example\x00\x00\xFC\x00\x01\x00\x00\x29\x10\x00\x00\x01\x00\x00\x00\x00",
        16,
    ),
];

/// A query for the zone, with EDNS.
const QUERY: &[u8] =
    b"\x12\x34\x01\x00\x00\x01\x00\x00\x00\x00\x00\x01\x07EXAMPLE\x00\x00\xFC\x00\x01\x00\x00\x29\x10\x00\x00\x00\x80\x00\x00\x00";

/// The same for a zone whose names take memory of their own.
const LONG_QUERY: &[u8] =
    b"\x12\x34\x01\x00\x00\x01\x00\x00\x00\x00\x00\x01\x1DA-NAME-WITH-MEMORY-OF-ITS-OWN\x07EXAMPLE\x00\x00\xFC\x00\x01\x00\x00\x29\x10\x00\x00\x00\x80\x00\x00\x00";

/// What was transferred.
#[derive(Drop)]
struct Outcome {
    /// How many messages there were.
    messages: usize,
    /// The code of the last one, and whether it has AA.
    last: (u16, bool),
    /// Whether each was sent as it has to be.
    is_right: bool,
    /// All answers.
    records: Vec<Record>,
}

/// Whether what is read of a message of a transfer is the message, uncut, and has AA, EDNS and answers alone; the first
/// a question.
fn is_read_right(read: &Message, message: &Message, is_first: bool) -> bool {
    read.metadata.authoritative
        && !read.metadata.truncation
        && read.queries.len() == usize::from(is_first)
        && read.edns.is_some()
        && read.answers == message.answers
        && !read.answers.is_empty()
        && read.authorities.is_empty()
}

/// Whether a message of a transfer is as it has to be.
fn is_right(alloc: Global, message: &Message, is_first: bool) -> Result<bool, Fail> {
    let bytes = message.to_vec()?;
    let read = Message::from_vec(alloc, &bytes)?;
    Ok(is_read_right(&read, message, is_first))
}

/// Notes a message of a transfer, and moves its answers.
fn note(alloc: Global, all: &mut Outcome, message: &mut Message) -> Result<(), Fail> {
    let is_right = is_right(alloc, message, all.messages == 0)?;
    all.is_right = all.is_right && is_right;
    all.messages = usize::saturating_add(all.messages, 1);
    let code = u16::from(message.metadata.response_code);
    all.last = (code, message.metadata.authoritative);
    all.records.append(&mut message.answers)?;
    Ok(())
}

/// Goes on with a transfer by a message, if there is one; answers whether there is.
fn go_on(
    alloc: Global,
    origin: &Name,
    sets: &BTreeMap<RrKey, RecordSet>,
    query: &Message,
    place: &mut TransferPlace,
    all: &mut Outcome,
) -> Result<bool, Fail> {
    let step = transfer(alloc, sets, origin, DNSClass::IN, query, place)?;
    let Some((mut message, next)) = step else {
        return Ok(false);
    };
    *place = next;
    note(alloc, all, &mut message)?;
    Ok(true)
}

/// All messages of a transfer that is asked for so; it isn't right where there are more than so many.
fn transferred(
    alloc: Global,
    origin: &Name,
    sets: &BTreeMap<RrKey, RecordSet>,
    query: &Message,
    most: usize,
) -> Result<Outcome, Fail> {
    let mut all = Outcome {
        messages: 0,
        last: (0, false),
        is_right: true,
        records: Vec::new(alloc),
    };
    let mut place = TransferPlace::Start;
    for _ in 0..most {
        if !go_on(alloc, origin, sets, query, &mut place, &mut all)? {
            return Ok(all);
        }
    }
    all.is_right = false;
    Ok(all)
}

/// Whether a record is an SOA.
fn is_soa(record: Option<&Record>) -> bool {
    match record {
        Some(record) => matches!(record.rdata, RData::SOA(_)),
        None => false,
    }
}

/// Whether records begin and end with an SOA.
fn is_between_soas(records: &[Record]) -> bool {
    is_soa(records.first()) && is_soa(records.last())
}

/// Whether records are, between two SOAs, all records of the sets in their order.
fn is_whole(records: &[Record], sets: &BTreeMap<RrKey, RecordSet>) -> bool {
    let mut place = 1;
    for set in sets.values() {
        for record in set.as_slice() {
            if is_soa(Some(record)) {
                continue;
            }
            if records.get(place) != Some(record) {
                return false;
            }
            place = usize::saturating_add(place, 1);
        }
    }
    is_between_soas(records) && usize::saturating_add(place, 1) == records.len()
}

/// What a transfer comes to.
#[derive(Clone, Copy, Drop)]
struct Summary {
    /// How many messages there are, and how many records.
    messages: usize,
    records: usize,
    /// The code of the last message, and whether it has AA.
    last: (u16, bool),
    /// Whether each message was sent as it has to be, and an SOA begins and ends the records.
    is_right: bool,
    /// Whether the records are all of the zone.
    is_whole: bool,
}

/// What the transfer of a zone comes to.
fn transfer_summary(
    alloc: Global,
    origin: &Name,
    sets: &BTreeMap<RrKey, RecordSet>,
    query: &Message,
    most: usize,
) -> Result<Summary, Fail> {
    let all = transferred(alloc, origin, sets, query, most)?;
    Ok(Summary {
        messages: all.messages,
        records: all.records.len(),
        last: all.last,
        is_right: all.is_right && is_between_soas(&all.records),
        is_whole: is_whole(&all.records, sets),
    })
}

/// The same of the zone of a text, and of a query's bytes.
fn summary_of(alloc: Global, zone: &str, query: &[u8], most: usize) -> Result<Summary, Fail> {
    let (origin, sets) = parsed(alloc, zone)?;
    let query = Message::from_vec(alloc, query)?;
    transfer_summary(alloc, &origin, &sets, &query, most)
}

/// The text of a zone of an origin: a set of so many addresses, and as many names.
fn wide_text(alloc: Global, origin: &str, count: u32) -> Result<String, Fail> {
    let mut text = format!(in alloc; "$ORIGIN {origin}\n$TTL 3600\n")?;
    text.push_str("@ SOA ns1 admin 7 7200 3600 1209600 300\n")?;
    for number in 0..count {
        let high = number / 256 % 256;
        let low = number % 256;
        let line = format!(in alloc;
            "large A 10.0.{high}.{low}\nhost-{number} A 10.1.{high}.{low}\n"
        )?;
        text.push_str(&line)?;
    }
    Ok(text)
}

/// How many messages the transfer of such a zone takes, if it is right and whole.
fn messages_of(
    alloc: Global,
    origin: &str,
    count: u32,
    query: &[u8],
) -> Result<Option<usize>, Fail> {
    let text = wide_text(alloc, origin, count)?;
    let summary = summary_of(alloc, &text, query, 20)?;
    Ok((summary.is_right && summary.is_whole).then_some(summary.messages))
}

/// Large zones: an origin, how many addresses and names it has, the query, and how many messages there are.
const LARGE: &[(&str, u32, &[u8], usize)] = &[
    ("example.", 4000, QUERY, 4),
    // 145,604 bytes of records, of which three messages hold 65,535 each: the second goes on at a name, the third
    // within the set
    (LONG_ORIGIN, 1200, LONG_QUERY, 3),
    // 65,387 bytes of records, which leave no room for the 157 of the last SOA
    (LONG_ORIGIN, 540, LONG_QUERY, 2),
];

#[test]
fn large_zones_go_over_messages(rt: HostRuntime) -> Result<(), Fail> {
    for &(origin, count, query, wanted) in LARGE {
        let messages = messages_of(rt.alloc(), origin, count, query)?;
        assert_eq!(rt; messages, Some(wanted));
    }
    Ok(())
}

/// The code of the one message that a query is answered with, if it is answered by one without records.
fn code_of(alloc: Global, zone: &str, query: &[u8]) -> Result<Option<u16>, Fail> {
    let summary = summary_of(alloc, zone, query, 2)?;
    let (code, is_authoritative) = summary.last;
    let is_refusal = summary.messages == 1 && summary.records == 0 && !is_authoritative;
    Ok(is_refusal.then_some(code))
}

/// A zone without SOA, which isn't transferred.
const WITHOUT_SOA: &str = "$ORIGIN example.\n$TTL 3600\nwww A 192.0.2.1\n";

#[test]
fn other_queries_and_zones_are_refused(rt: HostRuntime) -> Result<(), Fail> {
    for row in REFUSED {
        let code = code_of(rt.alloc(), ZONE, row.0)?;
        assert_eq!(rt; code, Some(row.1));
    }
    let code = code_of(rt.alloc(), WITHOUT_SOA, QUERY)?;
    assert_eq!(rt; code, Some(2));
    Ok(())
}

/// Adds a record without data to each set of addresses.
fn add_empty(sets: &mut BTreeMap<RrKey, RecordSet>) -> Result<(), Fail> {
    for (key, set) in sets {
        if key.record_type != RecordType::A {
            continue;
        }
        let empty = Record {
            name: key.name.as_name().clone()?,
            dns_class: DNSClass::IN,
            ttl: 0,
            rdata: RData::Update0(key.record_type),
            mdns_cache_flush: false,
        };
        set.renew(empty)?;
    }
    Ok(())
}

/// What the transfer of a small zone comes to, and what where each set of addresses has a record without data too.
fn small_summaries(alloc: Global) -> Result<(Summary, Summary), Fail> {
    let (origin, mut sets) = parsed(alloc, ZONE)?;
    let query = Message::from_vec(alloc, QUERY)?;
    let plain = transfer_summary(alloc, &origin, &sets, &query, 3)?;
    add_empty(&mut sets)?;
    let with_empty = transfer_summary(alloc, &origin, &sets, &query, 3)?;
    Ok((plain, with_empty))
}

#[test]
fn a_small_zone_is_one_message_without_empty_data(rt: HostRuntime) -> Result<(), Fail> {
    let (plain, with_empty) = small_summaries(rt.alloc())?;
    assert_eq!(rt; plain.messages, 1);
    assert!(rt; plain.is_right);
    assert!(rt; with_empty.is_right);
    assert_eq!(rt; with_empty.records, plain.records);
    Ok(())
}
