//! Updates that are applied: what TTL a set has then, and prerequisites by value, which ask for sets that have the data
//! that an update lists, and no other (RFC 2136, 3.2.3).

use crate::updates::name;
use base::{DNSClass, LowerName, RecordType, RrKey};
use examples::refusal::Refusal;
use op::{Message, ResponseCode};
use op_use::apply_update;
use parsed_zone::are_sets_in;
use rr::RecordSet;
use std::alloc::Global;
use std::collections::BTreeMap;
use std::test::Fail;
use test_tools::bytes::decode;
use txt::Parser;

/// The key of an owner and a type.
pub(super) fn key(alloc: Global, owner: &str, record_type: RecordType) -> Result<RrKey, Refusal> {
    let owner = name(alloc, owner)?;
    let lowered = LowerName::new(alloc, &owner);
    drop(owner);
    Ok(RrKey::new(lowered?, record_type))
}

/// The answer to an update, and the sets of the text's zone after it.
fn apply(
    alloc: Global,
    text: &str,
    update: &Message,
) -> Result<(ResponseCode, BTreeMap<RrKey, RecordSet>), Refusal> {
    let origin = name(alloc, "example.")?;
    let includes = BTreeMap::new(alloc);
    let (name, sets) = Parser::new(alloc, text, &includes, Some(origin)).parse()?;
    if !are_sets_in(&sets) {
        return Err(Refusal::Class);
    }
    Ok(apply_update(alloc, &sets, &name, DNSClass::IN, update)?)
}

/// The same of an update's bytes.
pub(super) fn apply_bytes(
    alloc: Global,
    text: &str,
    update: &[u8],
) -> Result<(ResponseCode, BTreeMap<RrKey, RecordSet>), Refusal> {
    let message = Message::from_vec(alloc, update)?;
    let applied = apply(alloc, text, &message);
    drop(message);
    applied
}

/// The answer to an update that a text in parts spells, and the TTL and the number of records that
/// the set of an owner and a type has after it.
fn set_after(
    alloc: Global,
    text: &str,
    update: &[&str],
    (owner, record_type): (&str, RecordType),
) -> Result<(ResponseCode, Option<(u32, usize)>), Refusal> {
    let key = key(alloc, owner, record_type)?;
    let spelled = update.concat(alloc)?;
    let bytes = decode(alloc, &spelled)?;
    let (code, sets) = apply_bytes(alloc, text, &bytes)?;
    let found = sets.get(&key).map(|set| (set.ttl(), set.records_count()));
    Ok((code, found))
}

/// The addresses of `www.example.`.
const OF_WWW: (&str, RecordType) = ("www.example.", RecordType::A);

/// The SOA of `example.`, and two addresses of `www.example.`.
const TWO: &str =
    "@ 3600 SOA ns hostmaster 1 2 3 4 5\n@ NS ns\nwww 300 A 192.0.2.1\nwww 600 A 192.0.2.2\n";

/// An update of `example.` by one address of `www.example.`, up to the record's class.
const UPDATE: &str =
    "0007 2800 0001 0000 0001 0000 076578616D706C65 00 0006 0001 03777777 C00C 0001";

/// The same SOA, and two addresses of `www.example.`, the first of which came last, so that the set has its TTL.
const RENEWED: &str =
    "@ 3600 SOA ns hostmaster 1 2 3 4 5\n@ NS ns\nwww 300 A 192.0.2.1\nwww 600 A 192.0.2.2\nwww 60 A 192.0.2.1\n";

/// Additions of these addresses with the TTL that each has, and of the first with its owner in capital letters.
const AND_WWW_1: &str = " 03777777 C00C 0001 0001 0000003C 0004 C0000201";

const AND_WWW_2: &str = " 03777777 C00C 0001 0001 00000258 0004 C0000202";

const AND_CAPITALS: &str = " 03575757 C00C 0001 0001 0000003C 0004 C0000201";

/// The deletion of their set.
const NO_WWW: &str = " 03777777 C00C 0001 00FF 00000000 0000";

/// The zone's text and updates of its addresses, and the TTL and the number of records that their
/// set has then: its own TTL where the records are the same in the end, however that came, and else
/// that of its last record.
pub(super) const TTLS: &[(&'static str, &'static [&'static str], (u32, usize))] = &[
    // where an address is deleted, and where one is added or given anew
    (TWO, &[UPDATE, " 00FE 00000000 0004 C0000201"], (600, 1)),
    (TWO, &[UPDATE, " 00FE 00000000 0004 C0000202"], (300, 1)),
    (TWO, &[UPDATE, " 0001 0000003C 0004 C0000203"], (60, 3)),
    (TWO, &[UPDATE, " 0001 0000003C 0004 C0000201"], (600, 2)),
    // where the records are the same in the end
    (RENEWED, &[DELETES, "0001", OF_ZONE, AND_WWW_1], (60, 2)),
    (RENEWED, &[DELETES, "0001", OF_ZONE, NOT_WWW_3], (60, 2)),
    (
        RENEWED,
        &[DELETES, "0002", OF_ZONE, NOT_WWW_2, AND_WWW_2],
        (60, 2),
    ),
    (
        RENEWED,
        &[DELETES, "0003", OF_ZONE, NO_WWW, AND_WWW_1, AND_WWW_2],
        (60, 2),
    ),
    (RENEWED, &[DELETES, "0001", OF_ZONE, AND_CAPITALS], (600, 2)),
];

#[test]
fn a_set_has_its_own_ttl_or_that_of_its_last_record(rt: HostRuntime) -> Result<(), Fail> {
    for &(text, update, wanted) in TTLS {
        let after = set_after(rt.alloc(), text, update, OF_WWW)?;
        assert!(rt;
            after == (ResponseCode::NoError, Some(wanted)),
            "{update:?}"
        );
    }
    Ok(())
}

/// The same SOA, two addresses of `www.example.`, and the first of them at `ftp.example.` too.
pub(super) const THREE: &str =
    "@ 3600 SOA ns hostmaster 1 2 3 4 5\n@ NS ns\nwww 300 A 192.0.2.1\nwww 300 A 192.0.2.2\nftp 300 A 192.0.2.1\n";

/// An update of `example.` up to its number of prerequisites, and the zone section after it.
const START: &str = "0007 2800 0001 ";

const ZONE: &str = " 0000 0000 076578616D706C65 00 0006 0001";

/// Prerequisites: addresses of `www.example.` and `ftp.example.`, by their last byte.
const WWW_1: &str = " 03777777 C00C 0001 0001 00000000 0004 C0000201";

const WWW_2: &str = " 03777777 C00C 0001 0001 00000000 0004 C0000202";

const WWW_3: &str = " 03777777 C00C 0001 0001 00000000 0004 C0000203";

const FTP_1: &str = " 03667470 C00C 0001 0001 00000000 0004 C0000201";

/// The answers where what an update lists is there, and where it isn't.
const MET: ResponseCode = ResponseCode::NoError;

const UNMET: ResponseCode = ResponseCode::NXRRSet;

/// Updates without changes, and their answers.
pub(super) const LISTED: &[(&'static [&'static str], ResponseCode)] = &[
    // sets are looked at one by one, whatever the order of their data, and the same data may be listed twice
    (&[START, "0001", ZONE, FTP_1], MET),
    (&[START, "0002", ZONE, WWW_2, WWW_1], MET),
    (&[START, "0003", ZONE, WWW_2, FTP_1, WWW_1], MET),
    (&[START, "0004", ZONE, WWW_1, WWW_2, WWW_1, WWW_2], MET),
    // data that isn't listed for its own set, or that isn't there, fails the update
    (&[START, "0001", ZONE, WWW_1], UNMET),
    (&[START, "0002", ZONE, WWW_1, WWW_3], UNMET),
    (&[START, "0003", ZONE, WWW_1, WWW_2, WWW_3], UNMET),
    (&[START, "0002", ZONE, WWW_2, FTP_1], UNMET),
    (&[START, "0003", ZONE, FTP_1, WWW_1, WWW_1], UNMET),
];

#[test]
fn sets_are_asked_for_by_value(rt: HostRuntime) -> Result<(), Fail> {
    for &(update, wanted) in LISTED {
        let after = set_after(rt.alloc(), THREE, update, OF_WWW)?;
        assert!(rt; after == (wanted, Some((300, 2))), "{update:?}");
    }
    Ok(())
}

/// The SOA of `example.` with two name servers, two addresses of `www.example.` and one of `ftp.example.`.
pub(super) const SERVERS: &str =
    "@ 3600 SOA ns hostmaster 1 2 3 4 5\n@ NS ns\n@ NS ns2\nwww 300 A 192.0.2.1\nwww 300 A 192.0.2.2\nftp 300 A 192.0.2.1\n";

/// An update of `example.` up to its number of updates, and the zone section after it.
const DELETES: &str = "0007 2800 0001 0000 ";

const OF_ZONE: &str = " 0000 076578616D706C65 00 0006 0001";

/// Deletions of data: of addresses by their last byte, and of both name servers.
const NOT_WWW_1: &str = " 03777777 C00C 0001 00FE 00000000 0004 C0000201";

const NOT_WWW_2: &str = " 03777777 C00C 0001 00FE 00000000 0004 C0000202";

const NOT_WWW_3: &str = " 03777777 C00C 0001 00FE 00000000 0004 C0000203";

const NOT_FTP_1: &str = " 03667470 C00C 0001 00FE 00000000 0004 C0000201";

const NOT_NS: &str = " C00C 0002 00FE 00000000 0005 026E73 C00C";

const NOT_NS_2: &str = " C00C 0002 00FE 00000000 0006 036E7332 C00C";

/// Deletions that follow one another, and how many addresses of `www.example.` and of `ftp.example.` and name servers
/// are left (RFC 2136, 3.4.2.4).
pub(super) const LEFT: &[(&'static [&'static str], [usize; 3])] = &[
    (&[DELETES, "0002", OF_ZONE, NOT_WWW_1, NOT_WWW_2], [0, 1, 2]),
    (
        &[DELETES, "0003", OF_ZONE, NOT_WWW_1, NOT_WWW_2, NOT_FTP_1],
        [0, 0, 2],
    ),
    (
        &[DELETES, "0003", OF_ZONE, NOT_WWW_1, NOT_FTP_1, NOT_WWW_1],
        [1, 0, 2],
    ),
    (&[DELETES, "0002", OF_ZONE, NOT_WWW_3, NOT_WWW_3], [2, 1, 2]),
    // what is added between two deletions goes with the second
    (
        &[DELETES, "0003", OF_ZONE, NOT_WWW_1, WWW_1, NOT_WWW_1],
        [1, 1, 2],
    ),
    // the last name server stays
    (&[DELETES, "0002", OF_ZONE, NOT_NS, NOT_NS_2], [2, 1, 1]),
    (
        &[DELETES, "0003", OF_ZONE, NOT_NS, NOT_NS, NOT_NS_2],
        [2, 1, 1],
    ),
];

/// How many records a set has after an update.
fn count_after(alloc: Global, update: &[&str], set: (&str, RecordType)) -> Result<usize, Refusal> {
    let (_, found) = set_after(alloc, SERVERS, update, set)?;
    Ok(match found {
        Some((_, count)) => count,
        None => 0,
    })
}

/// The sets that are counted.
const COUNTED: [(&str, RecordType); 3] = [
    OF_WWW,
    ("ftp.example.", RecordType::A),
    ("example.", RecordType::NS),
];

#[test]
fn deletions_follow_one_another(rt: HostRuntime) -> Result<(), Fail> {
    for &(update, left) in LEFT {
        for (&set, &count) in COUNTED.iter().zip(&left) {
            assert!(rt;
                count_after(rt.alloc(), update, set)? == count,
                "{update:?}"
            );
        }
    }
    Ok(())
}
