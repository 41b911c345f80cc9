//! Deletions that take turns with additions to one large set, beside a plain list.

use crate::updates::applied::{apply_bytes, key};
use base::RecordType;
use base_data::{RData, TXT};
use examples::refusal::Refusal;
use op::ResponseCode;
use rr::{Record, RecordSet};
use std::alloc::{AllocError, Global};
use std::test::Fail;

/// The owner of the set, whose name has memory of its own.
const OWNER: &str = "a-name-with-memory-of-its-own.example.";

/// It has texts of one byte, from this number on, which has three digits as an escape has.
const LOWEST: u8 = 100;

/// How many it has at first.
const FIRST: u8 = 40;

/// The deletions are of the first of them, so many.
const DELETED: u8 = 30;

/// The additions are of numbers by as much higher, and of one that stays.
const HIGHER: u8 = 100;

const STAYS: u8 = 139;

/// The zone's text.
pub(super) fn zone(alloc: Global) -> Result<String, AllocError> {
    let mut text = String::from_str(alloc, "@ 3600 SOA ns hostmaster 1 2 3 4 5\n@ NS ns\n")?;
    for place in 0..FIRST {
        let number = place.wrapping_add(LOWEST);
        write!(text, "{OWNER} 300 TXT \\{number}\n")?;
    }
    Ok(text)
}

/// An update of `example.` up to its records, which are 105.
const UPDATE: &[u8] =
    b"\x00\x07\x28\x00\x00\x01\x00\x00\x00\x69\x00\x00\x07example\x00\x00\x06\x00\x01";

/// A deletion of a text of that owner, and an addition, up to the text's byte.
const DELETION: &[u8] =
    b"\x1Da-name-with-memory-of-its-own\xC0\x0C\x00\x10\x00\xFE\x00\x00\x00\x00\x00\x02\x01";

const ADDITION: &[u8] =
    b"\x1Da-name-with-memory-of-its-own\xC0\x0C\x00\x10\x00\x01\x00\x00\x00\x3C\x00\x02\x01";

/// Adds the record of a text to those of an update.
fn push_record(update: &mut Vec<u8>, change: &[u8], number: u8) -> Result<(), AllocError> {
    update.extend_from_slice(change)?;
    Ok(update.push(number)?)
}

/// A deletion, an addition, one of what stays in its place and, every other time, an addition of what was deleted, to an
/// update and to a plain list.
fn take_turn(update: &mut Vec<u8>, list: &mut Vec<u8>, place: u8) -> Result<(), AllocError> {
    let number = place.wrapping_add(LOWEST);
    let higher = number.wrapping_add(HIGHER);
    push_record(update, DELETION, number)?;
    list.retain(|known| *known != number);
    push_record(update, ADDITION, higher)?;
    list.push(higher)?;
    push_record(update, ADDITION, STAYS)?;
    if place % 2 == 0 {
        push_record(update, ADDITION, number)?;
        list.push(number)?;
    }
    Ok(())
}

/// The update with all the turns, and the list after them.
pub(super) fn turns(alloc: Global) -> Result<(Vec<u8>, Vec<u8>), AllocError> {
    let mut update = Vec::from_slice(alloc, UPDATE)?;
    let mut list = Vec::new(alloc);
    take_turns(&mut update, &mut list)?;
    Ok((update, list))
}

/// All the turns.
fn take_turns(update: &mut Vec<u8>, list: &mut Vec<u8>) -> Result<(), AllocError> {
    for place in 0..FIRST {
        list.push(place.wrapping_add(LOWEST))?;
    }
    for place in 0..DELETED {
        take_turn(update, list, place)?;
    }
    Ok(())
}

/// Whether the record has the text of this number.
fn has_text(record: &Record, number: u8) -> bool {
    match TXT::new(record.name.allocator(), &[&[number]]) {
        Ok(text) => {
            let wanted = RData::TXT(text);
            let same = record.rdata == wanted;
            drop(wanted);
            same
        }
        Err(_) => false,
    }
}

/// Whether the set has the texts of the list, in this order, with the TTL of the last.
fn has_list(set: &RecordSet, list: &[u8]) -> bool {
    let records = set.as_slice();
    for (record, number) in records.iter().zip(list) {
        if !has_text(record, *number) {
            return false;
        }
    }
    set.ttl() == 60 && records.len() == list.len()
}

/// Whether an update leaves the texts of the list.
fn leaves(alloc: Global, update: &[u8], list: &[u8]) -> Result<bool, Refusal> {
    let key = key(alloc, OWNER, RecordType::TXT)?;
    let text = zone(alloc)?;
    let (code, sets) = apply_bytes(alloc, &text, update)?;
    Ok(match sets.get(&key) {
        Some(set) => code == ResponseCode::NoError && has_list(set, list),
        None => false,
    })
}

#[test]
fn deletions_take_turns_with_additions(rt: HostRuntime) -> Result<(), Fail> {
    let (update, list) = turns(rt.alloc())?;
    assert!(rt; leaves(rt.alloc(), &update, &list)?);
    Ok(())
}
