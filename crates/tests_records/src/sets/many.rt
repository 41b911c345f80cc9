//! Sets of many records, beside a plain list.

use super::{Call, OWNER, call_on, records, set_of, shows};
use crate::rows::{Datum, Row, is_row, record};
use base::{DNSClass, Name, ParseError, RecordType};
use rr::{ChangingSet, RecordSet};
use std::alloc::{AllocError, Global};
use std::test::Fail;

/// A call, the TTL of its records, and the first address and the one after the last.
type Change = (Call, u32, u16, u16);

/// Whether a row is that of an address.
fn is_of(row: &Row, number: u16) -> bool {
    match row.0 {
        Datum::Address(known) => known == number,
        _ => false,
    }
}

/// Puts the record of an address into a plain list, in the place of the one of that address or after all, and tells
/// whether it is new.
fn put(rows: &mut Vec<Row>, number: u16, ttl: u32) -> Result<bool, AllocError> {
    let row = (Datum::Address(number), DNSClass::IN, ttl);
    if let Some(place) = rows.iter().position(|known| is_of(known, number)) {
        let is_new = rows[place].2 != ttl;
        rows[place] = row;
        return Ok(is_new);
    }
    rows.push(row)?;
    Ok(true)
}

/// Takes the record of an address out of a plain list, and tells whether it was there.
fn take(rows: &mut Vec<Row>, number: u16) -> bool {
    let before = rows.len();
    rows.retain(|known| !is_of(known, number));
    rows.len() < before
}

/// What the list answers to a call; true where the set has no answer, or finds the record that it was to make.
fn answer(rows: &mut Vec<Row>, call: Call, number: u16, ttl: u32) -> Result<bool, AllocError> {
    match call {
        Call::Insert => put(rows, number, ttl),
        Call::Remove | Call::Part => Ok(take(rows, number)),
        _ => {
            put(rows, number, ttl)?;
            Ok(true)
        }
    }
}

/// What the set answers.
fn set_answer(
    alloc: Global,
    set: &mut RecordSet,
    call: Call,
    number: u16,
    ttl: u32,
) -> Result<bool, Fail> {
    let entry = record(alloc, OWNER, (Datum::Address(number), DNSClass::IN, ttl))?;
    let answered = call_on(set, call, &entry, 1);
    drop(entry);
    Ok(answered?)
}

/// Whether the last record of the set is the last row, and the set has its TTL.
fn ends_as(alloc: Global, set: &RecordSet, rows: &[Row]) -> Result<bool, ParseError> {
    match (set.as_slice().last(), rows.last()) {
        (Some(entry), Some(&row)) => Ok(is_row(alloc, entry, row)? && set.ttl() == row.2),
        (None, None) => Ok(set.ttl() == 0),
        _ => Ok(false),
    }
}

/// Whether a call has the answer of that of the list, and the set ends as the list after those of updates. A record
/// that the set makes has the set's TTL.
fn agrees(
    alloc: Global,
    set: &mut RecordSet,
    rows: &mut Vec<Row>,
    (call, ttl): (Call, u32),
    number: u16,
) -> Result<bool, Fail> {
    let is_made = matches!(call, Call::Make);
    let ttl = if is_made { set.ttl() } else { ttl };
    let wanted = answer(rows, call, number, ttl)?;
    let same = set_answer(alloc, set, call, number, ttl)? == wanted;
    let is_of_update = matches!(call, Call::Renew | Call::Part);
    Ok(same && (!is_of_update || ends_as(alloc, set, rows)?))
}

/// Whether a change of the set answers as that of the list and leaves the same.
fn change_agrees(
    alloc: Global,
    set: &mut RecordSet,
    rows: &mut Vec<Row>,
    (call, ttl, from, to): Change,
) -> Result<bool, Fail> {
    let mut right = true;
    for number in from..to {
        right = agrees(alloc, set, rows, (call, ttl), number)? && right;
    }
    Ok(shows(alloc, set, rows)? && right)
}

/// Whether the changes of the set answer as those of the list and leave the same. Then the set is given the list
/// backward, and they are made again.
fn agree(alloc: Global, set: &mut RecordSet, changes: &[Change]) -> Result<bool, Fail> {
    let mut rows = Vec::new(alloc);
    let mut right = true;
    for _ in 0..2 {
        for &change in changes {
            right = change_agrees(alloc, set, &mut rows, change)? && right;
        }
        rows.reverse();
        set.set_records(records(alloc, &rows)?);
    }
    Ok(right)
}

/// Whether that is so of an empty set.
fn agree_from_nothing(alloc: Global, changes: &[Change]) -> Result<bool, Fail> {
    let mut set = set_of(alloc, RecordType::A, (0, 0, &[]))?;
    let agreed = agree(alloc, &mut set, changes);
    drop(set);
    agreed
}

#[test]
fn many_records_are_found(rt: HostRuntime) -> Result<(), Fail> {
    let changes = [
        (Call::Insert, 5, 0, 2000),
        (Call::Insert, 5, 990, 1010),
        (Call::Insert, 7, 1000, 2100),
        (Call::Remove, 0, 500, 600),
        (Call::Insert, 9, 550, 700),
        (Call::Make, 0, 680, 720),
        (Call::Make, 0, 2100, 2110),
        (Call::Remove, 0, 0, 10),
    ];
    assert!(rt; agree_from_nothing(rt.alloc(), &changes)?);
    Ok(())
}

#[test]
fn many_records_are_renewed(rt: HostRuntime) -> Result<(), Fail> {
    let changes = [
        (Call::Renew, 5, 0, 1000),
        (Call::Renew, 5, 490, 510),
        (Call::Renew, 7, 500, 1100),
        (Call::Part, 0, 250, 300),
        (Call::Insert, 9, 275, 350),
        (Call::Renew, 3, 260, 400),
        (Call::Part, 0, 1090, 1110),
        (Call::Part, 0, 0, 1100),
    ];
    assert!(rt; agree_from_nothing(rt.alloc(), &changes)?);
    Ok(())
}

/// Takes the data of these rows out of the set, and tells whether it had any.
fn take_all(alloc: Global, set: &mut RecordSet, rows: &[Row]) -> Result<bool, Fail> {
    let mut went = false;
    for entry in records(alloc, rows)? {
        went = set.take_data(&entry) || went;
    }
    Ok(went)
}

/// Takes the addresses of a range out of a plain list, and tells whether any was there.
fn take_range(rows: &mut Vec<Row>, (from, to): (u16, u16)) -> bool {
    let mut went = false;
    for number in from..to {
        went = take(rows, number) || went;
    }
    went
}

/// The addresses of a range, as they are taken out.
fn gone(alloc: Global, (from, to): (u16, u16)) -> Result<Vec<Row>, AllocError> {
    let mut rows = Vec::new(alloc);
    for number in from..to {
        rows.push((Datum::Address(number), DNSClass::NONE, 0))?;
    }
    Ok(rows)
}

/// Takes the addresses of a range out of the set, and out of a plain list: whether both answer alike and leave the same.
fn part_alike(
    alloc: Global,
    set: &mut RecordSet,
    rows: &mut Vec<Row>,
    range: (u16, u16),
) -> Result<bool, Fail> {
    let went = take_all(alloc, set, &gone(alloc, range)?)?;
    let same = went == take_range(rows, range);
    Ok(same && ends_as(alloc, set, rows)? && shows(alloc, set, rows)?)
}

/// The first addresses, each with its number as its TTL.
fn numbered(alloc: Global, count: u16) -> Result<Vec<Row>, AllocError> {
    let mut rows = Vec::new(alloc);
    for number in 0..count {
        rows.push((Datum::Address(number), DNSClass::IN, u32::from(number)))?;
    }
    Ok(rows)
}

/// Ranges of addresses that are taken out in turn.
const RANGES: &[(u16, u16)] = &[
    (3000, 3002),
    (0, 1),
    (100, 900),
    (100, 900),
    (1990, 2010),
    (950, 950),
    (1, 2000),
];

/// The last of the ranges, if any, that isn't taken out of a set of many as out of a plain list.
fn taken_otherwise(alloc: Global) -> Result<Option<(u16, u16)>, Fail> {
    let mut rows = numbered(alloc, 2000)?;
    let mut set = set_of(alloc, RecordType::A, (1999, 0, &rows))?;
    let mut wrong = None;
    for &range in RANGES {
        if !part_alike(alloc, &mut set, &mut rows, range)? {
            wrong = Some(range);
        }
    }
    drop(set);
    Ok(wrong)
}

#[test]
fn many_are_taken_out(rt: HostRuntime) -> Result<(), Fail> {
    let wrong = taken_otherwise(rt.alloc())?;
    assert!(rt; wrong.is_none(), "{wrong:?}");
    Ok(())
}

/// A set of these records, open for many changes.
fn opened(alloc: Global, rows: &[Row]) -> Result<ChangingSet, Fail> {
    let name = Name::parse(alloc, OWNER, None)?;
    let set = RecordSet::new(alloc, name, RecordType::A, 0);
    let mut open = ChangingSet::open(&set)?;
    for entry in records(alloc, rows)? {
        open.renew(&entry)?;
    }
    Ok(open)
}

/// Takes the addresses of these ranges out of an open set and out of a plain list: whether after each as many are left,
/// and in the end the same.
fn open_parts_alike(
    alloc: Global,
    mut rows: Vec<Row>,
    ranges: &[(u16, u16)],
) -> Result<bool, Fail> {
    let mut open = opened(alloc, &rows)?;
    let mut right = true;
    for &range in ranges {
        for entry in records(alloc, &gone(alloc, range)?)? {
            open.take_data(&entry)?;
        }
        take_range(&mut rows, range);
        right = open.records_count() == rows.len() && right;
    }
    let set = open.close()?;
    Ok(right && ends_as(alloc, &set, &rows)? && shows(alloc, &set, &rows)?)
}

#[test]
fn many_are_taken_out_of_an_open_set(rt: HostRuntime) -> Result<(), Fail> {
    for count in 0..RANGES.len() {
        let rows = numbered(rt.alloc(), 2000)?;
        assert!(rt;
            open_parts_alike(rt.alloc(), rows, &RANGES[..=count])?,
            "{count}"
        );
    }
    Ok(())
}

/// Whether a set of TTL 5 loses something where data that it hasn't is taken out twice, and its TTL then.
fn without_other_data(alloc: Global) -> Result<(bool, u32), Fail> {
    let rows = [(Datum::Address(0), DNSClass::IN, 60)];
    let mut set = set_of(alloc, RecordType::A, (5, 0, &rows))?;
    let went = take_all(
        alloc,
        &mut set,
        &[(Datum::Address(1), DNSClass::NONE, 0); 2],
    );
    let ttl = set.ttl();
    drop(set);
    Ok((went?, ttl))
}

#[test]
fn a_set_that_loses_nothing_keeps_its_ttl(rt: HostRuntime) -> Result<(), Fail> {
    assert!(rt; without_other_data(rt.alloc())? == (false, 5));
    Ok(())
}
