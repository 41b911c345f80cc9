use super::Call::Add;
use super::{OWNER, is_right, set_of, shows};
use crate::rows::Datum::Address;
use crate::rows::{Row, is_row, record};
use base::{DNSClass, Name, RecordType};
use rr::{RecordSet, RecordSetParts, RrsetRecords};
use std::alloc::Global;
use std::test::Fail;
use test_tools::forms::is_copied;

/// Whether the hint says that exactly `left` records are left.
fn has_left(entries: &RrsetRecords<'_>, left: usize) -> bool {
    entries.size_hint() == (left, Some(left))
}

/// Whether the hint of a set of two records is exact before each of them and at the end, which isn't taken for an empty
/// set.
fn hints_are_exact(set: &RecordSet) -> bool {
    let mut entries = set.records_without_rrsigs();
    let all = has_left(&entries, 2) && entries.next().is_some();
    let one = has_left(&entries, 1) && entries.next().is_some();
    let none = has_left(&entries, 0) && entries.next().is_none();
    all && one && none && !entries.is_empty()
}

/// Two records with a TTL of 3600.
const ADDED: [Row; 2] = [
    (Address(24), DNSClass::IN, 3600),
    (Address(25), DNSClass::IN, 3600),
];

/// Whether an empty set with that TTL gives the records that are added, each with that TTL.
fn gives_what_is_added(alloc: Global, set: &mut RecordSet) -> Result<bool, Fail> {
    let before = set.records_without_rrsigs();
    let empty = has_left(&before, 0) && before.is_empty();
    let mut added = true;
    for &row in &ADDED {
        added = is_right(alloc, set, (Add, row, 0, true))? && added;
    }
    let timed = shows(alloc, set, &ADDED)? && set.ttl() == 3600 && set.serial() == 0;
    Ok(empty && added && timed && hints_are_exact(set))
}

#[test]
fn hints_tell_how_many_are_left(rt: HostRuntime) -> Result<(), Fail> {
    let name = Name::parse(rt.alloc(), OWNER, None)?;
    let mut set = RecordSet::with_ttl(rt.alloc(), name, RecordType::A, 3600);
    let right = gives_what_is_added(rt.alloc(), &mut set);
    drop(set);
    assert!(rt; right?);
    Ok(())
}

/// Two records.
const FOREIGN: [Row; 2] = [
    (Address(24), DNSClass::CH, 1),
    (Address(25), DNSClass::IN, 2),
];

/// Whether a set lends both records, and as `record` the first.
fn foreign_records_are_lent(alloc: Global, set: &RecordSet) -> Result<bool, Fail> {
    let first = match set.record() {
        Some(entry) => is_row(alloc, entry, FOREIGN[0])?,
        None => false,
    };
    Ok(first && set.records_count() == 2 && shows(alloc, set, &FOREIGN)?)
}

/// Whether a set gives both records.
fn foreign_records_are_given(alloc: Global, set: RecordSet) -> bool {
    let mut rows = FOREIGN.iter();
    let mut right = true;
    for entry in set {
        let same = match rows.next() {
            Some(&row) => is_row(alloc, &entry, row).unwrap_or(false),
            None => false,
        };
        drop(entry);
        right = same && right;
    }
    right && rows.next().is_none()
}

#[test]
fn records_are_given_as_handed_in(rt: HostRuntime) -> Result<(), Fail> {
    let mut set = set_of(rt.alloc(), RecordType::A, (0, 0, &FOREIGN))?;
    let lent = foreign_records_are_lent(rt.alloc(), &set);
    let given = foreign_records_are_given(rt.alloc(), set);
    assert!(rt; lent? && given);
    Ok(())
}

/// The set of one record, whose class and TTL were then set to others.
fn set_anew(alloc: Global) -> Result<RecordSet, Fail> {
    let mut set = RecordSet::try_from(record(alloc, OWNER, (Address(24), DNSClass::CH, 60))?)?;
    set.set_dns_class(DNSClass::HS);
    set.set_ttl(90);
    Ok(set)
}

/// Whether the parts are those of that set.
fn are_set_anew(alloc: Global, parts: RecordSetParts) -> bool {
    let record = match parts.records.first() {
        Some(entry) => is_row(alloc, entry, (Address(24), DNSClass::HS, 90)).unwrap_or(false),
        None => false,
    };
    let typed = parts.record_type == RecordType::A && parts.dns_class == DNSClass::HS;
    let numbers = parts.ttl == 90 && parts.serial == 0 && parts.records.len() == 1;
    drop(parts);
    record && typed && numbers
}

#[test]
fn a_set_is_taken_apart(rt: HostRuntime) -> Result<(), Fail> {
    assert!(rt; are_set_anew(rt.alloc(), set_anew(rt.alloc())?.into_parts()));
    assert!(rt; are_set_anew(rt.alloc(), RecordSetParts::from(set_anew(rt.alloc())?)));
    assert!(rt; is_copied(set_anew(rt.alloc())?));
    assert!(rt; is_copied(set_anew(rt.alloc())?.into_parts()));
    Ok(())
}
