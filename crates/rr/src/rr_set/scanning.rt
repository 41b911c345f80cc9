//! Records among which one after the other is looked at, since there are few of them or no index yet.

ghost use Rattle.base_data.specs.SameData.{same_data};
ghost use Rattle.base_data.specs.declared.rdata.RData.{RData};
ghost use Rattle.rr.specs.RecordSet.{same_entry};
ghost use Rattle.rr.specs.SetChanges.{entered, has_data_of, has_entry, joined, renewed, replaced, without};
ghost use Rattle.rr.specs.declared.record.Record.{Record as Entry};
ghost use Rattle.std.specs.List.{AllByRecursion, list_any};
ghost use Rattle.std.specs.Prelude.{IfOk, OnErr, OnOk, [], length, map, nat_eq, not, set, true, ◌&&◌, ◌++◌, ◌<◌, ◌==◌, ◌∷◌, ◌≡◌, ◌≤◌};

use crate::record::Record;
use base::{DNSClass, RecordType};
use std::alloc::AllocError;

/// Puts a record among others, unless an equal one of its TTL is there, and answers whether it went in.
pub(super) fn enter(records: &mut Vec<Record>, entry: Record) -> Result<bool, AllocError>
    ensures ok { IfOk result (λ is_new. (is_new, records.new.items)
        ≡ entered entry records.old.items) }
    ensures err { OnErr result (records.new.items ≡ records.old.items) }
{
    if has_entry(records, &entry) {
        return Ok(false);
    }
    join(records, entry)?;
    Ok(true)
}

/// Makes the record the only one.
pub(super) fn put_alone(records: &mut Vec<Record>, entry: Record) -> Result<(), AllocError>
    requires { length records.old.items ≤ 1 }
    ensures ok { OnOk result (records.new.items ≡ entry ∷ []) }
    ensures err { OnErr result (records.new.items ≡ records.old.items) }
{
    if records.is_empty() {
        records.push(entry)?;
    } else {
        set_at(records, 0, entry);
    }
    Ok(())
}

/// Puts a record in the place of each of equal data, or after all where there is none. All memory is taken before the
/// first change.
pub(super) fn join(records: &mut Vec<Record>, entry: Record) -> Result<(), AllocError>
    ensures ok { OnOk result (records.new.items ≡ joined entry records.old.items) }
    ensures err { OnErr result (records.new.items ≡ records.old.items) }
{
    if !replace(records, &entry)? {
        records.push(entry)?;
    }
    Ok(())
}

/// Puts a copy of the record in the place of each of equal data, and answers whether there is one.
fn replace(records: &mut Vec<Record>, entry: &Record) -> Result<bool, AllocError>
    ensures any { IfOk result (λ is_any. is_any
        ≡ list_any (has_data_of entry.now) records.old.items) }
    ensures ok { OnOk result (records.new.items ≡ replaced entry.now records.old.items) }
    ensures err { OnErr result (records.new.items ≡ records.old.items) }
{
    let copies = copies_for(records, entry)?;
    let is_any = !copies.is_empty();
    renew(records, copies);
    Ok(is_any)
}

/// A copy of the record for each place whose record has the same data.
fn copies_for(records: &Vec<Record>, entry: &Record) -> Result<Vec<(usize, Record)>, AllocError>
    // With each copy set at its place, equal data is replaced by the record.
    ensures renewed { IfOk result (λ copies. renewed copies.items records.now.items
        ≡ replaced entry.now records.now.items) }
    // Each place is that of one of the records.
    ensures within { IfOk result
        (λ copies. AllByRecursion (λ p. p.0 < length records.now.items) copies.items) }
    // There are no copies exactly where no record has the data.
    ensures any { IfOk result (λ copies. (length copies.items == 0)
        ≡ not (list_any (has_data_of entry.now) records.now.items)) }
{
    let mut copies = Vec::new(*records.allocator());
    for i in 0..records.len() {
        if records[i].rdata == entry.rdata {
            push_copy(&mut copies, i, entry)?;
        }
    }
    Ok(copies)
}

/// Adds a copy of the record for a place.
fn push_copy(
    copies: &mut Vec<(usize, Record)>,
    place: usize,
    entry: &Record,
) -> Result<(), AllocError>
    ensures { OnOk result (copies.new.items ≡ copies.old.items ++ (place, entry.now) ∷ []) }
{
    let copy = entry.clone()?;
    copies.push((place, copy))?;
    Ok(())
}

/// Sets each copy at its place.
fn renew(records: &mut Vec<Record>, copies: Vec<(usize, Record)>)
    requires { AllByRecursion (λ p. p.0 < length records.old.items) copies.items }
    ensures { records.new.items ≡ renewed copies.items records.old.items }
{
    for (place, copy) in copies {
        set_at(records, place, copy);
    }
}

/// Sets a record at a place.
pub(super) fn set_at(records: &mut Vec<Record>, place: usize, entry: Record)
    requires { place < length records.old.items }
    ensures { records.new.items ≡ set records.old.items place entry }
{
    records[place] = entry;
}

/// Whether some record is equal to this one and has its TTL.
pub(super) fn has_entry(records: &[Record], entry: &Record) -> bool
    ensures { result ≡ has_entry entry.now records.now }
{
    for known in records {
        if is_entry(known, entry) {
            return true;
        }
    }
    false
}

/// Whether a record is equal to this one and has its TTL. What differs most often is compared first, and names, which
/// are equal in a set, last.
#[tactic(auto, using(crate::proofs::SetSteps::other_ttl, crate::proofs::SetSteps::other_data, crate::proofs::SetSteps::of_one_ttl))]
pub(super) fn is_entry(known: &Record, entry: &Record) -> bool
    ensures { result ≡ (same_entry known.now entry.now && nat_eq known.now.ttl entry.now.ttl) }
{
    if known.ttl != entry.ttl {
        return false;
    }
    if known.rdata != entry.rdata {
        return false;
    }
    is_equal(known, entry)
}

/// Whether records of equal data are equal.
#[tactic(auto, using(crate::proofs::SetSteps::other_class, crate::proofs::SetSteps::of_one_class))]
fn is_equal(known: &Record, entry: &Record) -> bool
    requires { same_data known.now.rdata entry.now.rdata ≡ true }
    ensures { result ≡ same_entry known.now entry.now }
{
    if known.dns_class != entry.dns_class {
        return false;
    }
    known.name == entry.name
}

/// Takes out the records with the data of this one.
pub(super) fn take_data(records: &mut Vec<Record>, entry: &Record)
    ensures { records.new.items ≡ without entry.now records.old.items }
{
    records.retain(|known| known.rdata != entry.rdata);
}

/// Sets the class of each record.
pub(super) fn set_classes(records: &mut Vec<Record>, dns_class: DNSClass)
    ensures { records.new.items
        ≡ map (λ (r : Entry RData). record r { dns_class = dns_class }) records.old.items }
{
    for entry in records.iter_mut() {
        entry.dns_class = dns_class;
    }
}

/// Sets the TTL of each record, in seconds.
pub(super) fn set_ttls(records: &mut Vec<Record>, ttl: u32)
    ensures { records.new.items
        ≡ map (λ (r : Entry RData). record r { ttl = ttl }) records.old.items }
{
    for entry in records.iter_mut() {
        entry.ttl = ttl;
    }
}
