//! The records of a set, in order, found by their data.

ghost use Rattle.base_data.specs.Kinds.{canonical_data};
ghost use Rattle.base_data.specs.declared.rdata.RData.{RData};
ghost use Rattle.base.specs.Keys.{indexed_at};
ghost use Rattle.rr.specs.DataIndex.{IsCurrent, IsFirstAt, IsIndexOf, IsOnlyAt, IsPlaceFor};
ghost use Rattle.rr.specs.SetChanges.{entered, has_data_of, joined, without};
ghost use Rattle.rr.specs.declared.record.Record.{Record as Entry};
ghost use Rattle.std.specs.List.{list_any};
ghost use Rattle.std.specs.Prelude.{IfNone, IfOk, IfSome, List, MatchOption, OnErr, OnOk, [], false, length, map, vec_capacity, ◌<◌, ◌∷◌, ◌≡◌, ◌≤◌};

use crate::record::Record;
use crate::rr_set::data_index::{DataIndex, data_key};
use crate::rr_set::scanning::{
    enter, is_entry, join, put_alone, set_at, set_classes, set_ttls, take_data,
};
use base::DNSClass;
use base_data::RData;
use std::alloc::{AllocError, Global};
use std::collections::BTreeMap;
use std::fmt;
use std::marker::Model;
use std::mem::replace;

/// Among so many records equal data is looked for one by one.
const FEW: usize = 24;

/// So often equal data is looked for one by one among more records before there is an index of them.
const SCANS: u8 = 24;

/// The records of a set, in order, with an index of their data once there are many.
pub(super) struct IndexedRecords {
    records: Vec<Record>,
    index: Index,
}

/// What is known of the places of data among the records.
#[derive(Drop)]
enum Index {
    /// Nothing; so often equal data was looked for one by one among many.
    Missing { scans: u8 },
    /// The place of each record.
    Made(Box<DataIndex>),
}

impl Model for IndexedRecords {
    ghost use Rattle.std.specs.Prelude.{List};
    ghost use Rattle.base_data.specs.declared.rdata.RData.{RData};
    ghost use Rattle.rr.specs.declared.record.Record.{Record as Entry};
    ghost use Rattle.rr.specs.DataIndex.{IsCurrent};

    ghost Value = { List (Entry RData) };

    ghost view = { λ r. r.records.items };

    ghost invariant = { λ r. IsCurrent r.index r.records.items };
}

impl IndexedRecords {
    /// No records. Takes no memory.
    pub(super) fn new(alloc: Global) -> IndexedRecords
        ensures { result ≡ [] }
    {
        IndexedRecords::of(Vec::new(alloc))
    }

    /// These records. Takes no memory.
    pub(super) fn of(records: Vec<Record>) -> IndexedRecords
        ensures { result ≡ records.items }
    {
        IndexedRecords {
            records,
            index: Index::Missing { scans: 0 },
        }
    }

    /// The records, in order.
    pub(super) fn as_slice(&self) -> &[Record]
        ensures { result.now ≡ self.now }
    {
        &self.records
    }

    /// The records, in order. Takes no memory.
    pub(super) fn into_vec(self) -> Vec<Record>
        ensures { result.items ≡ self }
    {
        let IndexedRecords { records, index: _ } = self;
        records
    }

    /// Makes the record the only one.
    pub(super) fn put_alone(&mut self, entry: Record) -> Result<(), AllocError>
        requires { length self.old ≤ 1 }
        ensures ok { OnOk result (self.new ≡ entry ∷ []) }
        ensures err { OnErr result (self.new ≡ self.old) }
    {
        self.index = Index::Missing { scans: 0 };
        put_alone(&mut self.records, entry)
    }

    /// Puts a record among the others, unless an equal one of its TTL is there. The answer is whether it went in, and
    /// where the first record of its data stands then, if an index told that.
    pub(super) fn enter(&mut self, entry: Record) -> Result<(bool, Option<usize>), AllocError>
        ensures ok { IfOk result (λ done. (done.0, self.new) ≡ entered entry self.old) }
        // A place that is told is that of the first record of equal data.
        ensures place { IfOk result (λ done. IfSome done.1 (IsFirstAt entry.rdata self.new)) }
        ensures err { OnErr result (self.new ≡ self.old) }
    {
        let Some(place) = make_room(&mut self.records, &mut self.index, &entry)? else {
            return Ok((enter(&mut self.records, entry)?, None));
        };
        Ok((enter_at(&mut self.records, place, entry), Some(place)))
    }

    /// Puts a record in the place of each of equal data, or after the others where there is none.
    pub(super) fn join(&mut self, entry: Record) -> Result<(), AllocError>
        ensures ok { OnOk result (self.new ≡ joined entry self.old) }
        ensures err { OnErr result (self.new ≡ self.old) }
    {
        let Some(place) = make_room(&mut self.records, &mut self.index, &entry)? else {
            return join(&mut self.records, entry);
        };
        join_at(&mut self.records, place, entry);
        Ok(())
    }

    /// Takes out the records with the data of this one. Takes no memory.
    pub(super) fn take_data(&mut self, entry: &Record)
        ensures { self.new ≡ without entry.now self.old }
    {
        self.index = Index::Missing { scans: 0 }; // Places move.
        take_data(&mut self.records, entry);
    }

    /// Sets the class of each record. Takes no memory.
    pub(super) fn set_dns_class(&mut self, dns_class: DNSClass)
        ensures { self.new
            ≡ map (λ (r : Entry RData). record r { dns_class = dns_class }) self.old }
    {
        set_classes(&mut self.records, dns_class);
    }

    /// Sets the TTL of each record, in seconds. Takes no memory.
    pub(super) fn set_ttl(&mut self, ttl: u32)
        ensures { self.new ≡ map (λ (r : Entry RData). record r { ttl = ttl }) self.old }
    {
        set_ttls(&mut self.records, ttl);
    }
}

impl Index {
    /// Takes out the index by which a record is to be found among these: the one that there is, or a new one of many
    /// records that were gone through often.
    fn take(&mut self, records: &Vec<Record>) -> Result<Option<Box<DataIndex>>, AllocError>
        requires { IsCurrent self.old records.now.items }
        // An index that is answered has the place of each of these records.
        ensures index { IfOk result
            (λ index. IfSome index
            (λ places. IsIndexOf (indexed_at places.value) records.now.items)) }
        // None is left, so that the records may change.
        ensures missing { (rs : List (Entry RData)) → IsCurrent self.new rs }
    {
        let scans = match replace(self, Index::Missing { scans: 0 }) {
            Index::Made(places) => return Ok(Some(places)),
            Index::Missing { scans } => scans,
        };
        if records.len() <= FEW {
            return Ok(None);
        }
        if scans < SCANS {
            *self = Index::Missing { scans: scans + 1 };
            return Ok(None);
        }
        index_of(records)
    }
}

impl Clone for IndexedRecords {
    ghost is_clone = { λ a b. b ≡ a };

    fn clone(&self) -> Result<IndexedRecords, AllocError> {
        Ok(IndexedRecords::of(self.records.clone()?))
    }
}

// By hand, since with a derived one a proof splits by whether there is an index wherever these records are dropped.
impl Drop for IndexedRecords {
    fn drop(self) {
        let IndexedRecords {
            records: _,
            index: _,
        } = self;
    }
}

impl fmt::Debug for IndexedRecords {
    /// The records alone.
    fn fmt<W: fmt::Write>(&self, f: &mut fmt::Formatter<W>) -> fmt::Result {
        fmt::Debug::fmt(&self.records, f)
    }
}

/// The index of these records, or none where two of them have one canonical form.
fn index_of(records: &Vec<Record>) -> Result<Option<Box<DataIndex>>, AllocError>
    // An index that is answered has the place of each of these records.
    ensures index { IfOk result
        (λ index. IfSome index (λ places. IsIndexOf (indexed_at places.value) records.now.items)) }
{
    let alloc = *records.allocator();
    let mut places = BTreeMap::new(alloc);
    for place in 0..records.len() {
        let key = data_key(&records[place].rdata, alloc)?;
        if places.insert(key, place)?.is_some() {
            return Ok(None);
        }
    }
    Ok(Some(Box::new(alloc, places)?))
}

/// The place of the record with the data of this one, whose canonical form is the key.
fn place_of(places: &DataIndex, records: &Vec<Record>, key: &[u8], entry: &Record) -> Option<usize>
    requires indexed { IsIndexOf (indexed_at places.now) records.now.items }
    requires key { key.now ≡ canonical_data entry.now.rdata }
    ensures { MatchOption result (list_any (has_data_of entry.now) records.now.items
        ≡ false) (IsOnlyAt entry.now.rdata records.now.items) }
{
    let Some(place) = places.get(key) else {
        return None;
    };
    let count = records.len();
    if *place >= count {
        return None;
    }
    if records[*place].rdata == entry.rdata {
        return Some(*place);
    }
    None
}

/// Finds where a record goes by the index of these, if there is one then: in the place of the one of equal data, or
/// after all. Makes room for it, and takes its place into the index.
fn make_room(
    records: &mut Vec<Record>,
    index: &mut Index,
    entry: &Record,
) -> Result<Option<usize>, AllocError>
    requires { IsCurrent index.old records.old.items }
    ensures same { records.new.items ≡ records.old.items }
    ensures place { IfOk result
        (λ place. IfSome place (IsPlaceFor entry.now records.old.items)) }
    ensures room { IfOk result
        (λ place. IfSome place
        (λ p. p ≡ length records.old.items → p < vec_capacity records.new)) }
    // An index that is left is that of these records, and of those with the new one.
    ensures index { IsCurrent index.new records.old.items }
    ensures joined { IfOk result
        (λ place. IfSome place
        (λ _. IsCurrent index.new (joined entry.now records.old.items))) }
    // Where no place is told none is left, so that the records may change.
    ensures missing { IfOk result
        (λ place. IfNone place ((rs : List (Entry RData)) → IsCurrent index.new rs)) }
{
    let Some(mut places) = index.take(records)? else {
        return Ok(None);
    };
    let key = data_key(&entry.rdata, *records.allocator())?;
    if let Some(place) = place_of(&places, records, &key, entry) {
        *index = Index::Made(places);
        return Ok(Some(place));
    }
    let place = records.len();
    records.reserve(1)?;
    // Data of one canonical form can be other data: then there is no index.
    if places.insert(key, place)?.is_none() {
        *index = Index::Made(places);
    }
    Ok(Some(place))
}

/// Puts a record at the place for it, unless an equal one of its TTL is there, and answers whether it went in.
fn enter_at(records: &mut Vec<Record>, place: usize, entry: Record) -> bool
    requires place { IsPlaceFor entry records.old.items place }
    requires room { place ≡ length records.old.items → place < vec_capacity records.old }
    ensures value { (result, records.new.items) ≡ entered entry records.old.items }
    // The place is that of the first record of equal data then.
    ensures place { IsFirstAt entry.rdata records.new.items place }
{
    if place == records.len() {
        records.push_reserved(entry);
        return true;
    }
    if is_entry(&records[place], &entry) {
        return false;
    }
    set_at(records, place, entry);
    true
}

/// Puts a record at the place for it.
fn join_at(records: &mut Vec<Record>, place: usize, entry: Record)
    requires place { IsPlaceFor entry records.old.items place }
    requires room { place ≡ length records.old.items → place < vec_capacity records.old }
    ensures { records.new.items ≡ joined entry records.old.items }
{
    if place == records.len() {
        records.push_reserved(entry);
    } else {
        set_at(records, place, entry);
    }
}
