//! The records of a set at places that they keep, so that a change of one moves no other.

ghost use Rattle.base_data.specs.Kinds.{canonical_data};
ghost use Rattle.base_data.specs.declared.rdata.RData.{RData};
ghost use Rattle.rr.specs.PlacedRecords.{IsIn, IsIndexed, IsPlaced, present};
ghost use Rattle.rr.specs.SetChanges.{has_data_of, joined, without};
ghost use Rattle.rr.specs.declared.record.Record.{Record as Entry};
ghost use Rattle.std.specs.List.{list_any};
ghost use Rattle.std.specs.Prelude.{IfOk, List, MatchOption, None, OnErr, OnOk, Option, Some, [], false, length, set, ℕ, ◌++◌, ◌<◌, ◌∷◌, ◌≡◌};

use crate::record::Record;
use crate::rr_set::data_index::{DataIndex, data_key};
use std::alloc::{AllocError, Global};
use std::collections::BTreeMap;
use std::marker::Model;
use std::mem::replace;

/// Records in order, each found by its data at once.
pub(super) struct PlacedRecords {
    places: Vec<Option<Record>>,
    /// None where records of other data have had one key.
    index: Option<DataIndex>,
    count: usize,
}

impl Model for PlacedRecords {
    ghost use Rattle.base_data.specs.declared.rdata.RData.{RData};
    ghost use Rattle.rr.specs.PlacedRecords.{IsPlaced, present};
    ghost use Rattle.rr.specs.declared.record.Record.{Record as Entry};
    ghost use Rattle.std.specs.Prelude.{List, length, ◌≡◌};

    ghost Value = { List (Entry RData) };

    ghost view = { λ r. present r.places.items };

    ghost invariant = { λ r. IsPlaced r.index r.places.items
        × (r.count ≡ length (present r.places.items)) };
}

impl PlacedRecords {
    /// No records. Takes no memory.
    pub(super) fn new(alloc: Global) -> PlacedRecords
        ensures { result ≡ [] }
    {
        PlacedRecords {
            places: Vec::new(alloc),
            index: Some(BTreeMap::new(alloc)),
            count: 0,
        }
    }

    /// How many records there are.
    pub(super) fn count(&self) -> usize
        ensures { result ≡ length self.now }
    {
        self.count
    }

    /// Puts a copy of a record in the place of the one of equal data, or after the others where there is none.
    pub(super) fn join(&mut self, entry: &Record) -> Result<(), AllocError>
        ensures ok { OnOk result (self.new ≡ joined entry.now self.old) }
        ensures err { OnErr result (self.new ≡ self.old) }
    {
        let key = data_key(&entry.rdata, *self.places.allocator())?;
        if let Some(place) = place_of(&self.index, &self.places, &key, entry) {
            put_at(&mut self.places, place, Some(entry.clone()?));
            return Ok(());
        }
        let copy = entry.clone()?;
        self.places.reserve(1)?;
        take_in(&mut self.index, key, self.places.len())?;
        self.places.push_reserved(Some(copy));
        self.count += 1;
        Ok(())
    }

    /// Takes out the record with the data of this one, and answers whether it was there.
    pub(super) fn take_data(&mut self, entry: &Record) -> Result<bool, AllocError>
        ensures went { IfOk result (λ went. went
            ≡ list_any (has_data_of entry.now) self.old) }
        ensures ok { OnOk result (self.new ≡ without entry.now self.old) }
        ensures err { OnErr result (self.new ≡ self.old) }
    {
        let key = data_key(&entry.rdata, *self.places.allocator())?;
        let Some(place) = place_of(&self.index, &self.places, &key, entry) else {
            return Ok(false);
        };
        put_at(&mut self.places, place, None);
        take_out(&mut self.index, &key);
        self.count -= 1;
        Ok(true)
    }

    /// The records, in order.
    pub(super) fn into_vec(self) -> Result<Vec<Record>, AllocError>
        ensures { IfOk result (λ records. records.items ≡ self) }
    {
        let PlacedRecords {
            places,
            index: _,
            count,
        } = self;
        let mut records = Vec::with_capacity(*places.allocator(), count)?;
        for place in places {
            if let Some(entry) = place {
                records.push(entry)?;
            }
        }
        Ok(records)
    }
}

// By hand, since with a derived one a proof goes through the fields wherever a value is dropped.
impl Drop for PlacedRecords {
    fn drop(self) {
        let PlacedRecords {
            places: _,
            index: _,
            count: _,
        } = self;
    }
}

/// The place of the record with the data of this one, whose key this is.
fn place_of(
    index: &Option<DataIndex>,
    places: &Vec<Option<Record>>,
    key: &[u8],
    entry: &Record,
) -> Option<usize>
    requires placed { IsPlaced index.now places.now.items }
    requires key { key.now ≡ canonical_data entry.now.rdata }
    ensures { MatchOption result (list_any (has_data_of entry.now) (present places.now.items)
        ≡ false) (IsIn entry.now.rdata places.now.items) }
{
    let Some(index) = index else {
        return scanned(places, entry);
    };
    let place = *index.get(key)?;
    let Some(Some(known)) = places.get(place) else {
        return None;
    };
    if known.rdata != entry.rdata {
        return None;
    }
    Some(place)
}

/// The place of a record with the data of this one, by looking at one place after the other.
fn scanned(places: &Vec<Option<Record>>, entry: &Record) -> Option<usize>
    ensures { MatchOption result (list_any (has_data_of entry.now) (present places.now.items)
        ≡ false) (IsIn entry.now.rdata places.now.items) }
{
    for place in 0..places.len() {
        let Some(known) = &places[place] else {
            continue;
        };
        if known.rdata == entry.rdata {
            return Some(place);
        }
    }
    None
}

/// Takes the place of a new record into the index, if there is one. There is none then if other data has its key.
fn take_in(index: &mut Option<DataIndex>, key: Vec<u8>, place: usize) -> Result<(), AllocError>
    // It is the index of places at whose end such a record was put, if it was that of the others.
    ensures ok { OnOk result ((ps : List (Option (Entry RData))) (r : Entry RData)
        → IsIndexed index.old ps → length ps ≡ place → canonical_data r.rdata ≡ key.items
        → IsIndexed index.new (ps ++ Some r ∷ [])) }
    ensures err { OnErr result ((ps : List (Option (Entry RData)))
        → IsIndexed index.old ps → IsIndexed index.new ps) }
{
    let Some(mut places) = replace(index, None) else {
        return Ok(());
    };
    if places.insert(key, place)?.is_some() {
        return Ok(());
    }
    *index = Some(places);
    Ok(())
}

/// Takes the place of a record out of the index, if there is one.
fn take_out(index: &mut Option<DataIndex>, key: &[u8])
    // It is the index of places of which one was emptied where such a record stood, if it was that of all.
    ensures { (ps : List (Option (Entry RData))) (p : ℕ) (r : Entry RData) → IsIndexed index.old ps
        → IsIn r.rdata ps p → canonical_data r.rdata ≡ key.now
        → IsIndexed index.new (set ps p None) }
{
    let Some(places) = index else {
        return;
    };
    places.remove(key);
}

/// Puts a record at a place, or none.
fn put_at(places: &mut Vec<Option<Record>>, place: usize, entry: Option<Record>)
    requires { place < length places.old.items }
    ensures { places.new.items ≡ set places.old.items place entry }
{
    places[place] = entry;
}
