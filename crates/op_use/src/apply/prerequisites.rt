//! The third step: the prerequisites of an update (RFC 2136, 3.2).

ghost use Rattle.base_data.specs.SameData.{same_data};
ghost use Rattle.base_data.specs.declared.rdata.RData.{RData};
ghost use Rattle.op_use.specs.HeldZone.{zone_held};
ghost use Rattle.op_use.specs.MapFaults.{AreComplete, asks_for, complete_at, is_by_value, there_under};
ghost use Rattle.op_use.specs.Server.{collected, is_found as is_found_in, is_met, is_same_key, prerequisite_fault, prerequisites_fault};
ghost use Rattle.rr.specs.Record.{record_key};
ghost use Rattle.rr.specs.SetChanges.{has_data_of};
ghost use Rattle.rr.specs.declared.record.Record.{Record as Entry};
ghost use Rattle.std.specs.List.{IsAmong, list_all, list_any};
ghost use Rattle.std.specs.Prelude.{IfOk, IfSome, OnOk, true, ◌&&◌, ◌≡◌};

use crate::apply::rules::{Use, use_of};
use crate::apply::zone::{Zone, has_type, record_key};
use base::{DNSClass, RecordType, RrKey};
use op::ResponseCode;
use rr::{DataIndex, Record, RecordSet, data_key};
use std::alloc::AllocError;
use std::collections::BTreeMap;

impl<'a> Zone<'a> {
    /// What is wrong with the prerequisites: first what is with each by itself, and then with the sets that those of
    /// the zone's class list.
    pub(crate) fn prerequisites_fault(
        &self,
        entries: &[Record],
    ) -> Result<Option<ResponseCode>, AllocError>
        ensures { IfOk result (λ f. f ≡ prerequisites_fault (zone_held self.now) entries.now) }
    {
        for entry in entries {
            if let Some(code) = self.prerequisite_fault(entry)? {
                return Ok(Some(code));
            }
        }
        let are_met = self.are_met(entries)?;
        Ok((!are_met).then_some(ResponseCode::NXRRSet))
    }

    /// What is wrong with a prerequisite by itself. Of one of the zone's class the data is tested later, with its set.
    fn prerequisite_fault(&self, entry: &Record) -> Result<Option<ResponseCode>, AllocError>
        ensures { IfOk result (λ f. f ≡ prerequisite_fault (zone_held self.now) entry.now) }
    {
        if entry.ttl != 0 {
            return Ok(Some(ResponseCode::FormErr));
        }
        if !self.origin.zone_of(&entry.name) {
            return Ok(Some(ResponseCode::NotZone));
        }
        let of_all = entry.record_type() == RecordType::ANY;
        match use_of(self.class, entry.dns_class) {
            Use::OfZone => Ok(None),
            Use::OfNothing => Ok(Some(ResponseCode::FormErr)),
            Use::OfAny => {
                if !entry.rdata.is_update() {
                    return Ok(Some(ResponseCode::FormErr));
                }
                let code = if of_all {
                    ResponseCode::NXDomain
                } else {
                    ResponseCode::NXRRSet
                };
                Ok((!self.is_found(entry)?).then_some(code))
            }
            Use::OfNone => {
                if !entry.rdata.is_update() {
                    return Ok(Some(ResponseCode::FormErr));
                }
                let code = if of_all {
                    ResponseCode::YXDomain
                } else {
                    ResponseCode::YXRRSet
                };
                Ok(self.is_found(entry)?.then_some(code))
            }
        }
    }

    /// Whether what a prerequisite names is there.
    fn is_found(&self, entry: &Record) -> Result<bool, AllocError>
        ensures { IfOk result (λ b. b ≡ is_found_in (zone_held self.now) entry.now) }
    {
        if entry.record_type() == RecordType::ANY {
            return has_type(self.sets, &entry.name, false);
        }
        let key = record_key(entry)?;
        Ok(self.sets.contains_key(&key))
    }
}

impl<'a> Zone<'a> {
    /// Whether the sets that prerequisites of the zone's class name are those that they list (RFC 2136, 3.2.3). A set
    /// is looked at for the first of them that names it alone.
    ///
    /// Data is looked for by the indexes first, of which nothing is promised: where one has it not, all records are
    /// compared, which ends the test.
    pub(crate) fn are_met(&self, entries: &[Record]) -> Result<bool, AllocError>
        ensures { IfOk result (λ b. b
            ≡ list_all (is_met (zone_held self.now) (collected (zone_held self.now) entries.now))
            (collected (zone_held self.now) entries.now)) }
    {
        let asked = self.places_asked(entries)?;
        let mut held = BTreeMap::new(self.origin.allocator());
        for entry in entries {
            if matches!(use_of(self.class, entry.dns_class), Use::OfZone)
                && !self.is_met(entry, entries, &asked, &mut held)?
            {
                return Ok(false);
            }
        }
        Ok(true)
    }

    /// Whether the set that a prerequisite of the zone's class names has its data, and only data that they list. The
    /// latter is known of the sets that are held.
    fn is_met(
        &self,
        entry: &Record,
        entries: &[Record],
        asked: &BTreeMap<RrKey, DataIndex>,
        held: &mut BTreeMap<RrKey, DataIndex>,
    ) -> Result<bool, AllocError>
        requires { AreComplete self.now.sets self.now.class entries.now held.old }
        ensures met { IfOk result (λ b. b
            ≡ (there_under self.now.sets entry.now (record_key entry.now)
            && complete_at self.now.sets self.now.class entries.now (record_key entry.now))) }
        ensures known { OnOk result
            (AreComplete self.now.sets self.now.class entries.now held.new) }
    {
        let key = record_key(entry)?;
        let Some(set) = self.sets.get(&key) else {
            return Ok(false);
        };
        let records = set.as_slice();
        if let Some(places) = held.get(&key) {
            return has_data(records, places, entry);
        }
        if !are_listed(records, asked.get(&key), self.class, entries, entry)? {
            return Ok(false);
        }
        let places = places_of(set)?;
        let is_met = has_data(records, &places, entry)?;
        held.insert(key, places)?;
        Ok(is_met)
    }

    /// Where the data of the prerequisites of the zone's class stands among them, under the key of each set.
    fn places_asked(&self, entries: &[Record]) -> Result<BTreeMap<RrKey, DataIndex>, AllocError> {
        let alloc = self.origin.allocator();
        let mut asked: BTreeMap<RrKey, DataIndex> = BTreeMap::new(alloc);
        for (place, entry) in entries.iter().enumerate() {
            if !matches!(use_of(self.class, entry.dns_class), Use::OfZone) {
                continue;
            }
            let key = record_key(entry)?;
            let places = asked.entry(key)?.or_insert(BTreeMap::new(alloc));
            places.insert(data_key(&entry.rdata, alloc)?, place)?;
        }
        Ok(asked)
    }
}

/// Whether each record of a set is among those that the prerequisites list for the set of this entry.
fn are_listed(
    records: &[Record],
    asked: Option<&DataIndex>,
    class: DNSClass,
    entries: &[Record],
    entry: &Record,
) -> Result<bool, AllocError>
    ensures { IfOk result (λ b. b
        ≡ list_all (λ (x : Entry RData). list_any (asks_for class entry.now x) entries.now)
        records.now) }
{
    for known in records {
        if !is_listed(known, asked, class, entries, entry)? {
            return Ok(false);
        }
    }
    Ok(true)
}

/// Whether a record is among those that the prerequisites list for the set of this entry.
fn is_listed(
    known: &Record,
    asked: Option<&DataIndex>,
    class: DNSClass,
    entries: &[Record],
    entry: &Record,
) -> Result<bool, AllocError>
    ensures { IfOk result (λ b. b ≡ list_any (asks_for class entry.now known.now) entries.now) }
{
    if let Some(listed) = look_up(entries, asked, known)? {
        if is_of_set(class, entry, listed) {
            return Ok(true);
        }
    }
    for listed in entries {
        if known.rdata == listed.rdata && is_of_set(class, entry, listed) {
            return Ok(true);
        }
    }
    Ok(false)
}

/// Whether a prerequisite is of the zone's class and says what data the set of this entry has. The owner is compared
/// last, since that takes longest.
fn is_of_set(class: DNSClass, entry: &Record, listed: &Record) -> bool
    ensures { result ≡ (is_by_value class listed.now && is_same_key entry.now listed.now) }
{
    matches!(use_of(class, listed.dns_class), Use::OfZone)
        && entry.record_type() == listed.record_type()
        && entry.name == listed.name
}

/// Whether one of these records has the data of this one.
fn has_data(records: &[Record], places: &DataIndex, entry: &Record) -> Result<bool, AllocError>
    ensures { IfOk result (λ b. b ≡ list_any (has_data_of entry.now) records.now) }
{
    if look_up(records, Some(places), entry)?.is_some() {
        return Ok(true);
    }
    Ok(records.iter().any(|known| known.rdata == entry.rdata))
}

/// Where the data of each record of a set stands among them.
fn places_of(set: &RecordSet) -> Result<DataIndex, AllocError> {
    let (records, alloc) = (set.as_slice(), set.name().allocator());
    let mut places = BTreeMap::new(alloc);
    for (place, entry) in records.iter().enumerate() {
        places.insert(data_key(&entry.rdata, alloc)?, place)?;
    }
    Ok(places)
}

/// The record of this data, if the places know it.
fn look_up<'r>(
    records: &'r [Record],
    places: Option<&DataIndex>,
    entry: &Record,
) -> Result<Option<&'r Record>, AllocError>
    ensures { IfOk result (λ found. IfSome found (λ x. IsAmong records.now x.now
        × (same_data x.now.rdata entry.now.rdata ≡ true))) }
{
    let Some(places) = places else {
        return Ok(None);
    };
    let key = data_key(&entry.rdata, entry.name.allocator())?;
    let Some(place) = places.get(&key) else {
        return Ok(None);
    };
    let Some(known) = records.get(*place) else {
        return Ok(None);
    };
    if known.rdata == entry.rdata {
        return Ok(Some(known));
    }
    Ok(None)
}
