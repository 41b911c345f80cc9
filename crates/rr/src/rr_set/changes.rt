//! What goes into a set and what comes out (RFC 2136, 1.1.5, 3.4.2.2 and 3.4.2.4), and the order of serials (RFC 1982).

ghost use Rattle.base.specs.writing.Wire.{IsMemory};
ghost use Rattle.rr.specs.DataIndex.{IsFirstAt};
ghost use Rattle.rr.specs.SerialOrder.{is_greater};
ghost use Rattle.rr.specs.SetChanges.{MayAdd, MayEnter, MayLeave, add_data, first_of, has_data_of, holds_one, insert, is_kept, joined, put_in_set, remove, stays, with_records, without_data};
ghost use Rattle.rr.specs.contracts.rr_set.RecordSet.{the_row};
ghost use Rattle.std.specs.Borrow.{follows_so, sem};
ghost use Rattle.std.specs.List.{list_any};
ghost use Rattle.std.specs.Prelude.{IfOk, IfSome, OnErr, OnOk, length, option_map, true, ⊤, ◌≡◌, ◌≤◌};
ghost use mathlib.Core.Option.{none};

use crate::record::Record;
use crate::rr_set::RecordSet;
use crate::rr_set::indexed_records::IndexedRecords;
use base::{ProtoError, RecordType};
use base_data::RData;
use std::alloc::AllocError;

impl RecordSet {
    /// Puts a record in. The answer is whether it went in.
    ///
    /// An SOA stays, and the answer is false, unless both have SOA data and the new one's serial is greater (RFC 1982).
    /// Of SOA, CNAME and ANAME the new record then stands alone. Of other types the answer is false where some record
    /// is equal to it, that is of its class and data, and has its TTL; else it stands in the place of each record of
    /// equal data, or after all records where there is none. If the answer is true, the set takes over the record's TTL
    /// and the serial; if it is false, the set is as it was.
    ///
    /// The record has the set's owner and type, and a set of SOA, CNAME or ANAME has one record at most.
    ///
    /// # Errors
    ///
    /// `Memory` if memory runs out; the set is then as it was.
    pub fn insert(&mut self, entry: Record, serial: u32) -> Result<bool, ProtoError>
        requires { MayEnter self.old entry }
        ensures ok { IfOk result (λ is_new. (is_new, self.new) ≡ insert self.old entry serial) }
        ensures err { OnErr result (self.new ≡ self.old) }
        // A refusal is `Memory`.
        ensures memory { IsMemory result }
    {
        let (is_new, _) = self.enter(entry, serial)?;
        Ok(is_new)
    }

    /// Puts a record of this data in, with the set's name and TTL, of class IN, and with the serial 0. The answer is
    /// that of `insert`.
    ///
    /// The data has the set's type, and a set of SOA, CNAME or ANAME has one record at most.
    ///
    /// # Errors
    ///
    /// `Memory` if memory runs out; the set is then as it was.
    pub fn add_rdata(&mut self, rdata: RData) -> Result<bool, ProtoError>
        requires { MayAdd self.old rdata }
        ensures ok { IfOk result (λ is_new. (is_new, self.new) ≡ add_data self.old rdata) }
        ensures err { OnErr result (self.new ≡ self.old) }
        // A refusal is `Memory`.
        ensures memory { IsMemory result }
    {
        let entry = Record::from_rdata(self.name.clone()?, self.ttl, rdata);
        self.insert(entry, 0)
    }

    /// Puts a record of a copy of this data in, as `add_rdata` does. The answer is the first record of equal data, if
    /// there is one then.
    ///
    /// The data has the set's type, and a set of SOA, CNAME or ANAME has one record at most.
    ///
    /// # Errors
    ///
    /// If memory runs out; the set is then as it was.
    pub fn new_record(&mut self, rdata: &RData) -> Result<Option<&Record>, AllocError>
        requires { MayAdd self.old rdata.now }
        ensures ok { IfOk result (λ found. option_map (λ entry. entry.now) found
            ≡ first_of rdata.now (add_data self.old rdata.now).1.records) }
        // When the borrow of the answer ends, the set is as `add_rdata` leaves it; after a refusal
        // it is as it was.
        ensures* after { sem 𝓛 (follows_so the_row the_row self.entry.ghost_name none (λ _ _. ⊤)
            (λ n. IfOk result (λ _. n ≡ (add_data self.old rdata.now).1)
            × OnErr result (n ≡ self.old))) }
    {
        let place = self.add_copy(rdata)?;
        Ok(self.first_of(rdata, place))
    }

    /// Puts a record of a copy of this data in. The answer is where the first record of equal data stands then, if an
    /// index told that.
    fn add_copy(&mut self, rdata: &RData) -> Result<Option<usize>, AllocError>
        requires { MayAdd self.old rdata.now }
        ensures ok { OnOk result (self.new ≡ (add_data self.old rdata.now).1) }
        // A place that is told is that of the first record of equal data.
        ensures place { IfOk result (λ place. IfSome place (IsFirstAt rdata.now self.new.records)) }
        ensures err { OnErr result (self.new ≡ self.old) }
    {
        let entry = Record::from_rdata(self.name.clone()?, self.ttl, rdata.clone()?);
        let (_, place) = self.enter(entry, 0)?;
        Ok(place)
    }

    /// Puts a record in. The answer is that of `insert`, and where the first record of equal data stands then, if an
    /// index told that.
    fn enter(&mut self, entry: Record, serial: u32) -> Result<(bool, Option<usize>), AllocError>
        requires { MayEnter self.old entry }
        ensures ok { IfOk result (λ done. (done.0, self.new) ≡ insert self.old entry serial) }
        // A place that is told is that of the first record of equal data.
        ensures place { IfOk result
            (λ done. IfSome done.1 (IsFirstAt entry.rdata self.new.records)) }
        ensures err { OnErr result (self.new ≡ self.old) }
    {
        let ttl = entry.ttl;
        let done = put(&mut self.records, self.record_type, entry)?;
        if done.0 {
            self.ttl = ttl;
            self.serial = serial;
        }
        Ok(done)
    }

    /// The first record of equal data, which stands at this place if it's known.
    fn first_of(&self, rdata: &RData, known: Option<usize>) -> Option<&Record>
        requires { IfSome known (IsFirstAt rdata.now self.now.records) }
        ensures { option_map (λ entry. entry.now) result ≡ first_of rdata.now self.now.records }
    {
        let records = self.records.as_slice();
        match known {
            Some(place) => records.get(place),
            None => records.iter().find(|known| known.rdata == *rdata),
        }
    }
}

/// Puts a record into those of a set of the type. The answer is whether it went in, and where the first record of equal
/// data stands then, if an index told that.
fn put(
    records: &mut IndexedRecords,
    record_type: RecordType,
    entry: Record,
) -> Result<(bool, Option<usize>), AllocError>
    requires { holds_one record_type ≡ true → length records.old ≤ 1 }
    ensures ok { IfOk result
        (λ done. (done.0, records.new) ≡ put_in_set record_type entry records.old) }
    // A place that is told is that of the first record of equal data.
    ensures place { IfOk result (λ done. IfSome done.1 (IsFirstAt entry.rdata records.new)) }
    ensures err { OnErr result (records.new ≡ records.old) }
{
    if !holds_one_record(record_type) {
        return records.enter(entry);
    }
    if record_type == RecordType::SOA && first_stays(records.as_slice(), &entry.rdata) {
        return Ok((false, None));
    }
    records.put_alone(entry)?;
    Ok((true, None))
}

/// Whether a set of the type holds one record.
fn holds_one_record(record_type: RecordType) -> bool
    ensures { result ≡ holds_one record_type }
{
    matches!(
        record_type,
        RecordType::SOA | RecordType::CNAME | RecordType::ANAME
    )
}

/// Whether the first of these records stays in spite of a new SOA.
fn first_stays(records: &[Record], rdata: &RData) -> bool
    ensures { result ≡ stays records.now rdata.now }
{
    match records.first() {
        None => false,
        Some(known) => match (&known.rdata, rdata) {
            (RData::SOA(old), RData::SOA(new)) => !is_greater(old.serial(), new.serial()),
            _ => true,
        },
    }
}

impl RecordSet {
    /// Takes out every record with the data of this one, and takes over the serial. The answer is whether any went:
    /// none goes for a record of type SOA, or of type NS where the set has no more than one. Takes no memory.
    ///
    /// The record has the set's owner, and its type or ANY.
    pub fn remove(&mut self, entry: &Record, serial: u32) -> bool
        requires { MayLeave self.old entry.now }
        ensures { (result, self.new) ≡ remove self.old entry.now serial }
    {
        if self.keeps(entry.record_type()) || !has_data(self.records.as_slice(), entry) {
            return false;
        }
        self.records.take_data(entry);
        self.serial = serial;
        true
    }

    /// Whether records of this type are left where they are.
    fn keeps(&self, record_type: RecordType) -> bool
        ensures { result ≡ is_kept self.now record_type }
    {
        match record_type {
            RecordType::SOA => true,
            RecordType::NS => self.records.as_slice().len() <= 1,
            _ => false,
        }
    }
}

/// Whether a record has the data of this one.
fn has_data(records: &[Record], entry: &Record) -> bool
    ensures { result ≡ list_any (has_data_of entry.now) records.now }
{
    for known in records {
        if known.rdata == entry.rdata {
            return true;
        }
    }
    false
}

impl RecordSet {
    /// Puts a record in the place of each of equal data, whatever their letter case and TTL, or after all where there
    /// is none (RFC 2136, 3.4.2.2). The set then has the TTL of its last record.
    ///
    /// # Errors
    ///
    /// `Memory` if memory runs out; the set is then as it was.
    pub fn renew(&mut self, entry: Record) -> Result<(), ProtoError>
        ensures ok { OnOk result (self.new
            ≡ with_records self.old (joined entry self.old.records)) }
        ensures err { OnErr result (self.new ≡ self.old) }
        // A refusal is `Memory`.
        ensures memory { IsMemory result }
    {
        self.records.join(entry)?;
        self.take_last_ttl();
        Ok(())
    }

    /// Takes out every record with the data of this one, whatever its type (RFC 2136, 3.4.2.4), and answers whether any
    /// went. If so, the set then has the TTL of its last record, 0 without records; else it stays as it is. Takes no
    /// memory.
    ///
    /// It looks at every record; to take out the data of many, `ChangingSet` finds each by its index.
    pub fn take_data(&mut self, entry: &Record) -> bool
        ensures went { result ≡ list_any (has_data_of entry.now) self.old.records }
        ensures set { self.new ≡ without_data entry.now self.old }
    {
        if !has_data(self.records.as_slice(), entry) {
            return false;
        }
        self.records.take_data(entry);
        self.take_last_ttl();
        true
    }

    /// Takes over the TTL of the last record, 0 without records.
    pub(super) fn take_last_ttl(&mut self)
        ensures { self.new ≡ with_records self.old self.old.records }
    {
        self.ttl = match self.records.as_slice().last() {
            Some(last) => last.ttl,
            None => 0,
        };
    }
}

/// Whether a serial is greater than an old one: it lies less than half of all serials after it (RFC 1982, 3.2).
fn is_greater(old: u32, new: u32) -> bool
    ensures { result ≡ is_greater old new }
{
    let ahead = new.wrapping_sub(old);
    ahead != 0 && ahead < 0x8000_0000
}
