//! Record sets: the records of one owner and type (RFC 2181, 5).

ghost use Rattle.base_data.specs.declared.rdata.RData.{RData};
ghost use Rattle.rr.specs.RecordSet.{SetValue, empty_set, in_class, same_set, same_set-equiv, set_of, with_ttl};
ghost use Rattle.rr.specs.RrsetRecords.{is_of_empty, records_left};
ghost use Rattle.rr.specs.SetParts.{parts_value};
ghost use Rattle.rr.specs.declared.record.Record.{Record as Entry};
ghost use Rattle.std.specs.Cmp.{partial_equiv_from_equiv};
ghost use Rattle.std.specs.Global.{Global};
ghost use Rattle.std.specs.Iterator.{UpTo, YieldsFirstRef, item_count};
ghost use Rattle.std.specs.Iterator.Runs.{EveryRun, ItemsAre};
ghost use Rattle.std.specs.Iterator.SizeHint.{IsWithinCount};
ghost use Rattle.std.specs.Prelude.{IfSome, IsTrue, MatchResult, Some, [], length, option_copied, slice_get, ◌<◌, ◌↔◌, ◌≡◌};
ghost use Rattle.std.specs.Vec.Iter.{into_iter_items, into_iter_len, into_iter_steps};
ghost use Rattle.base.specs.declared.error.proto_error.ProtoError.TheVariants as refusals;

mod changes;
mod changing_set;
mod data_index;
mod indexed_records;
pub mod laws;
mod placed_records;
mod scanning;

use crate::record::Record;
use crate::rr_set::indexed_records::IndexedRecords;
use base::{DNSClass, Name, ProtoError, RecordType};
pub use changing_set::ChangingSet;
pub use data_index::{DataIndex, data_key};
use std::alloc::{AllocError, Global};
use std::marker::Model;
use std::{slice, vec};

/// The records of one owner and type, in order.
///
/// A set that begins with `new`, `with_ttl` or one record, and is changed by `insert`, `add_rdata`, `new_record` and
/// `remove` alone, is tidy: its records have its type, no two of them have equal data, and it has one SOA at most.
#[derive(Debug)]
pub struct RecordSet {
    name: Name,
    record_type: RecordType,
    dns_class: DNSClass,
    ttl: u32,
    serial: u32,
    records: IndexedRecords,
}

impl Model for RecordSet {
    ghost Value = { SetValue };

    ghost view = { λ s.
        record {
          name = s.name;
          record_type = s.record_type;
          dns_class = s.dns_class;
          ttl = s.ttl;
          records = s.records;
          serial = s.serial;
        } };
}

impl RecordSet {
    /// The set of an owner and a type without records: of class IN and TTL 0. Takes no memory.
    pub fn new(alloc: Global, name: Name, record_type: RecordType, serial: u32) -> RecordSet
        ensures { result ≡ empty_set name record_type 0 serial }
    {
        RecordSet {
            name,
            record_type,
            dns_class: DNSClass::IN,
            ttl: 0,
            records: IndexedRecords::new(alloc),
            serial,
        }
    }

    /// The set of an owner and a type without records, with a TTL in seconds: of class IN and serial 0. Takes no
    /// memory.
    pub fn with_ttl(alloc: Global, name: Name, record_type: RecordType, ttl: u32) -> RecordSet
        ensures { result ≡ empty_set name record_type ttl 0 }
    {
        RecordSet {
            name,
            record_type,
            dns_class: DNSClass::IN,
            ttl,
            records: IndexedRecords::new(alloc),
            serial: 0,
        }
    }

    /// The owner of the records.
    pub fn name(&self) -> &Name
        ensures { result.now ≡ self.now.name }
    {
        &self.name
    }

    /// The type of the records.
    pub fn record_type(&self) -> RecordType
        ensures { result ≡ self.now.record_type }
    {
        self.record_type
    }

    /// The class of the set. That of a record can be another.
    pub fn dns_class(&self) -> DNSClass
        ensures { result ≡ self.now.dns_class }
    {
        self.dns_class
    }

    /// For how many seconds the records may be kept, as the last change said. The TTL of a record can be another.
    pub fn ttl(&self) -> u32
        ensures { result ≡ self.now.ttl }
    {
        self.ttl
    }

    /// The serial of the last change.
    pub fn serial(&self) -> u32
        ensures { result ≡ self.now.serial }
    {
        self.serial
    }

    /// The first record, if there is one.
    pub fn record(&self) -> Option<&Record>
        ensures { option_copied result ≡ slice_get self.now.records 0 }
    {
        self.records.as_slice().first()
    }

    /// How many records there are.
    pub fn records_count(&self) -> usize
        ensures { result ≡ length self.now.records }
    {
        self.records.as_slice().len()
    }

    /// Whether there is no record.
    pub fn is_empty(&self) -> bool
        ensures { IsTrue result ↔ (self.now.records ≡ []) }
    {
        self.records.as_slice().is_empty()
    }
}

impl Clone for RecordSet {
    ghost is_clone = { λ a b. b ≡ a };

    /// The same set.
    ///
    /// # Errors
    ///
    /// If memory runs out.
    fn clone(&self) -> Result<RecordSet, AllocError> {
        Ok(RecordSet {
            name: self.name.clone()?,
            record_type: self.record_type,
            dns_class: self.dns_class,
            ttl: self.ttl,
            records: self.records.clone()?,
            serial: self.serial,
        })
    }
}

impl TryFrom<Record> for RecordSet {
    type Error = ProtoError;

    ghost try_from_gives = { λ entry result. MatchResult result (λ set. set ≡ set_of entry)
        (λ e. e ≡ refusals.Memory) };

    /// The set of one record, with its name, type, class and TTL, and the serial 0.
    ///
    /// # Errors
    ///
    /// `Memory` if memory runs out.
    fn try_from(entry: Record) -> Result<RecordSet, ProtoError> {
        // There is room for this one alone, since most sets stay with one record.
        let records = vec![in entry.name.allocator(); entry]?;
        let first = &records[0];
        Ok(RecordSet {
            name: first.name.clone()?,
            record_type: first.record_type(),
            dns_class: first.dns_class,
            ttl: first.ttl,
            serial: 0,
            records: IndexedRecords::of(records),
        })
    }
}

impl RecordSet {
    /// Sets the class of the set and of each record. Takes no memory.
    pub fn set_dns_class(&mut self, dns_class: DNSClass)
        ensures { self.new ≡ in_class self.old dns_class }
    {
        self.dns_class = dns_class;
        self.records.set_dns_class(dns_class);
    }

    /// Sets the TTL, in seconds, of the set and of each record. Takes no memory.
    pub fn set_ttl(&mut self, ttl: u32)
        ensures { self.new ≡ with_ttl self.old ttl }
    {
        self.ttl = ttl;
        self.records.set_ttl(ttl);
    }

    /// Replaces the records. Nothing is asked of them, so the set need not be tidy then. Takes no memory.
    pub fn set_records(&mut self, records: Vec<Record>)
        ensures { self.new ≡ record self.old { records = records.items } }
    {
        self.records = IndexedRecords::of(records);
    }
}

impl PartialEq for RecordSet {
    ghost eq = { same_set };

    ghost laws = { partial_equiv_from_equiv same_set-equiv };

    /// Equal owners, equal records in the same order, and the same type, class, TTL and serial.
    fn eq(&self, other: &RecordSet) -> bool {
        self.name == other.name
            && self.record_type == other.record_type
            && self.dns_class == other.dns_class
            && self.ttl == other.ttl
            && self.records.as_slice() == other.records.as_slice()
            && self.serial == other.serial
    }
}

impl Eq for RecordSet {
    ghost laws = { same_set-equiv };
}

/// The parts of a record set.
#[derive(Clone, Debug, Drop, PartialEq, Eq)]
pub struct RecordSetParts {
    /// The owner of the records.
    pub name: Name,
    /// The type of the records.
    pub record_type: RecordType,
    /// The class of the set.
    pub dns_class: DNSClass,
    /// The TTL of the set, in seconds.
    pub ttl: u32,
    /// The records, in order.
    pub records: Vec<Record>,
    /// The serial of the last change.
    pub serial: u32,
}

impl RecordSet {
    /// The parts of the set. Takes no memory.
    pub fn into_parts(self) -> RecordSetParts
        ensures { parts_value result ≡ self }
    {
        let RecordSet {
            name,
            record_type,
            dns_class,
            ttl,
            serial,
            records,
        } = self;
        RecordSetParts {
            name,
            record_type,
            dns_class,
            ttl,
            records: records.into_vec(),
            serial,
        }
    }
}

// By hand, since with a derived one a proof goes through the fields wherever a set is dropped.
impl Drop for RecordSet {
    fn drop(self) {
        let RecordSet {
            name: _,
            record_type: _,
            dns_class: _,
            ttl: _,
            serial: _,
            records: _,
        } = self;
    }
}

impl From<RecordSet> for RecordSetParts {
    ghost from_gives = { λ set parts. parts_value parts ≡ set };

    /// The parts of the set, as `into_parts` answers them.
    fn from(set: RecordSet) -> RecordSetParts {
        set.into_parts()
    }
}

/// The records of a set that are left.
#[derive(Debug, Drop)]
pub enum RrsetRecords<'r> {
    /// Those of a set without records.
    Empty,
    /// Those of a set with records, which may all have been given.
    RecordsOnly(slice::Iter<'r, Record>),
}

impl<'r> RrsetRecords<'r> {
    /// Whether the set had no records. Once all records of another set were given, it is false still.
    pub fn is_empty(&self) -> bool
        ensures { result ≡ is_of_empty self.now }
    {
        matches!(self, RrsetRecords::Empty)
    }
}

impl<'r> Iterator for RrsetRecords<'r> {
    type Item = &'r Record;

    ghost next_gives = { YieldsFirstRef records_left };

    ghost remaining = { item_count records_left };

    fn next(&mut self) -> Option<&'r Record> {
        match self {
            RrsetRecords::Empty => None,
            RrsetRecords::RecordsOnly(entries) => entries.next(),
        }
    }

    /// Exactly how many records are left.
    fn size_hint(&self) -> (usize, Option<usize>)
        ensures lower { IsWithinCount result.0 (item_count records_left self.now) }
        ensures upper { IfSome result.1 (UpTo (item_count records_left self.now)) }
        ensures exact { (result.0 ≡ length (records_left self.now))
            × (result.1 ≡ Some (length (records_left self.now))) }
    {
        let left = match self {
            RrsetRecords::Empty => 0,
            RrsetRecords::RecordsOnly(entries) => entries.len(),
        };
        (left, Some(left))
    }
}

impl RecordSet {
    /// The records, in order, each once.
    pub fn records_without_rrsigs(&self) -> RrsetRecords<'_>
        ensures records { records_left result ≡ self.now.records }
        // The answer's `is_empty` is true exactly where the set has no records.
        ensures empty { IsTrue (is_of_empty result) ↔ (self.now.records ≡ []) }
    {
        let entries = self.records.as_slice();
        if entries.is_empty() {
            RrsetRecords::Empty
        } else {
            RrsetRecords::RecordsOnly(entries.iter())
        }
    }

    /// The records, in order.
    pub fn as_slice(&self) -> &[Record]
        ensures { result.now ≡ self.now.records }
    {
        self.records.as_slice()
    }
}

impl IntoIterator for RecordSet {
    type Item = Record;

    type IntoIter = vec::IntoIter<Record>;

    ghost into_iter_gives = { λ set iter. (into_iter_items iter ≡ set.records)
        × (into_iter_len iter ≡ length set.records)
        × EveryRun (into_iter_steps {X = Entry RData} {Z = Global})
        (λ p. ItemsAre p (into_iter_items p.from)) };

    /// The records, in order, each once. Takes no memory.
    fn into_iter(self) -> vec::IntoIter<Record> {
        self.into_parts().records.into_iter()
    }
}
