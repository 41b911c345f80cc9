//! A set that is changed often, where each change takes the time of one look-up.

ghost use Rattle.base_data.specs.SameData.{same_data};
ghost use Rattle.base_data.specs.declared.rdata.RData.{RData};
ghost use Rattle.rr.specs.RecordSet.{SetValue};
ghost use Rattle.rr.specs.SetChanges.{joined, last_ttl, with_records, without_data};
ghost use Rattle.rr.specs.declared.record.Record.{Record as Entry};
ghost use Rattle.std.specs.List.{IsDistinct};
ghost use Rattle.std.specs.Ordering.{on};
ghost use Rattle.std.specs.Prelude.{IfOk, OnErr, OnOk, cond, length, ◌≡◌};

use crate::record::Record;
use crate::rr_set::RecordSet;
use crate::rr_set::indexed_records::IndexedRecords;
use crate::rr_set::placed_records::PlacedRecords;
use std::alloc::AllocError;
use std::marker::Model;

/// A record set while it is changed often, as where many records are to be taken out: `RecordSet` looks at all of its
/// records for each change, and this one finds the record that it changes by an index.
pub struct ChangingSet {
    /// The set, without records.
    set: RecordSet,
    records: PlacedRecords,
    /// Whether the set has the TTL of its last record since.
    is_changed: bool,
}

impl Model for ChangingSet {
    ghost use Rattle.rr.specs.RecordSet.{SetValue};
    ghost use Rattle.rr.specs.SetChanges.{last_ttl};
    ghost use Rattle.std.specs.Prelude.{cond};

    ghost Value = { SetValue };

    ghost view = { λ c. record c.set {
      records = c.records;
      ttl = cond c.is_changed (last_ttl c.records) c.set.ttl;
    } };
}

impl ChangingSet {
    /// A copy of the set, to be changed. No two of its records have equal data.
    ///
    /// # Errors
    ///
    /// If memory runs out.
    pub fn open(set: &RecordSet) -> Result<ChangingSet, AllocError>
        requires { IsDistinct (on (λ (r : Entry RData). r.rdata) same_data) set.now.records }
        ensures { IfOk result (λ changing. changing ≡ set.now) }
    {
        let alloc = set.name.allocator();
        let mut records = PlacedRecords::new(alloc);
        let entries = set.as_slice();
        for entry in entries {
            records.join(entry)?;
        }
        let set = RecordSet {
            name: set.name.clone()?,
            record_type: set.record_type,
            dns_class: set.dns_class,
            ttl: set.ttl,
            serial: set.serial,
            records: IndexedRecords::new(alloc),
        };
        Ok(ChangingSet {
            set,
            records,
            is_changed: false,
        })
    }

    /// How many records there are.
    pub fn records_count(&self) -> usize
        ensures { result ≡ length self.now.records }
    {
        self.records.count()
    }

    /// Puts a copy of a record in the place of the one of equal data, whatever its letter case and TTL, or after all
    /// where there is none, as `RecordSet::renew` does.
    ///
    /// # Errors
    ///
    /// If memory runs out; the set is then as it was.
    pub fn renew(&mut self, entry: &Record) -> Result<(), AllocError>
        ensures ok { OnOk result (self.new
            ≡ with_records self.old (joined entry.now self.old.records)) }
        ensures err { OnErr result (self.new ≡ self.old) }
    {
        self.records.join(entry)?;
        self.is_changed = true;
        Ok(())
    }

    /// Takes out the record with the data of this one, as `RecordSet::take_data` does.
    ///
    /// # Errors
    ///
    /// If memory runs out; the set is then as it was.
    pub fn take_data(&mut self, entry: &Record) -> Result<(), AllocError>
        ensures ok { OnOk result (self.new ≡ without_data entry.now self.old) }
        ensures err { OnErr result (self.new ≡ self.old) }
    {
        if self.records.take_data(entry)? {
            self.is_changed = true;
        }
        Ok(())
    }

    /// The set as it is now.
    ///
    /// # Errors
    ///
    /// If memory runs out.
    pub fn close(self) -> Result<RecordSet, AllocError>
        ensures { IfOk result (λ set. set ≡ self) }
    {
        let ChangingSet {
            mut set,
            records,
            is_changed,
        } = self;
        set.set_records(records.into_vec()?);
        if is_changed {
            set.take_last_ttl();
        }
        Ok(set)
    }
}

// By hand, since with a derived one a proof goes through the fields wherever a set is dropped.
impl Drop for ChangingSet {
    fn drop(self) {
        let ChangingSet {
            set: _,
            records: _,
            is_changed: _,
        } = self;
    }
}
