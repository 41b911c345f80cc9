//! A set of a zone while the zone is updated: the zone's own, or a copy that was changed.

ghost use Rattle.base_data.specs.SameData.{same_data};
ghost use Rattle.base_data.specs.declared.rdata.RData.{RData};
ghost use Rattle.op_use.specs.CurrentSets.{open_set, renewed_set, set_without};
ghost use Rattle.rr.specs.SetChanges.{joined, with_records, without_data};
ghost use Rattle.rr.specs.declared.record.Record.{Record as Entry};
ghost use Rattle.std.specs.List.{IsDistinct};
ghost use Rattle.std.specs.Ordering.{on};
ghost use Rattle.std.specs.Prelude.{IfOk, IfSome, OnErr, OnOk, length, ◌≡◌};

use base::DNSClass;
use rr::{ChangingSet, Record, RecordSet};
use std::alloc::AllocError;
use std::marker::Model;

/// A set of no more records is changed as a `RecordSet`.
const FEW: usize = 24;

/// A set of a zone while the zone is updated.
pub(crate) struct CurrentSet<'a> {
    held: Held<'a>,
}

/// Where a set is.
#[derive(Drop)]
pub(crate) enum Held<'a> {
    /// In the zone, since no update has changed it.
    InZone(&'a RecordSet),
    /// Beside it.
    Beside(OpenSet),
}

/// A set that may be changed.
#[derive(Drop)]
pub(crate) enum OpenSet {
    /// One of few records, when it was opened.
    Few(RecordSet),
    /// One of many, held so that a change takes the time of a look-up.
    Many(ChangingSet),
}

impl<'a> Model for CurrentSet<'a> {
    ghost use Rattle.op_use.specs.CurrentSets.{set_held};
    ghost use Rattle.rr.specs.RecordSet.{SetValue};

    ghost Value = { SetValue };

    ghost view = { λ s. set_held s.held };
}

impl<'a> CurrentSet<'a> {
    /// A set of the zone.
    pub(super) fn of_zone(set: &'a RecordSet) -> CurrentSet<'a>
        ensures { result ≡ set.now }
    {
        CurrentSet {
            held: Held::InZone(set),
        }
    }

    /// How many records there are.
    pub(super) fn records_count(&self) -> usize
        ensures { result ≡ length self.now.records }
    {
        match &self.held {
            Held::InZone(set) => set.records_count(),
            Held::Beside(OpenSet::Few(set)) => set.records_count(),
            Held::Beside(OpenSet::Many(set)) => set.records_count(),
        }
    }

    /// The set under a record's key in a zone of this class, with a copy of it in the place of equal data, or else last.
    pub(super) fn renewed(
        set: Option<CurrentSet<'a>>,
        class: DNSClass,
        entry: &Record,
    ) -> Result<CurrentSet<'a>, AllocError>
        requires { IfSome set (λ s. IsDistinct (on (λ (r : Entry RData). r.rdata) same_data)
            s.records) }
        ensures { IfOk result (λ s. s ≡ renewed_set class entry.now set.entry) }
    {
        let open = match set {
            Some(set) => set.open()?,
            None => OpenSet::Few(empty_set(class, entry)?),
        };
        let open = open.renew(entry)?;
        Ok(CurrentSet {
            held: Held::Beside(open),
        })
    }

    /// The set without the data of a record. Without such data it stays as it is.
    pub(super) fn take_data(self, entry: &Record) -> Result<CurrentSet<'a>, AllocError>
        requires { IsDistinct (on (λ (r : Entry RData). r.rdata) same_data) self.records }
        ensures { IfOk result (λ s. s ≡ without_data entry.now self.entry) }
    {
        let open = self.open()?.take_data(entry)?;
        Ok(CurrentSet {
            held: Held::Beside(open),
        })
    }

    /// The set, to be changed: that of the zone is copied.
    fn open(self) -> Result<OpenSet, AllocError>
        requires { IsDistinct (on (λ (r : Entry RData). r.rdata) same_data) self.records }
        ensures { IfOk result (λ s. open_set s ≡ self.entry) }
    {
        let CurrentSet { held } = self;
        match held {
            Held::InZone(set) => {
                if set.records_count() <= FEW {
                    Ok(OpenSet::Few(set.clone()?))
                } else {
                    Ok(OpenSet::Many(ChangingSet::open(set)?))
                }
            }
            Held::Beside(OpenSet::Few(set)) => {
                if set.records_count() <= FEW {
                    Ok(OpenSet::Few(set))
                } else {
                    Ok(OpenSet::Many(ChangingSet::open(&set)?))
                }
            }
            Held::Beside(OpenSet::Many(set)) => Ok(OpenSet::Many(set)),
        }
    }

    /// The set as it is now.
    pub(super) fn close(self) -> Result<RecordSet, AllocError>
        ensures { IfOk result (λ set. set ≡ self.entry) }
    {
        let CurrentSet { held } = self;
        match held {
            Held::InZone(set) => set.clone(),
            Held::Beside(OpenSet::Few(set)) => Ok(set),
            Held::Beside(OpenSet::Many(set)) => set.close(),
        }
    }
}

// By hand, since with a derived one a proof goes through the fields wherever a set is dropped.
impl<'a> Drop for CurrentSet<'a> {
    fn drop(self) {
        let CurrentSet { held: _ } = self;
    }
}

impl OpenSet {
    /// The set with a copy of a record, in the place of equal data, or else last.
    fn renew(self, entry: &Record) -> Result<OpenSet, AllocError>
        ensures { IfOk result (λ s. open_set s
            ≡ with_records (open_set self) (joined entry.now (open_set self).records)) }
    {
        match self {
            OpenSet::Few(mut set) => {
                renew(&mut set, entry)?;
                Ok(OpenSet::Few(set))
            }
            OpenSet::Many(mut set) => {
                set.renew(entry)?;
                Ok(OpenSet::Many(set))
            }
        }
    }

    /// The set without the data of a record. Without such data it stays as it is.
    fn take_data(self, entry: &Record) -> Result<OpenSet, AllocError>
        ensures { IfOk result (λ s. open_set s ≡ without_data entry.now (open_set self)) }
    {
        match self {
            OpenSet::Few(mut set) => {
                let _ = set.take_data(entry);
                Ok(OpenSet::Few(set))
            }
            OpenSet::Many(mut set) => {
                set.take_data(entry)?;
                Ok(OpenSet::Many(set))
            }
        }
    }
}

/// The set of a record's key in a zone of this class, without records.
fn empty_set(class: DNSClass, entry: &Record) -> Result<RecordSet, AllocError>
    ensures { IfOk result (λ s. s ≡ set_without class entry.now) }
{
    let name = entry.name.clone()?;
    let mut set = RecordSet::new(name.allocator(), name, entry.record_type(), 0);
    set.set_dns_class(class);
    Ok(set)
}

/// Puts a copy of a record into a set, in the place of equal data, or else last.
fn renew(set: &mut RecordSet, entry: &Record) -> Result<(), AllocError>
    ensures ok { OnOk result (set.new
        ≡ with_records set.old (joined entry.now set.old.records)) }
    ensures err { OnErr result (set.new ≡ set.old) }
{
    let Ok(()) = set.renew(entry.clone()?) else {
        return Err(AllocError);
    };
    Ok(())
}
