//! Record sets: what goes in, what comes out, and what is seen of them.

ghost use Rattle.std.specs.Prelude.{◌≡◌, ◌≤◌, length, true};
ghost use Rattle.rr.specs.SetChanges.{holds_one};

mod changes;
mod iterating;
mod many;

use crate::rows::{Row, is_row, record};
use base::{Name, ParseError, ProtoError, RecordType};
use base_data::RData;
use rr::{Record, RecordSet};
use std::alloc::Global;
use std::test::Fail;

/// The owner of the sets. It has more than 29 bytes, so that each copy of it takes memory.
pub(crate) const OWNER: &str = "a-name-with-memory-of-its-own.";

/// What is done to a set with a record.
#[derive(Clone, Copy)]
pub(crate) enum Call {
    /// It is inserted: whether it is new.
    Insert,
    /// Its data is added: whether it is new.
    Add,
    /// A record of its data is made: whether one is there then.
    Make,
    /// It is removed: whether there was one.
    Remove,
    /// It takes the place of the one of equal data.
    Renew,
    /// It is taken out, as updates do.
    Part,
}

/// What is done to a set, with the record of a row and a serial, and the answer.
pub(crate) type Step = (Call, Row, u32, bool);

/// A set's TTL, its serial and its records.
pub(crate) type Shape = (u32, u32, &'static [Row]);

/// The records of these rows.
pub(crate) fn records(alloc: Global, rows: &[Row]) -> Result<Vec<Record>, ParseError> {
    let mut records = Vec::new(alloc);
    for &row in rows {
        records.push(record(alloc, OWNER, row)?)?;
    }
    Ok(records)
}

/// The set of this type and shape.
pub(crate) fn set_of(
    alloc: Global,
    record_type: RecordType,
    (ttl, serial, rows): (u32, u32, &[Row]),
) -> Result<RecordSet, ParseError> {
    let records = records(alloc, rows)?;
    match Name::parse(alloc, OWNER, None) {
        Ok(name) => {
            let mut set = RecordSet::new(alloc, name, record_type, serial);
            set.set_ttl(ttl);
            set.set_records(records);
            Ok(set)
        }
        Err(e) => {
            drop(records);
            Err(e)
        }
    }
}

/// Whether a record of this type may be put into the set.
#[tactic(auto, using(crate::proofs::SetCalls::one_type))]
fn may_hold(set: &RecordSet, record_type: RecordType) -> bool
    ensures typed { result ≡ true → record_type ≡ set.now.record_type }
    ensures single { result ≡ true → holds_one set.now.record_type ≡ true
        → length set.now.records ≤ 1 }
{
    if record_type != set.record_type() {
        return false;
    }
    match record_type {
        RecordType::SOA | RecordType::CNAME | RecordType::ANAME => set.records_count() <= 1,
        _ => true,
    }
}

/// What stands in place of a call that the set isn't made for.
const UNFIT: &str = "a record that the set can't hold";

/// Inserts a record, and tells whether it is new.
fn inserts(set: &mut RecordSet, entry: Record, serial: u32) -> Result<bool, ProtoError> {
    if *set.name() == entry.name && may_hold(set, entry.record_type()) {
        return set.insert(entry, serial);
    }
    drop(entry);
    Err(ProtoError::Message(UNFIT))
}

/// Adds data, and tells whether it is new.
fn adds(set: &mut RecordSet, rdata: RData) -> Result<bool, ProtoError> {
    if may_hold(set, rdata.record_type()) {
        return set.add_rdata(rdata);
    }
    drop(rdata);
    Err(ProtoError::Message(UNFIT))
}

/// Makes a record of data, and tells whether the set has one then.
fn makes(set: &mut RecordSet, rdata: &RData) -> Result<bool, ProtoError> {
    if !may_hold(set, rdata.record_type()) {
        return Err(ProtoError::Message(UNFIT));
    }
    match set.new_record(rdata) {
        Ok(Some(entry)) => Ok(entry.rdata == *rdata),
        Ok(None) => Ok(false),
        Err(_) => Err(ProtoError::Memory),
    }
}

/// Removes a record, and tells whether there was one.
fn removes(set: &mut RecordSet, entry: &Record, serial: u32) -> Result<bool, ProtoError> {
    let typed = entry.record_type() == set.record_type() || entry.record_type() == RecordType::ANY;
    if *set.name() == entry.name && typed {
        return Ok(set.remove(entry, serial));
    }
    Err(ProtoError::Message(UNFIT))
}

/// What the call answers; true where it has no answer.
fn call_on(
    set: &mut RecordSet,
    call: Call,
    entry: &Record,
    serial: u32,
) -> Result<bool, ProtoError> {
    match call {
        Call::Insert => inserts(set, entry.clone()?, serial),
        Call::Add => adds(set, entry.rdata.clone()?),
        Call::Make => makes(set, &entry.rdata),
        Call::Remove => removes(set, entry, serial),
        Call::Renew => {
            set.renew(entry.clone()?)?;
            Ok(true)
        }
        Call::Part => Ok(set.take_data(entry)),
    }
}

/// Whether the call has this answer. Where it is refused memory, the set has to be what it was.
fn is_answered(
    set: &mut RecordSet,
    call: Call,
    entry: &Record,
    serial: u32,
    wanted: bool,
) -> Result<bool, ProtoError> {
    let before: RecordSet = set.clone()?;
    let answered = call_on(set, call, entry, serial);
    let same = *set == before;
    drop(before);
    match answered {
        Ok(answer) => Ok(answer == wanted),
        Err(e) if same => Err(e),
        Err(e) => {
            drop(e);
            Ok(false)
        }
    }
}

/// Whether a step has its answer.
pub(crate) fn is_right(alloc: Global, set: &mut RecordSet, step: Step) -> Result<bool, Fail> {
    let (call, row, serial, wanted) = step;
    let entry = record(alloc, OWNER, row)?;
    let right = is_answered(set, call, &entry, serial, wanted);
    drop(entry);
    Ok(right?)
}

/// Whether the records of the set are these.
pub(crate) fn shows(alloc: Global, set: &RecordSet, rows: &[Row]) -> Result<bool, ParseError> {
    let mut entries = set.records_without_rrsigs();
    for &row in rows {
        match entries.next() {
            Some(entry) => {
                if !is_row(alloc, entry, row)? {
                    return Ok(false);
                }
            }
            None => return Ok(false),
        }
    }
    Ok(entries.next().is_none())
}

/// Whether the steps have their answers and leave a set of this shape.
fn goes(
    alloc: Global,
    set: &mut RecordSet,
    steps: &[Step],
    (ttl, serial, rows): Shape,
) -> Result<bool, Fail> {
    let mut right = true;
    for &step in steps {
        right = is_right(alloc, set, step)? && right;
    }
    Ok(shows(alloc, set, rows)? && set.ttl() == ttl && set.serial() == serial && right)
}

/// Whether that is so of a set of this type and shape.
pub(crate) fn leaves(
    alloc: Global,
    record_type: RecordType,
    before: Shape,
    steps: &[Step],
    after: Shape,
) -> Result<bool, Fail> {
    let mut set = set_of(alloc, record_type, before)?;
    let right = goes(alloc, &mut set, steps, after);
    drop(set);
    right
}
