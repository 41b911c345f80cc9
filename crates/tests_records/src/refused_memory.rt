use crate::rows::Datum::{self, Address, Number, Soa, Text};
use crate::rows::Row;
use crate::sets::{Call, Step, is_right, leaves, records, set_of};
use base::DNSClass::IN;
use base::RecordType::{self, A, CNAME, NS, NULL, SOA};
use rr::{Record, RecordSet};
use std::alloc::Global;
use std::test::Fail;

/// What is done with data.
#[derive(Clone, Copy)]
enum Change {
    /// It is put in: whether it is new, and whether it is there then.
    Put(Datum, bool, bool),
    /// It is removed: whether it goes.
    Remove(Datum, bool),
}

/// How data is put in.
const WAYS: [Call; 3] = [Call::Insert, Call::Add, Call::Make];

/// The step of a change, with data put in in this way.
fn step(way: Call, change: Change) -> Step {
    match change {
        Change::Put(datum, is_new, is_there) => {
            let wanted = if matches!(way, Call::Make) {
                is_there
            } else {
                is_new
            };
            (way, (datum, IN, 5), 0, wanted)
        }
        Change::Remove(datum, is_gone) => (Call::Remove, (datum, IN, 5), 0, is_gone),
    }
}

/// Whether the changes of an empty set, with data put in in each way, have their answers and leave these records.
fn goes_each_way(
    alloc: Global,
    record_type: RecordType,
    changes: &[Change],
    left: &'static [Row],
) -> Result<bool, Fail> {
    let mut right = true;
    for way in WAYS {
        let mut steps = Vec::new(alloc);
        for &change in changes {
            steps.push(step(way, change))?;
        }
        right = leaves(alloc, record_type, (5, 0, &[]), &steps, (5, 0, left))? && right;
    }
    Ok(right)
}

/// Data of each type: addresses, SOAs, CNAMEs and name servers.
const FIRST: Datum = Address(24);

const SECOND: Datum = Address(25);

const SOA_A: Datum = Soa(2015082403, "a.");

const SOA_B: Datum = Soa(2015082403, "b.");

const SOA_LATER: Datum = Soa(2015082404, "c.");

const CNAME_A: Datum = Text(CNAME, &["a."]);

const CNAME_B: Datum = Text(CNAME, &["b."]);

const NS_1: Datum = Text(NS, &["ns1.a-name-with-memory-of-its-own."]);

const NS_2: Datum = Text(NS, &["ns2.a-name-with-memory-of-its-own."]);

/// The type of a set, its changes, and what is left.
const SETS: &[(RecordType, &'static [Change], &'static [Row])] = &[
    (
        A,
        &[
            Change::Put(FIRST, true, true),
            Change::Put(FIRST, false, true),
            Change::Put(SECOND, true, true),
        ],
        &[(FIRST, IN, 5), (SECOND, IN, 5)],
    ),
    (
        SOA,
        &[
            Change::Put(SOA_A, true, true),
            Change::Put(SOA_B, false, false),
            Change::Put(SOA_LATER, true, true),
            Change::Put(SOA_B, false, false),
            Change::Put(SOA_A, false, false),
        ],
        &[(SOA_LATER, IN, 5)],
    ),
    (
        CNAME,
        &[
            Change::Put(CNAME_A, true, true),
            Change::Put(CNAME_B, true, true),
            Change::Put(CNAME_B, true, true),
        ],
        &[(CNAME_B, IN, 5)],
    ),
    (
        NS,
        &[
            Change::Put(NS_1, true, true),
            Change::Put(NS_2, true, true),
            Change::Remove(NS_1, true),
            Change::Remove(NS_2, false),
            Change::Put(NS_1, true, true),
            Change::Remove(NS_2, true),
            Change::Remove(NS_1, false),
        ],
        &[(NS_1, IN, 5)],
    ),
];

#[test]
fn data_is_put_in_and_removed(rt: HostRuntime) -> Result<(), Fail> {
    for &(record_type, changes, left) in SETS {
        assert!(rt;
            goes_each_way(rt.alloc(), record_type, changes, left)?,
            "{record_type}"
        );
    }
    Ok(())
}

/// The data of a number: an address, or bytes, of which each copy takes memory.
fn numbered(record_type: RecordType, number: u16) -> Datum {
    match record_type {
        A => Address(number),
        _ => Number(number),
    }
}

/// Whether enough data of a type for an index to be made goes in, in this way: 25 of them, 24 times the first again,
/// and three more, of which the first makes the index.
fn fills(
    alloc: Global,
    set: &mut RecordSet,
    record_type: RecordType,
    way: Call,
) -> Result<bool, Fail> {
    let mut right = true;
    for number in 0..52u16 {
        let is_new = number < 25 || number >= 49;
        let datum = numbered(record_type, if is_new { number } else { 0 });
        right = is_right(alloc, set, step(way, Change::Put(datum, is_new, true)))? && right;
    }
    Ok(set.records_count() == 28 && right)
}

/// Whether an empty set of a type is filled so.
fn is_filled(alloc: Global, record_type: RecordType, way: Call) -> Result<bool, Fail> {
    let mut set = set_of(alloc, record_type, (5, 0, &[]))?;
    let filled = fills(alloc, &mut set, record_type, way);
    drop(set);
    filled
}

#[test]
fn addresses_are_put_in_by_an_index(rt: HostRuntime) -> Result<(), Fail> {
    for way in WAYS {
        assert!(rt; is_filled(rt.alloc(), A, way)?);
    }
    Ok(())
}

#[test]
fn bytes_are_put_in_by_an_index(rt: HostRuntime) -> Result<(), Fail> {
    assert!(rt; is_filled(rt.alloc(), NULL, Call::Insert)?);
    Ok(())
}

/// Whether the data of each of these is taken out of the set, which takes no memory.
fn parts(set: &mut RecordSet, gone: &[Record]) -> bool {
    let mut went = true;
    for entry in gone {
        went = set.take_data(entry) && went;
    }
    went && set.records_count() == 1
}

#[test]
fn data_is_taken_out(rt: HostRuntime) -> Result<(), Fail> {
    let rows = [
        (Address(0), IN, 5),
        (Address(1), IN, 5),
        (Address(2), IN, 5),
    ];
    let mut set = set_of(rt.alloc(), A, (5, 0, &rows))?;
    let gone = records(rt.alloc(), &rows[1..])?;
    assert!(rt; parts(&mut set, &gone));
    Ok(())
}
