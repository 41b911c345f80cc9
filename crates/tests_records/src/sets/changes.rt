//! Rows of changes: a set, what is done to it, and what it is then.

use super::Call::{Insert, Make, Remove};
use super::{Shape, Step, leaves};
use crate::rows::Datum::{Address, Empty, Soa, Text};
use crate::rows::Row;
use base::DNSClass::{CH, HS, IN};
use base::RecordType::{self, A, ANY, CNAME, NS, SOA};
use std::process::Abort;
use std::test::Fail;

/// Addresses of each class, with TTLs.
const FIRST: Row = (Address(24), IN, 5);

const SECOND: Row = (Address(25), IN, 5);

const CHAOS_OF_5: Row = (Address(24), CH, 5);

const CHAOS: Row = (Address(24), CH, 1);

const HESIOD: Row = (Address(24), HS, 1);

const OLD: Row = (Address(24), IN, 1);

const NEW: Row = (Address(24), IN, 9);

const OTHER: Row = (Address(25), IN, 1);

/// SOAs of serial 5, the first with TTL 0.
const A_OF_5_NOW: Row = (Soa(5, "a."), IN, 0);

const A_OF_5: Row = (Soa(5, "a."), IN, 5);

const B_OF_5: Row = (Soa(5, "b."), IN, 5);

/// SOAs by the last digit of a serial.
const A_OF_3: Row = (Soa(2015082403, "a."), IN, 5);

const B_OF_3: Row = (Soa(2015082403, "b."), IN, 5);

const C_OF_4: Row = (Soa(2015082404, "c."), IN, 5);

/// SOAs with serials around 0, 2^31 and 2^32.
const A_OF_0: Row = (Soa(0, "a."), IN, 5);

const A_OF_1: Row = (Soa(1, "a."), IN, 5);

const B_OF_1: Row = (Soa(1, "b."), IN, 5);

const A_OF_HALF: Row = (Soa(2147483648, "a."), IN, 5);

const A_PAST_HALF: Row = (Soa(2147483649, "a."), IN, 5);

const B_PAST_HALF: Row = (Soa(2147483649, "b."), IN, 5);

const A_OF_MOST: Row = (Soa(4294967295, "a."), IN, 5);

/// CNAMEs, name servers, and all data of a name.
const CNAME_A: Row = (Text(CNAME, &["a."]), IN, 5);

const CNAME_B: Row = (Text(CNAME, &["b."]), IN, 5);

const NS_1: Row = (Text(NS, &["ns1.example."]), IN, 5);

const NS_2: Row = (Text(NS, &["ns2.example."]), IN, 5);

const ALL: Row = (Empty(ANY), IN, 0);

const EMPTY: Shape = (0, 0, &[]);

/// What a row shows, the type of the set, the set, the steps, and the set then.
type Case = (&'static str, RecordType, Shape, &'static [Step], Shape);

/// Each row's steps have their answers and leave what it says.
fn all_leave(rt: &(impl Abort + AllocGlobal), cases: &[Case]) -> Result<(), Fail> {
    for &(what, record_type, before, steps, after) in cases {
        assert!(rt;
            leaves(rt.alloc(), record_type, before, steps, after)?,
            "{what}"
        );
    }
    Ok(())
}

/// Changes of sets of addresses.
const ADDRESSES: &[Case] = &[
    (
        "equal data does not come in",
        A,
        EMPTY,
        &[
            (Insert, FIRST, 0, true),
            (Insert, FIRST, 0, false),
            (Insert, SECOND, 0, true),
        ],
        (5, 0, &[FIRST, SECOND]),
    ),
    (
        "equal data of another class takes the place",
        A,
        EMPTY,
        &[
            (Insert, FIRST, 0, true),
            (Insert, SECOND, 0, true),
            (Insert, CHAOS_OF_5, 0, true),
        ],
        (5, 0, &[CHAOS_OF_5, SECOND]),
    ),
    // each record of equal data is replaced
    (
        "of two classes",
        A,
        (1, 3, &[CHAOS, OLD]),
        &[(Insert, NEW, 5, true)],
        (9, 5, &[NEW, NEW]),
    ),
    (
        "of two classes, one twice",
        A,
        (1, 3, &[CHAOS, OLD, CHAOS]),
        &[(Insert, NEW, 5, true)],
        (9, 5, &[NEW, NEW, NEW]),
    ),
    (
        "of other classes",
        A,
        (1, 3, &[CHAOS, HESIOD]),
        &[(Insert, NEW, 5, true)],
        (9, 5, &[NEW, NEW]),
    ),
    (
        "around other data",
        A,
        (1, 3, &[OLD, OTHER, OLD]),
        &[(Insert, NEW, 5, true)],
        (9, 5, &[NEW, OTHER, NEW]),
    ),
    (
        "before other data",
        A,
        (1, 3, &[OLD, OTHER]),
        &[(Insert, NEW, 5, true)],
        (9, 5, &[NEW, OTHER]),
    ),
    (
        "other data alone",
        A,
        (1, 3, &[OTHER]),
        &[(Insert, NEW, 5, true)],
        (9, 5, &[OTHER, NEW]),
    ),
    // an equal record of the same TTL stays
    (
        "after another class",
        A,
        (1, 3, &[CHAOS, OLD]),
        &[(Insert, OLD, 5, false)],
        (1, 3, &[CHAOS, OLD]),
    ),
    (
        "twice",
        A,
        (1, 3, &[OLD, OLD]),
        &[(Insert, OLD, 5, false)],
        (1, 3, &[OLD, OLD]),
    ),
    (
        "after one of another time",
        A,
        (1, 3, &[OLD, NEW]),
        &[(Insert, NEW, 5, false)],
        (1, 3, &[OLD, NEW]),
    ),
];

#[test]
fn equal_data_is_replaced_unless_it_is_the_same(rt: HostRuntime) -> Result<(), Fail> {
    all_leave(&rt, ADDRESSES)
}

/// Changes of sets of SOAs.
const SOAS: &[Case] = &[
    (
        "an SOA gives way to a later one",
        SOA,
        EMPTY,
        &[
            (Insert, A_OF_3, 2015082403, true),
            (Insert, B_OF_3, 2015082403, false),
            (Insert, C_OF_4, 2015082404, true),
            (Insert, B_OF_3, 2015082403, false),
            (Insert, A_OF_3, 2015082403, false),
        ],
        (5, 2015082404, &[C_OF_4]),
    ),
    // serials count on from the last one
    (
        "0 after the last serial",
        SOA,
        EMPTY,
        &[
            (Insert, A_OF_MOST, 4294967295, true),
            (Insert, A_OF_0, 0, true),
        ],
        (5, 0, &[A_OF_0]),
    ),
    (
        "a half less one further",
        SOA,
        EMPTY,
        &[
            (Insert, A_OF_1, 1, true),
            (Insert, A_OF_HALF, 2147483648, true),
        ],
        (5, 2147483648, &[A_OF_HALF]),
    ),
    (
        "a half further",
        SOA,
        EMPTY,
        &[
            (Insert, A_OF_1, 1, true),
            (Insert, B_PAST_HALF, 2147483649, false),
        ],
        (5, 1, &[A_OF_1]),
    ),
    (
        "a half back",
        SOA,
        EMPTY,
        &[
            (Insert, A_PAST_HALF, 2147483649, true),
            (Insert, B_OF_1, 1, false),
        ],
        (5, 2147483649, &[A_PAST_HALF]),
    ),
    (
        "a half less one further, past the last serial",
        SOA,
        EMPTY,
        &[
            (Insert, A_PAST_HALF, 2147483649, true),
            (Insert, A_OF_0, 0, true),
        ],
        (5, 0, &[A_OF_0]),
    ),
];

#[test]
fn an_soa_gives_way_to_a_later_one(rt: HostRuntime) -> Result<(), Fail> {
    all_leave(&rt, SOAS)
}

/// Changes of sets of other types.
const OTHERS: &[Case] = &[
    (
        "a CNAME stands alone",
        CNAME,
        EMPTY,
        &[
            (Insert, CNAME_A, 0, true),
            (Insert, CNAME_B, 0, true),
            (Insert, CNAME_B, 0, true),
        ],
        (5, 0, &[CNAME_B]),
    ),
    (
        "the last name server stays",
        NS,
        EMPTY,
        &[
            (Insert, NS_1, 1, true),
            (Insert, NS_2, 1, true),
            (Remove, NS_1, 7, true),
            (Remove, NS_2, 7, false),
            (Insert, NS_1, 1, true),
            (Remove, NS_2, 7, true),
            (Remove, NS_1, 7, false),
        ],
        (5, 7, &[NS_1]),
    ),
    (
        "equal data goes together",
        NS,
        (0, 0, &[NS_1, NS_1]),
        &[(Remove, NS_1, 7, true)],
        (0, 7, &[]),
    ),
    (
        "neither an SOA nor all data of its name is removed",
        SOA,
        EMPTY,
        &[
            (Insert, A_OF_5, 1, true),
            (Remove, A_OF_5, 7, false),
            (Remove, ALL, 7, false),
        ],
        (5, 1, &[A_OF_5]),
    ),
    (
        "a new record is found unless it was refused",
        SOA,
        EMPTY,
        &[
            (Make, A_OF_5, 0, true),
            (Make, B_OF_5, 0, false),
            (Make, A_OF_5, 0, true),
        ],
        (0, 0, &[A_OF_5_NOW]),
    ),
];

#[test]
fn a_cname_stands_alone_and_the_last_server_stays(rt: HostRuntime) -> Result<(), Fail> {
    all_leave(&rt, OTHERS)
}
