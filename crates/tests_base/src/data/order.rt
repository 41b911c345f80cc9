//! The order of data (RFC 4034, 6.2 and 6.3): by its bytes, names in lower case; then by what tells it apart otherwise.
//! And data that is the same in the letter case of its names too.

use super::Datum::{self, Carried, Empty, Part, Text, Wire};
use super::{ADDRESS, MAIL_HOST, make};
use base::RecordType::{A, CNAME, MX, NS, NSEC, NULL, OPT, SOA, TSIG, TXT, Unknown};
use std::alloc::Global;
use std::cmp::Ordering::{self, Equal, Greater, Less};

/// Two data, the order of the first before the second, and whether they are the same, names in their letter case too;
/// they are equal only where the order is equality.
type Row = (Datum, Datum, Ordering, bool);

const ORDERS: &[Row] = &[
    // a later type with lesser bytes
    (Wire(A, &[0, 0, 0, 9]), Wire(TXT, b"\x01b"), Less, false),
    (Wire(A, &[0, 0, 0, 9]), Wire(A, &[0, 0, 0, 10]), Less, false),
    // a beginning comes first
    (Empty(TXT), Wire(A, &[0, 0, 0, 0]), Less, false),
    (
        Wire(NULL, &[]),
        Wire(NULL, &[0xAB, 0x0C, 0xFF]),
        Less,
        false,
    ),
    // types come next
    (Wire(TSIG, &[7]), Carried(Unknown(251), &[7]), Less, false),
    (Empty(NS), Empty(CNAME), Less, false),
    // then kinds
    (
        Wire(A, &[0, 0, 0, 9]),
        Carried(A, &[0, 0, 0, 9]),
        Less,
        false,
    ),
    (
        Wire(A, &[0, 0, 0, 10]),
        Carried(A, &[0, 0, 0, 9]),
        Greater,
        false,
    ),
    // letters of names in lower case, and flags last
    (
        Text(MX, &["1", "a.B."]),
        Text(MX, &["1", "A.b."]),
        Equal,
        false,
    ),
    (
        Text(MX, &["1", "a.B."]),
        Text(MX, &["1", "a.b"]),
        Greater,
        false,
    ),
    (Wire(NS, b"\x02aa\0"), Wire(NS, b"\x02AA\0"), Equal, false),
    (Text(NS, &["aa"]), Wire(NS, b"\x02aa\0"), Less, false),
    // names, strings and options by their lengths
    (Text(NS, &["z."]), Text(NS, &["aa."]), Less, false),
    (Wire(NS, b"\x01z\0"), Wire(NS, b"\x02AA\0"), Less, false),
    (Wire(TXT, b"\x01b"), Wire(TXT, b"\x02aa"), Less, false),
    (
        Wire(OPT, &[0, 3, 0, 1, 0xFF]),
        Wire(OPT, &[0, 3, 0, 2, 0, 0]),
        Less,
        false,
    ),
    (
        Wire(OPT, &[0, 3, 0, 1, 0xFF]),
        Wire(OPT, &[0, 2, 0, 2, 0xFF, 0xFF]),
        Greater,
        false,
    ),
    // options by their bytes
    (
        Wire(OPT, &[0, 3, 0, 2, 0, 0]),
        Carried(OPT, &[0, 3, 0, 2, 0, 0]),
        Less,
        false,
    ),
    (
        Wire(OPT, &[0, 3, 0, 2, 0, 0]),
        Carried(OPT, &[0, 3, 0, 1, 0xFF]),
        Greater,
        false,
    ),
];

/// Data that is the same in letter case too, or isn't.
const LETTER_CASES: &[Row] = &[
    (
        Text(MX, &["1", "a.B."]),
        Text(MX, &["1", "a.B."]),
        Equal,
        true,
    ),
    (
        Text(MX, &["1", "a.B."]),
        Text(MX, &["2", "a.B."]),
        Less,
        false,
    ),
    (Wire(NS, b"\x02aa\0"), Text(NS, &["aa."]), Equal, true),
    (Wire(NS, b"\x02aa\0"), Text(NS, &["aa"]), Greater, false),
    (
        Text(SOA, &["m.", "r.", "1", "2", "3", "4", "5"]),
        Text(SOA, &["m.", "r.", "1", "2", "3", "4", "5"]),
        Equal,
        true,
    ),
    (
        Text(SOA, &["m.", "r.", "1", "2", "3", "4", "5"]),
        Text(SOA, &["m.", "R.", "1", "2", "3", "4", "5"]),
        Equal,
        false,
    ),
    // bytes have no letter case
    (Wire(TXT, b"\x01b"), Wire(TXT, b"\x01b"), Equal, true),
    (Wire(TXT, b"\x01b"), Wire(TXT, b"\x01B"), Greater, false),
];

/// Data that is read by its length.
const READ: &[Row] = &[
    (
        Part(MX, MAIL_HOST, 15, 6),
        Text(MX, &["10", "B.A."]),
        Equal,
        false,
    ),
    (Part(A, ADDRESS, 0, 4), Text(A, &["192.0.2.1"]), Equal, true),
    (Part(A, ADDRESS, 0, 0), Empty(A), Equal, true),
    (
        Part(NSEC, ADDRESS, 0, 2),
        Carried(NSEC, &[192, 0]),
        Equal,
        true,
    ),
];

const TABLES: &[&'static [Row]] = &[ORDERS, LETTER_CASES, READ];

/// Whether the data of a row stands so.
fn stand(alloc: Global, (first, second, order, same): Row) -> bool {
    let data = (make(alloc, first), make(alloc, second));
    let do_stand = match &data {
        (Some(first), Some(second)) => {
            first.canonical_cmp(second) == order
                && (first == second) == (order == Equal)
                && first.eq_case(second) == same
        }
        _ => false,
    };
    drop(data);
    do_stand
}

#[test]
fn rows_of_orders(rt: HostRuntime) {
    for (i, &rows) in TABLES.iter().enumerate() {
        for (j, &row) in rows.iter().enumerate() {
            assert!(rt; stand(rt.alloc(), row), "table {i}, row {j}");
        }
    }
}
