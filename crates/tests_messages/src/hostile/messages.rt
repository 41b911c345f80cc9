//! Hostile messages, with the numbers of their refusals; 0 where a message is read.
//!
//! A name outside data that is spelled wrongly is refused with 5, and anything wrong within data with 8; a field that
//! the buffer ends in with 4, and data that it ends in with 7.

/// What is hostile, the number, and the message in hexadecimal.
pub(super) type Row = (&'static str, u8, &'static str);

/// Pointers of names.
const POINTERS: &[Row] = &[
    (
        "a pointer to itself",
        5,
        "0001 0000 0001 0000 0000 0000 C00C 0001 0001",
    ),
    (
        "a pointer forward",
        5,
        "0001 0000 0001 0000 0000 0000 C00E 0001 0001 00",
    ),
    (
        "a pointer after the end",
        5,
        "0001 0000 0001 0000 0000 0000 FFFF 0001 0001",
    ),
    (
        "a pointer back into its own labels",
        5,
        "0001 0000 0001 0000 0000 0000 01 61 C00C 0001 0001",
    ),
    (
        "a pointer without its second byte",
        4,
        "0001 0000 0001 0000 0000 0000 C0",
    ),
    (
        "two pointers to each other",
        5,
        "0001 0000 0002 0000 0000 0000 C012 0001 0001 C00C 0001 0001",
    ),
    (
        "a pointer to the root in the header",
        0,
        "0001 0000 0001 0000 0000 0000 C004 0001 0001",
    ),
    (
        "a pointer to a label in the header",
        0,
        "0161 0000 0001 0000 0000 0000 C000 0001 0001",
    ),
    (
        "a pointer to a reserved label in the header",
        5,
        "4061 0000 0001 0000 0000 0000 C000 0001 0001",
    ),
    (
        "a pointer into a label that holds a name",
        0,
        "0001 0000 0002 0000 0000 0000 03 016100 00 0001 0001 C00D 0001 0001",
    ),
    (
        "a pointer into a label that holds none",
        5,
        "0001 0000 0002 0000 0000 0000 03 406162 00 0001 0001 C00D 0001 0001",
    ),
    (
        "a pointer to a pointer to itself",
        5,
        "0001 0000 0002 0000 0000 0000 02 C00D 00 0001 0001 C00D 0001 0001",
    ),
];

/// Labels, and counts that lie.
const LABELS_AND_COUNTS: &[Row] = &[
    (
        "a label with the bits 01",
        5,
        "0001 0000 0001 0000 0000 0000 41 61 00 0001 0001",
    ),
    (
        "a label with the bits 10",
        5,
        "0001 0000 0001 0000 0000 0000 81 61 00 0001 0001",
    ),
    (
        "a label that passes the buffer",
        4,
        "0001 0000 0001 0000 0000 0000 3F 61 00 0001 0001",
    ),
    (
        "a name without its end",
        4,
        "0001 0000 0001 0000 0000 0000 01 61",
    ),
    (
        "65,535 questions, and none there",
        4,
        "0001 0000 FFFF 0000 0000 0000",
    ),
    (
        "65,535 answers, and one there",
        4,
        "0001 0000 0000 FFFF 0000 0000 00 0001 0001 00000000 0004 7F000001",
    ),
    (
        "65,535 of each, and none there",
        4,
        "0001 0000 FFFF FFFF FFFF FFFF",
    ),
    (
        "two answers, and one there",
        4,
        "0001 0000 0000 0002 0000 0000 00 0001 0001 00000000 0004 7F000001",
    ),
    (
        "one answer, and two there",
        0,
        "0001 0000 0000 0001 0000 0000 00 0001 0001 00000000 0004 7F000001 00 0001 0001 00000000 0004 7F000001",
    ),
];

/// Data of addresses and of names.
const DATA: &[Row] = &[
    (
        "an address of three bytes",
        8,
        "0001 0000 0000 0001 0000 0000 00 0001 0001 00000000 0003 7F000001",
    ),
    (
        "an address of five bytes",
        8,
        "0001 0000 0000 0001 0000 0000 00 0001 0001 00000000 0005 7F00000101",
    ),
    (
        "an address that passes the buffer",
        7,
        "0001 0000 0000 0001 0000 0000 00 0001 0001 00000000 0004 7F0000",
    ),
    (
        "a length of 65,535",
        7,
        "0001 0000 0000 0001 0000 0000 00 000A 0001 00000000 FFFF 61",
    ),
    (
        "a long address of one byte",
        8,
        "0001 0000 0000 0001 0000 0000 00 001C 0001 00000000 0001 20",
    ),
    (
        "a name in data that points to itself",
        8,
        "0001 0000 0000 0001 0000 0000 00 0002 0001 00000000 0002 C017",
    ),
    (
        "a name in data that points forward",
        8,
        "0001 0000 0000 0001 0000 0000 00 0005 0001 00000000 0002 C019 00",
    ),
    (
        "a name that passes its data",
        8,
        "0001 0000 0000 0001 0000 0000 00 0002 0001 00000000 0002 01 61 00",
    ),
    (
        "a name that doesn't fill its data",
        8,
        "0001 0000 0000 0001 0000 0000 00 0002 0001 00000000 0004 01 61 00 00",
    ),
    (
        "a pointer cut by its data",
        8,
        "0001 0000 0000 0001 0000 0000 00 0002 0001 00000000 0001 C0 00",
    ),
    (
        "a mail exchange without its name",
        8,
        "0001 0000 0000 0001 0000 0000 00 000F 0001 00000000 0002 000A",
    ),
    (
        "an SOA without its numbers",
        8,
        "0001 0000 0000 0001 0000 0000 00 0006 0001 00000000 0002 00 00",
    ),
    (
        "a service without its port",
        8,
        "0001 0000 0000 0001 0000 0000 00 0021 0001 00000000 0005 0001 0002 00",
    ),
];

/// Strings, and options of EDNS.
const STRINGS_AND_OPTIONS: &[Row] = &[
    (
        "a string that passes its data",
        8,
        "0001 0000 0000 0001 0000 0000 00 0010 0001 00000000 0002 05 61 62636465",
    ),
    (
        "a second string that passes its data",
        8,
        "0001 0000 0000 0001 0000 0000 00 0010 0001 00000000 0004 01 61 02 61 62",
    ),
    (
        "an option that passes its data",
        8,
        "0001 0000 0000 0000 0000 0001 00 0029 0200 00000000 0005 000A 0002 61 62",
    ),
    (
        "an option without its length",
        8,
        "0001 0000 0000 0000 0000 0001 00 0029 0200 00000000 0002 000A 0000",
    ),
    (
        "a second option that passes its data",
        8,
        "0001 0000 0000 0000 0000 0001 00 0029 0200 00000000 0008 000A 0000 000B 0001 61",
    ),
    (
        "an option record under a name",
        6,
        "0001 0000 0000 0000 0000 0001 01 61 00 0029 0200 00000000 0000",
    ),
    (
        "two option records",
        13,
        "0001 0000 0000 0000 0000 0002 00 0029 0200 00000000 0000 00 0029 0200 00000000 0000",
    ),
    (
        "an option record among answers",
        12,
        "0001 0000 0000 0001 0000 0000 00 0029 0200 00000000 0000",
    ),
];

/// Records and headers.
const RECORDS: &[Row] = &[
    (
        "a record after a signature",
        11,
        "0001 0000 0000 0000 0000 0002 00 00FA 00FF 00000000 0001 AA 00 0001 0001 00000000 0004 7F000001",
    ),
    (
        "an empty address outside an update",
        10,
        "0001 0000 0000 0001 0000 0000 00 0001 0001 00000000 0000",
    ),
    (
        "data of type zero",
        8,
        "0001 0000 0000 0001 0000 0000 00 0000 0001 00000000 0001 00",
    ),
    (
        "a header without its last byte",
        4,
        "0001 0000 0000 0000 0000 00",
    ),
    ("nothing", 4, ""),
];

/// Chains of pointers.
const CHAINS: &[Row] = &[
    (
        "a name of 255 bytes made of pointers",
        0,
        "0001 0000 0004 0000 0000 0000 3F6161616161616161616161616161616161616161616161616161616161616161\
     61616161616161616161616161616161616161616161616161616161616161 00 0001 0001\
     3F6161616161616161616161616161616161616161616161616161616161616161616161616161616161616161616161\
     61616161616161616161616161616161 C00C 0001 0001\
     3F6161616161616161616161616161616161616161616161616161616161616161616161616161616161616161616161\
     61616161616161616161616161616161 C051 0001 0001\
     3D6161616161616161616161616161616161616161616161616161616161616161616161616161616161616161616161\
     6161616161616161616161616161 C097 0001 0001",
    ),
    (
        "a name of 256 bytes made of pointers",
        5,
        "0001 0000 0004 0000 0000 0000 3F6161616161616161616161616161616161616161616161616161616161616161\
     61616161616161616161616161616161616161616161616161616161616161 00 0001 0001\
     3F6161616161616161616161616161616161616161616161616161616161616161616161616161616161616161616161\
     61616161616161616161616161616161 C00C 0001 0001\
     3F6161616161616161616161616161616161616161616161616161616161616161616161616161616161616161616161\
     61616161616161616161616161616161 C051 0001 0001\
     3E6161616161616161616161616161616161616161616161616161616161616161616161616161616161616161616161\
     616161616161616161616161616161 C097 0001 0001",
    ),
    (
        "a chain of 24 pointers",
        0,
        "0001 0000 0000 0002 0000 0000 00 000A 0001 00000000 0031 00 C017 C018 C01A C01C C01E C020 C022\
     C024 C026 C028 C02A C02C C02E C030 C032 C034 C036 C038 C03A C03C C03E C040 C042 C044 C046 0001\
     0001 00000000 0004 7F000001",
    ),
];

/// What is hostile in the messages of a table.
#[derive(Clone, Copy)]
pub(super) enum Table {
    Pointers,
    LabelsAndCounts,
    Data,
    StringsAndOptions,
    Records,
    Chains,
}

pub(super) const TABLES: &[Table] = &[
    Table::Pointers,
    Table::LabelsAndCounts,
    Table::Data,
    Table::StringsAndOptions,
    Table::Records,
    Table::Chains,
];

/// The messages of a table. Tables stand apart: what one costs to prove grows with the square of its length.
pub(super) fn messages_of(table: Table) -> &'static [Row] {
    match table {
        Table::Pointers => POINTERS,
        Table::LabelsAndCounts => LABELS_AND_COUNTS,
        Table::Data => DATA,
        Table::StringsAndOptions => STRINGS_AND_OPTIONS,
        Table::Records => RECORDS,
        Table::Chains => CHAINS,
    }
}
