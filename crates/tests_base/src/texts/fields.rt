//! Texts of names and numbers.

use super::{NONE, Row};

/// Items of data that is one name.
pub(super) const NAMES: &[Row] = &[
    ("ns.Example.", "ns.Example."),
    (".", "."),
    ("ns", "ns"),
    ("ns.sub", "ns.sub"),
    (
        "a-name-with-memory-of-its-own.",
        "a-name-with-memory-of-its-own.",
    ),
    (r"a\.b.\065.", r"a\.b.A."),
    ("*.example.", "*.example."),
    ("@", ""),
    ("", ""),
    ("a..b", ""),
    (".a", ""),
    ("a b.", ""),
    (r"a\256.", ""),
    (r"a\", ""),
    ("é.", ""),
    (
        "aaaaaaaaaaaaaaaaaaaaaaaaaaaaaaaaaaaaaaaaaaaaaaaaaaaaaaaaaaaaaaaa.",
        "",
    ),
    (NONE, ""),
    ("ns.,ns.", ""),
    ("ns.,", ""),
];

/// The same under the origin `sub.example.`.
pub(super) const NAMES_UNDER_AN_ORIGIN: &[Row] = &[
    ("ns.Example.", "ns.Example."),
    ("ns", "ns.sub.example."),
    ("a.b", "a.b.sub.example."),
    ("@", "sub.example."),
    (r"\@", r"\@.sub.example."),
    (".", "."),
    ("", ""),
    ("@.", r"\@."),
    ("@,@", ""),
];

/// The same under the relative origin `sub`.
pub(super) const NAMES_UNDER_A_RELATIVE_ORIGIN: &[Row] = &[
    ("ns", "ns.sub."),
    ("@", "sub"),
    ("ns.", "ns."),
];

/// MX, and MX under the origin `example.`.
pub(super) const MAIL: &[Row] = &[
    ("10,mail.example.", "10 mail.example."),
    ("0,.", "0 ."),
    ("65535,mail", "65535 mail"),
    ("000000000010,mail.", "10 mail."),
    ("65536,mail.", ""),
    ("18446744073709551626,mail.", ""),
    ("+10,mail.", ""),
    ("-0,mail.", ""),
    ("1O,mail.", ""),
    ("0x10,mail.", ""),
    (" 10,mail.", ""),
    ("1h,mail.", ""),
    ("٣,mail.", ""),
    (",mail.", ""),
    ("10,", ""),
    ("10,@", ""),
    ("mail.,10", ""),
    ("10", ""),
    (NONE, ""),
    ("10,mail.,mail.", ""),
];

pub(super) const MAIL_UNDER: &[Row] = &[
    ("10,mail", "10 mail.example."),
    ("10,@", "10 example."),
    ("10,mail.", "10 mail."),
];

/// SRV, and SRV under the origin `example.`.
pub(super) const SERVICES: &[Row] = &[
    ("1,2,5060,sip.example.", "1 2 5060 sip.example."),
    ("0,0,0,.", "0 0 0 ."),
    ("65535,65535,65535,sip", "65535 65535 65535 sip"),
    ("01,002,0003,sip.", "1 2 3 sip."),
    (
        "1,2,3,a-name-with-memory-of-its-own.",
        "1 2 3 a-name-with-memory-of-its-own.",
    ),
    ("65536,2,3,sip.", ""),
    ("1,65536,3,sip.", ""),
    ("1,2,65536,sip.", ""),
    ("+1,2,3,sip.", ""),
    ("1,+2,3,sip.", ""),
    ("1,2,+3,sip.", ""),
    ("1,2,3,a..b", ""),
    ("1,2,3", ""),
    ("1,2,sip.", ""),
    (NONE, ""),
    ("1,2,3,sip.,4", ""),
];

pub(super) const SERVICES_UNDER: &[Row] = &[
    ("1,2,3,sip", "1 2 3 sip.example."),
    ("1,2,3,.", "1 2 3 ."),
];

/// SOA, and SOA under the origin `example.`.
pub(super) const SOAS: &[Row] = &[
    ("m.,r.,1,2,3,4,5", "m. r. 1 2 3 4 5"),
    ("m,r.s,0,0,0,0,0", "m r.s 0 0 0 0 0"),
    (
        "m.,r.,007,1h30,2M,1w2d3h4m5s,4294967295",
        "m. r. 7 3630 120 788645 4294967295",
    ),
    (
        "m.,r.,4294967295,1s,1m,1d,01w",
        "m. r. 4294967295 1 60 86400 604800",
    ),
    ("m.,r.,4294967296,2,3,4,5", ""),
    ("m.,r.,1h,2,3,4,5", ""),
    ("m.,r.,+1,2,3,4,5", ""),
    ("m.,r.,,2,3,4,5", ""),
    ("m.,r.,1,m,3,4,5", ""),
    ("m.,r.,1,2,5x,4,5", ""),
    ("m.,r.,1,2,3,,5", ""),
    ("m.,r.,1,2,3,4,4294967296", ""),
    ("m.,r.,1,+2,3,4,5", ""),
    ("a..b,r.,1,2,3,4,5", ""),
    ("m.,@,1,2,3,4,5", ""),
    ("m.,r.,1,2,3,4", ""),
    ("m.,1,2,3,4,5", ""),
    (NONE, ""),
    ("m.,r.,1,2,3,4,5,6", ""),
];

pub(super) const SOAS_UNDER: &[Row] = &[
    ("ns,admin,1,2,3,4,5", "ns.example. admin.example. 1 2 3 4 5"),
    ("@,r.,1,2,3,4,5", "example. r. 1 2 3 4 5"),
];
