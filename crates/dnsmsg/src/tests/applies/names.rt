//! Updates of names that are spelled in other letters, and of names that have memory of their own.

use super::{ASK, Applied, CHANGE, CNAME, SHOWN, SHOWN_WWW, SOA_AND_NS, WWW, all_leave};
use crate::tests::{Row, all_give};
use std::alloc::AllocError;

/// Updates, the texts of zones, and what is printed: what replaces equal data has the spelling of the update's record,
/// whatever its TTL (RFC 2136, 3.4.2.2; RFC 4343, 3).
const SPELLED: &[Applied] = &[
    // equal data in other letters, with the same TTL and with another
    (
        &[CHANGE, "C00C 000F 0001 00000E10 0009 000A 044D41494C C00C"],
        &[SOA_AND_NS, "@ MX 10 mail\n"],
        &["NoError\n", SHOWN, "example. 3600 IN MX 10 MAIL.example.\n"],
    ),
    (
        &[CHANGE, "C00C 000F 0001 0000003C 0009 000A 044D41494C C00C"],
        &[SOA_AND_NS, "@ MX 10 mail\n"],
        &["NoError\n", SHOWN, "example. 60 IN MX 10 MAIL.example.\n"],
    ),
    // the owner in other letters
    (
        &[CHANGE, "03575757 C00C 0001 0001 0000012C 0004 C0000201"],
        &[SOA_AND_NS, WWW],
        &["NoError\n", SHOWN, "WWW.example. 300 IN A 192.0.2.1\n"],
    ),
    // a second ANAME stands beside the first, and the first again doesn't
    (
        &[CHANGE, "03777777 C00C FF19 0001 0000003C 0004 0178 C00C"],
        &[SOA_AND_NS, "www 300 ANAME ns\n"],
        &[
            "NoError\n",
            SHOWN,
            "www.example. 300 IN ANAME ns.example.\nwww.example. 60 IN ANAME x.example.\n",
        ],
    ),
    (
        &[CHANGE, "03777777 C00C FF19 0001 0000012C 0005 024E53 C00C"],
        &[SOA_AND_NS, "www 300 ANAME ns\n"],
        &[
            "NoError\n",
            SHOWN,
            "www.example. 300 IN ANAME NS.example.\n",
        ],
    ),
];

/// The two addresses of an owner whose name has memory of its own, the owner on the wire, and how both are printed.
const LONG: &str =
    "a-name-with-memory-of-its-own 300 A 192.0.2.1\na-name-with-memory-of-its-own A 192.0.2.2\n";

const LONG_OWNER: &str = "1D612D6E616D652D776974682D6D656D6F72792D6F662D6974732D6F776E C00C";

const SHOWN_FIRST: &str = "a-name-with-memory-of-its-own.example. 300 IN A 192.0.2.1\n";

const SHOWN_LONG: &str = "a-name-with-memory-of-its-own.example. 300 IN A 192.0.2.2\n";

/// The same of that owner.
const LONG_NAMES: &[Applied] = &[
    // it has these addresses and no other; one goes, and one comes
    (
        &[
            "0007 2800 0001 0002 0002 0000 076578616D706C65 00 0006 0001 ",
            LONG_OWNER,
            "0001 0001 00000000 0004 C0000201 C019 0001 0001 00000000 0004 C0000202\
             C019 0001 00FE 00000000 0004 C0000201 C019 0001 0001 0000003C 0004 C0000203",
        ],
        &[SOA_AND_NS, LONG],
        &[
            "NoError\n",
            SHOWN,
            SHOWN_LONG,
            "a-name-with-memory-of-its-own.example. 60 IN A 192.0.2.3\n",
        ],
    ),
    // all of its sets go
    (
        &[CHANGE, LONG_OWNER, "00FF 00FF 00000000 0000"],
        &[SOA_AND_NS, LONG, WWW],
        &["NoError\n", SHOWN, SHOWN_WWW],
    ),
    // it is the target of a new set
    (
        &[CHANGE, "03777777 C00C 0005 0001 0000012C 0020", LONG_OWNER],
        &[SOA_AND_NS, CNAME],
        &[
            "NoError\n",
            SHOWN,
            "www.example. 300 IN CNAME a-name-with-memory-of-its-own.example.\n",
        ],
    ),
];

/// The same of prerequisites and changes of that owner that stand alone (RFC 2136, 2.4 and 2.5).
const LONG_ALONE: &[Applied] = &[
    (
        &[ASK, LONG_OWNER, "00FF 00FF 00000000 0000"],
        &[SOA_AND_NS, WWW],
        &["NXDomain\n", SHOWN, SHOWN_WWW],
    ),
    (
        &[ASK, LONG_OWNER, "0001 00FE 00000000 0000"],
        &[SOA_AND_NS, LONG],
        &["YXRRSet\n", SHOWN, SHOWN_FIRST, SHOWN_LONG],
    ),
    // its set goes
    (
        &[CHANGE, LONG_OWNER, "0001 00FF 00000000 0000"],
        &[SOA_AND_NS, LONG, WWW],
        &["NoError\n", SHOWN, SHOWN_WWW],
    ),
    // it is given a CNAME, but for one that has addresses
    (
        &[CHANGE, LONG_OWNER, "0005 0001 0000003C 0002 C00C"],
        &[SOA_AND_NS],
        &[
            "NoError\n",
            SHOWN,
            "a-name-with-memory-of-its-own.example. 60 IN CNAME example.\n",
        ],
    ),
    (
        &[CHANGE, LONG_OWNER, "0005 0001 0000003C 0002 C00C"],
        &[SOA_AND_NS, LONG],
        &["NoError\n", SHOWN, SHOWN_FIRST, SHOWN_LONG],
    ),
];

/// Additions to a zone that has nothing, twelve owners at once.
const OWNERS: &[Applied] = &[(
    &[
        "0007 2800 0001 0000 000C 0000 076578616D706C65 00 0006 0001",
        "0161 C00C 0001 0001 0000003C 0004 C0000201 0162 C00C 0001 0001 0000003C 0004 C0000201\
         0163 C00C 0001 0001 0000003C 0004 C0000201 0164 C00C 0001 0001 0000003C 0004 C0000201\
         0165 C00C 0001 0001 0000003C 0004 C0000201 0166 C00C 0001 0001 0000003C 0004 C0000201\
         0167 C00C 0001 0001 0000003C 0004 C0000201 0168 C00C 0001 0001 0000003C 0004 C0000201\
         0169 C00C 0001 0001 0000003C 0004 C0000201 016A C00C 0001 0001 0000003C 0004 C0000201\
         016B C00C 0001 0001 0000003C 0004 C0000201 016C C00C 0001 0001 0000003C 0004 C0000201",
    ],
    &[],
    &[
        "NoError\n$ORIGIN example.\n\
         a.example. 60 IN A 192.0.2.1\nb.example. 60 IN A 192.0.2.1\nc.example. 60 IN A 192.0.2.1\n\
         d.example. 60 IN A 192.0.2.1\ne.example. 60 IN A 192.0.2.1\nf.example. 60 IN A 192.0.2.1\n\
         g.example. 60 IN A 192.0.2.1\nh.example. 60 IN A 192.0.2.1\ni.example. 60 IN A 192.0.2.1\n\
         j.example. 60 IN A 192.0.2.1\nk.example. 60 IN A 192.0.2.1\nl.example. 60 IN A 192.0.2.1\n",
    ],
)];

/// The last name server of a zone whose own name has memory of its own stays.
const LONG_ZONE: &[Row] = &[(
    &[
        "apply",
        "a-name-with-memory-of-its-own.",
        "0007 2800 0001 0000 0001 0000 1D612D6E616D652D776974682D6D656D6F72792D6F662D6974732D6F776E 00 0006 0001\
         C00C 0002 00FE 00000000 0005 026E73 C00C",
    ],
    &["@ 60 NS ns\n"],
    0,
    &[
        "NoError\n$ORIGIN a-name-with-memory-of-its-own.\n\
         a-name-with-memory-of-its-own. 60 IN NS ns.a-name-with-memory-of-its-own.\n",
    ],
)];

#[test]
fn updates_keep_their_spelling(rt: HostRuntime) -> Result<(), AllocError> {
    all_leave(&rt, SPELLED)
}

#[test]
fn updates_of_long_names(rt: HostRuntime) -> Result<(), AllocError> {
    all_leave(&rt, LONG_NAMES)?;
    all_leave(&rt, LONG_ALONE)
}

#[test]
fn updates_of_a_zone_of_a_long_name(rt: HostRuntime) -> Result<(), AllocError> {
    all_give(&rt, LONG_ZONE)
}

#[test]
fn updates_of_a_zone_without_sets(rt: HostRuntime) -> Result<(), AllocError> {
    all_leave(&rt, OWNERS)
}
