//! Rows of the command `apply`.

mod names;

use super::{Parts, Row, USAGE, all_give, parts_give};
use std::alloc::AllocError;
use std::process::Abort;

/// The parts of an update of `example.`, of the zone's text, and of what is printed.
type Applied = (Parts, Parts, Parts);

/// The SOA of `example.` and its name server, and an address or a CNAME of `www`.
const SOA_AND_NS: &str = "@ 3600 SOA ns hostmaster 1 2 3 4 5\n@ NS ns\n";

const WWW: &str = "www 300 A 192.0.2.1\n";

const CNAME: &str = "www 300 CNAME ns\n";

/// How these are printed.
const SHOWN: &str =
    "$ORIGIN example.\nexample. 3600 IN NS ns.example.\nexample. 3600 IN SOA ns.example. hostmaster.example. 1 2 3 4 5\n";

const SHOWN_WWW: &str = "www.example. 300 IN A 192.0.2.1\n";

const SHOWN_CNAME: &str = "www.example. 300 IN CNAME ns.example.\n";

/// The header and the zone section of an update of `example.` with one prerequisite, and of one with one change; a
/// change; and whole updates, a record a line: owner, type, class, TTL, length and data (RFC 1035, 4.1.3).
const ASK: &str = "\
    0007 2800 0001 0001 0000 0000 \
    076578616D706C65 00 0006 0001";

const CHANGE: &str = "\
    0007 2800 0001 0000 0001 0000 \
    076578616D706C65 00 0006 0001";

const ADD_CNAME: &str = "03777777 C00C 0005 0001 0000003C 0004 0178 C00C";

const DELETE_SERVER: &str = "C00C 0002 00FE 00000000 0005 026E73 C00C";

const SWAP: &str = "\
    1234 2800 0001 0001 0003 0000 \
    076578616D706C65 00 0006 0001 \
    03777777 C00C 0001 0001 00000000 0004 C0000201 \
    C019          0001 00FE 00000000 0004 C0000201 \
    C019          0001 0001 0000003C 0004 C0000201 \
    C019          0001 0001 0000003C 0004 C0000202";

const CREATE: &str = "\
    0001 2800 0001 0001 0001 0001 \
    076578616D706C65 00 0006 0001 \
    03777777 C00C 0001 00FE 00000000 0000 \
    C019          0001 0001 0000003C 0004 C0000201 \
    00            0029 04D0 00000000 0000";

const DELETE_ALL: &str = "\
    0002 2800 0001 0000 0001 0000 \
    076578616D706C65 00 0006 0001 \
    C00C          00FF 00FF 00000000 0000";

const APPEND: &str = "\
    0003 2800 0001 0001 0001 0000 \
    076578616D706C65 00 0006 0001 \
    03777777 C00C 0001 00FF 00000000 0000 \
    C019          0001 0001 0000003C 0004 C0000201";

const DELETE_DATA: &str = "\
    0004 2800 0001 0000 0001 0000 \
    076578616D706C65 00 0006 0001 \
    03777777 C00C 0001 00FE 00000000 0004 C0000201";

const DELETE_SET: &str = "\
    0005 2800 0001 0000 0001 0000 \
    076578616D706C65 00 0006 0001 \
    03777777 C00C 0001 00FF 00000000 0000";

/// The zone before the update of ten.
const TEN_TEXT: &str =
    "@ 3600 SOA ns hostmaster 1 2 3 4 5\n@ NS ns\n@ NS ns2\n@ MX 10 mail\nns A 192.0.2.1\nns2 A 192.0.2.2\nmail 600 A 192.0.2.3\nwww 300 A 192.0.2.4\nwww A 192.0.2.5\n";

const TEN_MORE: &str = "ftp 300 CNAME www\nold A 192.0.2.6\nold TXT gone\n";

/// And how it is printed.
const TEN_SHOWN: &str =
    "$ORIGIN example.\nexample. 3600 IN NS ns.example.\nexample. 3600 IN NS ns2.example.\nexample. 3600 IN SOA ns.example. hostmaster.example. 1 2 3 4 5\nexample. 3600 IN MX 10 mail.example.\n";

const TEN_SHOWN_MORE: &str =
    "ftp.example. 300 IN CNAME www.example.\nmail.example. 600 IN A 192.0.2.3\nns.example. 3600 IN A 192.0.2.1\n\
     ns2.example. 3600 IN A 192.0.2.2\nold.example. 300 IN A 192.0.2.6\nold.example. 300 IN TXT \"gone\"\n\
     www.example. 300 IN A 192.0.2.4\nwww.example. 300 IN A 192.0.2.5\n";

/// Its header, and the zone section.
const TEN_START: &str = "\
    1F2E 2800 0001 000A 000A 0000 \
    076578616D706C65 00 0006 0001";

/// Ten prerequisites (RFC 2136, 2.4): www has the addresses 192.0.2.4 and 192.0.2.5 and no other; the zone has mail
/// exchanges, and ns an address; old is in use, and new isn't; www has no address of IPv6; ftp has a CNAME; old has the
/// one text gone; mail is in use.
const TEN_ASKED: &str = "\
    03777777 C00C 0001 0001 00000000 0004 C0000204 \
    C019          0001 0001 00000000 0004 C0000205 \
    C00C          000F 00FF 00000000 0000 \
    026E73 C00C   0001 00FF 00000000 0000 \
    036F6C64 C00C 00FF 00FF 00000000 0000";

const TEN_ASKED_MORE: &str = "\
    036E6577 C00C 00FF 00FE 00000000 0000 \
    C019          001C 00FE 00000000 0000 \
    03667470 C00C 0005 00FF 00000000 0000 \
    036F6C64 C00C 0010 0001 00000000 0005 04676F6E65 \
    046D61696C C00C 00FF 00FF 00000000 0000";

/// Ten changes (RFC 2136, 2.5): www is given 2001:db8::4, the address that it has with 60 seconds, loses 192.0.2.5 and
/// is given 192.0.2.7; all of old goes; new is given a CNAME for www; the CNAME of ftp goes, and ftp is given an
/// address; ns2 is no server any more; the mail exchanges go.
const TEN_CHANGES: &str = "\
    C019          001C 0001 0000003C 0010 20010DB8000000000000000000000004 \
    C019          0001 0001 0000003C 0004 C0000204 \
    C019          0001 00FE 00000000 0004 C0000205 \
    C019          0001 0001 0000003C 0004 C0000207 \
    036F6C64 C00C 00FF 00FF 00000000 0000";

const TEN_CHANGES_MORE: &str = "\
    036E6577 C00C 0005 0001 0000003C 0002 C019 \
    03667470 C00C 0005 00FF 00000000 0000 \
    03667470 C00C 0001 0001 0000003C 0004 C0000208 \
    C00C          0002 00FE 00000000 0006 036E7332 C00C \
    C00C          000F 00FF 00000000 0000";

/// The zone then, by RFC 2136, 3.4.2.
const TEN_LEFT: &str =
    "ftp.example. 60 IN A 192.0.2.8\nmail.example. 600 IN A 192.0.2.3\nnew.example. 60 IN CNAME www.example.\n\
     ns.example. 3600 IN A 192.0.2.1\nns2.example. 3600 IN A 192.0.2.2\nwww.example. 60 IN A 192.0.2.4\n\
     www.example. 60 IN A 192.0.2.7\nwww.example. 60 IN AAAA 2001:db8::4\n";

/// Updates, the texts of zones, and what is printed: sets that are swapped, created and deleted.
const SETS: &[Applied] = &[
    // a set is swapped once
    (
        &[SWAP],
        &[SOA_AND_NS, WWW],
        &[
            "NoError\n",
            SHOWN,
            "www.example. 60 IN A 192.0.2.1\nwww.example. 60 IN A 192.0.2.2\n",
        ],
    ),
    (
        &[SWAP],
        &[SOA_AND_NS, "www 60 A 192.0.2.1\nwww 60 A 192.0.2.2\n"],
        &[
            "NXRRSet\n",
            SHOWN,
            "www.example. 60 IN A 192.0.2.1\nwww.example. 60 IN A 192.0.2.2\n",
        ],
    ),
    (
        &[SWAP],
        &[SOA_AND_NS, "www 300 A 192.0.2.9\n"],
        &["NXRRSet\n", SHOWN, "www.example. 300 IN A 192.0.2.9\n"],
    ),
    // a set is created where there is none
    (
        &[CREATE],
        &[SOA_AND_NS, WWW],
        &["YXRRSet\n", SHOWN, SHOWN_WWW],
    ),
    (
        &[CREATE],
        &[SOA_AND_NS],
        &["NoError\n", SHOWN, "www.example. 60 IN A 192.0.2.1\n"],
    ),
    // the SOA stays where all is deleted
    (
        &[DELETE_ALL],
        &[SOA_AND_NS, "@ 60 TXT x\nwww 300 A 192.0.2.1\n"],
        &["NoError\n", SHOWN, SHOWN_WWW],
    ),
];

/// The same: what stands beside a CNAME, what is deleted, and the last name server.
const RULES: &[Applied] = &[
    // nothing stands beside a CNAME
    (
        &[CHANGE, "03777777 C00C 0001 0001 0000003C 0004 C0000201"],
        &[SOA_AND_NS, CNAME],
        &["NoError\n", SHOWN, SHOWN_CNAME],
    ),
    (
        &[APPEND],
        &[SOA_AND_NS, CNAME],
        &["NXRRSet\n", SHOWN, SHOWN_CNAME],
    ),
    (
        &[CHANGE, ADD_CNAME],
        &[SOA_AND_NS, WWW],
        &["NoError\n", SHOWN, SHOWN_WWW],
    ),
    (
        &[CHANGE, ADD_CNAME],
        &[SOA_AND_NS, CNAME],
        &["NoError\n", SHOWN, "www.example. 60 IN CNAME x.example.\n"],
    ),
    // data and sets are deleted
    (&[DELETE_DATA], &[SOA_AND_NS, WWW], &["NoError\n", SHOWN]),
    (&[DELETE_SET], &[SOA_AND_NS, WWW], &["NoError\n", SHOWN]),
    // the last name server stays
    (
        &[CHANGE, DELETE_SERVER],
        &[SOA_AND_NS, WWW],
        &["NoError\n", SHOWN, SHOWN_WWW],
    ),
    (
        &[CHANGE, "C00C 0002 00FF 00000000 0000"],
        &[SOA_AND_NS, WWW],
        &["NoError\n", SHOWN, SHOWN_WWW],
    ),
    (
        &[CHANGE, DELETE_SERVER],
        &[SOA_AND_NS, "@ NS ns2\n"],
        &[
            "NoError\n$ORIGIN example.\nexample. 3600 IN NS ns2.example.\n",
            "example. 3600 IN SOA ns.example. hostmaster.example. 1 2 3 4 5\n",
        ],
    ),
    (
        &[CHANGE, DELETE_SERVER],
        &[SOA_AND_NS, "@ NS ns2\n", WWW],
        &[
            "NoError\n$ORIGIN example.\nexample. 3600 IN NS ns2.example.\n",
            "example. 3600 IN SOA ns.example. hostmaster.example. 1 2 3 4 5\n",
            SHOWN_WWW,
        ],
    ),
];

/// The same of ten changes.
const TEN: &[Applied] = &[
    // ten changes after ten prerequisites
    (
        &[
            TEN_START,
            TEN_ASKED,
            TEN_ASKED_MORE,
            TEN_CHANGES,
            TEN_CHANGES_MORE,
        ],
        &[TEN_TEXT, TEN_MORE],
        &["NoError\n", SHOWN, TEN_LEFT],
    ),
    // one prerequisite that fails, the last that is looked at among them, leaves all as it was
    (
        &[
            TEN_START,
            TEN_ASKED,
            TEN_ASKED_MORE,
            TEN_CHANGES,
            TEN_CHANGES_MORE,
        ],
        &[TEN_TEXT, "www A 192.0.2.9\n", TEN_MORE],
        &[
            "NXRRSet\n",
            TEN_SHOWN,
            TEN_SHOWN_MORE,
            "www.example. 300 IN A 192.0.2.9\n",
        ],
    ),
];

/// The same of messages that are no updates of the zone.
const OTHERS: &[Applied] = &[
    // other messages
    (
        &[
            "0004 2800 0001 0000 0001 0000 076578616D706C65 00 0006 0003 03777777 C00C 0001 00FE 00000000 0004 C0000201",
        ],
        &[SOA_AND_NS, WWW],
        &["NotAuth\n", SHOWN, SHOWN_WWW],
    ),
    (
        &[
            "1000 8180 0001 0001 0000 0000 03777777 076578616D706C65 03636F6D 00 0001 0001 C00C 0001 0001 00000002 0004 5DB8D70E",
        ],
        &[SOA_AND_NS, WWW],
        &["FormErr\n", SHOWN, SHOWN_WWW],
    ),
    (
        &[
            "0006 0000 0001 0000 0001 0001 076578616D706C65 00 00FB 0001 C00C 0006 0001 00000000 0026 026E73 C00C \
             0A686F73746D6173746572 C00C 00000001 00001C20 00000E10 00127500 0000012C 00 0029 04D0 00000000 0000",
        ],
        &[SOA_AND_NS, WWW],
        &["NotImp\n", SHOWN, SHOWN_WWW],
    ),
    (
        &["0006 0000 0001 0000 0000 0001 076578616D706C65 00 00FC 0001 00 0029 04D0 00000000 0000"],
        &[SOA_AND_NS, WWW],
        &["FormErr\n", SHOWN, SHOWN_WWW],
    ),
];

/// The same of a prerequisite or a change that stands alone.
const ALONE: &[Applied] = &[
    // a prerequisite or a change that stands alone
    (
        &[ASK, "0178 C00C 00FF 00FF 00000000 0000"],
        &[SOA_AND_NS, WWW],
        &["NXDomain\n", SHOWN, SHOWN_WWW],
    ),
    (
        &[ASK, "03777777 C00C 00FF 00FE 00000000 0000"],
        &[SOA_AND_NS, WWW],
        &["YXDomain\n", SHOWN, SHOWN_WWW],
    ),
    (
        &[ASK, "03777777 C00C 0010 00FF 00000000 0000"],
        &[SOA_AND_NS, WWW],
        &["NXRRSet\n", SHOWN, SHOWN_WWW],
    ),
    (
        &[ASK, "03777777 C00C 0001 0001 00000000 0004 C0000209"],
        &[SOA_AND_NS, WWW],
        &["NXRRSet\n", SHOWN, SHOWN_WWW],
    ),
    (
        &[ASK, "03777777 C00C 0001 00FE 00000000 0000"],
        &[SOA_AND_NS, WWW],
        &["YXRRSet\n", SHOWN, SHOWN_WWW],
    ),
    (
        &[ASK, "03777777 C00C 0001 00FF 00000001 0000"],
        &[SOA_AND_NS, WWW],
        &["FormErr\n", SHOWN, SHOWN_WWW],
    ),
    (
        &[ASK, "0178 00 0001 00FF 00000000 0000"],
        &[SOA_AND_NS, WWW],
        &["NotZone\n", SHOWN, SHOWN_WWW],
    ),
    (
        &[CHANGE, "0178 00 0001 0001 0000003C 0004 C0000201"],
        &[SOA_AND_NS, WWW],
        &["NotZone\n", SHOWN, SHOWN_WWW],
    ),
    (
        &[CHANGE, "03777777 C00C 0001 00FE 0000003C 0004 C0000201"],
        &[SOA_AND_NS, WWW],
        &["FormErr\n", SHOWN, SHOWN_WWW],
    ),
    (
        &[CHANGE, "C00C 0006 00FF 00000000 0000"],
        &[SOA_AND_NS, WWW],
        &["NotImp\n", SHOWN, SHOWN_WWW],
    ),
];

/// The update of a row leaves what the row says.
fn leaves(
    rt: &(impl Abort + AllocGlobal),
    update: &[&str],
    text: &[&str],
    printed: &[&str],
) -> Result<(), AllocError> {
    let update = update.concat(rt.alloc())?;
    parts_give(rt, &["apply", "example.", &update], text, 0, printed)
}

/// Each row leaves what it says.
fn all_leave(rt: &(impl Abort + AllocGlobal), rows: &[Applied]) -> Result<(), AllocError> {
    for &(update, text, printed) in rows {
        leaves(rt, update, text, printed)?;
    }
    Ok(())
}

#[test]
fn updates_of_sets(rt: HostRuntime) -> Result<(), AllocError> {
    all_leave(&rt, SETS)
}

#[test]
fn updates_and_the_rules_of_a_zone(rt: HostRuntime) -> Result<(), AllocError> {
    all_leave(&rt, RULES)
}

#[test]
fn updates_of_ten_changes(rt: HostRuntime) -> Result<(), AllocError> {
    all_leave(&rt, TEN)
}

#[test]
fn messages_that_are_no_updates_of_the_zone(rt: HostRuntime) -> Result<(), AllocError> {
    all_leave(&rt, OTHERS)
}

#[test]
fn updates_of_one_record(rt: HostRuntime) -> Result<(), AllocError> {
    all_leave(&rt, ALONE)
}

/// Words and texts that are refused.
const REFUSED: &[Row] = &[
    (
        &["apply", "example.", "0g"],
        &["$X\n"],
        1,
        &["refused 24\n"],
    ),
    (&["apply", "example.", "00"], &["$X\n"], 1, &["refused 4\n"]),
    (
        &["apply", "example.", DELETE_ALL],
        &["$X\n"],
        1,
        &["refused 18\n"],
    ),
    (
        &["apply", "example.", DELETE_ALL],
        &["$INCLUDE f\n"],
        1,
        &["refused 20\n"],
    ),
    (
        &["apply", "example.", DELETE_ALL],
        &["www 300 CH A 192.0.2.1\n"],
        1,
        &["refused 25\n"],
    ),
    // words of updates
    (&["apply"], &[""], 2, USAGE),
    (&["apply", "example."], &[""], 2, USAGE),
    (&["apply", "a..b", DELETE_ALL], &[""], 2, USAGE),
    (&["apply", "example.", DELETE_ALL, "f=x"], &[""], 2, USAGE),
];

#[test]
fn rows_of_refused_updates(rt: HostRuntime) -> Result<(), AllocError> {
    all_give(&rt, REFUSED)
}
