//! Rows of the command `read`.

use super::{Row, all_give};
use std::alloc::AllocError;

/// The words of the command.
const READ: &[&str] = &["read"];

/// What is printed of empty sections, and of a response with an answer.
const NO_SECTIONS: &str = "; answers 0\n; authorities 0\n; additionals 0\n";

const WWW: &[&str] = &[
    "\
; header 4096:RESPONSE:RD,RA:NoError:QUERY
; query
;; www.example.com. IN A; mdns_unicast_response: false
; answers 1
www.example.com. 2 IN A 93.184.215.14
; authorities 0
; additionals 0
",
];

/// Messages, and what is printed of them.
const MESSAGES: &[Row] = &[
    (
        READ,
        &[
            "10 00 81 80 00 01 00 01 00 00 00 00 03 77 77 77 07 65 78 61 6D 70 6C 65 03 63 6F 6D 00 00 01 00 01 C0 0C 00 01 00 01 00 00 00 02 00 04 5D B8 D7 0E\n",
        ],
        0,
        WWW,
    ),
    // the reserved bit and what stands after are passed over
    (
        READ,
        &[
            "10 00 81 C0 00 01 00 01 00 00 00 00 03 77 77 77 07 65 78 61 6D 70 6C 65 03 63 6F 6D 00 00 01 00 01 C0 0C 00 01 00 01 00 00 00 02 00 04 5D B8 D7 0E FF FF",
        ],
        0,
        WWW,
    ),
    // a compressed exchange
    (
        READ,
        &[
            "00 09 81 80 00 01 00 01 00 00 00 00 07 65 78 61 6D 70 6C 65 00 00 0F 00 01 C0 0C 00 0F 00 01 00 00 01 2C 00 09 00 0A 04 6D 61 69 6C C0 0C",
        ],
        0,
        &[
            "; header 9:RESPONSE:RD,RA:NoError:QUERY\n",
            "\
; query
;; example. IN MX; mdns_unicast_response: false
; answers 1
example. 300 IN MX 10 mail.example.
; authorities 0
; additionals 0
",
        ],
    ),
    // data of a type without a text is hexadecimal
    (
        READ,
        &[
            "000084000000000100000001\
        2431653065653364332d643432342d346637382d396534632d633338333337373830663262056c6f63616c00\
        0001800100000078 0004c0a80111\
        2431653065653364332d643432342d346637382d396534632d633338333337373830663262056c6f63616c00\
        002f800100000078 0005c046000140",
        ],
        0,
        &[
            "; header 0:RESPONSE:AA:NoError:QUERY\n",
            "\
; query
; answers 1
1e0ee3d3-d424-4f78-9e4c-c38337780f2b.local. 120 IN A 192.168.1.17
; authorities 0
; additionals 1
1e0ee3d3-d424-4f78-9e4c-c38337780f2b.local. 120 IN NSEC \\# 5 c046000140
",
        ],
    ),
];

/// Messages with EDNS or without records, updates, and a pointer to the header.
const CODES: &[Row] = &[
    // the code has the bits of EDNS
    (
        READ,
        &["00 01 80 00 00 00 00 00 00 00 00 01 00 00 29 80 08 01 40 80 01 00 00"],
        0,
        &[
            "; header 1:RESPONSE::BADSIG:QUERY\n; edns version: 64 dnssec_ok: true z_flags: 1 max_payload: 32776 opts: 0\n; query\n",
            NO_SECTIONS,
        ],
    ),
    (
        READ,
        &["00 01 80 00 00 00 00 00 00 00 00 01 00 00 29 00 64 00 00 00 00 00 00"],
        0,
        &[
            "; header 1:RESPONSE::NoError:QUERY\n; edns version: 0 dnssec_ok: false z_flags: 0 max_payload: 512 opts: 0\n; query\n",
            NO_SECTIONS,
        ],
    ),
    (
        READ,
        &["00 01 80 00 00 00 00 00 00 00 00 00"],
        0,
        &["; header 1:RESPONSE::NoError:QUERY\n; query\n", NO_SECTIONS],
    ),
    // an update has empty records
    (
        READ,
        &["00 01 28 00 00 00 00 01 00 00 00 00 00 00 01 00 01 00 00 00 00 00 00"],
        0,
        &[
            "; header 1:QUERY::NoError:UPDATE\n; query\n",
            "; answers 1\n. 0 IN A \\# 0\n; authorities 0\n; additionals 0\n",
        ],
    ),
    (
        READ,
        &["00 01 28 00 00 00 00 00 00 00 00 01 00 00 FA 00 FF 00 00 00 00 00 00"],
        0,
        &[
            "; header 1:QUERY::NoError:UPDATE\n; query\n",
            "; answers 0\n; authorities 0\n; additionals 1\n. 0 ANY TSIG \\# 0\n",
        ],
    ),
    // a pointer may read the header
    (
        READ,
        &["00 00 00 00 00 01 00 00 00 00 00 00 C0 04 00 01 00 01"],
        0,
        &[
            "; header 0:QUERY::NoError:QUERY\n",
            "; query\n;; . IN A; mdns_unicast_response: false\n",
        ],
    ),
];

/// Records, and the headers of messages that have them.
const A: &str = "00 00 01 00 01 00 00 00 00 00 04 7F 00 00 01";

const OPT: &str = "00 00 29 02 00 00 00 00 00 00 00";

const SIGN: &str = "00 00 FA 00 FF 00 00 00 00 00 01 AA";

const EMPTY_A: &str = "00 00 01 00 01 00 00 00 00 00 00";

const SIG: &str = "00 00 18 00 FF 00 00 00 00 00 01 AA";

const EMPTY_SIG: &str = "00 00 18 00 FF 00 00 00 00 00 00";

const ASKED_ALONE: &str = "00 00 00 00 00 01 00 00 00 00 00 00";

const ASKED: &str = "00 01 00 00 00 01 00 01 00 00 00 00";

const ONE_ANSWER: &str = "00 01 00 00 00 00 00 01 00 00 00 00";

const ONE_ANSWER_OF_UPDATE: &str = "00 01 28 00 00 00 00 01 00 00 00 00";

const ANSWERS: &str = "00 01 00 00 00 00 00 02 00 00 00 00";

const AUTHORITIES: &str = "00 01 00 00 00 00 00 00 00 02 00 00";

const ANSWERED: &str = "00 01 00 00 00 00 00 01 00 01 00 00";

const ADDITIONALS: &str = "00 01 00 00 00 00 00 00 00 00 00 03";

const EXTENDED: &str = "00 01 00 00 00 00 00 01 00 00 00 02";

/// An exchange up to the length of its data, and after it.
const EXCHANGE: &str =
    "00 09 81 80 00 01 00 01 00 00 00 00 07 65 78 61 6D 70 6C 65 00 00 0F 00 01 C0 0C 00 0F 00 01 00 00 01 2C 00";

const MAIL: &str = "00 0A 04 6D 61 69 6C C0 0C";

/// Inputs that are refused: no text of bytes, data, and the sections of records.
const REFUSED: &[Row] = &[
    // other text
    (READ, &["0g"], 1, &["refused 24\n"]),
    (READ, &["0"], 1, &["refused 24\n"]),
    (READ, &[""], 1, &["refused 4\n"]),
    // an exchange fills its length
    (READ, &[EXCHANGE, "08", MAIL], 1, &["refused 8\n"]),
    (READ, &[EXCHANGE, "0A", MAIL], 1, &["refused 7\n"]),
    (READ, &[EXCHANGE, "0A", MAIL, "00"], 1, &["refused 8\n"]),
    // type 0 has no data
    (
        READ,
        &["A0 A0 00 0D 00 00 00 01 00 00 00 00 00 00 00 00 01 00 00 00 01 00 01 00"],
        1,
        &["refused 8\n"],
    ),
    // records outside their section
    (READ, &[ANSWERS, OPT, A], 1, &["refused 12\n"]),
    (READ, &[AUTHORITIES, OPT, A], 1, &["refused 12\n"]),
    (READ, &[ANSWERS, A, SIGN], 1, &["refused 12\n"]),
    (READ, &[AUTHORITIES, A, SIGN], 1, &["refused 12\n"]),
    (READ, &[ANSWERS, SIG, A], 1, &["refused 12\n"]),
    (READ, &[AUTHORITIES, SIG, A], 1, &["refused 12\n"]),
    // additionals are tested one by one
    (READ, &[ADDITIONALS, OPT, A, OPT], 1, &["refused 13\n"]),
    (READ, &[ADDITIONALS, A, SIGN, A], 1, &["refused 11\n"]),
    (READ, &[ADDITIONALS, A, SIGN, EMPTY_A], 1, &["refused 10\n"]),
    (READ, &[ADDITIONALS, OPT, SIGN, OPT], 1, &["refused 11\n"]),
];

/// The same: empty records, questions, and messages with more than one fault, of which the first is answered.
const FAULTS: &[Row] = &[
    // empty records stand in updates
    (
        READ,
        &["00 01 00 00 00 00 00 01 00 00 00 00 00 00 01 00 01 00 00 00 00 00 00"],
        1,
        &["refused 10\n"],
    ),
    // questions with faulty names
    (
        READ,
        &[ASKED_ALONE, "C0 0C 00 01 00 01"],
        1,
        &["refused 5\n"],
    ),
    (READ, &[ASKED_ALONE, "40 00 01 00 01"], 1, &["refused 5\n"]),
    (READ, &[ASKED_ALONE, "03 77 77"], 1, &["refused 4\n"]),
    // the first fault is answered
    (
        READ,
        &["00 01 00 00 00 01 00 00 00 00", "00"],
        1,
        &["refused 4\n"],
    ),
    (READ, &[ASKED, "40 00 01 00 01", OPT], 1, &["refused 5\n"]),
    (READ, &[ANSWERED, A, "40"], 1, &["refused 5\n"]),
    (READ, &[ANSWERED, OPT, "40"], 1, &["refused 12\n"]),
    (READ, &[ANSWERED, A, OPT], 1, &["refused 12\n"]),
    (READ, &[ANSWERED, A, "00 00 01 00"], 1, &["refused 4\n"]),
    (READ, &[EXTENDED, A, OPT, OPT], 1, &["refused 13\n"]),
    (READ, &[EXTENDED, A, SIGN, EMPTY_A], 1, &["refused 10\n"]),
    (READ, &[EXTENDED, A, "01 61 00 00 29"], 1, &["refused 6\n"]),
    (READ, &[EXTENDED, A, "01 61 00 00 01"], 1, &["refused 4\n"]),
    // an empty signature is empty first
    (READ, &[ONE_ANSWER, EMPTY_SIG], 1, &["refused 10\n"]),
    (
        READ,
        &[ONE_ANSWER_OF_UPDATE, EMPTY_SIG],
        1,
        &["refused 12\n"],
    ),
];

#[test]
fn rows_of_messages(rt: HostRuntime) -> Result<(), AllocError> {
    all_give(&rt, MESSAGES)
}

#[test]
fn rows_of_codes_and_updates(rt: HostRuntime) -> Result<(), AllocError> {
    all_give(&rt, CODES)
}

#[test]
fn rows_of_refused_messages(rt: HostRuntime) -> Result<(), AllocError> {
    all_give(&rt, REFUSED)
}

#[test]
fn rows_of_refused_questions_and_records(rt: HostRuntime) -> Result<(), AllocError> {
    all_give(&rt, FAULTS)
}
