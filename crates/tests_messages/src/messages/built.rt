//! Messages that are put together: their texts, and their bytes.

use super::values::{address, edns_with_option, if_filled, signature};
use base::{Name, ProtoError, RecordType};
use base_data::{NULL, RData};
use op::{Edns, Message, MessageType, OpCode, Query, ResponseCode};
use rr::Record;
use std::alloc::Global;
use std::test::Fail;
use test_tools::forms::has_text;

/// How a message begins.
#[derive(Clone, Copy)]
pub(crate) enum Kind {
    Query(u16),
    Response(u16),
    Refusal(u16, ResponseCode),
    Notice(u16),
}

/// The sections of records.
#[derive(Clone, Copy)]
pub(crate) enum Section {
    Answers,
    Authorities,
    Additionals,
}

/// What is put into a message.
#[derive(Clone, Copy)]
pub(crate) enum Part {
    /// RD, and a response code.
    Rd,
    Code(ResponseCode),
    Ask(&'static str, RecordType),
    /// An address of this owner and this TTL.
    Address(Section, &'static str, u32),
    /// The answer `a.` 0 NULL of this number of zero bytes.
    Zeros(usize),
    Edns,
    /// EDNS whose own high code is 9, and EDNS with an option.
    HighCode,
    Options,
    Signature,
    /// Questions for mail exchanges and addresses that are added at once.
    Asks(&'static [&'static str]),
    Addresses(Section, &'static [&'static str]),
    /// Addresses that become the section.
    Whole(Section, &'static [&'static str]),
}

/// A message of this kind, without parts.
fn begin(alloc: Global, kind: Kind) -> Message {
    match kind {
        Kind::Query(id) => Message::query(alloc, id),
        Kind::Response(id) => Message::response(alloc, id, OpCode::Query),
        Kind::Refusal(id, code) => Message::error_msg(alloc, id, OpCode::Query, code),
        Kind::Notice(id) => Message::new(alloc, id, MessageType::Response, OpCode::Notify),
    }
}

/// The question for a type of a name.
fn question(alloc: Global, name: &str, asked: RecordType) -> Result<Query, Fail> {
    Ok(Query::query(Name::parse(alloc, name, None)?, asked))
}

/// Questions for the mail exchanges of these names.
fn questions(alloc: Global, names: &[&str]) -> Result<Vec<Query>, Fail> {
    let mut queries = Vec::new(alloc);
    for name in names {
        queries.push(question(alloc, name, RecordType::MX)?)?;
    }
    Ok(queries)
}

/// Addresses of these owners.
fn addresses(alloc: Global, owners: &[&str]) -> Result<Vec<Record>, Fail> {
    let mut records = Vec::new(alloc);
    for owner in owners {
        records.push(address(alloc, owner, 60)?)?;
    }
    Ok(records)
}

/// `a.` 0 NULL of as many zero bytes.
fn zeros(alloc: Global, len: usize) -> Result<Record, Fail> {
    let owner = Name::parse(alloc, "a.", None)?;
    let mut bytes = Vec::new(alloc);
    bytes.resize(len, 0)?;
    Ok(Record::from_rdata(owner, 0, RData::NULL(NULL::new(bytes))))
}

/// Adds a record to a section.
fn add(message: &mut Message, section: Section, record: Record) -> Result<(), ProtoError> {
    match section {
        Section::Answers => message.add_answer(record),
        Section::Authorities => message.add_authority(record),
        Section::Additionals => message.add_additional(record),
    }
}

/// Adds records to a section.
fn add_all(
    message: &mut Message,
    section: Section,
    records: Vec<Record>,
) -> Result<(), ProtoError> {
    match section {
        Section::Answers => message.add_answers(records.into_iter()),
        Section::Authorities => message.add_authorities(records.into_iter()),
        Section::Additionals => message.add_additionals(records.into_iter()),
    }
}

/// Makes records a section that is empty.
fn insert(message: &mut Message, section: Section, records: Vec<Record>) {
    match section {
        Section::Answers if message.answers.is_empty() => message.insert_answers(records),
        Section::Authorities if message.authorities.is_empty() => {
            message.insert_authorities(records)
        }
        Section::Additionals if message.additionals.is_empty() => {
            message.insert_additionals(records)
        }
        _ => drop(records),
    }
}

/// Puts a part into a message.
fn put(alloc: Global, message: &mut Message, part: Part) -> Result<(), Fail> {
    match part {
        Part::Rd => message.metadata.recursion_desired = true,
        Part::Code(code) => message.metadata.response_code = code,
        Part::Ask(name, asked) => message.add_query(question(alloc, name, asked)?)?,
        Part::Address(section, owner, ttl) => add(message, section, address(alloc, owner, ttl)?)?,
        Part::Zeros(len) => message.add_answer(zeros(alloc, len)?)?,
        Part::Edns => {
            message.set_edns(Edns::new(alloc));
        }
        Part::HighCode => {
            let mut edns = Edns::new(alloc);
            edns.set_rcode_high(9);
            message.set_edns(edns);
        }
        Part::Options => {
            message.set_edns(edns_with_option(alloc)?);
        }
        Part::Signature => {
            message.set_signature(signature(alloc)?);
        }
        Part::Asks(names) => message.add_queries(questions(alloc, names)?.into_iter())?,
        Part::Addresses(section, owners) => add_all(message, section, addresses(alloc, owners)?)?,
        Part::Whole(section, owners) => insert(message, section, addresses(alloc, owners)?),
    }
    Ok(())
}

/// Puts the parts into a message, in their order.
fn fill(alloc: Global, message: &mut Message, parts: &[Part]) -> Result<(), Fail> {
    for &part in parts {
        put(alloc, message, part)?;
    }
    Ok(())
}

/// A message of these parts.
pub(crate) fn build(alloc: Global, kind: Kind, parts: &[Part]) -> Result<Message, Fail> {
    let mut message = begin(alloc, kind);
    let filled = fill(alloc, &mut message, parts);
    if_filled(message, filled)
}

/// How messages are put together, their texts, and whether they are signed.
const TEXTS: &[(Kind, &'static [Part], &'static str, bool)] = &[
    (
        Kind::Query(10),
        &[
            Part::Ask("a.", RecordType::A),
            Part::Address(Section::Answers, "b.", 60),
            Part::Edns,
        ],
        "; header 10:QUERY::NoError:QUERY\n; edns version: 0 dnssec_ok: false z_flags: 0 max_payload: 512 opts: 0\n; query\n;; a. IN A; mdns_unicast_response: false\n",
        false,
    ),
    (
        Kind::Refusal(7, ResponseCode::NXDomain),
        &[
            Part::Address(Section::Answers, "a.", 60),
            Part::Address(Section::Answers, "b.", 60),
            Part::Address(Section::Authorities, "c.", 60),
            Part::Address(Section::Additionals, "d.", 60),
        ],
        "; header 7:RESPONSE::NXDomain:QUERY\n; query\n; answers 2\na. 60 IN A 192.0.2.1\nb. 60 IN A 192.0.2.1\n; authorities 1\nc. 60 IN A 192.0.2.1\n; additionals 1\nd. 60 IN A 192.0.2.1\n",
        false,
    ),
    // a signature is no additional record
    (
        Kind::Notice(7),
        &[Part::Signature],
        "; header 7:RESPONSE::NoError:NOTIFY\n; query\n; answers 0\n; authorities 0\n; additionals 0\n",
        true,
    ),
    // many are added in their order
    (
        Kind::Response(7),
        &[
            Part::Ask("y.", RecordType::A),
            Part::Address(Section::Answers, "z.", 5),
            Part::Asks(&["a.", "b."]),
            Part::Addresses(Section::Answers, &["c.", "d."]),
            Part::Addresses(Section::Authorities, &["e.", "f."]),
            Part::Addresses(Section::Additionals, &["g.", "h."]),
        ],
        "; header 7:RESPONSE::NoError:QUERY\n; query\n;; y. IN A; mdns_unicast_response: false\n\
         ;; a. IN MX; mdns_unicast_response: false\n;; b. IN MX; mdns_unicast_response: false\n\
         ; answers 3\nz. 5 IN A 192.0.2.1\nc. 60 IN A 192.0.2.1\nd. 60 IN A 192.0.2.1\n\
         ; authorities 2\ne. 60 IN A 192.0.2.1\nf. 60 IN A 192.0.2.1\n\
         ; additionals 2\ng. 60 IN A 192.0.2.1\nh. 60 IN A 192.0.2.1\n",
        false,
    ),
    // many are added to nothing
    (
        Kind::Response(7),
        &[
            Part::Asks(&["a.", "b."]),
            Part::Addresses(Section::Answers, &["c.", "d."]),
        ],
        "; header 7:RESPONSE::NoError:QUERY\n; query\n\
         ;; a. IN MX; mdns_unicast_response: false\n;; b. IN MX; mdns_unicast_response: false\n\
         ; answers 2\nc. 60 IN A 192.0.2.1\nd. 60 IN A 192.0.2.1\n; authorities 0\n; additionals 0\n",
        false,
    ),
    // sections are taken over
    (
        Kind::Response(7),
        &[
            Part::Whole(Section::Answers, &["c.", "d."]),
            Part::Whole(Section::Authorities, &["e."]),
            Part::Whole(Section::Additionals, &["g."]),
        ],
        "; header 7:RESPONSE::NoError:QUERY\n; query\n\
         ; answers 2\nc. 60 IN A 192.0.2.1\nd. 60 IN A 192.0.2.1\n\
         ; authorities 1\ne. 60 IN A 192.0.2.1\n; additionals 1\ng. 60 IN A 192.0.2.1\n",
        false,
    ),
];

/// Whether the message of these parts has this text, is signed or not, and is no empty response.
fn is_shown(
    alloc: Global,
    kind: Kind,
    parts: &[Part],
    text: &str,
    is_signed: bool,
) -> Result<bool, Fail> {
    let message = build(alloc, kind, parts)?;
    let empty = Message::response(alloc, 7, OpCode::Query);
    let is_filled = message != empty;
    drop(empty);
    let is_shown = has_text(alloc, &message, text) && message.signature.is_some() == is_signed;
    drop(message);
    Ok(is_shown && is_filled)
}

#[test]
fn messages_are_put_together(rt: HostRuntime) -> Result<(), Fail> {
    for &(kind, parts, text, is_signed) in TEXTS {
        assert!(rt;
            is_shown(rt.alloc(), kind, parts, text, is_signed)?,
            "{text}"
        );
    }
    Ok(())
}

/// The bytes of the message of these parts.
fn bytes_of(alloc: Global, kind: Kind, parts: &[Part]) -> Result<Vec<u8>, Fail> {
    let message = build(alloc, kind, parts)?;
    let bytes = message.to_vec();
    drop(message);
    Ok(bytes?)
}

/// How messages are put together, how many bytes they have, and which these are at the end.
const WRITTEN: &[(Kind, &'static [Part], usize, &'static [u8])] = &[
    // a query with EDNS
    (
        Kind::Query(0x1234),
        &[
            Part::Rd,
            Part::Code(ResponseCode::BADVERS),
            Part::Ask("a.b.", RecordType::A),
            Part::Edns,
        ],
        32,
        b"\x12\x34\x01\x00\x00\x01\x00\x00\x00\x00\x00\x01\x01a\x01b\x00\x00\x01\x00\x01\x00\x00\x29\x02\x00\x01\x00\x00\x00\x00\x00",
    ),
    // the high code is that of the response
    (
        Kind::Response(1),
        &[Part::Code(ResponseCode::BADVERS), Part::HighCode],
        23,
        b"\x00\x01\x80\x00\x00\x00\x00\x00\x00\x00\x00\x01\x00\x00\x29\x02\x00\x01\x00\x00\x00\x00\x00",
    ),
    // an option and a signature
    (
        Kind::Response(7),
        &[Part::Options, Part::Signature],
        41,
        b"\x00\x07\x80\x00\x00\x00\x00\x00\x00\x00\x00\x02\x00\x00\x29\x02\x00\x00\x00\x00\x00\x00\x06\xFD\xE9\x00\x02\x01\x02\x00\x00\xFA\x00\xFF\x00\x00\x00\x00\x00\x01\xAA",
    ),
    // a near owner is pointed at
    (
        Kind::Response(1),
        &[
            Part::Ask("a.", RecordType::A),
            Part::Zeros(100),
            Part::Address(Section::Answers, "z.a.", 0),
            Part::Address(Section::Answers, "z.a.", 0),
        ],
        165,
        b"\x01z\xC0\x0C\x00\x01\x00\x01\x00\x00\x00\x00\x00\x04\xC0\x00\x02\x01\xC0\x83\x00\x01\x00\x01\x00\x00\x00\x00\x00\x04\xC0\x00\x02\x01",
    ),
    // no pointer reaches an offset past 16,383
    (
        Kind::Response(1),
        &[
            Part::Ask("a.", RecordType::A),
            Part::Zeros(16_400),
            Part::Address(Section::Answers, "z.a.", 0),
            Part::Address(Section::Answers, "z.a.", 0),
        ],
        16_467,
        b"\x01z\xC0\x0C\x00\x01\x00\x01\x00\x00\x00\x00\x00\x04\xC0\x00\x02\x01\x01z\xC0\x0C\x00\x01\x00\x01\x00\x00\x00\x00\x00\x04\xC0\x00\x02\x01",
    ),
];

/// Whether the message of these parts has this number of bytes, and these at the end.
fn is_written(
    alloc: Global,
    kind: Kind,
    parts: &[Part],
    len: usize,
    end: &[u8],
) -> Result<bool, Fail> {
    let bytes = bytes_of(alloc, kind, parts)?;
    let is_written = bytes.len() == len && bytes.ends_with(end);
    drop(bytes);
    Ok(is_written)
}

#[test]
fn messages_are_written(rt: HostRuntime) -> Result<(), Fail> {
    for (i, &(kind, parts, len, end)) in WRITTEN.iter().enumerate() {
        assert!(rt; is_written(rt.alloc(), kind, parts, len, end)?, "row {i}");
    }
    Ok(())
}

/// The code that is read of the bytes of the message of these parts.
fn read_code(alloc: Global, parts: &[Part]) -> Result<ResponseCode, Fail> {
    let bytes = bytes_of(alloc, Kind::Response(1), parts)?;
    let message = Message::from_vec(alloc, &bytes);
    drop(bytes);
    let message = message?;
    let code = message.metadata.response_code;
    drop(message);
    Ok(code)
}

/// Codes that are set, and what is read: the high bits stand in OPT, and nowhere without it; what doesn't fit is dropped.
const CODES: &[(&'static [Part], ResponseCode)] = &[
    (
        &[Part::Code(ResponseCode::BADVERS), Part::HighCode],
        ResponseCode::BADSIG,
    ),
    (&[Part::Code(ResponseCode::BADVERS)], ResponseCode::NoError),
    (
        &[Part::Code(ResponseCode::Unknown(4097)), Part::HighCode],
        ResponseCode::FormErr,
    ),
];

#[test]
fn codes_are_written_and_read(rt: HostRuntime) -> Result<(), Fail> {
    for &(parts, code) in CODES {
        assert!(rt; read_code(rt.alloc(), parts)? == code, "{code}");
    }
    Ok(())
}
