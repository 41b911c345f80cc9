//! Each kind: what is written and shown of it, and that it is taken out of the data of any record again.

use crate::answers::is_this;
use crate::names::name;
use base::{BinDecodable, BinDecoder, BinEncodable, BinEncoder, ParseError, RecordType};
use base_data::{
    A, AAAA, ANAME, CNAME, EdnsOption, MX, NS, NULL, OPT, PTR, RData, RecordData, SOA, SRV, TSIG,
    TXT,
};
use std::alloc::{AllocError, Global};
use std::net::{Ipv4Addr, Ipv6Addr};
use test_tools::forms::{has_text, is_copied, is_emitted, is_written_as};

/// The type of data, its bytes and its text.
type Form = (RecordType, &'static [u8], &'static str);

/// Whether the data of any record is this data.
fn holds<R: RecordData>(any: &RData, value: &R) -> bool {
    match R::try_borrow(any) {
        Some(borrowed) => borrowed == value,
        None => false,
    }
}

/// Whether this data is read of all of the bytes.
fn is_read(alloc: Global, record_type: RecordType, wire: &[u8], any: &RData) -> bool {
    let len = wire.len().min(65_535) as u16;
    let mut decoder = BinDecoder::new(alloc, wire);
    is_this(RData::read(&mut decoder, record_type, len), any)
}

/// Whether a copy of data is data of any record of that type, is taken out again, is read of these bytes where there
/// are any, and is equal to its own copy.
fn is_taken_out<R: RecordData>(
    alloc: Global,
    value: &R,
    record_type: RecordType,
    wire: &[u8],
) -> bool {
    match value.clone() {
        Ok(copy) => {
            let any = copy.into_rdata();
            let is_same = any.record_type() == record_type && holds(&any, value);
            let is_read = wire.is_empty() || is_read(alloc, record_type, wire, &any);
            is_copied(any) && is_same && is_read
        }
        Err(_) => false,
    }
}

/// Whether data is of this type, isn't empty, is written as these bytes, has this text, and is taken out of the data of
/// any record.
fn has_form<R: RecordData>(alloc: Global, value: &R, (record_type, wire, text): Form) -> bool {
    value.record_type() == record_type
        && !value.is_update()
        && is_written_as(alloc, value, wire)
        && has_text(alloc, value, text)
        && is_taken_out(alloc, value, record_type, wire)
}

/// Whether data has this form, and is equal to its copy.
fn is_value<R: RecordData>(alloc: Global, value: R, form: Form) -> bool {
    let has_form = has_form(alloc, &value, form);
    let is_copied = is_copied(value);
    has_form && is_copied
}

/// Whether data could be made, has this form, and is equal to its copy.
fn is_data<R: RecordData, E: Drop>(alloc: Global, made: Result<R, E>, form: Form) -> bool {
    match made {
        Ok(value) => is_value(alloc, value, form),
        Err(_) => false,
    }
}

/// Whether two values are written as these bytes, one after another.
fn are_written_as<T: BinEncodable>(alloc: Global, first: &T, second: &T, wire: &[u8]) -> bool {
    let mut bytes = Vec::new(alloc);
    let mut encoder = BinEncoder::new(&mut bytes);
    let are_emitted = is_emitted(&mut encoder, first) && is_emitted(&mut encoder, second);
    drop(encoder);
    let same = are_emitted && bytes.as_slice() == wire;
    drop(bytes);
    same
}

/// Whether two values are written one after another as these bytes, and are read of them.
fn stand_in_a_row<T: BinEncodable + BinDecodable + PartialEq + Drop>(
    alloc: Global,
    first: &T,
    second: &T,
    wire: &[u8],
) -> bool {
    let mut decoder = BinDecoder::new(alloc, wire);
    are_written_as(alloc, first, second, wire)
        && is_this(T::read(&mut decoder), first)
        && is_this(T::read(&mut decoder), second)
        && decoder.is_empty()
}

/// Whether data of names could be made, stands in a row with itself as these bytes, has this form, and is equal to its
/// copy.
fn is_named<R: RecordData + BinDecodable>(
    alloc: Global,
    made: Result<R, ParseError>,
    form: Form,
    twice: &[u8],
) -> bool {
    match made {
        Ok(value) => {
            let is_in_a_row = stand_in_a_row(alloc, &value, &value, twice);
            is_value(alloc, value, form) && is_in_a_row
        }
        Err(_) => false,
    }
}

/// These bytes as data.
pub(super) fn null(alloc: Global, bytes: &[u8]) -> Result<NULL, AllocError> {
    Ok(NULL::new(Vec::from_slice(alloc, bytes)?))
}

/// A signature of one byte.
pub(super) fn signature(alloc: Global, byte: u8) -> Result<TSIG, AllocError> {
    Ok(TSIG::new(vec![in alloc; byte]?))
}

/// EDNS options: one, of code 3, with the byte 4.
fn one_option(alloc: Global) -> Result<OPT, AllocError> {
    let option = EdnsOption::new(3, vec![in alloc; 4]?);
    Ok(OPT::new(vec![in alloc; option]?))
}

/// The byte 1, as data of a type that has no kind of its own.
fn unknown_data(alloc: Global, code: RecordType) -> Result<RData, AllocError> {
    let rdata = null(alloc, &[1])?;
    Ok(RData::Unknown { code, rdata })
}

/// Strings, their bytes, and strings with marks that have a meaning in zone text.
const STRINGS: [&[u8]; 3] = [b"say \"a\\b\"", &[], &[0x1F, 0x7E, 0x7F, 0xFF]];

const STRINGS_ON_THE_WIRE: &[u8] = b"\x09say \"a\\b\"\0\x04\x1F\x7E\x7F\xFF";

const MARKS: [&[u8]; 2] = [b"x;y", b"z\"q"];

/// An MX.
fn mail_host(alloc: Global, preference: u16, text: &str) -> Result<MX, ParseError> {
    Ok(MX::new(preference, name(alloc, text)?))
}

/// An SRV.
fn service(alloc: Global, text: &str) -> Result<SRV, ParseError> {
    Ok(SRV::new(1, 2, 443, name(alloc, text)?))
}

/// An SOA of a server and a mailbox.
fn soa(alloc: Global, server: &str, mailbox: &str) -> Result<SOA, ParseError> {
    let server = name(alloc, server)?;
    match name(alloc, mailbox) {
        Ok(mailbox) => Ok(SOA::new(server, mailbox, 1, 7200, 3600, 1_209_600, 300)),
        Err(e) => {
            drop(server);
            Err(e)
        }
    }
}

/// What the data of a row is.
#[derive(Clone, Copy)]
enum Kind {
    Address,
    LongAddress,
    NoBytes,
    Bytes,
    Signature,
    UnknownData,
    NoOptions,
    OneOption,
    Strings,
    Marks,
    MailHost(&'static str),
}

/// The data of each kind, its type, its bytes and its text.
const FORMS: &[(Kind, Form)] = &[
    (
        Kind::Address,
        (RecordType::A, &[192, 0, 2, 10], "192.0.2.10"),
    ),
    (
        Kind::LongAddress,
        (
            RecordType::AAAA,
            &[0x20, 1, 0x0D, 0xB8, 0, 0, 0, 0, 0, 1, 0, 0, 0, 0, 0, 1],
            "2001:db8::1:0:0:1",
        ),
    ),
    (Kind::NoBytes, (RecordType::NULL, &[], "\\# 0")),
    (
        Kind::Bytes,
        (RecordType::NULL, &[0xAB, 0x0C, 0xFF], "\\# 3 ab0cff"),
    ),
    (Kind::Signature, (RecordType::TSIG, &[9], "\\# 1 09")),
    (Kind::UnknownData, (RecordType::NSEC, &[1], "\\# 1 01")),
    (Kind::NoOptions, (RecordType::OPT, &[], "\\# 0")),
    (
        Kind::OneOption,
        (RecordType::OPT, &[0, 3, 0, 1, 4], "\\# 5 0003000104"),
    ),
    (
        Kind::Strings,
        (
            RecordType::TXT,
            STRINGS_ON_THE_WIRE,
            "\"say \\\"a\\\\b\\\"\" \"\" \"\\031~\\127\\255\"",
        ),
    ),
    // quotes are escaped, and semicolons are not
    (
        Kind::Marks,
        (RecordType::TXT, b"\x03x;y\x03z\"q", "\"x;y\" \"z\\\"q\""),
    ),
    (
        Kind::MailHost("mail.example."),
        (
            RecordType::MX,
            b"\0\x0A\x04mail\x07example\0",
            "10 mail.example.",
        ),
    ),
    (
        Kind::MailHost("a-name-with-memory-of-its-own."),
        (
            RecordType::MX,
            b"\0\x0A\x1Da-name-with-memory-of-its-own\0",
            "10 a-name-with-memory-of-its-own.",
        ),
    ),
];

/// Whether data of a kind has this form.
fn is_of_kind(alloc: Global, kind: Kind, form: Form) -> bool {
    match kind {
        Kind::Address => is_value(alloc, A::new(Ipv4Addr::new(192, 0, 2, 10)), form),
        Kind::LongAddress => {
            let address = Ipv6Addr::from_segments([0x2001, 0xDB8, 0, 0, 1, 0, 0, 1]);
            is_value(alloc, AAAA::new(address), form)
        }
        Kind::NoBytes => is_data(alloc, null(alloc, &[]), form),
        Kind::Bytes => is_data(alloc, null(alloc, &[0xAB, 0x0C, 0xFF]), form),
        Kind::Signature => is_data(alloc, signature(alloc, 9), form),
        Kind::UnknownData => is_data(alloc, unknown_data(alloc, RecordType::NSEC), form),
        Kind::NoOptions => is_value(alloc, OPT::new(Vec::new(alloc)), form),
        Kind::OneOption => is_data(alloc, one_option(alloc), form),
        Kind::Strings => is_data(alloc, TXT::new(alloc, &STRINGS), form),
        Kind::Marks => is_data(alloc, TXT::new(alloc, &MARKS), form),
        Kind::MailHost(text) => is_data(alloc, mail_host(alloc, 10, text), form),
    }
}

#[test]
fn kinds(rt: HostRuntime) {
    for &(kind, form) in FORMS {
        assert!(rt; is_of_kind(rt.alloc(), kind, form), "{}", form.2);
    }
}

/// Names, of which an SOA has two and all else one; data of them, its type, its bytes and its text; and the bytes of
/// two of it in a row: names in data are compressed, but for those of services and of ANAME.
type Named = (&'static str, &'static str, Form, &'static [u8]);

const NAMED: &[Named] = &[
    (
        "a.",
        "",
        (RecordType::NS, b"\x01a\0", "a."),
        b"\x01a\0\xC0\x00",
    ),
    (
        "a.",
        "",
        (RecordType::CNAME, b"\x01a\0", "a."),
        b"\x01a\0\xC0\x00",
    ),
    (
        "a.",
        "",
        (RecordType::PTR, b"\x01a\0", "a."),
        b"\x01a\0\xC0\x00",
    ),
    (
        "a.",
        "",
        (RecordType::ANAME, b"\x01a\0", "a."),
        b"\x01a\0\x01a\0",
    ),
    (
        "w.a.",
        "",
        (
            RecordType::SRV,
            b"\0\x01\0\x02\x01\xBB\x01w\x01a\0",
            "1 2 443 w.a.",
        ),
        b"\0\x01\0\x02\x01\xBB\x01w\x01a\0\0\x01\0\x02\x01\xBB\x01w\x01a\0",
    ),
    (
        "ns.example.",
        "hostmaster.example.",
        (
            RecordType::SOA,
            b"\x02ns\x07example\0\x0Ahostmaster\xC0\x03\
            \0\0\0\x01\0\0\x1C\x20\0\0\x0E\x10\0\x12\x75\0\0\0\x01\x2C",
            "ns.example. hostmaster.example. 1 7200 3600 1209600 300",
        ),
        b"\x02ns\x07example\0\x0Ahostmaster\xC0\x03\
        \0\0\0\x01\0\0\x1C\x20\0\0\x0E\x10\0\x12\x75\0\0\0\x01\x2C\
        \xC0\x00\xC0\x0C\0\0\0\x01\0\0\x1C\x20\0\0\x0E\x10\0\x12\x75\0\0\0\x01\x2C",
    ),
];

/// The same of names that have memory of their own.
const LONG_NAMED: &[Named] = &[
    (
        "a-name-with-memory-of-its-own.",
        "",
        (
            RecordType::NS,
            b"\x1Da-name-with-memory-of-its-own\0",
            "a-name-with-memory-of-its-own.",
        ),
        b"\x1Da-name-with-memory-of-its-own\0\xC0\x00",
    ),
    (
        "a-name-with-memory-of-its-own.",
        "",
        (
            RecordType::CNAME,
            b"\x1Da-name-with-memory-of-its-own\0",
            "a-name-with-memory-of-its-own.",
        ),
        b"\x1Da-name-with-memory-of-its-own\0\xC0\x00",
    ),
    (
        "a-name-with-memory-of-its-own.",
        "",
        (
            RecordType::PTR,
            b"\x1Da-name-with-memory-of-its-own\0",
            "a-name-with-memory-of-its-own.",
        ),
        b"\x1Da-name-with-memory-of-its-own\0\xC0\x00",
    ),
    (
        "a-name-with-memory-of-its-own.",
        "",
        (
            RecordType::ANAME,
            b"\x1Da-name-with-memory-of-its-own\0",
            "a-name-with-memory-of-its-own.",
        ),
        b"\x1Da-name-with-memory-of-its-own\0\x1Da-name-with-memory-of-its-own\0",
    ),
    (
        "a-name-with-memory-of-its-own.",
        "",
        (
            RecordType::SRV,
            b"\0\x01\0\x02\x01\xBB\x1Da-name-with-memory-of-its-own\0",
            "1 2 443 a-name-with-memory-of-its-own.",
        ),
        b"\0\x01\0\x02\x01\xBB\x1Da-name-with-memory-of-its-own\0\
        \0\x01\0\x02\x01\xBB\x1Da-name-with-memory-of-its-own\0",
    ),
    (
        "ns.a-name-with-memory-of-its-own.",
        "hostmaster.a-name-with-memory-of-its-own.",
        (
            RecordType::SOA,
            b"\x02ns\x1Da-name-with-memory-of-its-own\0\x0Ahostmaster\xC0\x03\
            \0\0\0\x01\0\0\x1C\x20\0\0\x0E\x10\0\x12\x75\0\0\0\x01\x2C",
            "ns.a-name-with-memory-of-its-own. hostmaster.a-name-with-memory-of-its-own. 1 7200 3600 1209600 300",
        ),
        b"\x02ns\x1Da-name-with-memory-of-its-own\0\x0Ahostmaster\xC0\x03\
        \0\0\0\x01\0\0\x1C\x20\0\0\x0E\x10\0\x12\x75\0\0\0\x01\x2C\
        \xC0\x00\xC0\x22\0\0\0\x01\0\0\x1C\x20\0\0\x0E\x10\0\x12\x75\0\0\0\x01\x2C",
    ),
];

/// Whether data of names has this form, and that in a row.
fn is_of_names(alloc: Global, (one, other, form, twice): Named) -> bool {
    match form.0 {
        RecordType::NS => is_named(alloc, name(alloc, one).map(NS::new), form, twice),
        RecordType::CNAME => is_named(alloc, name(alloc, one).map(CNAME::new), form, twice),
        RecordType::PTR => is_named(alloc, name(alloc, one).map(PTR::new), form, twice),
        RecordType::ANAME => is_named(alloc, name(alloc, one).map(ANAME::new), form, twice),
        RecordType::SRV => is_named(alloc, service(alloc, one), form, twice),
        RecordType::SOA => is_named(alloc, soa(alloc, one, other), form, twice),
        _ => false,
    }
}

#[test]
fn names(rt: HostRuntime) {
    for table in [NAMED, LONG_NAMED] {
        for &row in table {
            assert!(rt; is_of_names(rt.alloc(), row), "{} {}", row.0, row.2.0);
        }
    }
}

#[test]
fn mail_hosts_in_a_row(rt: HostRuntime) {
    let hosts = (
        mail_host(rt.alloc(), 10, "mail.example."),
        mail_host(rt.alloc(), 256, "example."),
    );
    let wire = b"\0\x0A\x04mail\x07example\0\x01\0\xC0\x07";
    let are_in_a_row = match &hosts {
        (Ok(first), Ok(second)) => stand_in_a_row(rt.alloc(), first, second, wire),
        _ => false,
    };
    drop(hosts);
    assert!(rt; are_in_a_row);
}

/// Whether a text has those strings, and no more.
fn has_strings(text: &TXT) -> bool {
    let mut strings = text.strings();
    for expected in &STRINGS {
        if strings.next() != Some(*expected) {
            return false;
        }
    }
    strings.next().is_none()
}

#[test]
fn strings_are_read(rt: HostRuntime) {
    let mut decoder = BinDecoder::new(rt.alloc(), STRINGS_ON_THE_WIRE);
    let read = RData::read(&mut decoder, RecordType::TXT, 16);
    let are_read = match &read {
        Ok(RData::TXT(text)) => has_strings(text),
        _ => false,
    };
    drop(read);
    assert!(rt; are_read);
}

#[test]
fn empty_data_is_of_no_kind(rt: HostRuntime) {
    let none = RData::Update0(RecordType::MX);
    let is_empty = none.record_type() == RecordType::MX && none.is_update();
    let is_other = MX::try_borrow(&none).is_none();
    drop(none);
    assert!(rt; is_empty && is_other);
}

/// RFC 5952, 4 and 5.
const SHORTENED: &[([u16; 8], &'static str)] = &[
    ([0x2001, 0xDB8, 0, 1, 1, 1, 1, 1], "2001:db8:0:1:1:1:1:1"),
    ([0x2001, 0, 0, 1, 0, 0, 0, 1], "2001:0:0:1::1"),
    ([0, 0, 0, 0, 0, 0xFFFF, 0xC000, 0x020A], "::ffff:c000:20a"),
    ([0; 8], "::"),
    ([0xA, 0, 0xB, 0xC, 0xD, 0xE, 0, 0], "a:0:b:c:d:e::"),
];

#[test]
fn long_addresses(rt: HostRuntime) {
    for &(groups, text) in SHORTENED {
        let address = AAAA::new(Ipv6Addr::from_segments(groups));
        let is_shown = has_text(rt.alloc(), &address, text);
        assert!(rt;
            is_shown && AAAA::new(address.address()) == address,
            "{text}"
        );
    }
}
