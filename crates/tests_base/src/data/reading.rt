//! Data that is read by its length.

use super::Datum::{self, Wire};
use super::kinds::{null, signature};
use super::{MAIL_HOST, make, read_at};
use crate::answers::{is_cut, is_this};
use base::{BinDecodable, BinDecoder, DecodeError, RecordType};
use base_data::{A, MX, RData, SOA, SRV};
use std::alloc::{AllocError, Global};
use std::net::Ipv4Addr;
use test_tools::forms::{has_text, read};

/// The texts of the table of kinds: each kind once, with no byte of it left to chance.
const PRINTED: &[(RecordType, &'static [u8], &'static str)] = &[
    (RecordType::A, &[192, 0, 2, 1], "192.0.2.1"),
    (
        RecordType::AAAA,
        &[0, 1, 0, 0, 0, 0, 0, 0, 0, 0, 0, 0, 0, 0, 0, 2],
        "1::2",
    ),
    (RecordType::NS, b"\x01a\x00", "a."),
    (RecordType::CNAME, b"\x01a\x00", "a."),
    (RecordType::PTR, b"\x01a\x00", "a."),
    (RecordType::ANAME, b"\x01a\x00", "a."),
    (RecordType::MX, b"\x00\x0A\x01a\x00", "10 a."),
    (
        RecordType::SOA,
        b"\x01a\x00\x01b\x00\x00\x00\x00\x01\x00\x00\x00\x02\x00\x00\x00\x03\x00\x00\x00\x04\x00\x00\x00\x05",
        "a. b. 1 2 3 4 5",
    ),
    (
        RecordType::SRV,
        b"\x00\x01\x00\x02\x00\x03\x01a\x00",
        "1 2 3 a.",
    ),
    (RecordType::TXT, b"\x01x\x00", "\"x\" \"\""),
    (RecordType::NULL, &[0xAB], "\\# 1 ab"),
    (RecordType::OPT, &[0, 3, 0, 1, 0xAB], "\\# 5 00030001ab"),
    (RecordType::TSIG, &[0xAB], "\\# 1 ab"),
    (RecordType::NS, &[], "\\# 0"),
    (RecordType::Unknown(999), &[0xAB], "\\# 1 ab"),
];

/// Whether data is made that has this text.
fn is_shown_as(alloc: Global, datum: Datum, text: &str) -> bool {
    let data = make(alloc, datum);
    let is_shown = match &data {
        Some(data) => has_text(alloc, data, text),
        None => false,
    };
    drop(data);
    is_shown
}

#[test]
fn every_kind_prints(rt: HostRuntime) {
    for &(record_type, wire, text) in PRINTED {
        assert!(rt;
            is_shown_as(rt.alloc(), Wire(record_type, wire), text),
            "{text}"
        );
    }
}

/// Bytes and a place, a type and a length that the data there hasn't.
const OTHER_LENGTHS: &[(&'static [u8], usize, RecordType, u16)] = &[
    (MAIL_HOST, 15, RecordType::MX, 5),
    (MAIL_HOST, 15, RecordType::MX, 7),
    (MAIL_HOST, 15, RecordType::A, 5),
    (MAIL_HOST, 15, RecordType::ZERO, 1),
    (MAIL_HOST, 15, RecordType::OPT, 6),
    (
        b"\x09say \"a\\b\"\0\x04\x1F\x7E\x7F\xFF",
        0,
        RecordType::TXT,
        15,
    ),
    (&[0, 3, 0, 0, 0, 3, 0, 1], 0, RecordType::OPT, 8),
];

/// Whether the bytes were refused as data of a type.
fn is_bad(read: Result<RData, DecodeError>, record_type: RecordType) -> bool {
    let bad = matches!(&read, Err(DecodeError::BadData(named)) if *named == record_type);
    drop(read);
    bad
}

#[test]
fn data_fills_its_length(rt: HostRuntime) {
    for &(bytes, at, record_type, len) in OTHER_LENGTHS {
        let read = read_at(rt.alloc(), record_type, bytes, at, len);
        assert!(rt; is_bad(read, record_type), "{record_type} of {len}");
    }
}

/// Whether this data could be made, and is read next, from `len` bytes.
fn is_next(decoder: &mut BinDecoder<'_>, len: u16, made: Result<RData, AllocError>) -> bool {
    let is_next = match &made {
        Ok(any) => is_this(RData::read(decoder, any.record_type(), len), any),
        Err(_) => false,
    };
    drop(made);
    is_next
}

#[test]
fn bytes_are_read_by_their_number(rt: HostRuntime) {
    let mut decoder = BinDecoder::new(rt.alloc(), &[1, 2, 3]);
    let are_bytes = is_next(&mut decoder, 2, null(rt.alloc(), &[1, 2]).map(RData::NULL));
    let is_signature = is_next(&mut decoder, 1, signature(rt.alloc(), 3).map(RData::TSIG));
    let is_end = is_bad(
        RData::read(&mut decoder, RecordType::TSIG, 1),
        RecordType::TSIG,
    );
    assert!(rt; are_bytes && is_signature && is_end);
}

#[test]
fn addresses_are_read_alone(rt: HostRuntime) {
    let mut decoder = BinDecoder::new(rt.alloc(), &[192, 0, 2, 10, 1, 2, 3]);
    let host = A::new(Ipv4Addr::new(192, 0, 2, 10));
    let is_read = is_this(A::read(&mut decoder), &host);
    let is_cut = is_cut(A::read(&mut decoder));
    assert!(rt; is_read && is_cut);
}

/// Whether the host of a service has this priority, weight, port and target.
fn is_service(alloc: Global, wire: &[u8], numbers: (u16, u16, u16), target: &str) -> bool {
    let found: Result<SRV, DecodeError> = read(alloc, wire);
    let is_service = match &found {
        Ok(service) => {
            (service.priority(), service.weight(), service.port()) == numbers
                && has_text(alloc, service.target(), target)
        }
        Err(_) => false,
    };
    drop(found);
    is_service
}

/// Whether the mail exchange has this preference and name.
fn is_exchange(alloc: Global, wire: &[u8], preference: u16, exchange: &str) -> bool {
    let found: Result<MX, DecodeError> = read(alloc, wire);
    let is_exchange = match &found {
        Ok(mail) => {
            mail.preference() == preference
                && has_text(alloc, mail.exchange(), exchange)
                && has_text(alloc, mail.name(), exchange)
        }
        Err(_) => false,
    };
    drop(found);
    is_exchange
}

/// Whether an SOA has these names and numbers.
fn is_soa(alloc: Global, wire: &[u8], names: (&str, &str), numbers: [u32; 5]) -> bool {
    let found: Result<SOA, DecodeError> = read(alloc, wire);
    let is_soa = match &found {
        Ok(start) => {
            let times = [
                start.serial(),
                start.refresh(),
                start.retry(),
                start.expire(),
                start.minimum(),
            ];
            times == numbers
                && has_text(alloc, start.mname(), names.0)
                && has_text(alloc, start.rname(), names.1)
        }
        Err(_) => false,
    };
    drop(found);
    is_soa
}

#[test]
fn fields_stand_in_their_order(rt: HostRuntime) {
    let wire = [0, 1, 0, 2, 0, 3, 1, b't', 0];
    let is_service = is_service(rt.alloc(), &wire, (1, 2, 3), "t.");
    let is_exchange = is_exchange(rt.alloc(), b"\x01\x02\x01e\x00", 258, "e.");
    let wire = b"\x01m\0\x01r\0\0\0\0\x01\0\0\0\x02\0\0\0\x03\0\0\0\x04\0\0\0\x05";
    let is_soa = is_soa(rt.alloc(), wire, ("m.", "r."), [1, 2, 3, 4, 5]);
    assert!(rt; is_service && is_exchange && is_soa);
}
