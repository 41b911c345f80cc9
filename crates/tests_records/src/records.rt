use crate::rows::Datum::{Empty, Text};
use crate::rows::{Row, record};
use base::{
    BinDecodable, BinDecoder, BinEncodable, BinEncoder, DNSClass, DecodeError, Name, ProtoError,
    RecordType,
};
use base_data::{A, MX, RData, TSIG};
use rr::{Record, RecordRef};
use std::alloc::{AllocError, Global};
use std::cmp::Ordering::{self, Equal, Greater, Less};
use std::net::Ipv4Addr;
use std::test::Fail;
use test_tools::forms::{is_read_with_text, is_written_as, is_written_back, read};

/// The bytes of an address record of `www.example.com.`.
const WWW: [u8; 31] = [
    0x03, 0x77, 0x77, 0x77, 0x07, 0x65, 0x78, 0x61, 0x6D, 0x70, 0x6C, 0x65, 0x03, 0x63, 0x6F, 0x6D,
    0x00, 0x00, 0x01, 0x00, 0x01, 0x00, 0x00, 0x00, 0x05, 0x00, 0x04, 0xC0, 0xA8, 0x00, 0x01,
];

/// The owner of that record, one that has memory of its own, and the row of both.
const OWNER: &str = "www.example.com.";

const LONG_OWNER: &str = "a-name-with-memory-of-its-own.";

const ROW: Row = (Text(RecordType::A, &["192.168.0.1"]), DNSClass::IN, 5);

/// Writes a record under a limit.
fn emit_under(bytes: &mut Vec<u8>, entry: &Record<A>, limit: u16) -> Result<(), ProtoError> {
    let mut encoder = BinEncoder::new(bytes);
    encoder.set_max_size(limit);
    entry.emit(&mut encoder)
}

/// The number of the refusal where the record is written under a limit; 0 for none.
fn refusal_under(alloc: Global, entry: &Record<A>, limit: u16) -> u8 {
    let mut bytes = Vec::new(alloc);
    let emitted = emit_under(&mut bytes, entry, limit);
    drop(bytes);
    let number = match &emitted {
        Ok(()) => 0,
        Err(e) => e.number(),
    };
    drop(emitted);
    number
}

/// That record of this owner, its data of its kind.
fn address_of(alloc: Global, owner: &str) -> Result<Record<A>, Fail> {
    let name = Name::parse(alloc, owner, None)?;
    Ok(Record::from_rdata(name, 5, A::new(Ipv4Addr::new(192, 168, 0, 1))))
}

/// Owners, and how long their records are.
const LENGTHS: &[(&'static str, u16)] = &[
    (OWNER, 31),
    ("a-name-of-20-letters.", 36),
    (LONG_OWNER, 45),
];

#[test]
fn a_record_is_written(rt: HostRuntime) -> Result<(), Fail> {
    let entry = address_of(rt.alloc(), OWNER)?;
    assert!(rt; is_written_as(rt.alloc(), &entry, &WWW));
    drop(entry);
    for &(owner, len) in LENGTHS {
        let entry = address_of(rt.alloc(), owner)?;
        let refused = refusal_under(rt.alloc(), &entry, len.saturating_sub(1));
        let written = refusal_under(rt.alloc(), &entry, len);
        drop(entry);
        assert!(rt; (refused, written) == (1, 0), "{owner}");
    }
    Ok(())
}

/// Whether these bytes, all of them, are read as this record with its cache-flush bit.
fn is_read_as(alloc: Global, bytes: &[u8], entry: &Record) -> bool {
    let mut decoder = BinDecoder::new(alloc, bytes);
    let found = Record::read(&mut decoder);
    let same = match &found {
        Ok(read) => read.mdns_cache_flush == entry.mdns_cache_flush && *read == *entry,
        Err(_) => false,
    };
    drop(found);
    same && decoder.index() == bytes.len()
}

/// Whether the record is an address of class IN, is written as these bytes, and they are read as it.
fn stands_as(alloc: Global, entry: &Record, bytes: &[u8]) -> bool {
    let is_address = entry.record_type() == RecordType::A && entry.dns_class == DNSClass::IN;
    is_address && is_written_as(alloc, entry, bytes) && is_read_as(alloc, bytes, entry)
}

/// Whether that is so of the record of a row, with this cache-flush bit.
fn row_stands_as(
    alloc: Global,
    (owner, row, flush): (&str, Row, bool),
    bytes: &[u8],
) -> Result<bool, Fail> {
    let mut entry = record(alloc, owner, row)?;
    entry.mdns_cache_flush = flush;
    let stands = stands_as(alloc, &entry, bytes);
    drop(entry);
    Ok(stands)
}

/// A record, whether the top bit of its class flushes the cache, its bytes, and its text.
const ROWS: &[((&'static str, Row, bool), &'static [u8], &'static str)] = &[
    (
        (OWNER, ROW, false),
        &WWW,
        "www.example.com. 5 IN A 192.168.0.1",
    ),
    (
        (
            ".",
            (Text(RecordType::A, &["0.0.0.0"]), DNSClass::IN, 0),
            true,
        ),
        &[0, 0, 1, 0x80, 1, 0, 0, 0, 0, 0, 4, 0, 0, 0, 0],
        ". 0 IN A 0.0.0.0",
    ),
    // empty data has no bytes
    (
        (".", (Empty(RecordType::A), DNSClass::IN, 1), false),
        &[0, 0, 1, 0, 1, 0, 0, 0, 1, 0, 0],
        ". 1 IN A \\# 0",
    ),
];

#[test]
fn records_are_written_and_read(rt: HostRuntime) -> Result<(), Fail> {
    for &(entry, bytes, text) in ROWS {
        assert!(rt; row_stands_as(rt.alloc(), entry, bytes)?, "{text}");
        assert!(rt;
            is_read_with_text::<Record>(rt.alloc(), bytes, text),
            "{text}"
        );
    }
    Ok(())
}

/// Types, and data of them on the wire, without names that are written as pointers.
const DATA: &[(RecordType, &'static [u8])] = &[
    (RecordType::A, &[192, 0, 2, 1]),
    (
        RecordType::AAAA,
        &[0x20, 1, 0x0D, 0xB8, 0, 0, 0, 0, 0, 1, 0, 0, 0, 0, 0, 1],
    ),
    (RecordType::NS, b"\x01b\0"),
    (RecordType::CNAME, b"\x01b\0"),
    (RecordType::PTR, b"\x01b\0"),
    (RecordType::ANAME, b"\x01b\0"),
    (RecordType::MX, b"\0\x0A\x01b\0"),
    (
        RecordType::SOA,
        b"\x01b\0\x01c\0\0\0\0\x01\0\0\0\x02\0\0\0\x03\0\0\0\x04\0\0\0\x05",
    ),
    (RecordType::SRV, b"\0\x01\0\x02\x01\xBB\x01b\0"),
    (RecordType::TXT, b"\x01x\x02yz"),
    (RecordType::NULL, &[1, 2, 3]),
    (RecordType::OPT, &[0, 3, 0, 4, 1, 2, 3, 4]),
    (RecordType::TSIG, &[0xAA]),
    (RecordType::Unknown(11), &[1, 2]),
];

/// Appends a record to bytes: its owner, of one label of `len` letters or the root, its type, class 512, a TTL and
/// data.
fn push_record(
    bytes: &mut Vec<u8>,
    len: u8,
    (record_type, data): (RecordType, &[u8]),
) -> Result<(), AllocError> {
    if len > 0 {
        bytes.push(len)?;
        bytes.resize(1 + usize::from(len), b'a')?;
    }
    bytes.push(0)?;
    bytes.extend_from_slice(&u16::from(record_type).to_be_bytes())?;
    bytes.extend_from_slice(&[2, 0, 0, 0, 0, 60])?;
    let len = data.len().min(65_535) as u16;
    bytes.extend_from_slice(&len.to_be_bytes())?;
    bytes.extend_from_slice(data)
}

/// Whether such a record is read, and written as the same bytes.
fn is_written_back_of(
    alloc: Global,
    len: u8,
    data: (RecordType, &[u8]),
) -> Result<bool, AllocError> {
    let mut bytes = Vec::new(alloc);
    push_record(&mut bytes, len, data)?;
    let is_back = is_written_back::<Record>(alloc, &bytes);
    drop(bytes);
    Ok(is_back)
}

#[test]
fn records_of_each_type_are_written_after_owners_of_each_length(
    rt: HostRuntime,
) -> Result<(), AllocError> {
    for &(record_type, data) in DATA {
        // the owner of an OPT record is the root
        let longest = if record_type == RecordType::OPT {
            0
        } else {
            63
        };
        for len in 0..=longest {
            assert!(rt;
                is_written_back_of(rt.alloc(), len, (record_type, data))?,
                "{record_type} after {len} letters"
            );
        }
    }
    Ok(())
}

/// Whether these bytes are read as an empty OPT record of this payload size, which flushes no cache, and is written as
/// `written`.
fn is_empty_opt(alloc: Global, bytes: &[u8], payload: u16, written: &[u8]) -> bool {
    let found: Result<Record, DecodeError> = read(alloc, bytes);
    let same = match &found {
        Ok(entry) => {
            let empty = matches!(&entry.rdata, RData::Update0(RecordType::OPT));
            let sized = entry.dns_class == DNSClass::OPT(payload) && !entry.mdns_cache_flush;
            empty && sized && is_written_as(alloc, entry, written)
        }
        Err(_) => false,
    };
    drop(found);
    same
}

#[test]
fn an_opt_record_has_a_payload_size(rt: HostRuntime) {
    let small = [0, 0, 0x29, 0, 0x64, 0, 0, 0, 0, 0, 0];
    let least = [0, 0, 0x29, 2, 0, 0, 0, 0, 0, 0, 0];
    assert!(rt; is_empty_opt(rt.alloc(), &small, 512, &least));
    let wide = [0, 0, 0x29, 0x80, 8, 0, 0, 0, 0, 0, 0];
    assert!(rt; is_empty_opt(rt.alloc(), &wide, 0x8008, &wide));
}

/// The root 0 ANY TSIG of eight bytes AA.
fn signature(alloc: Global) -> Result<Record<TSIG>, Fail> {
    let rdata = TSIG::new(vec![in alloc; 0xAA; 8]?);
    let mut entry = Record::from_rdata(Name::root(alloc), 0, rdata);
    entry.dns_class = DNSClass::ANY;
    Ok(entry)
}

/// Whether the signature, as a record of its kind, is written as these bytes, and they are read as it, as a record of
/// any data.
fn signature_stands_as(alloc: Global, bytes: &[u8]) -> Result<bool, Fail> {
    let entry = signature(alloc)?;
    let written = is_written_as(alloc, &entry, bytes);
    let entry = entry.into_record_of_rdata();
    let read = is_read_as(alloc, bytes, &entry);
    drop(entry);
    Ok(written && read)
}

#[test]
fn a_signature_is_written_by_its_kind(rt: HostRuntime) -> Result<(), Fail> {
    let bytes = b"\0\0\xFA\0\xFF\0\0\0\0\0\x08\xAA\xAA\xAA\xAA\xAA\xAA\xAA\xAA";
    assert!(rt; signature_stands_as(rt.alloc(), bytes)?);
    Ok(())
}

/// The number of the fault of these bytes, 0 for none, and what it names: how many bytes are left and the length of the
/// data, or the type of the data.
fn fault(alloc: Global, bytes: &[u8]) -> (u8, usize, usize) {
    let found: Result<Record, DecodeError> = read(alloc, bytes);
    let fault = match &found {
        Ok(_) => (0, 0, 0),
        Err(DecodeError::IncorrectRDataLengthRead { read, len }) => (7, *read, *len),
        Err(DecodeError::BadData(named)) => (8, usize::from(u16::from(*named)), 0),
        Err(e) => (e.number(), 0, 0),
    };
    drop(found);
    fault
}

/// Bytes that are no record, and how reading them ends.
const FAULTS: &[(&'static [u8], (u8, usize, usize))] = &[
    // faults come in order
    (&[1, 0x61, 0, 0, 0x29], (6, 0, 0)),
    (&[0, 0, 1, 0, 1, 0, 0], (4, 0, 0)),
    // data shorter than its length, and too short for its type
    (&[0, 0, 1, 0, 1, 0, 0, 0, 0, 0, 5, 0x7F, 0, 0, 1], (7, 4, 5)),
    (&[0, 0, 1, 0, 1, 0, 0, 0, 0, 0, 3, 0x7F, 0, 0], (8, 1, 0)),
];

#[test]
fn faults_of_records(rt: HostRuntime) {
    for &(bytes, wanted) in FAULTS {
        assert!(rt; fault(rt.alloc(), bytes) == wanted, "{bytes:?}");
    }
}

#[test]
fn seconds_come_off_down_to_none(rt: HostRuntime) -> Result<(), Fail> {
    let mut entry = address_of(rt.alloc(), OWNER)?;
    assert!(rt; entry.decrement_ttl(7).ttl == 0);
    assert!(rt; entry.dns_class == DNSClass::IN);
    drop(entry);
    Ok(())
}

/// Whether the record of an owner is mapped to itself where the closure answers its data, and to none where it answers
/// none.
fn is_mapped(alloc: Global, owner: &str) -> Result<bool, Fail> {
    let mut entry = address_of(alloc, owner)?;
    entry.mdns_cache_flush = true;
    let copied: Result<Record<A>, AllocError> = entry.clone();
    let same = is_itself(copied?, &entry);
    let none: Option<Record<A>> = entry.map(|_: A| None);
    Ok(same && none.is_none())
}

/// Whether a record of a TTL of 5 that flushes the cache is mapped to another where the closure answers its data.
fn is_itself(entry: Record<A>, other: &Record<A>) -> bool {
    match entry.map(|rdata: A| Some(rdata)) {
        Some(same) => {
            let flushes = same.ttl == 5 && same.mdns_cache_flush;
            let equal = same == *other;
            drop(same);
            flushes && equal
        }
        None => false,
    }
}

#[test]
fn a_record_is_mapped(rt: HostRuntime) -> Result<(), Fail> {
    for owner in [OWNER, LONG_OWNER] {
        assert!(rt; is_mapped(rt.alloc(), owner)?, "{owner}");
    }
    Ok(())
}

/// Whether what is shown is 5 IN A 192.168.0.1, without a cache-flush bit, of the owner of this record, and is it.
fn is_shown(shown: RecordRef<'_, A>, entry: &Record) -> Result<bool, ProtoError> {
    let address = shown.data().address() == Ipv4Addr::new(192, 168, 0, 1);
    let typed = shown.record_type() == RecordType::A && shown.dns_class() == DNSClass::IN;
    let timed = shown.ttl() == 5 && !shown.mdns_cache_flush();
    let named = *shown.name() == entry.name;
    let owned = shown.to_owned()?.into_record_of_rdata();
    let same = owned == *entry;
    drop(owned);
    Ok(same && address && typed && timed && named)
}

/// Whether the record is borrowed by its kind, as that of the address, and by no other.
fn is_borrowed(entry: &Record) -> Result<bool, ProtoError> {
    let other: Option<RecordRef<'_, MX>> = entry.try_borrow();
    let borrowed: Result<RecordRef<'_, A>, &Record<RData>> = RecordRef::try_from(entry);
    match borrowed {
        Ok(borrowed) => {
            let copy = borrowed;
            Ok(other.is_none() && is_shown(copy, entry)? && is_shown(borrowed, entry)?)
        }
        Err(_) => Ok(false),
    }
}

#[test]
fn a_record_is_borrowed_by_its_kind(rt: HostRuntime) -> Result<(), Fail> {
    for owner in [OWNER, LONG_OWNER] {
        let entry = record(rt.alloc(), owner, ROW)?;
        let borrowed = is_borrowed(&entry);
        drop(entry);
        assert!(rt; borrowed?, "{owner}");
    }
    Ok(())
}

/// How the record `www.example.com.` 5 A 192.168.0.1 stands to another: its order before it, whether the two are equal,
/// and the order the other way round.
fn www_beside(alloc: Global, other: &Record) -> Result<(Ordering, bool, Ordering), Fail> {
    let entry = record(alloc, OWNER, ROW)?;
    let order = (entry.canonical_cmp(other), other.canonical_cmp(&entry));
    let equal = entry == *other;
    drop(entry);
    Ok((order.0, equal, order.1))
}

/// The same of the record of a row.
fn www_beside_row(
    alloc: Global,
    owner: &str,
    row: Row,
) -> Result<(Ordering, bool, Ordering), Fail> {
    let other = record(alloc, owner, row)?;
    let beside = www_beside(alloc, &other);
    drop(other);
    beside
}

/// Other records, and how that record stands to them.
const OTHERS: &[(&'static str, Row, (Ordering, bool, Ordering))] = &[
    ("zzz.example.com.", ROW, (Less, false, Greater)),
    (OWNER, ROW, (Equal, true, Equal)),
    // a later class or TTL
    (
        OWNER,
        (Text(RecordType::A, &["192.168.0.1"]), DNSClass::IN, 6),
        (Less, true, Greater),
    ),
    (
        OWNER,
        (Text(RecordType::A, &["192.168.0.1"]), DNSClass::NONE, 5),
        (Less, false, Greater),
    ),
    // later data or a later type
    (
        OWNER,
        (Text(RecordType::A, &["192.168.0.255"]), DNSClass::IN, 5),
        (Less, false, Greater),
    ),
    (
        OWNER,
        (Text(RecordType::TXT, &["x"]), DNSClass::IN, 5),
        (Less, false, Greater),
    ),
];

#[test]
fn what_is_later_comes_after(rt: HostRuntime) -> Result<(), Fail> {
    for (i, &(owner, row, wanted)) in OTHERS.iter().enumerate() {
        assert!(rt;
            www_beside_row(rt.alloc(), owner, row)? == wanted,
            "row {i}"
        );
    }
    Ok(())
}
