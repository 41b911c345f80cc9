//! Data and records of rows.

use base::{DNSClass, Name, ParseError, RecordType};
use base_data::{A, NULL, RData, RecordData, SOA};
use rr::Record;
use std::alloc::Global;
use std::net::Ipv4Addr;

/// The data of a row.
#[derive(Clone, Copy)]
pub(crate) enum Datum {
    /// The address that begins with 93.184 and ends in this number.
    Address(u16),
    /// The two bytes of this number, carried for the type NULL.
    Number(u16),
    /// What these items spell.
    Text(RecordType, &'static [&'static str]),
    /// An SOA of this serial and first name.
    Soa(u32, &'static str),
    /// Empty, as in updates.
    Empty(RecordType),
}

/// The data of a record, its class and its TTL.
pub(crate) type Row = (Datum, DNSClass, u32);

/// The data of the address that begins with 93.184 and ends in this number.
fn address(number: u16) -> RData {
    let [high, low] = number.to_be_bytes();
    A::new(Ipv4Addr::new(93, 184, high, low)).into_rdata()
}

/// An SOA of this serial and first name.
fn soa(first: Name, serial: u32) -> RData {
    let second = Name::root(first.allocator());
    RData::SOA(SOA::new(first, second, serial, 1, 1, 1, 1))
}

/// The data of a row.
pub(crate) fn data(alloc: Global, datum: Datum) -> Result<RData, ParseError> {
    match datum {
        Datum::Address(number) => Ok(address(number)),
        Datum::Number(number) => {
            let bytes = Vec::from_slice(alloc, &number.to_be_bytes())?;
            Ok(RData::NULL(NULL::new(bytes)))
        }
        Datum::Text(record_type, items) => RData::from_items(alloc, record_type, items, None),
        Datum::Soa(serial, name) => Ok(soa(Name::parse(alloc, name, None)?, serial)),
        Datum::Empty(record_type) => Ok(RData::Update0(record_type)),
    }
}

/// The record of this owner and row.
pub(crate) fn record(
    alloc: Global,
    owner: &str,
    (datum, dns_class, ttl): Row,
) -> Result<Record, ParseError> {
    let rdata = data(alloc, datum)?;
    match Name::parse(alloc, owner, None) {
        Ok(name) => {
            let mut entry = Record::from_rdata(name, ttl, rdata);
            entry.dns_class = dns_class;
            Ok(entry)
        }
        Err(e) => {
            drop(rdata);
            Err(e)
        }
    }
}

/// Whether a record has the data, the class and the TTL of the row.
pub(crate) fn is_row(
    alloc: Global,
    entry: &Record,
    (datum, dns_class, ttl): Row,
) -> Result<bool, ParseError> {
    let rdata = data(alloc, datum)?;
    let same = entry.rdata == rdata;
    drop(rdata);
    Ok(same && entry.dns_class == dns_class && entry.ttl == ttl)
}
