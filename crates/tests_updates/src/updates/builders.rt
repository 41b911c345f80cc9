use super::{HOST, address, hosts, name, set_of, zone_and_addresses, zone_and_name};
use base::{DNSClass, ParseError};
use base_data::SOA;
use op::Message;
use op_use::update_message::{
    append, compare_and_swap, create, delete_all, delete_by_rdata, delete_rrset, zone_transfer,
};
use rr::Record;
use std::alloc::Global;
use std::test::Fail;

/// What is sent.
#[derive(Clone, Copy)]
pub(crate) enum Sent {
    /// The set of 192.0.2.1 is created, with EDNS.
    Created,
    /// 192.0.2.1 is appended to a set that must exist.
    Appended,
    /// Under this id, the set of so many addresses from 192.0.2.1 on is swapped for one of so many.
    Swapped(u16, u8, u8),
    /// The address 192.0.2.1 is deleted.
    WithoutData,
    /// The set of a record is deleted, which has the cache-flush bit or not.
    WithoutSet(bool),
    /// All sets of the zone's own name are deleted.
    WithoutName,
    /// The question for all of the zone.
    Whole,
    /// The question for what changed in it.
    Changes,
}

/// The message that is sent of a zone.
pub(crate) fn build(alloc: Global, zone: &str, sent: Sent) -> Result<Message, Fail> {
    match sent {
        Sent::Created | Sent::Appended | Sent::WithoutData => change_set(alloc, zone, sent),
        Sent::Swapped(id, had, count) => swap_sets(alloc, zone, id, had, count),
        Sent::WithoutSet(flush) => delete_set(alloc, zone, flush),
        Sent::WithoutName => delete_name(alloc, zone),
        Sent::Whole => transfer(alloc, zone, None),
        Sent::Changes => transfer(alloc, zone, Some(soa(alloc, zone)?)),
    }
}

/// Creates the set of 192.0.2.1, appends its data, or deletes them.
fn change_set(alloc: Global, zone: &str, sent: Sent) -> Result<Message, Fail> {
    let (origin, set) = zone_and_addresses(alloc, zone, 60, 1)?;
    let made = match sent {
        Sent::Created => create(alloc, 1, set, origin, true),
        Sent::Appended => append(alloc, 3, set, origin, true, false),
        _ => delete_by_rdata(alloc, 4, set, origin, false),
    };
    Ok(made?)
}

/// Swaps the set of `had` addresses for that of `count`.
fn swap_sets(alloc: Global, zone: &str, id: u16, had: u8, count: u8) -> Result<Message, Fail> {
    let (origin, owner) = zone_and_name(alloc, zone, HOST)?;
    let same = owner.clone()?;
    let known = hosts(&owner, 300, had)?;
    let records = hosts(&owner, 60, count)?;
    let current = set_of(alloc, same, 300, known);
    let new = set_of(alloc, owner, 60, records);
    Ok(compare_and_swap(alloc, id, current, new, origin, false)?)
}

/// Deletes the set of a record, with the cache-flush bit or without.
fn delete_set(alloc: Global, zone: &str, flush: bool) -> Result<Message, Fail> {
    let (origin, owner) = zone_and_name(alloc, zone, HOST)?;
    let mut gone = Record::from_rdata(owner, 60, address(1));
    gone.mdns_cache_flush = flush;
    Ok(delete_rrset(alloc, 5, gone, origin, false)?)
}

/// Deletes all sets of the zone's own name.
fn delete_name(alloc: Global, zone: &str) -> Result<Message, Fail> {
    let (origin, gone) = zone_and_name(alloc, zone, "@")?;
    Ok(delete_all(alloc, 2, gone, origin, DNSClass::IN, false)?)
}

/// The question for the zone, of a client that has this SOA.
fn transfer(alloc: Global, zone: &str, known: Option<SOA>) -> Result<Message, Fail> {
    match name(alloc, zone) {
        Ok(origin) => Ok(zone_transfer(alloc, 6, origin, known)?),
        Err(e) => {
            drop(known);
            Err(e.into())
        }
    }
}

/// The SOA that a client last had of the zone.
fn soa(alloc: Global, zone: &str) -> Result<SOA, ParseError> {
    let (_, server) = zone_and_name(alloc, zone, "ns")?;
    let (_, mailbox) = zone_and_name(alloc, zone, "hostmaster")?;
    Ok(SOA::new(server, mailbox, 1, 7200, 3600, 1209600, 300))
}

/// What is sent of `example.`, how long it is, and its bytes.
pub(crate) const SENT: &[(Sent, usize, &'static [u8])] = &[
    (
        Sent::Created,
        68,
        b"\x00\x01\x28\x00\x00\x01\x00\x01\x00\x01\x00\x01\x07example\x00\x00\x06\x00\x01\x03www\xC0\x0C\x00\x01\x00\xFE\x00\x00\x00\x00\x00\x00\
      \xC0\x19\x00\x01\x00\x01\x00\x00\x00\x3C\x00\x04\xC0\x00\x02\x01\x00\x00\x29\x04\xD0\x00\x00\x00\x00\x00\x00",
    ),
    (
        Sent::Appended,
        57,
        b"\x00\x03\x28\x00\x00\x01\x00\x01\x00\x01\x00\x00\x07example\x00\x00\x06\x00\x01\x03www\xC0\x0C\x00\x01\x00\xFF\x00\x00\x00\x00\x00\x00\
      \xC0\x19\x00\x01\x00\x01\x00\x00\x00\x3C\x00\x04\xC0\x00\x02\x01",
    ),
    (
        Sent::Swapped(0x1234, 1, 2),
        93,
        b"\x12\x34\x28\x00\x00\x01\x00\x01\x00\x03\x00\x00\x07example\x00\x00\x06\x00\x01\x03www\xC0\x0C\x00\x01\x00\x01\x00\x00\x00\x00\x00\x04\xC0\x00\x02\x01\
      \xC0\x19\x00\x01\x00\xFE\x00\x00\x00\x00\x00\x04\xC0\x00\x02\x01\xC0\x19\x00\x01\x00\x01\x00\x00\x00\x3C\x00\x04\xC0\x00\x02\x01\
      \xC0\x19\x00\x01\x00\x01\x00\x00\x00\x3C\x00\x04\xC0\x00\x02\x02",
    ),
    // a swap of nothing asks for nothing
    (
        Sent::Swapped(7, 0, 1),
        45,
        b"\x00\x07\x28\x00\x00\x01\x00\x00\x00\x01\x00\x00\x07example\x00\x00\x06\x00\x01\
          \x03www\xC0\x0C\x00\x01\x00\x01\x00\x00\x00\x3C\x00\x04\xC0\x00\x02\x01",
    ),
    (
        Sent::WithoutData,
        45,
        b"\x00\x04\x28\x00\x00\x01\x00\x00\x00\x01\x00\x00\x07example\x00\x00\x06\x00\x01\x03www\xC0\x0C\x00\x01\x00\xFE\x00\x00\x00\x00\x00\x04\xC0\x00\x02\x01",
    ),
    (
        Sent::WithoutSet(false),
        41,
        b"\x00\x05\x28\x00\x00\x01\x00\x00\x00\x01\x00\x00\x07example\x00\x00\x06\x00\x01\x03www\xC0\x0C\x00\x01\x00\xFF\x00\x00\x00\x00\x00\x00",
    ),
    (
        Sent::WithoutSet(true),
        41,
        b"\x00\x05\x28\x00\x00\x01\x00\x00\x00\x01\x00\x00\x07example\x00\x00\x06\x00\x01\x03www\xC0\x0C\x00\x01\x80\xFF\x00\x00\x00\x00\x00\x00",
    ),
    (
        Sent::WithoutName,
        37,
        b"\x00\x02\x28\x00\x00\x01\x00\x00\x00\x01\x00\x00\x07example\x00\x00\x06\x00\x01\xC0\x0C\x00\xFF\x00\xFF\x00\x00\x00\x00\x00\x00",
    ),
    // the questions for all of `example.`, and for what changed
    (
        Sent::Whole,
        36,
        b"\x00\x06\x00\x00\x00\x01\x00\x00\x00\x00\x00\x01\x07example\x00\x00\xFC\x00\x01\x00\x00\x29\x04\xD0\x00\x00\x00\x00\x00\x00",
    ),
    (
        Sent::Changes,
        86,
        b"\x00\x06\x00\x00\x00\x01\x00\x00\x00\x01\x00\x01\x07example\x00\x00\xFB\x00\x01\
          \xC0\x0C\x00\x06\x00\x01\x00\x00\x00\x00\x00\x26\x02ns\xC0\x0C\x0Ahostmaster\xC0\x0C\x00\x00\x00\x01\x00\x00\x1C\x20\x00\x00\x0E\x10\x00\x12\x75\x00\x00\x00\x01\x2C\
          \x00\x00\x29\x04\xD0\x00\x00\x00\x00\x00\x00",
    ),
];

/// The same of a zone whose name has memory of its own.
pub(crate) const LONG_SENT: &[(Sent, usize, &'static [u8])] = &[
    (
        Sent::Created,
        90,
        b"\x00\x01\x28\x00\x00\x01\x00\x01\x00\x01\x00\x01\x1Da-name-with-memory-of-its-own\x00\x00\x06\x00\x01\x03www\xC0\x0C\x00\x01\x00\xFE\x00\x00\x00\x00\x00\x00\
      \xC0\x2F\x00\x01\x00\x01\x00\x00\x00\x3C\x00\x04\xC0\x00\x02\x01\x00\x00\x29\x04\xD0\x00\x00\x00\x00\x00\x00",
    ),
    (
        Sent::Appended,
        79,
        b"\x00\x03\x28\x00\x00\x01\x00\x01\x00\x01\x00\x00\x1Da-name-with-memory-of-its-own\x00\x00\x06\x00\x01\x03www\xC0\x0C\x00\x01\x00\xFF\x00\x00\x00\x00\x00\x00\
      \xC0\x2F\x00\x01\x00\x01\x00\x00\x00\x3C\x00\x04\xC0\x00\x02\x01",
    ),
    (
        Sent::Swapped(0x1234, 1, 2),
        115,
        b"\x12\x34\x28\x00\x00\x01\x00\x01\x00\x03\x00\x00\x1Da-name-with-memory-of-its-own\x00\x00\x06\x00\x01\x03www\xC0\x0C\x00\x01\x00\x01\x00\x00\x00\x00\x00\x04\xC0\x00\x02\x01\
      \xC0\x2F\x00\x01\x00\xFE\x00\x00\x00\x00\x00\x04\xC0\x00\x02\x01\xC0\x2F\x00\x01\x00\x01\x00\x00\x00\x3C\x00\x04\xC0\x00\x02\x01\
      \xC0\x2F\x00\x01\x00\x01\x00\x00\x00\x3C\x00\x04\xC0\x00\x02\x02",
    ),
    // a swap of nothing asks for nothing
    (
        Sent::Swapped(7, 0, 1),
        67,
        b"\x00\x07\x28\x00\x00\x01\x00\x00\x00\x01\x00\x00\x1Da-name-with-memory-of-its-own\x00\x00\x06\x00\x01\
          \x03www\xC0\x0C\x00\x01\x00\x01\x00\x00\x00\x3C\x00\x04\xC0\x00\x02\x01",
    ),
    (
        Sent::WithoutData,
        67,
        b"\x00\x04\x28\x00\x00\x01\x00\x00\x00\x01\x00\x00\x1Da-name-with-memory-of-its-own\x00\x00\x06\x00\x01\x03www\xC0\x0C\x00\x01\x00\xFE\x00\x00\x00\x00\x00\x04\xC0\x00\x02\x01",
    ),
    (
        Sent::WithoutSet(false),
        63,
        b"\x00\x05\x28\x00\x00\x01\x00\x00\x00\x01\x00\x00\x1Da-name-with-memory-of-its-own\x00\x00\x06\x00\x01\x03www\xC0\x0C\x00\x01\x00\xFF\x00\x00\x00\x00\x00\x00",
    ),
    (
        Sent::WithoutSet(true),
        63,
        b"\x00\x05\x28\x00\x00\x01\x00\x00\x00\x01\x00\x00\x1Da-name-with-memory-of-its-own\x00\x00\x06\x00\x01\x03www\xC0\x0C\x00\x01\x80\xFF\x00\x00\x00\x00\x00\x00",
    ),
    (
        Sent::WithoutName,
        59,
        b"\x00\x02\x28\x00\x00\x01\x00\x00\x00\x01\x00\x00\x1Da-name-with-memory-of-its-own\x00\x00\x06\x00\x01\xC0\x0C\x00\xFF\x00\xFF\x00\x00\x00\x00\x00\x00",
    ),
    // the questions for all of the zone, and for what changed
    (
        Sent::Whole,
        58,
        b"\x00\x06\x00\x00\x00\x01\x00\x00\x00\x00\x00\x01\x1Da-name-with-memory-of-its-own\x00\x00\xFC\x00\x01\x00\x00\x29\x04\xD0\x00\x00\x00\x00\x00\x00",
    ),
    (
        Sent::Changes,
        108,
        b"\x00\x06\x00\x00\x00\x01\x00\x00\x00\x01\x00\x01\x1Da-name-with-memory-of-its-own\x00\x00\xFB\x00\x01\
          \xC0\x0C\x00\x06\x00\x01\x00\x00\x00\x00\x00\x26\x02ns\xC0\x0C\x0Ahostmaster\xC0\x0C\x00\x00\x00\x01\x00\x00\x1C\x20\x00\x00\x0E\x10\x00\x12\x75\x00\x00\x00\x01\x2C\
          \x00\x00\x29\x04\xD0\x00\x00\x00\x00\x00\x00",
    ),
];
