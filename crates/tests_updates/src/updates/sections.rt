//! What is added to a message through `UpdateMessage` stands in its sections, and is seen through it.

use super::{EXAMPLE, HOST, host, hosts, zone_and_name};
use base::{Name, RecordType};
use base_data::TSIG;
use examples::refusal::Refusal;
use op::{Message, OpCode, Query};
use op_use::UpdateMessage;
use rr::Record;
use std::alloc::{AllocError, Global};
use std::test::Fail;

/// Adds the zone `example.`, five prerequisites, five updates and an additional record, with TTLs from 0 to 6: four of
/// each at once, which takes more room than the one before.
fn fill(alloc: Global, message: &mut Message) -> Result<(), Refusal> {
    let (zone, owner) = zone_and_name(alloc, EXAMPLE, HOST)?;
    message.add_zone(Query::query(zone, RecordType::SOA))?;
    message.add_pre_requisite(host(&owner, 0, 1)?)?;
    message.add_pre_requisites(hosts(&owner, 1, 4)?.into_iter())?;
    message.add_update(host(&owner, 3, 1)?)?;
    message.add_updates(hosts(&owner, 4, 4)?.into_iter())?;
    Ok(message.add_additional(host(&owner, 6, 1)?)?)
}

/// Whether the records have these TTLs.
fn have_ttls(records: &[Record], ttls: &[u32]) -> bool {
    for (record, ttl) in records.iter().zip(ttls) {
        if record.ttl != *ttl {
            return false;
        }
    }
    records.len() == ttls.len()
}

/// Whether the message has all that, as `UpdateMessage` shows it and in its own sections.
fn is_filled(message: &Message) -> bool {
    let names_zone = match message.zones().first() {
        Some(zone) => zone.query_type() == RecordType::SOA,
        None => false,
    };
    let asks = have_ttls(message.prerequisites(), &[0, 1, 1, 1, 1]);
    let has_answers = have_ttls(&message.answers, &[0, 1, 1, 1, 1]);
    let changes = have_ttls(message.updates(), &[3, 4, 4, 4, 4]);
    let has_authorities = have_ttls(&message.authorities, &[3, 4, 4, 4, 4]);
    let has_more = have_ttls(message.additionals(), &[6]);
    let has_zone = message.id() == 9 && message.zones().len() == 1 && names_zone;
    has_zone && asks && has_answers && changes && has_authorities && has_more
}

#[test]
fn sections_have_what_was_added(rt: HostRuntime) -> Result<(), Fail> {
    let mut message = Message::query(rt.alloc(), 9);
    message.metadata.op_code = OpCode::Update;
    let filled = fill(rt.alloc(), &mut message);
    let is_filled = is_filled(&message);
    drop(message);
    filled?;
    assert!(rt; is_filled);
    Ok(())
}

/// Whether a message is signed before a signature is set, and after.
fn are_signed(alloc: Global) -> Result<(bool, bool), AllocError> {
    let rdata = TSIG::new(vec![in alloc; 0xAA]?);
    let signature = Box::new(alloc, Record::from_rdata(Name::root(alloc), 0, rdata))?;
    let mut message = Message::query(alloc, 9);
    let before = message.signature().is_some();
    message.set_signature(signature);
    let after = message.signature().is_some();
    drop(message);
    Ok((before, after))
}

#[test]
fn an_update_shows_its_signature(rt: HostRuntime) -> Result<(), Fail> {
    assert!(rt; are_signed(rt.alloc())? == (false, true));
    Ok(())
}
