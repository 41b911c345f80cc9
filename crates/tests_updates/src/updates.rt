//! Updates, as the builders make them, and the questions for transfers: their bytes, and that they are read again.

mod alternating;
mod applied;
pub(super) mod builders;
pub(super) mod in_place;
mod sections;

ghost use Rattle.std.specs.Prelude.{◌≡◌, IfOk, true};
ghost use Rattle.base.specs.names.NameOrder.{is_zone_of};

use base::{Name, ParseError, RecordType};
use base_data::{A, RData};
use rr::{Record, RecordSet};
use std::alloc::Global;
use std::net::Ipv4Addr;

/// The name of a text that has a dot at its end.
pub(super) fn name(alloc: Global, text: &str) -> Result<Name, ParseError> {
    Name::parse(alloc, text, None)
}

/// 192.0.2.`last`.
fn address(last: u8) -> RData {
    RData::A(A::new(Ipv4Addr::new(192, 0, 2, last)))
}

/// The zone of most tests, and one whose name has more than 29 bytes, so that each copy of it takes memory.
pub(super) const EXAMPLE: &str = "example.";

pub(super) const LONG_ZONE: &str = "a-name-with-memory-of-its-own.";

/// The host of each zone.
const HOST: &str = "www";

/// A record of this owner with this TTL and 192.0.2.`last`.
fn host(owner: &Name, ttl: u32, last: u8) -> Result<Record, ParseError> {
    Ok(Record::from_rdata(owner.clone()?, ttl, address(last)))
}

/// The addresses 192.0.2.1 to 192.0.2.`count` of this owner, with a TTL.
fn hosts(owner: &Name, ttl: u32, count: u8) -> Result<Vec<Record>, ParseError> {
    let mut records = Vec::new(owner.allocator());
    for last in 0..count {
        records.push(host(owner, ttl, last.saturating_add(1))?)?;
    }
    Ok(records)
}

/// The name of a zone and the one that a text spells under it, if that lies in this zone.
fn zone_and_name(alloc: Global, zone: &str, owner: &str) -> Result<(Name, Name), ParseError>
    ensures { IfOk result (λ p. is_zone_of p.0 p.1 ≡ true) }
{
    let origin = name(alloc, zone)?;
    let owner = Name::parse(alloc, owner, Some(&origin))?;
    if origin.zone_of(&owner) {
        return Ok((origin, owner));
    }
    Err(ParseError::Message("a name outside the zone"))
}

/// The set of an owner's addresses.
fn set_of(alloc: Global, owner: Name, ttl: u32, records: Vec<Record>) -> RecordSet
    ensures { result.name ≡ owner }
{
    let mut set = RecordSet::with_ttl(alloc, owner, RecordType::A, ttl);
    set.set_records(records);
    set
}

/// The name of a zone, and the set of these addresses of its host, with a TTL.
pub(super) fn zone_and_addresses(
    alloc: Global,
    zone: &str,
    ttl: u32,
    count: u8,
) -> Result<(Name, RecordSet), ParseError>
    ensures { IfOk result (λ p. is_zone_of p.0 p.1.name ≡ true) }
{
    let (origin, owner) = zone_and_name(alloc, zone, HOST)?;
    let records = hosts(&owner, ttl, count)?;
    Ok((origin, set_of(alloc, owner, ttl, records)))
}
