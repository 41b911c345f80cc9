//! The names and the sets that updates are built of, from their texts (RFC 1035, 5.1).

ghost use Rattle.std.specs.Prelude.{◌≡◌, IfOk, true};
ghost use Rattle.base.specs.names.NameOrder.{is_zone_of};
ghost use Rattle.op_use.specs.SoundSet.{IsSound};
ghost use Rattle.txt.specs.ZoneSets.{AreKeyed};
ghost use Rattle.parsed_zone.specs.Classes.{are_sets_in};
ghost use Rattle.tasks.specs.Asked.{Makes};
ghost use Rattle.tasks.specs.Update.{of_type, one_set, only_set, owner_of_text, set_of_text, soa_in_data, soa_of_text, within};

use crate::refusal::Refusal;
use crate::zone::{characters_of, zone_under};
use base::{Name, RecordType, RrKey};
use base_data::{RData, SOA};
use op_use::is_supported_type;
use parsed_zone::are_sets_in;
use rr::RecordSet;
use std::alloc::Global;
use std::collections::BTreeMap;

/// The one set that zone text has, if its owner lies in the zone and updates can change its type.
///
/// # Errors
///
/// Those of `one_set` and `of_type`.
pub fn set_in(alloc: Global, origin: &Name, text: &[u8]) -> Result<RecordSet, Refusal>
    ensures made { Makes (λ set. set) (set_of_text origin.now text.now) result }
    // The set's owner lies in the zone.
    ensures within { IfOk result (λ set. is_zone_of origin.now set.name ≡ true) }
    // Its records have its owner, type and class, and no two of them have equal data.
    ensures sound { IfOk result (λ set. IsSound set) }
{
    let set = one_set(alloc, origin, text)?;
    of_type(set.record_type())?;
    Ok(set)
}

/// The one set of the class IN that zone text has, if its owner lies in the zone.
///
/// # Errors
///
/// Those of `zone_under`; 25 for a record of another class than IN, 27 for a text that isn't one set, 28 for an owner
/// outside the zone.
pub fn one_set(alloc: Global, origin: &Name, text: &[u8]) -> Result<RecordSet, Refusal>
    ensures made { Makes (λ set. set) (one_set origin.now text.now) result }
    ensures within { IfOk result (λ set. is_zone_of origin.now set.name ≡ true) }
    ensures sound { IfOk result (λ set. IsSound set) }
{
    let (_origin, sets) = zone_under(alloc, Some(origin.clone()?), text)?;
    if !are_sets_in(&sets) {
        return Err(Refusal::CLASS);
    }
    let set = only_set(sets)?;
    within(origin, set)
}

/// A type that updates can change.
///
/// # Errors
///
/// 29 for any other.
pub fn of_type(record_type: RecordType) -> Result<RecordType, Refusal>
    ensures { Makes (λ type. type) (of_type record_type) result }
{
    if !is_supported_type(record_type) {
        return Err(Refusal::TYPE);
    }
    Ok(record_type)
}

/// The name of a text that lies in the zone; a relative one ends in the origin.
///
/// # Errors
///
/// 24 for a text that isn't UTF-8, 23 for one that is no name, and 28 for an owner outside the zone.
pub fn owner_in(alloc: Global, origin: &Name, text: &[u8]) -> Result<Name, Refusal>
    ensures made { Makes (λ owner. owner) (owner_of_text origin.now text.now) result }
    // The name lies in the zone.
    ensures within { IfOk result (λ owner. is_zone_of origin.now owner ≡ true) }
{
    let text = characters_of(text)?;
    let owner = Name::parse(alloc, text, Some(origin))?;
    if !origin.zone_of(&owner) {
        return Err(Refusal::OUTSIDE);
    }
    Ok(owner)
}

/// The SOA of a zone that zone text has as its one record; none of an empty text.
///
/// # Errors
///
/// Those of `one_set`, and 30 for a record that isn't an SOA of the origin.
pub fn soa_in(alloc: Global, origin: &Name, text: &[u8]) -> Result<Option<SOA>, Refusal>
    ensures { Makes (λ soa. soa) (soa_of_text origin.now text.now) result }
{
    if text.is_empty() {
        return Ok(None);
    }
    let set = one_set(alloc, origin, text)?;
    if *set.name() != *origin {
        return Err(Refusal::NOT_SOA);
    }
    match set.record() {
        Some(first) => soa_of(&first.rdata),
        None => Err(Refusal::NOT_SOA),
    }
}

/// The SOA that data is.
fn soa_of(rdata: &RData) -> Result<Option<SOA>, Refusal>
    ensures { Makes (λ soa. soa) (soa_in_data rdata.now) result }
{
    match rdata {
        RData::SOA(soa) => Ok(Some(soa.clone()?)),
        _ => Err(Refusal::NOT_SOA),
    }
}

/// The set, if there is exactly one.
fn only_set(mut sets: BTreeMap<RrKey, RecordSet>) -> Result<RecordSet, Refusal>
    requires keyed { AreKeyed sets.entries }
    requires class { are_sets_in sets.entries ≡ true }
    ensures made { Makes (λ set. set) (only_set sets.entries) result }
    ensures sound { IfOk result (λ set. IsSound set) }
{
    let Some((_key, set)) = sets.pop_first() else {
        return Err(Refusal::NOT_ONE_SET);
    };
    if !sets.is_empty() {
        return Err(Refusal::NOT_ONE_SET);
    }
    Ok(set)
}

/// The set, if its owner lies in the zone.
fn within(origin: &Name, set: RecordSet) -> Result<RecordSet, Refusal>
    ensures made { Makes (λ set. set) (within origin.now set) result }
    // It is the set that was handed in.
    ensures same { IfOk result (λ found. found ≡ set) }
    ensures within { IfOk result (λ set. is_zone_of origin.now set.name ≡ true) }
{
    if !origin.zone_of(set.name()) {
        return Err(Refusal::OUTSIDE);
    }
    Ok(set)
}
