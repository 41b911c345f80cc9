//! What a zone has for a name and a type (RFC 1034, 4.3.2, steps 2 and 3).

ghost use Rattle.authority.specs.Found.{IsAlias, IsAtName, IsFound};
ghost use Rattle.authority.specs.Lookup.{alias_at as the_alias, at_source, exists_among, first_target, lookup as the_finding, source};
ghost use Rattle.base.specs.RrKey.{key_cmp, key_of};
ghost use Rattle.base.specs.names.Labels.{NameValue};
ghost use Rattle.base.specs.names.Parents.{is_within as lies_within};
ghost use Rattle.base.specs.declared.dns_class.DNSClass.{DNSClass as Class};
ghost use Rattle.base.specs.declared.rr_key.RrKey.{RrKey as Key};
ghost use Rattle.op_use.specs.Applying.{zone_of_map};
ghost use Rattle.rr.specs.RecordSet.{SetValue};
ghost use Rattle.std.specs.BTreeMap.{BTreeMap as Tree, get, keys};
ghost use Rattle.std.specs.Option.{option_copied};
ghost use Rattle.std.specs.Prelude.{IfOk, IsOkUnless, Some, false, true, ◌≡◌};

use crate::sets::{AtName, at_name, cut_over, is_within, sets_of, wildcard_over};
use base::{Name, ProtoError, RecordType, RrKey};
use base_data::RData;
use rr::{Record, RecordSet};
use std::alloc::Global;
use std::collections::BTreeMap;

/// What a zone has for a name and a type: the sets are the zone's own, where they stand.
///
/// A record of an answer has the name that was asked as its owner, and the least TTL of its set (RFC 2181, 5.2).
/// Records of empty data, which updates may add, are in the sets and have no place in an answer.
#[derive(Drop)]
pub enum Found<'z> {
    /// The name doesn't lie in the zone.
    Outside,
    /// Nothing stands at the name or below it, nor at a wildcard that covers it: NXDomain (RFC 2308, 2.1).
    NoName,
    /// There are no records of the type (RFC 2308, 2.2).
    NoData,
    /// The name servers of the highest cut above the name or at it: a referral (RFC 1034, 4.3.2, 3b).
    Cut(&'z RecordSet),
    /// The set of an alias, and the name that its first one leads to (RFC 1034, 3.6.2).
    Alias(&'z RecordSet, &'z Name),
    /// The set of the type.
    Data(&'z RecordSet),
    /// For the type ANY: all sets of the owner.
    All(Vec<&'z RecordSet>),
}

/// What the sets of a zone have for a name and a type (RFC 1034, 4.3.2, steps 2 and 3; RFC 4592): one answer, from
/// which a server makes its response or goes on along an alias.
///
/// The set of a wildcard is answered where one covers the name, and a name between others exists, though it has no
/// sets. CNAME and ANY are answered where an alias stands, and no other type; a DS set is looked for above its cut (RFC
/// 4035, 3.1.4.1). A name whose flag isn't the origin's lies outside.
///
/// Takes a look-up in the map for each label below the origin, a step for each set of the name, and as many look-ups
/// more where nothing stands at the name.
///
/// # Errors
///
/// `Memory` alone, if memory runs out.
pub fn lookup<'z>(
    alloc: Global,
    sets: &'z BTreeMap<RrKey, RecordSet>,
    origin: &Name,
    name: &Name,
    record_type: RecordType,
) -> Result<Found<'z>, ProtoError>
    // What was found is what the zone of these sets has, of whatever class.
    ensures found { IfOk result (λ found. (class : Class)
        → IsFound class sets.now name.now found
        (the_finding (zone_of_map origin.now class sets.now) record_type name.now)) }
    ensures only { IsOkUnless result ProtoError.Memory }
{
    if !is_within(origin, name) {
        return Ok(Found::Outside);
    }
    let own = at_name(sets, name, record_type)?;
    if let Some(servers) = cut_over(sets, origin, name, record_type, own.servers)? {
        return Ok(Found::Cut(servers));
    }
    if own.exists {
        return found_at(alloc, sets, name, record_type, own);
    }
    at_wildcard(alloc, sets, origin, name, record_type)
}

/// What stands at the asterisk below the closest encloser of a name at which nothing stands (RFC 4592, 3.3.2).
fn at_wildcard<'z>(
    alloc: Global,
    sets: &'z BTreeMap<RrKey, RecordSet>,
    origin: &Name,
    name: &Name,
    record_type: RecordType,
) -> Result<Found<'z>, ProtoError>
    requires within { lies_within origin.now name.now ≡ true }
    requires none { exists_among name.now (keys sets.now) ≡ false }
    ensures found { IfOk result (λ found. (class : Class)
        → let z = zone_of_map origin.now class sets.now in
        IsFound class sets.now name.now found
        (at_source z record_type name.now (source z name.now))) }
    ensures only { IsOkUnless result ProtoError.Memory }
{
    // Where nothing stands at the origin or below it, no asterisk does.
    if *name == *origin {
        return Ok(Found::NoName);
    }
    let wildcard = wildcard_over(sets, origin, name)?;
    let there = at_name(sets, &wildcard, record_type)?;
    if there.exists {
        return found_at(alloc, sets, &wildcard, record_type, there);
    }
    Ok(Found::NoName)
}

/// What stands at the source of the data, of which these are the own sets.
fn found_at<'z>(
    alloc: Global,
    sets: &'z BTreeMap<RrKey, RecordSet>,
    source: &Name,
    record_type: RecordType,
    own: AtName<'z>,
) -> Result<Found<'z>, ProtoError>
    requires { IsAtName sets.now source.now record_type own }
    ensures found { IfOk result (λ found. (class : Class) (origin n : NameValue)
        → IsFound class sets.now n found
        (at_source (zone_of_map origin class sets.now) record_type n (Some source.now))) }
    ensures only { IsOkUnless result ProtoError.Memory }
{
    if let Some((set, target)) = alias_at(own.alias, record_type) {
        return Ok(Found::Alias(set, target));
    }
    if record_type == RecordType::ANY {
        return Ok(Found::All(sets_of(alloc, sets, source)?));
    }
    match own.asked {
        Some(set) => Ok(Found::Data(set)),
        None => Ok(Found::NoData),
    }
}

/// The set of the alias that stands at a name, and where it leads, unless it is asked for itself, or everything is.
fn alias_at<'z>(
    alias: Option<&'z RecordSet>,
    record_type: RecordType,
) -> Option<(&'z RecordSet, &'z Name)>
    ensures found { (class : Class) (origin n source : NameValue) (sets : Tree Key SetValue)
        → option_copied alias.entry ≡ get key_cmp sets (key_of source RecordType.CNAME)
        → IsAlias class n result
        (the_alias (zone_of_map origin class sets) record_type n source) }
{
    if record_type == RecordType::CNAME {
        return None;
    }
    if record_type == RecordType::ANY {
        return None;
    }
    let set = alias?;
    let target = target_of(set.as_slice())?;
    Some((set, target))
}

/// The name that the first alias among records leads to.
fn target_of(records: &[Record]) -> Option<&Name>
    ensures { option_copied result ≡ first_target records.now }
{
    for record in records {
        if let RData::CNAME(alias) = &record.rdata {
            return Some(alias.name());
        }
    }
    None
}
