//! Searches of the sets of a zone: each takes the time of a look-up in the map, or of one for each label.

ghost use Rattle.authority.specs.Found.{IsAtName, IsCutSet};
ghost use Rattle.authority.specs.Lookup.{cut_over as the_cut, encloser, encloses as is_encloser, highest_cut as the_highest, wildcard_below};
ghost use Rattle.base.specs.RecordType.{same_type};
ghost use Rattle.base.specs.names.Labels.{NameValue};
ghost use Rattle.base.specs.names.Parents.{is_below as lies_below, is_within as lies_within, parent};
ghost use Rattle.base.specs.RrKey.{key_cmp, key_of as the_key};
ghost use Rattle.base.specs.declared.rr_key.RrKey.{RrKey as Key};
ghost use Rattle.rr.specs.RecordSet.{SetValue};
ghost use Rattle.std.specs.List.Sorted.{IsStrictlySortedBy};
ghost use Rattle.base.specs.declared.dns_class.DNSClass.{DNSClass as Class};
ghost use Rattle.op_use.specs.Applying.{zone_of_map};
ghost use Rattle.op_use.specs.Zone.{is_owned};
ghost use Rattle.std.specs.BTreeMap.{get, keys};
ghost use Rattle.std.specs.Bool.{then_some};
ghost use Rattle.std.specs.List.{filter};
ghost use Rattle.std.specs.Map.{values_of};
ghost use Rattle.std.specs.Option.{option_copied, option_or};
ghost use Rattle.std.specs.Prelude.{IfOk, IsOkUnless, OnOk, map, true, ◌++◌, ◌≡◌};

use base::{Name, ProtoError, RecordType, RrKey};
use rr::RecordSet;
use std::alloc::{AllocError, Global};
use std::collections::BTreeMap;

/// Whether `name` is `other`, or lies below it.
pub(crate) fn is_within(other: &Name, name: &Name) -> bool
    ensures { result ≡ lies_within other.now name.now }
{
    other.is_fqdn() == name.is_fqdn() && other.zone_of(name)
}

/// Whether `name` lies below `other`.
fn is_below(other: &Name, name: &Name) -> bool
    ensures { result ≡ lies_below other.now name.now }
{
    is_within(other, name) && *name != *other
}

/// The set of an owner and a type, if there is one.
pub(crate) fn set_at<'z>(
    sets: &'z BTreeMap<RrKey, RecordSet>,
    owner: &Name,
    record_type: RecordType,
) -> Result<Option<&'z RecordSet>, AllocError>
    ensures { IfOk result (λ o. option_copied o
        ≡ get key_cmp sets.now (the_key owner.now record_type)) }
{
    let key = RrKey::of(owner, record_type)?;
    Ok(sets.get(&key))
}

/// What stands at a name: of its own sets those that a look-up asks for.
#[derive(Clone, Copy, Drop)]
pub(crate) struct AtName<'z> {
    /// Something stands there or below it (RFC 4592, 2.2.2; RFC 8020, 2).
    pub(crate) exists: bool,
    /// The name servers.
    pub(crate) servers: Option<&'z RecordSet>,
    /// The alias.
    pub(crate) alias: Option<&'z RecordSet>,
    /// The set of the type that is asked for.
    pub(crate) asked: Option<&'z RecordSet>,
}

/// What stands at a name, in one walk: the first key from its least one on tells whether something is there, and the
/// keys of its own sets come first.
pub(crate) fn at_name<'z>(
    sets: &'z BTreeMap<RrKey, RecordSet>,
    name: &Name,
    record_type: RecordType,
) -> Result<AtName<'z>, ProtoError>
    ensures value { IfOk result (λ own. IsAtName sets.now name.now record_type own) }
    ensures only { IsOkUnless result ProtoError.Memory }
{
    let least = RrKey::of(name, RecordType::ZERO)?;
    Ok(own_sets(sets, name, record_type, &least))
}

/// What stands at a name, of which this is the least key.
fn own_sets<'z>(
    sets: &'z BTreeMap<RrKey, RecordSet>,
    name: &Name,
    record_type: RecordType,
    least: &RrKey,
) -> AtName<'z>
    requires { least.now ≡ the_key name.now RecordType.ZERO }
    ensures { IsAtName sets.now name.now record_type result }
{
    let mut own = AtName {
        exists: false,
        servers: None,
        alias: None,
        asked: None,
    };
    for (key, set) in sets.range(least..) {
        if least.name != key.name {
            return AtName {
                exists: own.exists || is_within(name, key.name.as_name()),
                ..own
            };
        }
        own = AtName {
            exists: true,
            servers: own_set(own.servers, RecordType::NS, key, set),
            alias: own_set(own.alias, RecordType::CNAME, key, set),
            asked: own_set(own.asked, record_type, key, set),
        };
    }
    own
}

/// The set of a type that was found before, or else this one, where its key is of the type.
fn own_set<'z>(
    before: Option<&'z RecordSet>,
    record_type: RecordType,
    key: &RrKey,
    set: &'z RecordSet,
) -> Option<&'z RecordSet>
    ensures { option_copied result ≡ option_or (option_copied before.entry)
        (then_some (same_type record_type key.now.record_type) set.now) }
{
    before.or((record_type == key.record_type).then_some(set))
}

/// The name servers at the highest cut on the way from the origin to a name (RFC 1034, 4.2.1; 4.3.2, 3b).
fn highest_cut<'z>(
    sets: &'z BTreeMap<RrKey, RecordSet>,
    origin: &Name,
    name: Name,
) -> Result<Option<&'z RecordSet>, ProtoError>
    ensures value { IfOk result (λ o. (class : Class)
        → IsCutSet sets.now
        (the_highest (zone_of_map origin.now class sets.now) name) (option_copied o)) }
    ensures only { IsOkUnless result ProtoError.Memory }
{
    let mut highest = None;
    let mut end = name;
    while is_below(origin, &end) {
        let servers = set_at(sets, &end, RecordType::NS)?;
        highest = servers.or(highest);
        end = end.base_name()?;
    }
    Ok(highest)
}

/// The name servers at the cut that a question is referred to, where these are the name's own. A DS set stands above its
/// own cut (RFC 4035, 3.1.4.1).
pub(crate) fn cut_over<'z>(
    sets: &'z BTreeMap<RrKey, RecordSet>,
    origin: &Name,
    name: &Name,
    record_type: RecordType,
    own: Option<&'z RecordSet>,
) -> Result<Option<&'z RecordSet>, ProtoError>
    requires { option_copied own ≡ get key_cmp sets.now (the_key name.now RecordType.NS) }
    ensures value { IfOk result (λ o. (class : Class)
        → IsCutSet sets.now
        (the_cut (zone_of_map origin.now class sets.now) record_type name.now)
        (option_copied o)) }
    ensures only { IsOkUnless result ProtoError.Memory }
{
    if !is_below(origin, name) {
        return Ok(None);
    }
    let above = name.base_name()?;
    let highest = highest_cut(sets, origin, above)?;
    if record_type == RecordType::DS {
        return Ok(highest);
    }
    Ok(highest.or(own))
}

/// Whether a name exists, or is the origin, which does in any case.
fn encloses(
    sets: &BTreeMap<RrKey, RecordSet>,
    origin: &Name,
    name: &Name,
) -> Result<bool, ProtoError>
    ensures value { IfOk result (λ b. (class : Class)
        → b ≡ is_encloser (zone_of_map origin.now class sets.now) name.now) }
    ensures only { IsOkUnless result ProtoError.Memory }
{
    if *name == *origin {
        return Ok(true);
    }
    Ok(at_name(sets, name, RecordType::ZERO)?.exists)
}

/// The asterisk below the closest encloser of a name at which nothing stands (RFC 4592, 3.3.1).
pub(crate) fn wildcard_over(
    sets: &BTreeMap<RrKey, RecordSet>,
    origin: &Name,
    name: &Name,
) -> Result<Name, ProtoError>
    requires { lies_below origin.now name.now ≡ true }
    ensures value { IfOk result (λ n. (class : Class)
        → n
        ≡ wildcard_below (encloser (zone_of_map origin.now class sets.now) (parent name.now))) }
    ensures only { IsOkUnless result ProtoError.Memory }
{
    let mut closer = name.clone()?;
    loop {
        let above = closer.base_name()?;
        if encloses(sets, origin, &above)? {
            return closer.into_wildcard();
        }
        closer = above;
    }
}

/// The sets of an owner, in the order of their types.
pub(crate) fn sets_of<'z>(
    alloc: Global,
    sets: &'z BTreeMap<RrKey, RecordSet>,
    owner: &Name,
) -> Result<Vec<&'z RecordSet>, ProtoError>
    ensures value { IfOk result (λ found. map (λ s. s.now) found.items
        ≡ values_of (filter (λ (e : Key × SetValue). is_owned owner.now e.0) sets.now.entries)) }
    // The keys of the map are in order, as they always are.
    ensures ordered { OnOk result (IsStrictlySortedBy key_cmp (keys sets.now)) }
    ensures only { IsOkUnless result ProtoError.Memory }
{
    let least = RrKey::of(owner, RecordType::ZERO)?;
    let mut found = Vec::new(alloc);
    add_sets(sets, &least, &mut found)?;
    Ok(found)
}

/// Adds the sets of an owner, of which this is the least key.
fn add_sets<'z>(
    sets: &'z BTreeMap<RrKey, RecordSet>,
    least: &RrKey,
    found: &mut Vec<&'z RecordSet>,
) -> Result<(), AllocError>
    ensures added { OnOk result ((owner : NameValue) → least.now ≡ the_key owner RecordType.ZERO
        → map (λ s. s.now) found.new.items ≡ map (λ s. s.now) found.old.items
        ++ values_of (filter (λ (e : Key × SetValue). is_owned owner e.0) sets.now.entries)) }
    // The keys of the map are in order, as they always are.
    ensures ordered { IsStrictlySortedBy key_cmp (keys sets.now) }
{
    for (key, set) in sets.range(least..) {
        if least.name != key.name {
            return Ok(());
        }
        found.push(set)?;
    }
    Ok(())
}
