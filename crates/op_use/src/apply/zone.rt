//! The record sets of a zone, each under its key.

ghost use Rattle.base.specs.declared.rr_key.RrKey.{RrKey as Key};
ghost use Rattle.op_use.specs.HeldZone.{HeldZone};
ghost use Rattle.op_use.specs.OwnerWalk.{HasFrom, entries_from};
ghost use Rattle.op_use.specs.Server.{is_cname as is_cname_type};
ghost use Rattle.op_use.specs.Zone.{is_owned};
ghost use Rattle.rr.specs.Record.{record_key};
ghost use Rattle.std.specs.BTreeMap.{keys};
ghost use Rattle.std.specs.List.{list_any};
ghost use Rattle.std.specs.Prelude.{IfOk, not, ◌&&◌, ◌≡◌};

use base::{DNSClass, Name, RecordType, RrKey};
use rr::{Record, RecordSet};
use std::alloc::AllocError;
use std::collections::BTreeMap;
use std::collections::btree_map::Range;
use std::marker::Model;

/// A zone.
#[derive(Drop)]
pub(crate) struct Zone<'a> {
    pub(super) origin: &'a Name,
    pub(super) class: DNSClass,
    pub(super) sets: &'a BTreeMap<RrKey, RecordSet>,
}

impl<'a> Model for Zone<'a> {
    ghost use Rattle.op_use.specs.Applying.{IsZoneMap};
    ghost use Rattle.op_use.specs.HeldZone.{HeldZone, held_code};

    ghost Value = { HeldZone };

    ghost coded = { held_code };

    ghost view = { λ z. record { origin = z.origin.now; class = z.class; sets = z.sets.now } };

    ghost invariant = { λ z. IsZoneMap z.class z.sets.now };
}

impl<'a> Zone<'a> {
    /// The sets from a key on: what is left of a walk over the sets, unless that begins before the key.
    pub(super) fn sets_from(
        &self,
        key: &RrKey,
        walk: &Range<'a, RrKey, RecordSet>,
    ) -> Result<Range<'a, RrKey, RecordSet>, AllocError>
        requires { HasFrom key.now self.now.sets walk.now }
        ensures { IfOk result (λ sets. sets ≡ entries_from key.now self.now.sets.entries) }
    {
        match walk.clone()?.next() {
            Some((first, _)) if first.cmp(key).is_lt() => Ok(self.sets.range(key..)),
            _ => walk.clone(),
        }
    }
}

/// The key of the set of a record.
pub(crate) fn record_key(entry: &Record) -> Result<RrKey, AllocError>
    ensures { IfOk result (λ key. key ≡ record_key entry.now) }
{
    RrKey::of(&entry.name, entry.record_type())
}

/// Whether an owner has a set, of any type or of any but CNAME.
pub(crate) fn has_type<V>(
    sets: &BTreeMap<RrKey, V>,
    owner: &Name,
    is_beside: bool,
) -> Result<bool, AllocError>
    ensures { IfOk result (λ b. b
        ≡ list_any (λ (k : Key). is_owned owner.now k
        && not (is_beside && is_cname_type k.record_type)) (keys sets.now)) }
{
    let least = RrKey::of(owner, RecordType::ZERO)?;
    for (key, _) in sets.range(&least..) {
        if least.name != key.name {
            return Ok(false);
        }
        if is_beside && key.record_type == RecordType::CNAME {
            continue;
        }
        return Ok(true);
    }
    Ok(false)
}
