//! A zone while it is updated: of each owner that the updates name, what it has now.

ghost use Rattle.base.specs.declared.rr_key.RrKey.{RrKey as Key};
ghost use Rattle.op_use.specs.Applying.{IsZoneMap, records_at};
ghost use Rattle.op_use.specs.HeldZone.{HeldZone};
ghost use Rattle.base.specs.names.NameOrder.{name_cmp};
ghost use Rattle.base.specs.names.Labels.{NameValue};
ghost use Rattle.op_use.specs.MapUpdates.{HoldsAt, LacksOwner, Opens};
ghost use Rattle.op_use.specs.OwnerWalk.{HasFrom, least};
ghost use Rattle.op_use.specs.Zone.{is_owned};
ghost use Rattle.rr.specs.Record.{record_key};
ghost use Rattle.rr.specs.SetChanges.{joined, without};
ghost use Rattle.std.specs.BTreeMap.{keys};
ghost use Rattle.std.specs.List.{filter};
ghost use Rattle.std.specs.Prelude.{IfOk, OnOk, [], length, ◌≡◌};
ghost use Rattle.std.specs.declared.cmp.Ordering.TheVariants.{Less};

use crate::apply::current_set::CurrentSet;
use crate::apply::rules::is_guarded;
use crate::apply::zone::{Zone, record_key};
use base::{DNSClass, Name, RecordType, RrKey};
use rr::{Record, RecordSet};
use std::alloc::{AllocError, Global};
use std::collections::BTreeMap;
use std::collections::btree_map::Range;
use std::marker::Model;

/// What the owners that updates name have now. The zone itself stays as it was.
#[derive(Drop)]
pub(crate) struct ChangingZone<'a> {
    pub(super) origin: &'a Name,
    pub(super) class: DNSClass,
    pub(super) sets: BTreeMap<RrKey, CurrentSet<'a>>,
}

impl<'a> Model for ChangingZone<'a> {
    ghost use Rattle.op_use.specs.Applying.{IsZoneMap};
    ghost use Rattle.op_use.specs.HeldZone.{HeldZone, held_code};

    ghost Value = { HeldZone };

    ghost coded = { held_code };

    ghost view = { λ z. record { origin = z.origin.now; class = z.class; sets = z.sets } };

    ghost invariant = { λ z. IsZoneMap z.class z.sets };
}

impl<'a> ChangingZone<'a> {
    /// The keys of an owner in a zone, and its sets, to be updated. A walk over the zone's sets comes to them, and goes
    /// on to those of later owners.
    pub(crate) fn open(
        zone: &Zone<'a>,
        owner: &Name,
        walk: &mut Range<'a, RrKey, RecordSet>,
    ) -> Result<(Vec<RrKey>, ChangingZone<'a>), AllocError>
        requires { HasFrom (least owner.now) zone.now.sets walk.old }
        ensures keys { IfOk result (λ opened. opened.0.items
            ≡ filter (λ (k : Key). is_owned owner.now k) (keys zone.now.sets)) }
        ensures sets { IfOk result (λ opened. Opens opened.0.items zone.now opened.1) }
        ensures zone { IfOk result (λ _. IsZoneMap zone.now.class zone.now.sets) }
        ensures walk { OnOk result ((later : NameValue) → name_cmp owner.now later ≡ Less
            → HasFrom (least later) zone.now.sets walk.new) }
    {
        let least = RrKey::of(owner, RecordType::ZERO)?;
        let alloc = owner.allocator();
        let mut found = Vec::new(alloc);
        let mut sets = BTreeMap::new(alloc);
        *walk = zone.sets_from(&least, walk)?;
        for (key, set) in walk.clone()? {
            if least.name != key.name {
                break;
            }
            found.push(key.clone()?)?;
            sets.insert(key.clone()?, CurrentSet::of_zone(set))?;
            walk.next();
        }
        let part = ChangingZone {
            origin: zone.origin,
            class: zone.class,
            sets,
        };
        Ok((found, part))
    }

    /// How many records are under a key.
    pub(super) fn count(&self, key: &RrKey) -> usize
        ensures { result ≡ length (records_at self.now.sets key.now) }
    {
        match self.sets.get(key) {
            Some(set) => set.records_count(),
            None => 0,
        }
    }

    /// Adds a record to the set under its key: in the place of equal data, or else last.
    pub(super) fn add_record(&mut self, key: RrKey, entry: &Record) -> Result<(), AllocError>
        requires { key ≡ record_key entry.now }
        ensures { OnOk result
            (HoldsAt (record_key entry.now)
            (joined entry.now (records_at self.old.sets (record_key entry.now))) self.old
            self.new) }
    {
        let set = CurrentSet::renewed(self.sets.remove(&key), self.class, entry)?;
        self.sets.insert(key, set)?;
        Ok(())
    }

    /// Takes the data of a record out of its set. Without such data the set stays as it is.
    pub(super) fn take_data(&mut self, entry: &Record) -> Result<(), AllocError>
        ensures { OnOk result
            (HoldsAt (record_key entry.now)
            (without entry.now (records_at self.old.sets (record_key entry.now))) self.old
            self.new) }
    {
        let key = record_key(entry)?;
        let Some(set) = self.sets.remove(&key) else {
            return Ok(());
        };
        let set = set.take_data(entry)?;
        if set.records_count() == 0 {
            return Ok(());
        }
        self.sets.insert(key, set)?;
        Ok(())
    }

    /// Takes the set under a key out.
    pub(super) fn remove(&mut self, key: &RrKey)
        ensures { HoldsAt key.now [] self.old self.new }
    {
        self.sets.remove(key);
    }

    /// Takes the sets of an owner out; at the origin SOA and NS stay.
    pub(super) fn remove_owner(&mut self, owner: &Name) -> Result<(), AllocError>
        ensures { OnOk result (LacksOwner owner.now self.old self.new) }
    {
        let least = RrKey::of(owner, RecordType::ZERO)?;
        let origin = self.origin;
        self.sets.retain(|key, _| least.name != key.name
            || is_guarded(origin, owner, key.record_type));
        Ok(())
    }

    /// The sets of these owners now.
    pub(crate) fn into_sets(self) -> BTreeMap<RrKey, CurrentSet<'a>>
        ensures sets { result ≡ self.entry.sets }
        ensures fits { IsZoneMap self.entry.class result }
    {
        self.sets
    }
}
