//! The last step: updates are carried out beside the zone (RFC 2136, 3.4.2), and what they make of it is found.

ghost use Rattle.base.specs.RrKey.{key_cmp};
ghost use Rattle.base.specs.names.Labels.{NameValue};
ghost use Rattle.base.specs.names.NameOrder.{name_cmp, same_name};
ghost use Rattle.base.specs.declared.rr_key.RrKey.{RrKey as Key};
ghost use Rattle.base_data.specs.declared.rdata.RData.{RData};
ghost use Rattle.op_use.specs.Applying.{IsZoneMap, names_owner};
ghost use Rattle.op_use.specs.Outcome.{HasNothing, IsSortedByOwner, Settles, UpdatesOwner, UpdatesTo, each};
ghost use Rattle.op_use.specs.OwnerWalk.{HasFrom, least};
ghost use Rattle.op_use.specs.Zone.{is_owned};
ghost use Rattle.rr.specs.declared.record.Record.{Record as Entry};
ghost use Rattle.std.specs.BTreeMap.{get};
ghost use Rattle.std.specs.Borrow.{Bor};
ghost use Rattle.std.specs.List.{filter, prefix_len};
ghost use Rattle.std.specs.Prelude.{IfOk, IsTrue, OnOk, is_some, not, true, ◌++◌, ◌↔◌, ◌≡◌};
ghost use Rattle.std.specs.declared.cmp.Ordering.TheVariants.{Less};

use crate::apply::changing_zone::ChangingZone;
use crate::apply::current_set::CurrentSet;
use crate::apply::outcome::Outcome;
use crate::apply::zone::{Zone, record_key};
use base::{Name, RrKey};
use rr::{Record, RecordSet};
use std::alloc::{AllocError, Global};
use std::cmp::Ordering;
use std::collections::BTreeMap;
use std::collections::btree_map::Range;

impl<'a> Zone<'a> {
    /// What these updates make of the zone's sets, one owner after the other, since an update looks at its own owner's
    /// sets alone. A set whose records are the same after them stays, in every field: its TTL, its serial and the
    /// spelling of its owner may have changed on the way.
    pub(crate) fn outcome(&self, entries: &[Record]) -> Result<Outcome, AllocError>
        ensures { IfOk result (λ o. UpdatesTo entries.now self.now o) }
    {
        let alloc = self.origin.allocator();
        let sorted = by_owner(alloc, entries)?;
        let mut outcome = Outcome {
            added: Vec::new(alloc),
            replaced: Vec::new(alloc),
            gone: Vec::new(alloc),
        };
        let mut walk = self.sets.range(..);
        let mut done = 0;
        while done < sorted.len() {
            let rest = &sorted[done..];
            let owner = &rest[0].name;
            let count = count_of_owner(owner, rest);
            self.update_owner(owner, &rest[..count], &mut walk, &mut outcome)?;
            done += count;
        }
        Ok(outcome)
    }

    /// Has what updates of one owner make of its sets in the outcome. A walk over the zone's sets comes to them, and
    /// goes on to those of later owners.
    fn update_owner(
        &self,
        owner: &Name,
        entries: &[&Record],
        walk: &mut Range<'a, RrKey, RecordSet>,
        outcome: &mut Outcome,
    ) -> Result<(), AllocError>
        requires names { (q : Key) → names_owner (each entries.now) q ≡ true → is_owned owner.now q ≡ true }
        requires new { (q : Key) → is_owned owner.now q ≡ true → HasNothing outcome.old q }
        requires walk { HasFrom (least owner.now) self.now.sets walk.old }
        ensures updates { OnOk result
            (UpdatesOwner owner.now (each entries.now) self.now outcome.old outcome.new) }
        ensures walk { OnOk result ((later : NameValue) → name_cmp owner.now later ≡ Less
            → HasFrom (least later) self.now.sets walk.new) }
    {
        let (mut keys, mut part) = ChangingZone::open(self, owner, walk)?;
        part.update(entries)?;
        let sets = part.into_sets();
        keys.retain(|key| !sets.contains_key(key));
        outcome.gone.append(&mut keys)?;
        self.settle(sets, entries, outcome)
    }

    /// Has each set that updates name, of those that stand now, in the outcome, unless its records are the same as in
    /// the zone.
    fn settle(
        &self,
        mut now: BTreeMap<RrKey, CurrentSet<'a>>,
        entries: &[&Record],
        outcome: &mut Outcome,
    ) -> Result<(), AllocError>
        requires fits { IsZoneMap self.now.class now }
        requires new { (q : Key) → is_some (get key_cmp now q) ≡ true → HasNothing outcome.old q }
        ensures { OnOk result
            (Settles (each entries.now) self.now.sets now.entry outcome.old outcome.new) }
    {
        for entry in entries {
            if now.is_empty() {
                return Ok(());
            }
            let key = record_key(entry)?;
            let Some(set) = now.remove(&key) else {
                continue;
            };
            let set = set.close()?;
            let Some(was) = self.sets.get(&key) else {
                outcome.added.push((key, set))?;
                continue;
            };
            if are_same(was.as_slice(), set.as_slice()) {
                continue;
            }
            outcome.replaced.push((key, set))?;
        }
        Ok(())
    }
}

/// The updates in the order of their owners, those of one owner in their own order.
fn by_owner(alloc: Global, entries: &[Record]) -> Result<Vec<&Record>, AllocError>
    ensures sorted { IfOk result (λ es. IsSortedByOwner es.items) }
    ensures same { IfOk result (λ es. (q : Key)
        → filter (λ (r : Entry RData). is_owned r.name q) (each es.items)
        ≡ filter (λ (r : Entry RData). is_owned r.name q) entries.now) }
{
    let mut sorted = Vec::new(alloc);
    for entry in entries {
        sorted.push(entry)?;
    }
    sorted.sort_by(cmp_owners)?;
    Ok(sorted)
}

/// How the owners of two updates compare.
fn cmp_owners(left: &&Record, right: &&Record) -> Ordering
    ensures { result ≡ name_cmp left.now.now.name right.now.now.name }
{
    left.name.cmp(&right.name)
}

/// How many updates in front are of an owner.
fn count_of_owner(owner: &Name, entries: &[&Record]) -> usize
    ensures { result ≡ prefix_len (λ (r : Bor (Entry RData)). same_name r.now.name owner.now)
        entries.now }
{
    for (place, entry) in entries.iter().enumerate() {
        if entry.name != *owner {
            return place;
        }
    }
    entries.len()
}

/// Whether records are the same in every field, the letter case of their names too, and in this order.
fn are_same(a: &[Record], b: &[Record]) -> bool
    ensures { IsTrue result ↔ (a.now ≡ b.now) }
{
    if a.len() != b.len() {
        return false;
    }
    for place in 0..a.len() {
        let (x, y) = (&a[place], &b[place]);
        let is_same = x.ttl == y.ttl
            && x.dns_class == y.dns_class
            && x.mdns_cache_flush == y.mdns_cache_flush
            && x.name.eq_case(&y.name)
            && x.rdata.eq_case(&y.rdata);
        if !is_same {
            return false;
        }
    }
    true
}
