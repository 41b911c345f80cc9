//! Gathers the answers of a message of a zone transfer, as many as fit it without compression (RFC 5936, 2.2).

ghost use Rattle.authority.specs.Filling.{Adds, Fills, FillsTo, FillsUpTo};
ghost use Rattle.authority.specs.Transfer.{given_from, is_between as stands_between, left_at, records_from};
ghost use Rattle.base.specs.RrKey.{key_cmp};
ghost use Rattle.base.specs.declared.dns_class.DNSClass.{DNSClass as Class};
ghost use Rattle.base.specs.declared.rr_key.RrKey.{RrKey as Key};
ghost use Rattle.base.specs.names.Labels.{NameValue};
ghost use Rattle.rr.specs.RecordSet.{SetValue};
ghost use Rattle.std.specs.BTreeMap.{BTreeMap as Tree};
ghost use Rattle.std.specs.BTreeMap.Range.{entries_between};
ghost use Rattle.std.specs.Prelude.{IfOk, IsOkUnless, [], ◌∷◌, ◌≡◌};
ghost use Rattle.std.specs.declared.ops.Bound.TheVariants.{Included, Unbounded};

use crate::records::{least_ttl, record_of};
use crate::room::room_after;
use crate::sets::is_within;
use crate::transferring::TransferPlace;
use crate::zone_ref::ZoneRef;
use base::{DNSClass, Name, ProtoError, RecordType, RrKey};
use rr::{Record, RecordSet};
use std::alloc::{AllocError, Global};

/// Answers that are gathered for one message, and how many bytes more of them may have.
#[derive(Drop)]
pub(crate) struct Answers {
    pub(crate) records: Vec<Record>,
    pub(crate) room: usize,
}

/// Whether the set under a key stands between the two SOAs of a transfer: it is at the origin or below it, and isn't
/// the SOA.
fn is_between(origin: &Name, key: &RrKey) -> bool
    ensures { result ≡ stands_between origin.now key.now }
{
    let owner = key.name.as_name();
    is_within(origin, owner) && !(key.record_type == RecordType::SOA && *owner == *origin)
}

impl Answers {
    /// No answers. Takes no memory.
    pub(crate) fn new(alloc: Global, room: usize) -> Answers
        ensures none { result.records.items ≡ [] }
        ensures room { result.room ≡ room }
    {
        Answers {
            records: Vec::new(alloc),
            room,
        }
    }

    /// Adds a record, if it has room; answers whether it has.
    fn add(&mut self, answer: Record) -> Result<bool, AllocError>
        ensures { IfOk result (λ added. Adds answer self.old added self.new) }
    {
        let Some(room) = room_after(self.room, &answer) else {
            return Ok(false);
        };
        self.records.push(answer)?;
        self.room = room;
        Ok(true)
    }

    /// Adds the records of a set, from its record of a number on. Answers the number of the one that has no room.
    fn add_set(
        &mut self,
        class: DNSClass,
        set: &RecordSet,
        from: usize,
    ) -> Result<Option<usize>, AllocError>
        ensures { IfOk result (λ o. FillsUpTo (records_from class from set.now)
            (λ j. records_from class j set.now) self.old o self.new) }
    {
        let entries = set.as_slice();
        let ttl = least_ttl(entries);
        let mut i = from;
        while i < entries.len() {
            let entry = &entries[i];
            if entry.rdata.is_update() {
                i += 1;
                continue;
            }
            let record = record_of(set.name(), class, ttl, &entry.rdata)?;
            if !self.add(record)? {
                return Ok(Some(i));
            }
            i += 1;
        }
        Ok(None)
    }

    /// Adds the records of all sets between the two SOAs from a key on, of the first those from its record of a number
    /// on. Answers the key and the number of the record that has no room.
    fn add_sets(
        &mut self,
        zone: &ZoneRef<'_>,
        key: &RrKey,
        from: usize,
    ) -> Result<Option<(RrKey, usize)>, AllocError>
        ensures { IfOk result (λ o. FillsUpTo
            (given_from zone.now.origin.now zone.now.class from
            (entries_between key_cmp (Included key.now) Unbounded zone.now.sets.now.entries))
            (λ p. given_from zone.now.origin.now zone.now.class p.1
            (entries_between key_cmp (Included p.0) Unbounded zone.now.sets.now.entries))
            self.old o self.new) }
    {
        let mut from = from;
        for (key, set) in zone.sets.range(key..) {
            if !is_between(zone.origin, key) {
                from = 0;
                continue;
            }
            if let Some(number) = self.add_set(zone.class, set, from)? {
                return Ok(Some((key.clone()?, number)));
            }
            from = 0;
        }
        Ok(None)
    }

    /// Adds the last SOA, if it has room.
    fn add_last(&mut self, soa: &Record) -> Result<TransferPlace, AllocError>
        ensures { IfOk result (λ next. (origin : NameValue) (class : Class)
            (sets : Tree Key SetValue)
            → FillsTo (left_at origin class sets soa.now) TransferPlace.LastSoa self.old next
            self.new) }
    {
        if self.add(soa.clone()?)? {
            return Ok(TransferPlace::End);
        }
        Ok(TransferPlace::LastSoa)
    }

    /// Adds what is left of a transfer from a key on.
    fn add_from(
        &mut self,
        zone: &ZoneRef<'_>,
        soa: &Record,
        key: &RrKey,
        from: usize,
    ) -> Result<TransferPlace, AllocError>
        ensures { IfOk result (λ next. FillsTo
            (left_at zone.now.origin.now zone.now.class zone.now.sets.now soa.now)
            (TransferPlace.Records key.now from) self.old next self.new) }
    {
        match self.add_sets(zone, key, from)? {
            Some((key, number)) => Ok(TransferPlace::Records(key, number)),
            None => self.add_last(soa),
        }
    }

    /// Adds what is left of a transfer from its start on.
    fn add_all(&mut self, zone: &ZoneRef<'_>, soa: &Record) -> Result<TransferPlace, ProtoError>
        ensures value { IfOk result (λ next. FillsTo
            (left_at zone.now.origin.now zone.now.class zone.now.sets.now soa.now)
            TransferPlace.Start self.old next self.new) }
        ensures only { IsOkUnless result ProtoError.Memory }
    {
        if !self.add(soa.clone()?)? {
            return Ok(TransferPlace::Start);
        }
        let least = RrKey::of(zone.origin, RecordType::ZERO)?;
        Ok(self.add_from(zone, soa, &least, 0)?)
    }

    /// Adds what is left of a transfer at a place, as far as it has room; answers the place of the next record.
    pub(crate) fn fill(
        &mut self,
        zone: &ZoneRef<'_>,
        soa: &Record,
        place: &TransferPlace,
    ) -> Result<TransferPlace, ProtoError>
        ensures value { IfOk result (λ next. FillsTo
            (left_at zone.now.origin.now zone.now.class zone.now.sets.now soa.now)
            place.now self.old next self.new) }
        ensures only { IsOkUnless result ProtoError.Memory }
    {
        match place {
            TransferPlace::Start => self.add_all(zone, soa),
            TransferPlace::Records(key, from) => Ok(self.add_from(zone, soa, key, *from)?),
            TransferPlace::LastSoa => Ok(self.add_last(soa)?),
            TransferPlace::End => Ok(TransferPlace::End),
        }
    }
}
