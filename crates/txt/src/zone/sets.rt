//! The record sets of a zone, by owner and type.

ghost use Rattle.std.specs.BTreeMap.{insert_entry, is_at};
ghost use Rattle.std.specs.Prelude.{◌≡◌, ◌∷◌, ◌++◌, ◌<◌, ◌⊎◌, [], IfNone, IfOk, IfSome, IsOkUnless, MatchResult, OnErr, OnOk, false, is_some, true, vec_capacity, vec_len};
ghost use Rattle.std.specs.declared.cmp.Ordering.TheVariants.{Greater};
ghost use Rattle.std.specs.List.{AllByRecursion};
ghost use Rattle.std.specs.List.Sorted.{IsStrictlySortedBy};
ghost use Rattle.std.specs.Map.{keys_of, lookup};
ghost use Rattle.base.specs.RrKey.{key_cmp};
ghost use Rattle.base.specs.texts.TextFaults.{FailsWith, Gives};
ghost use Rattle.txt.specs.Gathered.{ComesAfter, HasLastKey, HaveOwnKeys, IsAscending, KnowsSoas, gathered, with_keyed};
ghost use Rattle.txt.specs.Run.{sets_in};
ghost use Rattle.txt.specs.ZoneSets.{AreKeyed, sets_with, soa_again};
ghost use Rattle.rr.specs.Record.{record_key};

use crate::zone::keyed::{Keyed, cmp_keys};
use crate::zone::run::Run;
use base::{ParseError, RecordType, RrKey};
use base_data::RecordData;
use rr::{Record, RecordSet};
use std::alloc::{AllocError, Global};
use std::collections::BTreeMap;
use std::marker::Model;

/// The record sets of a zone, each under its owner in lower case and its type.
///
/// Contracts see the sets with their keys, in the order of these.
#[derive(Drop)]
pub struct ZoneSets {
    /// The records with their keys, as they came: to sort them at the end costs less than a look-up for each.
    entries: Vec<Keyed>,
    /// The keys of the SOA records.
    soas: BTreeMap<RrKey, ()>,
}

impl Model for ZoneSets {
    ghost use Rattle.txt.specs.Gathered.{HaveOwnKeys, KnowsSoas, gathered};
    ghost use Rattle.txt.specs.ZoneSets.{ZoneSets as Sets};

    ghost Value = { Sets };

    ghost view = { λ z. gathered z.entries.items };

    ghost invariant = { λ z. HaveOwnKeys z.entries.items
        × KnowsSoas z.soas.entries z.entries.items };
}

impl ZoneSets {
    /// No sets. Takes no memory.
    pub(super) fn new(alloc: Global) -> ZoneSets
        ensures { result ≡ [] }
    {
        ZoneSets {
            entries: Vec::new(alloc),
            soas: BTreeMap::new(alloc),
        }
    }

    /// Puts a record into the set of its owner and type, or into a new one.
    ///
    /// # Errors
    ///
    /// `Message` for a second SOA of an owner; `Memory` if memory runs out.
    pub(super) fn add(&mut self, entry: Record) -> Result<(), ParseError>
        ensures { Gives (λ _. self.new) result (sets_with self.old entry) }
    {
        let alloc = *self.entries.allocator();
        let entry = Box::new(alloc, entry)?;
        let key = make_room(&mut self.entries, &mut self.soas, &entry)?;
        self.entries.push_reserved(Keyed::new(key, entry));
        Ok(())
    }

    /// The sets in blocks, in the order of their keys. Cheaper than their map.
    ///
    /// # Errors
    ///
    /// If memory runs out.
    pub fn into_blocks(self) -> Result<Vec<Vec<(RrKey, RecordSet)>>, AllocError>
        ensures { IfOk result (λ blocks. sets_in blocks.items ≡ self) }
    {
        self.into_run()?.into_blocks()
    }

    /// The map of the sets.
    ///
    /// # Errors
    ///
    /// If memory runs out.
    pub fn into_map(self) -> Result<BTreeMap<RrKey, RecordSet>, AllocError>
        ensures entries { IfOk result (λ sets. sets.entries ≡ self) }
        // Each set stands under the key of its owner and type, has a record and is tidy.
        ensures kept { IfOk result (λ sets. AreKeyed sets.entries) }
    {
        let alloc = *self.entries.allocator();
        map_of(alloc, self.into_run()?)
    }

    /// The sets in the order of their keys.
    fn into_run(self) -> Result<Run, AllocError>
        ensures sets { IfOk result (λ run. run ≡ self) }
        // Each set stands under the key of its owner and type, has a record and is tidy.
        ensures kept { IfOk result (λ run. AreKeyed run) }
        // The sets stand in the order of their keys, each once.
        ensures ordered { IfOk result (λ run. IsStrictlySortedBy key_cmp (keys_of run)) }
    {
        let ZoneSets { mut entries, .. } = self;
        entries.sort_by(cmp_keys)?;
        gather(entries)
    }
}

/// Makes room for a record, and answers its key. The key of an SOA record is noted.
///
/// # Errors
///
/// `Message` for a second SOA of an owner; `Memory` if memory runs out. The keys are then as they were.
fn make_room(
    entries: &mut Vec<Keyed>,
    soas: &mut BTreeMap<RrKey, ()>,
    entry: &Record,
) -> Result<RrKey, ParseError>
    requires { KnowsSoas soas.old.entries entries.old.items }
    ensures same { entries.new.items ≡ entries.old.items }
    ensures key { IfOk result (λ key. key ≡ record_key entry.now) }
    ensures room { OnOk result (vec_len entries.new < vec_capacity entries.new) }
    // The keys that are noted are right once the record has gone in.
    ensures soas { OnOk result (KnowsSoas soas.new.entries
        (entries.old.items ++ (record_key entry.now, entry.now) ∷ [])) }
    ensures err { OnErr result (soas.new.entries ≡ soas.old.entries) }
    // The record makes the sets that are made once it has gone in, or is refused.
    ensures sets { Gives
        (λ _. gathered (entries.old.items ++ (record_key entry.now, entry.now) ∷ [])) result
        (sets_with (gathered entries.old.items) entry.now) }
{
    entries.reserve(1)?;
    let key = RrKey::of(&entry.name, entry.record_type())?;
    if entry.record_type() == RecordType::SOA {
        note(soas, &key)?;
    }
    Ok(key)
}

/// Notes the key of an SOA record.
///
/// # Errors
///
/// `Message` where it is noted already; `Memory` if memory runs out. The keys are then as they were.
fn note(soas: &mut BTreeMap<RrKey, ()>, key: &RrKey) -> Result<(), ParseError>
    ensures ok { OnOk result (soas.new.entries ≡ insert_entry key_cmp soas.old.entries key.now tt) }
    ensures err { OnErr result (soas.new.entries ≡ soas.old.entries) }
    // Refused only for memory, or where the key is noted.
    ensures refused { MatchResult result
        (λ _. is_some (lookup (is_at (key_cmp key.now)) soas.old.entries) ≡ false)
        (λ e. (e ≡ ParseError.Memory) ⊎ (FailsWith e soa_again
        × (is_some (lookup (is_at (key_cmp key.now)) soas.old.entries) ≡ true))) }
{
    if soas.contains_key(key) {
        return Err(ParseError::Message("SOA is already specified"));
    }
    soas.insert(key.clone()?, ())?;
    Ok(())
}

/// The sets of records in the order of their keys.
///
/// # Errors
///
/// If memory runs out.
fn gather(entries: Vec<Keyed>) -> Result<Run, AllocError>
    requires keyed { HaveOwnKeys entries.items }
    requires ascending { IsAscending entries.items }
    ensures sets { IfOk result (λ run. run ≡ gathered entries.items) }
    // Each set stands under the key of its owner and type, has a record and is tidy.
    ensures kept { IfOk result (λ run. AreKeyed run) }
    // The sets stand in the order of their keys, each once.
    ensures ordered { IfOk result (λ run. IsStrictlySortedBy key_cmp (keys_of run)) }
{
    let mut run = Run::new(*entries.allocator());
    for keyed in entries {
        let (key, entry) = keyed.into_parts();
        add_last(&mut run, key, entry)?;
    }
    Ok(run)
}

/// Puts a record into the last set, or into a new one after it.
///
/// # Errors
///
/// If memory runs out.
fn add_last(run: &mut Run, key: RrKey, entry: Record) -> Result<(), AllocError>
    requires key { key ≡ record_key entry }
    requires kept { AreKeyed run.old }
    requires ordered { IsStrictlySortedBy key_cmp (keys_of run.old) }
    // The key doesn't come before that of the last set.
    requires after { ComesAfter run.old key }
    ensures sets { OnOk result (run.new ≡ with_keyed run.old (key, entry)) }
    // Each set stands under the key of its owner and type, has a record and is tidy.
    ensures kept { OnOk result (AreKeyed run.new) }
    // The sets stand in the order of their keys, each once.
    ensures ordered { OnOk result (IsStrictlySortedBy key_cmp (keys_of run.new)) }
    ensures last { OnOk result (HasLastKey run.new key) }
{
    let set = match take_last(run, &key) {
        Some(mut set) => {
            set.insert(entry, 0).map_err(|_| AllocError)?;
            set
        }
        None => RecordSet::try_from(entry).map_err(|_| AllocError)?,
    };
    run.push((key, set))
}

/// Takes the last set out if it has this key, which doesn't come before that of the last set.
fn take_last(run: &mut Run, key: &RrKey) -> Option<RecordSet>
    requires ordered { IsStrictlySortedBy key_cmp (keys_of run.old) }
    requires after { ComesAfter run.old key.now }
    ensures some { IfSome result (λ set. run.old ≡ run.new ++ (key.now, set) ∷ []) }
    // Else the key comes after all that are there.
    ensures none { IfNone result ((run.new ≡ run.old)
        × AllByRecursion (λ e. key_cmp key.now e.0 ≡ Greater) run.old) }
{
    if *key != run.last()?.0 {
        return None;
    }
    let (_, set) = run.pop()?;
    Some(set)
}

/// The map of the sets of a run.
///
/// The last one goes in first: so each is below those before it, and a map looks for its place from the lowest key on.
///
/// # Errors
///
/// If memory runs out.
fn map_of(alloc: Global, run: Run) -> Result<BTreeMap<RrKey, RecordSet>, AllocError>
    requires { IsStrictlySortedBy key_cmp (keys_of run) }
    ensures { IfOk result (λ sets. sets.entries ≡ run) }
{
    let mut sets = BTreeMap::new(alloc);
    let mut left = run;
    'sets: while let Some((key, set)) = left.pop() {
        sets.insert(key, set)?;
    }
    Ok(sets)
}
