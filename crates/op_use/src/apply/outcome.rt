//! What an update makes of a zone's sets, and how it is put into the zone.

ghost use Rattle.base.specs.RrKey.{key_cmp};
ghost use Rattle.base.specs.declared.rr_key.RrKey.{RrKey as Key};
ghost use Rattle.op_use.specs.Applying.{HasSameSets};
ghost use Rattle.op_use.specs.MapUpdates.{LacksKeys};
ghost use Rattle.op_use.specs.Outcome.{HasAny, Installs, IsOutcome, added_at, found};
ghost use Rattle.std.specs.BTreeMap.{get};
ghost use Rattle.std.specs.Map.{keys_of};
ghost use Rattle.std.specs.Prelude.{IfOk, IsOk, OnErr, OnOk, false, is_some, true, ◌≡◌};

use base::RrKey;
use rr::RecordSet;
use std::alloc::{AllocError, Global};
use std::collections::BTreeMap;

/// What an update makes of a zone's sets.
#[derive(Drop)]
pub(crate) struct Outcome {
    /// The sets under keys that the zone doesn't have.
    pub(super) added: Vec<(RrKey, RecordSet)>,
    /// The sets that are put in the place of others.
    pub(super) replaced: Vec<(RrKey, RecordSet)>,
    /// The keys of the sets that go.
    pub(super) gone: Vec<RrKey>,
}

impl Outcome {
    /// Whether anything changes.
    pub(crate) fn has_any(&self) -> bool
        ensures { HasAny result self.now }
    {
        !(self.added.is_empty() && self.replaced.is_empty() && self.gone.is_empty())
    }

    /// Puts the sets into the zone. First those under new keys, which may be refused memory, and are then taken out
    /// again; what follows takes none.
    pub(crate) fn install(
        self,
        alloc: Global,
        sets: &mut BTreeMap<RrKey, RecordSet>,
    ) -> Result<(), AllocError>
        requires { IsOutcome self sets.old }
        ensures ok { OnOk result (Installs self sets.old sets.new) }
        ensures err { OnErr result (HasSameSets sets.old sets.new) }
    {
        let keys = copies_of_keys(alloc, self.added.as_slice())?;
        let Ok(()) = put_all(sets, self.added) else {
            remove_all(sets, keys.as_slice());
            return Err(AllocError);
        };
        put_all(sets, self.replaced)?;
        remove_all(sets, self.gone.as_slice());
        Ok(())
    }
}

/// Copies of the keys of sets.
fn copies_of_keys(alloc: Global, sets: &[(RrKey, RecordSet)]) -> Result<Vec<RrKey>, AllocError>
    ensures { IfOk result (λ ks. ks.items ≡ keys_of sets.now) }
{
    let mut copies = Vec::new(alloc);
    for (key, _) in sets {
        let copy = key.clone()?;
        copies.push(copy)?;
    }
    Ok(copies)
}

/// Puts sets under their keys. Takes no memory for keys that are there.
fn put_all(
    sets: &mut BTreeMap<RrKey, RecordSet>,
    mut put: Vec<(RrKey, RecordSet)>,
) -> Result<(), AllocError>
    ensures ok { OnOk result ((q : Key) → get key_cmp sets.new q
        ≡ added_at (found put.items q) (get key_cmp sets.old q)) }
    ensures err { OnErr result ((q : Key) → is_some (found put.items q) ≡ false
        → get key_cmp sets.new q ≡ get key_cmp sets.old q) }
    ensures succeeds { ((q : Key) → is_some (found put.items q) ≡ true
        → is_some (get key_cmp sets.old q) ≡ true) → IsOk result }
{
    while let Some((key, set)) = put.pop() {
        let Ok(_) = sets.insert(key, set) else {
            return Err(AllocError);
        };
    }
    Ok(())
}

/// Takes the sets under keys out.
fn remove_all(sets: &mut BTreeMap<RrKey, RecordSet>, keys: &[RrKey])
    ensures { LacksKeys keys.now sets.old sets.new }
{
    for key in keys {
        sets.remove(key);
    }
}
