//! Records with their keys, most of which are compared by one number.

ghost use Rattle.std.specs.Prelude.{◌≡◌};
ghost use Rattle.base.specs.RrKey.{key_cmp};

use crate::zone::prefix::prefix_of;
use base::RrKey;
use rr::Record;
use std::cmp::Ordering;
use std::marker::Model;

/// A record with its key.
#[derive(Drop)]
pub(super) struct Keyed {
    /// That of the key's name.
    prefix: u128,
    key: RrKey,
    entry: Box<Record>,
}

impl Model for Keyed {
    ghost use Rattle.base.specs.declared.rr_key.RrKey.{RrKey as Key};
    ghost use Rattle.base_data.specs.declared.rdata.RData.{RData};
    ghost use Rattle.rr.specs.declared.record.Record.{Record as Entry};
    ghost use Rattle.txt.specs.Prefix.{IsPrefix};

    ghost Value = { Key × Entry RData };

    ghost view = { λ k. (k.key, k.entry.value) };

    ghost invariant = { λ k. IsPrefix k.prefix k.key.name };
}

impl Keyed {
    /// These.
    pub(super) fn new(key: RrKey, entry: Box<Record>) -> Keyed
        ensures { result ≡ (key, entry.value) }
    {
        Keyed {
            prefix: prefix_of(key.name.as_name()),
            key,
            entry,
        }
    }

    /// The key and the record.
    pub(super) fn into_parts(self) -> (RrKey, Record)
        ensures { result ≡ self }
    {
        let Keyed { key, entry, .. } = self;
        (key, Box::into_inner(entry))
    }
}

/// The order of the keys of two records.
#[tactic(auto, using(crate::proofs::PrefixLemmas::keys_apart))]
pub(super) fn cmp_keys(left: &Keyed, right: &Keyed) -> Ordering
    ensures { result ≡ key_cmp left.now.0 right.now.0 }
{
    if left.prefix != right.prefix && left.prefix != 0 && right.prefix != 0 {
        return left.prefix.cmp(&right.prefix);
    }
    left.key.cmp(&right.key)
}
