//! The key under which the records of one name and one type stand together.

ghost use Rattle.std.specs.Prelude.{◌≡◌, IfOk, IsTrue};
ghost use Rattle.std.specs.Cmp.{IsTotalOrder};
ghost use Rattle.base.specs.RrKey.{key_cmp, key_of};

use crate::lower_name::LowerName;
use crate::name::Name;
use crate::record_type::RecordType;
use std::alloc::AllocError;
use std::cmp::Ordering;

/// A name in lower case and a record type: the key of a set of records (RFC 2181, 5).
///
/// Keys are ordered by name, then by type.
#[derive(Clone, Debug, Drop, Eq, Ord, PartialEq, PartialOrd)]
pub struct RrKey {
    /// The owner of the records, its ASCII letters in lower case.
    pub name: LowerName,
    /// Their type.
    pub record_type: RecordType,
}

impl RrKey {
    /// The key of these.
    pub fn new(name: LowerName, record_type: RecordType) -> RrKey
        ensures name { result.name ≡ name }
        ensures record_type { result.record_type ≡ record_type }
    {
        RrKey { name, record_type }
    }

    /// The key of the records of an owner, in whatever letter case, and of a type.
    ///
    /// # Errors
    ///
    /// If memory runs out.
    pub fn of(owner: &Name, record_type: RecordType) -> Result<RrKey, AllocError>
        ensures { IfOk result (λ key. key ≡ key_of owner.now record_type) }
    {
        let name = LowerName::new(owner.allocator(), owner).map_err(|_| AllocError)?;
        Ok(RrKey { name, record_type })
    }
}

/// Keys are ordered by name, then by type; no two of them tie, and only the same ones are equal: they serve as the keys
/// of maps.
pub fn rr_key_order()
    ensures by_name_and_type { (a b : RrKey) → ⟦<RrKey as Ord>⟧.cmp a b ≡ key_cmp a b }
    ensures total { IsTotalOrder key_cmp }
    ensures exact { (a b : RrKey) → ⟦<RrKey as Ord>⟧.cmp a b ≡ Ordering.Equal → a ≡ b }
    ensures same { (a b : RrKey) → IsTrue (⟦<RrKey as PartialEq>⟧.eq a b) → a ≡ b }
{}
