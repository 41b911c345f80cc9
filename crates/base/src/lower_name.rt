//! Names in lower case, by which records are looked up (RFC 4343, 3).

ghost use Rattle.base.specs.declared.limits.TheConstants.{INLINE_LABELS};
ghost use Rattle.std.specs.Prelude.{◌≡◌, ◌≤◌, IfOk, IsOkUnless, IsTrue, Some, is_ok, length, refl};
ghost use Rattle.std.specs.Cmp.{partial_equiv_from_equiv};
ghost use Rattle.std.specs.Ordering.{as_partial_cmp};
ghost use Rattle.base.specs.names.Labels.{NameValue, wire_of};
ghost use Rattle.base.specs.texts.NameText.{name_text};
ghost use Rattle.base.specs.names.NameOrder.{exact, folded, lowered, same_lower, lower_cmp, lower_fed};
ghost use Rattle.base.specs.names.NameOrderLaws.{same_by-equiv, same_by-tie, cmp_by-total, cmp_by-partial, fed_by-same};

use crate::error::ProtoError;
use crate::name::Name;
use std::alloc::{AllocError, Global};
use std::cmp::Ordering;
use std::fmt;
use std::hash::{Hash, Hasher};
use std::marker::Model;

/// A name whose ASCII letters are in lower case.
///
/// Two of them are equal, or tie in the order, only where they are the same: they serve as the keys of maps.
#[derive(Debug)]
pub struct LowerName {
    name: Name,
}

impl Model for LowerName {
    ghost use Rattle.base.specs.names.Labels.{NameValue};
    ghost use Rattle.base.specs.names.NameOrder.{folded};
    ghost use Rattle.std.specs.Prelude.{◌≡◌};

    ghost Value = { NameValue };

    ghost view = { λ n. n.name };

    ghost invariant = { λ n. folded n.name ≡ n.name.labels };
}

// By hand, as of `Name`.
impl Drop for LowerName {
    fn drop(self) {
        let LowerName { name: _ } = self;
    }
}

impl LowerName {
    /// The name with its ASCII letters in lower case, and its flag. Grows memory once, and not at all for a name whose
    /// labels take up to 29 bytes.
    ///
    /// # Errors
    ///
    /// `Memory` alone, if memory runs out.
    pub fn new(alloc: Global, name: &Name) -> Result<LowerName, ProtoError>
        ensures value { IfOk result (λ lower. lower ≡ lowered name.now) }
        ensures only { IsOkUnless result ProtoError.Memory }
        // A name whose labels take up to 29 bytes takes no memory, and so is never refused.
        ensures inline { length (wire_of name.now.labels) ≤ INLINE_LABELS → IsTrue (is_ok result) }
    {
        Ok(LowerName {
            name: name.to_lowercase(alloc)?,
        })
    }

    /// The name, whose ASCII letters are in lower case.
    pub fn as_name(&self) -> &Name
        ensures value { result.now ≡ self.now }
        ensures lower { folded self.now ≡ self.now.labels }
    {
        &self.name
    }
}

impl Clone for LowerName {
    ghost is_clone = { λ a b. b ≡ a };

    fn clone(&self) -> Result<LowerName, AllocError> {
        Ok(LowerName {
            name: self.name.clone()?,
        })
    }
}

impl fmt::Display for LowerName {
    ghost output = { λ n. Some (name_text n) };

    /// As names are (RFC 1035, 5.1).
    fn fmt<W: fmt::Write>(&self, f: &mut fmt::Formatter<W>) -> fmt::Result {
        fmt::Display::fmt(&self.name, f)
    }
}

impl PartialEq for LowerName {
    ghost eq = { same_lower };

    ghost laws = { partial_equiv_from_equiv (same_by-equiv exact) };

    /// The same flag and the same labels.
    fn eq(&self, other: &LowerName) -> bool {
        self.name.eq_case(&other.name)
    }
}

impl Eq for LowerName {
    ghost laws = { same_by-equiv exact };
}

impl Hash for LowerName {
    ghost hash_input = { lower_fed };

    ghost respects_eq = { fed_by-same exact };

    fn hash<H: Hasher>(&self, state: &mut H) {
        self.name.hash(state);
    }
}

impl Ord for LowerName {
    ghost cmp = { lower_cmp };

    ghost total = { cmp_by-total exact };

    ghost matches_partial_cmp = { λ _ _. refl };

    ghost matches_eq = { same_by-tie exact };

    /// As names are: relative ones first, then by the labels from the last to the first (RFC 4034, 6.1).
    fn cmp(&self, other: &LowerName) -> Ordering {
        self.name.cmp(&other.name)
    }
}

impl PartialOrd for LowerName {
    ghost partial_cmp = { as_partial_cmp lower_cmp };

    ghost laws = { cmp_by-partial exact };

    fn partial_cmp(&self, other: &LowerName) -> Option<Ordering> {
        Some(self.cmp(other))
    }
}

/// No two names in lower case tie, and only the same ones are equal: they serve as the keys of maps.
pub fn lower_name_order()
    ensures exact { (a b : NameValue) → ⟦<LowerName as Ord>⟧.cmp a b ≡ Ordering.Equal → a ≡ b }
    ensures same { (a b : NameValue) → IsTrue (⟦<LowerName as PartialEq>⟧.eq a b) → a ≡ b }
{}
