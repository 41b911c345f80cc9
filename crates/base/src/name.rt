//! Domain names (RFC 1035, 3.1).

ghost use Rattle.base.specs.declared.limits.TheConstants.{MAX_LABELS, MAX_NAME};
ghost use Rattle.std.specs.Prelude.{◌≡◌, ◌+◌, ◌<◌, ◌≤◌, ◌↔◌, [], ◌∷◌, ◌++◌, true, length, IsTrue, IfOk, IfSome, IsOkUnless, MatchOption, slice_get};
ghost use Rattle.std.specs.Option.{option_copied};
ghost use Rattle.base.specs.names.Labels.{AreLabels, IsLabelRun, plain_len, wire_of, labels_of};
ghost use Rattle.base.specs.names.Parents.{parent, wildcard_of};

pub mod compare;
pub mod display;
pub mod laws;
pub mod name_of;
pub mod parse;
pub(crate) mod reading;
pub mod round_trip;
mod writing;

use crate::error::ProtoError;
use crate::labels::Labels;
use std::alloc::{AllocError, Global};
use std::marker::Model;

/// The label `*` after its length: at the front of a name it makes a wildcard (RFC 4592, 2.1.1).
const WILDCARD: &[u8; 2] = b"\x01*";

/// A domain name: its labels, each of 1 to 63 bytes, and whether it is absolute (RFC 1035, 2.3.4 and 3.1).
///
/// It has at most 255 bytes, each label counted with the byte for its length, and the final zero byte too.
/// The case of letters is kept. Contracts see the labels from the left, and the flag.
pub struct Name {
    /// The labels from the left, each with its length before it, without a final zero byte, and whether the name is
    /// absolute.
    labels: Labels,
}

impl Model for Name {
    ghost use Rattle.base.specs.names.Labels.{NameValue, IsWire, labels_of};

    ghost Value = { NameValue };

    ghost view = { λ n. record { labels = labels_of n.labels.items; absolute = n.labels.is_fqdn } };

    ghost invariant = { λ n. IsWire n.labels.items };
}

// By hand, so that a place that drops a name is one call to a proof, which with a derived one goes through the fields.
impl Drop for Name {
    fn drop(self) {
        let Name { labels: _ } = self;
    }
}

impl Name {
    /// The root: the absolute name without labels. Takes no memory.
    pub fn root(alloc: Global) -> Name
        ensures { result ≡ record { labels = []; absolute = true } }
    {
        Name {
            labels: Labels::none(alloc, true),
        }
    }

    /// The allocator that the name's labels are in.
    pub fn allocator(&self) -> Global {
        self.labels.allocator()
    }

    /// Whether this is the root, the absolute name without labels.
    pub fn is_root(&self) -> bool
        ensures { IsTrue result ↔ (self.now ≡ record { labels = []; absolute = true }) }
    {
        self.labels.is_fqdn() && self.labels.as_slice().is_empty()
    }

    /// Makes the name absolute, or relative. Its labels stay.
    pub fn set_fqdn(&mut self, is_fqdn: bool)
        ensures { self.new ≡ record self.old { absolute = is_fqdn } }
    {
        self.labels.set_fqdn(is_fqdn);
    }

    /// Whether the name is absolute.
    pub fn is_fqdn(&self) -> bool
        ensures { result ≡ self.now.absolute }
    {
        self.labels.is_fqdn()
    }

    /// How many labels the name has, a label `*` counted too. The root has none.
    ///
    /// Tells a caller what is true of every name: its labels have 1 to 63 bytes, and it has at most 255
    /// (RFC 1035, 2.3.4).
    pub fn label_count(&self) -> usize
        ensures count { result ≡ length self.now.labels }
        ensures labels { AreLabels self.now.labels }
        ensures short { plain_len self.now.labels ≤ MAX_NAME }
    {
        let mut count = 0;
        let mut rest = self.as_wire();
        while let Some((_, tail)) = first_label(rest) {
            count += 1;
            rest = tail;
        }
        count
    }

    /// The label at index `i`, from the left and from 0, without its length byte; none after the last.
    pub fn label(&self, i: usize) -> Option<&[u8]>
        ensures { option_copied result ≡ slice_get self.now.labels i }
    {
        let mut before = i;
        let mut rest = self.as_wire();
        while let Some((label, tail)) = first_label(rest) {
            if before == 0 {
                return Some(label);
            }
            before -= 1;
            rest = tail;
        }
        None
    }

    /// The name without its first label, which it lies directly below (RFC 1034, 3.1); one without labels stays itself,
    /// and so does the flag. Grows memory once, and not at all for a name whose labels take up to 29 bytes.
    ///
    /// # Errors
    ///
    /// `Memory` alone, if memory runs out.
    pub fn base_name(&self) -> Result<Name, ProtoError>
        ensures value { IfOk result (λ n. n ≡ parent self.now) }
        ensures only { IsOkUnless result ProtoError.Memory }
    {
        let rest = match first_label(self.as_wire()) {
            Some((_, rest)) => rest,
            None => &[],
        };
        Ok(Name {
            labels: Labels::from_slice(self.allocator(), rest, self.is_fqdn())?,
        })
    }

    /// The name with an asterisk in the place of its first label (RFC 4592, 2.1.1); one without labels stays itself, and
    /// so does the flag. Grows memory once, and not at all for a name whose labels take up to 29 bytes.
    ///
    /// # Errors
    ///
    /// `Memory` alone, if memory runs out.
    pub fn into_wildcard(self) -> Result<Name, ProtoError>
        ensures value { IfOk result (λ n. n ≡ wildcard_of self) }
        ensures only { IsOkUnless result ProtoError.Memory }
    {
        let Some((_, rest)) = first_label(self.as_wire()) else {
            return Ok(self.clone()?);
        };
        let mut labels = Labels::none(self.allocator(), self.is_fqdn());
        labels.set(WILDCARD, WILDCARD.len(), rest)?;
        Ok(Name { labels })
    }

    /// The labels from the left, each with its length before it, without a final zero byte.
    pub fn as_wire(&self) -> &[u8]
        ensures value { result.now ≡ wire_of self.now.labels }
        // The bytes are labels, each with its length before it, and nothing else.
        ensures whole { IsLabelRun result.now }
        // Cut at their lengths, they are the labels of the name.
        ensures cut { labels_of result.now ≡ self.now.labels }
        ensures labels { AreLabels self.now.labels }
        // The labels take at most 254 bytes, since the final zero byte makes 255.
        ensures short { length result.now ≤ MAX_LABELS }
        // The name has at most 255 bytes without compression, the final zero byte counted.
        ensures plain { plain_len self.now.labels ≤ MAX_NAME }
    {
        self.labels.as_slice()
    }
}

impl Clone for Name {
    ghost is_clone = { λ a b. b ≡ a };

    fn clone(&self) -> Result<Name, AllocError> {
        Ok(Name {
            labels: self.labels.clone()?,
        })
    }
}

/// The first label of a run and the labels after it, each with its length before it; none where the run is empty. The
/// strings of a TXT record are such a run too (RFC 1035, 3.1 and 3.3.14).
pub fn first_label(wire: &[u8]) -> Option<(&[u8], &[u8])>
    requires { IsLabelRun wire.now }
    ensures labels { MatchOption result (labels_of wire.now ≡ [])
        (λ r. labels_of wire.now ≡ r.0.now ∷ labels_of r.1.now) }
    ensures bytes { MatchOption result (wire.now ≡ [])
        (λ r. wire.now ≡ (length r.0.now ∷ r.0.now) ++ r.1.now) }
    // The rest is again labels, each with its length before it.
    ensures others { IfSome result (λ r. IsLabelRun r.1.now) }
    ensures shorter { IfSome result (λ r. length r.1.now < length wire.now) }
{
    if wire.is_empty() {
        return None;
    }
    let end = 1 + usize::from(wire[0]);
    Some((&wire[1..end], &wire[end..]))
}
