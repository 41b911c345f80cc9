//! The labels of a name, inside its value or on the heap.

ghost use Rattle.base.specs.declared.limits.TheConstants.{INLINE_LABELS};
ghost use Rattle.std.specs.Prelude.{◌≡◌, ◌≤◌, ◌++◌, [], length, take, is_ok, IfOk, IsTrue, OnErr, OnOk};
ghost use Rattle.base.specs.names.StoredLabels.{lower_labels};

pub(crate) mod inline;

use crate::labels::inline::InlineLabels;
use crate::limits::INLINE_LABELS;
use std::alloc::{AllocError, Global};
use std::marker::Model;

/// Labels that are put together in memory of their own have room by steps of so many bytes, less one. So nearly all take
/// as much, which the allocator hands out again faster than many sizes.
const HEAP_STEP: usize = 64;

/// Where labels are.
#[derive(Drop)]
enum Storage {
    /// Inside the value.
    Inline(InlineLabels),
    /// In memory of their own.
    Heap { is_fqdn: bool, bytes: Vec<u8> },
}

/// The labels of a name or of a suffix, each with its length before it, and whether the name is absolute.
///
/// Up to 29 bytes stand inside the value. The flag stands beside them, so that the value has 32 bytes.
pub(crate) struct Labels {
    storage: Storage,
}

impl Model for Labels {
    ghost use Rattle.base.specs.names.Storage.{stored_in};
    ghost use Rattle.base.specs.names.StoredLabels.{StoredLabels};

    ghost Value = { StoredLabels };

    ghost view = { λ o. stored_in o.storage };
}

impl Labels {
    /// No bytes. Takes no memory.
    pub(crate) fn none(alloc: Global, is_fqdn: bool) -> Labels
        ensures { result ≡ record { items = []; is_fqdn = is_fqdn } }
    {
        Labels {
            storage: Storage::Inline(InlineLabels::none(alloc, is_fqdn)),
        }
    }

    /// These bytes.
    ///
    /// # Errors
    ///
    /// If memory runs out; up to 29 bytes take none.
    pub(crate) fn from_slice(
        alloc: Global,
        bytes: &[u8],
        is_fqdn: bool,
    ) -> Result<Labels, AllocError>
        ensures value { IfOk result
            (λ o. o ≡ record { items = bytes.now; is_fqdn = is_fqdn }) }
        // Up to 29 bytes take no memory, and so are never refused.
        ensures inline { length bytes.now ≤ INLINE_LABELS → IsTrue (is_ok result) }
    {
        if bytes.len() <= INLINE_LABELS {
            return Ok(Labels {
                storage: Storage::Inline(InlineLabels::from_slice(alloc, bytes, is_fqdn)),
            });
        }
        let bytes = Vec::from_slice(alloc, bytes)?;
        Ok(Labels {
            storage: Storage::Heap { is_fqdn, bytes },
        })
    }

    /// Puts the first `used` bytes of `bytes`, and then `others`, in the place of those that there are.
    ///
    /// # Errors
    ///
    /// If memory runs out, with the labels as they were.
    #[inline(always)]
    pub(crate) fn set(&mut self, bytes: &[u8], used: usize, others: &[u8]) -> Result<(), AllocError>
        requires { used ≤ length bytes.now }
        ensures ok { OnOk result (self.new
            ≡ record self.old { items = take used bytes.now ++ others.now }) }
        ensures err { OnErr result (self.new ≡ self.old) }
    {
        if used + others.len() <= INLINE_LABELS {
            if let Storage::Inline(inline) = &mut self.storage {
                inline.set(bytes, used, others);
                return Ok(());
            }
        }
        self.set_on_heap(&bytes[..used], others)
    }

    /// Puts these bytes, and then others, in memory of their own in the place of those that there are. It isn't copied
    /// into each reader of names, since few are so long.
    #[inline(never)]
    fn set_on_heap(&mut self, first: &[u8], others: &[u8]) -> Result<(), AllocError>
        ensures ok { OnOk result (self.new
            ≡ record self.old { items = first.now ++ others.now }) }
        ensures err { OnErr result (self.new ≡ self.old) }
    {
        let bytes = if first.is_empty() {
            Vec::from_slice(self.allocator(), others)?
        } else {
            on_heap(self.allocator(), first, others)?
        };
        let is_fqdn = self.is_fqdn();
        self.storage = Storage::Heap { is_fqdn, bytes };
        Ok(())
    }

    /// The allocator.
    pub(crate) fn allocator(&self) -> Global {
        match &self.storage {
            Storage::Inline(inline) => inline.allocator(),
            Storage::Heap { bytes, .. } => *bytes.allocator(),
        }
    }

    /// The bytes.
    pub(crate) fn as_slice(&self) -> &[u8]
        ensures { result.now ≡ self.now.items }
    {
        match &self.storage {
            Storage::Inline(inline) => inline.as_slice(),
            Storage::Heap { bytes, .. } => bytes.as_slice(),
        }
    }

    /// The same with its ASCII letters in lower case.
    ///
    /// # Errors
    ///
    /// If memory runs out; up to 29 bytes take none.
    pub(crate) fn to_ascii_lowercase(&self, alloc: Global) -> Result<Labels, AllocError>
        ensures value { IfOk result (λ o. o ≡ lower_labels self.now) }
        // Up to 29 bytes take no memory, and so are never refused.
        ensures inline { length self.now.items ≤ INLINE_LABELS → IsTrue (is_ok result) }
    {
        let mut labels = match &self.storage {
            Storage::Inline(inline) => Labels {
                storage: Storage::Inline(inline.copy()),
            },
            Storage::Heap { is_fqdn, bytes } => Labels::from_slice(alloc, bytes, *is_fqdn)?,
        };
        labels.make_ascii_lowercase();
        Ok(labels)
    }

    /// Puts the ASCII letters in lower case.
    fn make_ascii_lowercase(&mut self)
        ensures { self.new ≡ lower_labels self.old }
    {
        match &mut self.storage {
            Storage::Inline(inline) => inline.make_ascii_lowercase(),
            Storage::Heap { bytes, .. } => bytes.make_ascii_lowercase(),
        }
    }

    /// Whether the name is absolute.
    pub(crate) fn is_fqdn(&self) -> bool
        ensures { result ≡ self.now.is_fqdn }
    {
        match &self.storage {
            Storage::Inline(inline) => inline.is_fqdn(),
            Storage::Heap { is_fqdn, .. } => *is_fqdn,
        }
    }

    /// Makes the name absolute, or relative.
    pub(crate) fn set_fqdn(&mut self, is_fqdn: bool)
        ensures { self.new ≡ record self.old { is_fqdn = is_fqdn } }
    {
        match &mut self.storage {
            Storage::Inline(inline) => inline.set_fqdn(is_fqdn),
            Storage::Heap { is_fqdn: old, .. } => *old = is_fqdn,
        }
    }
}

/// Some bytes, then others, in memory of their own.
fn on_heap(alloc: Global, first: &[u8], others: &[u8]) -> Result<Vec<u8>, AllocError>
    ensures { IfOk result (λ bytes. bytes.items ≡ first.now ++ others.now) }
{
    let len = first.len() + others.len();
    let mut bytes = Vec::with_capacity(alloc, len | (HEAP_STEP - 1))?;
    bytes.extend_from_slice(first)?;
    if !others.is_empty() {
        bytes.extend_from_slice(others)?;
    }
    Ok(bytes)
}

// By hand, as of `Name`.
impl Drop for Labels {
    fn drop(self) {
        let Labels { storage: _ } = self;
    }
}

impl Clone for Labels {
    ghost is_clone = { λ a b. b ≡ a };

    fn clone(&self) -> Result<Labels, AllocError> {
        let storage = match &self.storage {
            Storage::Inline(inline) => Storage::Inline(inline.copy()),
            Storage::Heap { is_fqdn, bytes } => Storage::Heap {
                is_fqdn: *is_fqdn,
                bytes: bytes.clone()?,
            },
        };
        Ok(Labels { storage })
    }
}
