//! The labels that were copied.

ghost use Rattle.base.specs.declared.limits.TheConstants.{MAX_LABELS};
ghost use Rattle.std.specs.Prelude.{◌≡◌, ◌≢◌, ◌+◌, ◌++◌, ◌≤◌, [], length, IfOk, OnErr, OnOk};
ghost use Rattle.base.specs.reading.Pointers.{IsInside, labels_from, with_copied};

use crate::limits::MAX_LABELS;
use std::alloc::{AllocError, Global};
use std::marker::Model;

/// How many bytes have room inside the value.
const ROOM: usize = 256;

/// Labels one after another, before each the number of bytes that they are. A place is that of their first byte.
///
/// Up to 256 bytes stand inside the value and take no memory.
#[derive(Drop)]
pub(super) struct CopiedLabels {
    used: usize,
    /// The bytes, as long as they have room here. What stands after those in use has no meaning.
    first: [u8; ROOM],
    /// All bytes, once they are more.
    all: Vec<u8>,
}

impl Model for CopiedLabels {
    ghost use Rattle.std.specs.Prelude.{◌≤◌, ℕ, List};
    ghost use Rattle.std.specs.Coded.{coded_ℕ, coded_list};
    ghost use Rattle.base.specs.reading.Pointers.{copied_bytes};
    ghost use Rattle.base.specs.declared.wire.pointer_cache.copied.TheConstants.{ROOM};

    ghost Value = { List ℕ };

    ghost coded = { coded_list coded_ℕ };

    ghost view = { λ c. copied_bytes c.used c.first c.all.items };

    ghost invariant = { λ c. c.used ≤ ROOM };
}

impl CopiedLabels {
    /// No labels. Takes no memory.
    pub(super) fn new(alloc: Global) -> CopiedLabels
        ensures { result ≡ [] }
    {
        CopiedLabels {
            used: 0,
            first: [0; ROOM],
            all: Vec::new(alloc),
        }
    }

    /// The bytes.
    pub(super) fn as_slice(&self) -> &[u8]
        ensures { result.now ≡ self.now }
    {
        if self.all.is_empty() {
            &self.first[..self.used]
        } else {
            &self.all
        }
    }

    /// Copies labels in two parts after those that were copied before, and answers their place.
    ///
    /// # Errors
    ///
    /// If memory runs out, with the labels as they were.
    pub(super) fn append(&mut self, own: &[u8], rest: &[u8]) -> Result<usize, AllocError>
        requires { length (own.now ++ rest.now) ≤ MAX_LABELS }
        ensures place { IfOk result (λ place. place ≡ length self.old + 1) }
        ensures ok { OnOk result (self.new ≡ with_copied self.old (own.now ++ rest.now)) }
        ensures err { OnErr result (self.new ≡ self.old) }
    {
        let len = own.len() + rest.len();
        if self.all.is_empty() {
            let place = self.used + 1;
            if place + len <= ROOM {
                let middle = place + own.len();
                self.first[self.used] = len as u8;
                self.first[place..middle].copy_from_slice(own);
                self.first[middle..middle + rest.len()].copy_from_slice(rest);
                self.used = place + len;
                return Ok(place);
            }
            self.all.reserve(2 * ROOM)?;
            self.all.extend_from_slice(&self.first[..self.used])?;
        }
        push_labels(&mut self.all, own, rest)
    }

    /// The same with the labels at a place among those that were copied before as the second part.
    ///
    /// # Errors
    ///
    /// If memory runs out, with the labels as they were.
    #[inline(always)]
    pub(super) fn append_before(&mut self, own: &[u8], place: usize) -> Result<usize, AllocError>
        requires some { place ≢ 0 }
        requires there { IsInside self.old place }
        requires short { length (own.now ++ labels_from self.old place) ≤ MAX_LABELS }
        ensures place { IfOk result (λ place. place ≡ length self.old + 1) }
        ensures ok { OnOk result (self.new
            ≡ with_copied self.old (own.now ++ labels_from self.old place)) }
        ensures err { OnErr result (self.new ≡ self.old) }
    {
        if self.all.is_empty() {
            let mut room = [0; MAX_LABELS];
            let labels = copied_at(&self.first[..self.used], place);
            let len = labels.len();
            room[..len].copy_from_slice(labels);
            return self.append(own, &room[..len]);
        }
        // The bytes inside the value, which aren't in use any more, are the room for a copy.
        let labels = copied_at(&self.all, place);
        let len = labels.len();
        let room = &mut self.first[..];
        room[..len].copy_from_slice(labels);
        push_labels(&mut self.all, own, &room[..len])
    }
}

/// The labels at a place among copied ones.
#[inline(always)]
pub(super) fn copied_at(copied: &[u8], place: usize) -> &[u8]
    requires some { place ≢ 0 }
    requires there { IsInside copied.now place }
    ensures { result.now ≡ labels_from copied.now place }
{
    let len = usize::from(copied[place - 1]);
    &copied[place..place + len]
}

/// Appends the number of labels in two parts, and then them; answers their place.
#[inline(always)]
fn push_labels(all: &mut Vec<u8>, own: &[u8], rest: &[u8]) -> Result<usize, AllocError>
    requires { length (own.now ++ rest.now) ≤ MAX_LABELS }
    ensures place { IfOk result (λ place. place ≡ length all.old.items + 1) }
    ensures ok { OnOk result (all.new.items ≡ with_copied all.old.items (own.now ++ rest.now)) }
    ensures err { OnErr result (all.new.items ≡ all.old.items) }
{
    let len = own.len() + rest.len();
    all.reserve(1 + len)?;
    all.push_reserved(len as u8);
    let place = all.len();
    all.extend_from_slice(own)?;
    all.extend_from_slice(rest)?;
    Ok(place)
}
