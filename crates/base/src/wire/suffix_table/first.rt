//! The first suffixes, inside the table.

ghost use Rattle.base.specs.declared.limits.TheConstants.{POINTER_LIMIT};
ghost use Rattle.base.specs.declared.wire.suffix_table.TheConstants.{STEP};
ghost use Rattle.base.specs.declared.wire.suffix_table.first.TheConstants.{FIRST, HINTS};
ghost use Rattle.std.specs.Prelude.{◌≡◌, ◌<◌, ◌≤◌, ◌↔◌, ◌++◌, ◌∷◌, [], IfSome, IsTrue, length, take, if◌then◌else◌};
ghost use Rattle.base.specs.names.Labels.{labels_of, IsWire};
ghost use Rattle.base.specs.writing.State.{front_number};
ghost use Rattle.base.specs.writing.Suffixes.{InOrder, IsEntry, bytes_of, slot_of};
ghost use Rattle.base.specs.writing.Written.{found_in};

use crate::labels::inline::copy_few;
use crate::limits::INLINE_LABELS;
use crate::wire::suffix_table::{SPREAD, STEP};
use std::marker::Model;

/// How many suffixes have room.
const FIRST: usize = 24;

/// How many bytes of labels have room.
const ROOM: usize = 512;

/// How many hints there are: one for each number of the six highest bits of a product.
const HINTS: usize = 64;

/// How far those bits stand above the lowest.
const HINT_SHIFT: u32 = 26;

/// A suffix: where its labels begin and end among the bytes, each with its length before it, and where it is spelled.
#[derive(Clone, Copy)]
struct Entry {
    /// A number of the first bytes of the labels.
    front: u32,
    offset: u16,
    start: u16,
    end: u16,
}

/// The suffixes that have room inside the table, in order of offset.
#[derive(Drop)]
pub(crate) struct FirstSuffixes {
    count: usize,
    used: usize,
    /// The suffixes, as many as are counted. What stands after them has no meaning.
    all: [Entry; FIRST],
    /// The labels of each, one after another. What stands after those in use has no meaning.
    bytes: [u8; ROOM],
    /// By the number of the first bytes of labels, one more than the place of the suffix that may have them: it is looked
    /// at first, and compared. 0 where no suffix has that number, and then none is looked at.
    hints: [u8; HINTS],
}

impl Model for FirstSuffixes {
    ghost use Rattle.base.specs.declared.wire.suffix_table.first.TheConstants.{FIRST, HINTS, ROOM};
    ghost use Rattle.std.specs.Prelude.{◌≡◌, ◌≤◌, All, List, length, map, take};
    ghost use Rattle.base.specs.writing.State.{Stored};
    ghost use Rattle.base.specs.writing.Suffixes.{AreHinted, IsEntry, stored_at};

    ghost Value = { List Stored };

    ghost view = { λ t. map (stored_at (take t.used t.bytes)) (take t.count t.all) };

    ghost invariant = { λ t. ((((t.count ≤ FIRST) × (length t.all ≡ FIRST))
        × ((t.used ≤ ROOM) × (length t.bytes ≡ ROOM)))
        × All (IsEntry (take t.used t.bytes)) (take t.count t.all))
        × ((length t.hints ≡ HINTS) × AreHinted t.hints (take t.count t.all)) };
}

impl FirstSuffixes {
    /// No suffix.
    pub(crate) fn new() -> FirstSuffixes
        ensures { result ≡ [] }
    {
        let unused = Entry {
            front: 0,
            offset: 0,
            start: 0,
            end: 0,
        };
        FirstSuffixes {
            count: 0,
            used: 0,
            all: [unused; FIRST],
            bytes: [0; ROOM],
            hints: [0; HINTS],
        }
    }

    /// How many suffixes there are.
    pub(crate) fn len(&self) -> usize
        ensures value { result ≡ length self.now }
        ensures few { result ≤ FIRST }
    {
        self.count
    }

    /// Where the suffix of these labels, each with its length before it, is spelled.
    #[inline(always)]
    pub(crate) fn find(&self, wire: &[u8], front: u32) -> Option<u16>
        requires wire { IsWire wire.now }
        // This is the number of their first bytes.
        requires front { front ≡ front_number wire.now }
        // No two have the same labels.
        requires order { InOrder self.now }
        ensures value { result ≡ found_in self.now (labels_of wire.now) }
        // A pointer can name the offset.
        ensures near { IfSome result (λ offset. offset < POINTER_LIMIT) }
    {
        let hint = usize::from(self.hints[slot_of(front)]);
        if hint == 0 {
            return None;
        }
        if hint <= self.count {
            let hinted = self.all[hint - 1];
            if hinted.is(&self.bytes[..self.used], wire, front) {
                return Some(hinted.offset);
            }
        }
        for entry in &self.all[..self.count] {
            if entry.is(&self.bytes[..self.used], wire, front) {
                return Some(entry.offset);
            }
        }
        None
    }

    /// Stores a suffix of these labels after the others, if it has room.
    #[inline(always)]
    pub(crate) fn push(&mut self, wire: &[u8], front: u32, offset: u16) -> bool
        requires wire { IsWire wire.now }
        requires front { front ≡ front_number wire.now }
        // A pointer can name the offset.
        requires near { offset < POINTER_LIMIT }
        ensures { self.new ≡ (if result then self.old
            ++ record { labels = labels_of wire.now; offset = offset } ∷ [] else self.old) }
    {
        let start = self.used;
        if self.count >= FIRST || wire.len() > ROOM - start {
            return false;
        }
        let end = start + wire.len();
        copy_labels(&mut self.bytes[start..end], wire);
        self.all[self.count] = Entry {
            front,
            offset,
            start: start as u16,
            end: end as u16,
        };
        self.used = end;
        self.count += 1;
        self.hints[slot_of(front)] = self.count as u8;
        true
    }

    /// Forgets all but the first `count` suffixes.
    pub(crate) fn truncate(&mut self, count: usize)
        ensures { self.new ≡ take count self.old }
    {
        if count < self.count {
            self.count = count;
        }
    }
}

impl Entry {
    /// Whether the suffix has these labels, byte for byte.
    #[inline(always)]
    fn is(&self, bytes: &[u8], wire: &[u8], front: u32) -> bool
        requires entry { IsEntry bytes.now self.now }
        requires wire { IsWire wire.now }
        requires front { front ≡ front_number wire.now }
        ensures { IsTrue result ↔ (labels_of (bytes_of bytes.now self.now) ≡ labels_of wire.now) }
    {
        let labels = &bytes[usize::from(self.start)..usize::from(self.end)];
        self.front == front && are_same(labels, wire)
    }
}

/// Copies labels into a place of their length. Most are so short that a call takes longer.
#[inline(always)]
fn copy_labels(place: &mut [u8], labels: &[u8])
    requires { length place.old ≡ length labels.now }
    ensures { place.new ≡ labels.now }
{
    if labels.len() <= INLINE_LABELS {
        copy_few(place, labels);
    } else {
        place.copy_from_slice(labels);
    }
}

/// Whether bytes are the same. They are compared by eights, the last of which may overlap the one before, since most
/// labels are so short that a call takes longer.
#[inline(always)]
fn are_same(one: &[u8], other: &[u8]) -> bool
    ensures { IsTrue result ↔ (one.now ≡ other.now) }
{
    let len = one.len();
    if len != other.len() {
        return false;
    }
    if len < STEP {
        return one == other;
    }
    let last = len - STEP;
    let mut at = 0;
    while at < last {
        if !begin_alike(&one[at..], &other[at..]) {
            return false;
        }
        at += STEP;
    }
    begin_alike(&one[last..], &other[last..])
}

/// Whether the first eight bytes are the same.
#[inline(always)]
fn begin_alike(one: &[u8], other: &[u8]) -> bool
    requires one { STEP ≤ length one.now }
    requires other { STEP ≤ length other.now }
    ensures { IsTrue result ↔ (take STEP one.now ≡ take STEP other.now) }
{
    match (one.first_chunk::<STEP>(), other.first_chunk::<STEP>()) {
        (Some(one), Some(other)) => u64::from_le_bytes(*one) == u64::from_le_bytes(*other),
        _ => false,
    }
}

/// The place among the hints of those of a number.
#[inline(always)]
fn slot_of(front: u32) -> usize
    ensures value { result ≡ slot_of front }
    ensures below { result < HINTS }
{
    (front.wrapping_mul(SPREAD) >> HINT_SHIFT) as usize
}
