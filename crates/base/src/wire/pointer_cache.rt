//! The labels at the offsets that compression pointers led to (RFC 1035, 4.1.4).

ghost use Rattle.base.specs.declared.limits.TheConstants.{MAX_LABELS};
ghost use Rattle.std.specs.Prelude.{◌≡◌, ℕ, List, ◌+◌, ◌++◌, ◌<◌, ◌≤◌, None, Some, All, length, get_or, IfOk, IfSome, OnErr, OnOk, option_map};
ghost use Rattle.std.specs.FinMap as map;
ghost use Rattle.base.specs.declared.wire.pointer_cache.TargetLabels.TheVariants.{Copied};
ghost use Rattle.base.specs.declared.wire.pointer_cache.TheConstants.{ROOM};
ghost use Rattle.std.specs.Ordering.{nat_cmp};
ghost use Rattle.base.specs.reading.Pointers.{labels_from, first_of, AreThere, AreUpTo, IsInside, IsLonger, IsTargetThere, cache_of, kept_after, rest_labels, labels_now, target_labels};

mod copied;

use crate::wire::pointer_cache::copied::{CopiedLabels, copied_at};
use std::alloc::{AllocError, Global};
use std::marker::Model;

/// How many targets have room inside the cache.
const ROOM: usize = 16;

/// How many places are made at once.
const STEP: usize = 256;

/// Where the labels at a target are, each with its length before it.
#[derive(Clone, Copy)]
enum TargetLabels<'a> {
    /// Among the copied labels, from this place on.
    Copied(usize),
    /// In the message, as they are.
    Lent(&'a [u8]),
}

/// An offset that a pointer led to, and the labels there.
#[derive(Clone, Copy)]
struct Target<'a> {
    offset: u16,
    labels: TargetLabels<'a>,
}

/// The first targets, as many as are counted. What stands after them in the array has no meaning.
#[derive(Clone, Copy)]
struct FirstTargets<'a> {
    count: usize,
    /// No target of them stands after this offset, so that a new one, which mostly does, isn't looked for among them.
    last: u16,
    all: [Target<'a>; ROOM],
}

/// Labels that were copied.
#[derive(Drop)]
struct Copies {
    bytes: CopiedLabels,
    /// By the offset of each target that isn't among the first, the place of the labels there, and else 0.
    places: Vec<usize>,
}

/// The labels at each offset that a pointer led to. The first targets take no memory, unless more than 256 bytes of
/// labels are copied. Each target after them is found by its offset, without a search, since there are few that a
/// pointer can name.
#[derive(Drop)]
pub(crate) struct PointerCache<'a> {
    first: FirstTargets<'a>,
    copies: Copies,
}

impl<'a> Model for PointerCache<'a> {
    ghost use Rattle.std.specs.Prelude.{◌≡◌, ◌≤◌, ℕ, List, All, length};
    ghost use Rattle.std.specs.Coded.{coded_ℕ, coded_list};
    ghost use Rattle.std.specs.FinMap as map;
    ghost use Rattle.std.specs.Ordering.{nat_cmp};
    ghost use Rattle.base.specs.reading.Pointers.{AreUpTo, IsInside, IsTargetThere, cache_of, first_of};
    ghost use Rattle.base.specs.declared.wire.pointer_cache.TheConstants.{ROOM};

    ghost Value = { map.FinMap nat_cmp (List ℕ) };

    ghost coded = { map.code coded_ℕ (coded_list coded_ℕ) };

    ghost view = { λ c.
        cache_of c.copies.bytes c.copies.places.items (first_of c.first) };

    ghost invariant = { λ c. (((c.first.count ≤ ROOM) × (length c.first.all ≡ ROOM))
        × AreUpTo c.first.last (first_of c.first))
        × (All (IsInside c.copies.bytes) c.copies.places.items
        × All (IsTargetThere c.copies.bytes) (first_of c.first)) };
}

/// The place of an offset, and 0 for none.
#[inline(always)]
fn place_at(places: &[usize], offset: usize) -> usize
    ensures { result ≡ get_or places.now offset 0 }
{
    match places.get(offset) {
        Some(place) => *place,
        None => 0,
    }
}

/// Where the labels at an offset are: it may have a place, or be one of the first targets.
#[inline(always)]
fn find_target<'a>(
    places: &[usize],
    first: &FirstTargets<'a>,
    offset: u16,
) -> Option<TargetLabels<'a>>
    requires few { first.now.count ≤ ROOM }
    requires last { AreUpTo first.now.last (first_of first.now) }
    // Whatever was copied, they are those that are kept for the offset.
    ensures found { (copied : List ℕ) → option_map (target_labels copied) result
        ≡ map.get (cache_of copied places.now (first_of first.now)) offset }
    ensures there { (copied : List ℕ) → All (IsInside copied) places.now
        → All (IsTargetThere copied) (first_of first.now) → IfSome result (AreThere copied) }
{
    let place = place_at(places, usize::from(offset));
    if place != 0 {
        return Some(TargetLabels::Copied(place));
    }
    if offset > first.last {
        return None;
    }
    for target in &first.all[..first.count] {
        if target.offset == offset {
            return Some(target.labels);
        }
    }
    None
}

/// Makes places up to an offset, the new ones without labels, with room for as many offsets as there may be. They are
/// copied many at once, since that is faster than one by one.
fn reach(places: &mut Vec<usize>, offset: usize, most: usize) -> Result<(), AllocError>
    requires below { offset < 65536 }
    requires few { most < 65536 }
    // The offset has a place.
    ensures there { OnOk result (offset < length places.new.items) }
    // Each offset has the place that it had, and a new one has 0, for none.
    ensures same { (q : ℕ) → get_or places.new.items q 0 ≡ get_or places.old.items q 0 }
    ensures err { OnErr result (places.new.items ≡ places.old.items) }
{
    if offset >= places.len() {
        places.reserve(offset.max(most) + STEP - places.len())?;
    }
    while places.len() <= offset {
        let none = [0; STEP];
        places.extend_from_slice(&none)?;
    }
    Ok(())
}

/// Where labels of the message are with the rest of them, if there is any: where the rest is if that is all, and else in
/// a copy of both.
#[inline(always)]
fn joined<'a>(
    own: &'a [u8],
    rest: Option<TargetLabels<'a>>,
    bytes: &mut CopiedLabels,
) -> Result<TargetLabels<'a>, AllocError>
    requires there { IfSome rest (AreThere bytes.old) }
    requires short { length (own.now ++ rest_labels bytes.old rest) ≤ MAX_LABELS }
    ensures ok { IfOk result (λ labels. target_labels bytes.new labels
        ≡ own.now ++ rest_labels bytes.old rest.entry) }
    ensures there { IfOk result (AreThere bytes.new) }
    ensures longer { IsLonger bytes.old bytes.new }
    ensures err { OnErr result (bytes.new ≡ bytes.old) }
{
    let Some(rest) = rest else {
        return Ok(TargetLabels::Lent(own));
    };
    if own.is_empty() {
        return Ok(rest);
    }
    let place = match rest {
        TargetLabels::Lent(labels) => bytes.append(own, labels)?,
        TargetLabels::Copied(place) => bytes.append_before(own, place)?,
    };
    Ok(TargetLabels::Copied(place))
}

/// A place for labels, which are copied if they are lent.
fn place_of(labels: TargetLabels<'_>, bytes: &mut CopiedLabels) -> Result<usize, AllocError>
    requires there { AreThere bytes.old labels }
    ensures place { IfOk result (λ place. AreThere bytes.new (Copied place)
        × (labels_from bytes.new place ≡ target_labels bytes.old labels.entry)) }
    ensures longer { IsLonger bytes.old bytes.new }
    ensures err { OnErr result (bytes.new ≡ bytes.old) }
{
    match labels {
        TargetLabels::Lent(labels) => bytes.append(labels, &[]),
        TargetLabels::Copied(place) => Ok(place),
    }
}

impl<'a> PointerCache<'a> {
    /// No labels. Takes no memory.
    pub(crate) fn new(alloc: Global) -> PointerCache<'a>
        ensures { result ≡ map.empty }
    {
        let unused = Target {
            offset: 0,
            labels: TargetLabels::Copied(0),
        };
        PointerCache {
            first: FirstTargets {
                count: 0,
                last: 0,
                all: [unused; ROOM],
            },
            copies: Copies {
                bytes: CopiedLabels::new(alloc),
                places: Vec::new(alloc),
            },
        }
    }

    /// The labels at an offset, if they are kept.
    pub(crate) fn find(&self, offset: u16) -> Option<&[u8]>
        ensures { labels_now result ≡ map.get self.now offset }
    {
        match find_target(&self.copies.places, &self.first, offset)? {
            TargetLabels::Lent(labels) => Some(labels),
            TargetLabels::Copied(place) => Some(copied_at(self.copies.bytes.as_slice(), place)),
        }
    }

    /// Keeps for an offset the labels of the message there, with those that are kept for the offset `after`, if any.
    /// Only where there are both are they copied, as long as there is room for their target among the first. Room for
    /// offsets up to `most` is made at once.
    ///
    /// # Errors
    ///
    /// If memory runs out, with the cache as it was.
    pub(crate) fn insert(
        &mut self,
        offset: u16,
        own: &'a [u8],
        after: Option<u16>,
        most: u16,
    ) -> Result<(), AllocError>
        // No labels are kept for the offset yet.
        requires new { map.get self.old offset ≡ None }
        requires short { length (own.now ++ kept_after self.old after) ≤ MAX_LABELS }
        ensures ok { OnOk result (self.new
            ≡ map.insert self.old offset (own.now ++ kept_after self.old after)) }
        ensures err { OnErr result (self.new ≡ self.old) }
    {
        let rest = match after {
            Some(after) => find_target(&self.copies.places, &self.first, after),
            None => None,
        };
        let labels = joined(own, rest, &mut self.copies.bytes)?;
        if self.first.count < ROOM {
            self.first.all[self.first.count] = Target { offset, labels };
            self.first.last = self.first.last.max(offset);
            self.first.count += 1;
            return Ok(());
        }
        let place = place_of(labels, &mut self.copies.bytes)?;
        reach(
            &mut self.copies.places,
            usize::from(offset),
            usize::from(most),
        )?;
        self.copies.places[usize::from(offset)] = place;
        Ok(())
    }
}
