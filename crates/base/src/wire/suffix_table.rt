//! The suffixes of names that were written, with an index of them (RFC 1035, 4.1.4).

ghost use Rattle.base.specs.declared.limits.TheConstants.{MAX_LABELS, POINTER_LIMIT};
ghost use Rattle.base.specs.declared.wire.suffix_table.TheConstants.{CELLS, WAYS};
ghost use Rattle.std.specs.Prelude.{◌≡◌, ◌≢◌, ◌<◌, ◌≤◌, ◌+◌, ◌++◌, ◌∷◌, [], length, take, All, Any, MatchOption, OnOk, OnErr, IfOk, IfSome};
ghost use Rattle.base.specs.names.Labels.{labels_of, IsWire};
ghost use Rattle.base.specs.writing.Suffixes.{cell_of, cells_of, found_at, index_key, key_number, offset_in, taken};
ghost use Rattle.base.specs.writing.Written.{found_in};

mod first;

use crate::wire::suffix::{Suffix, front_number};
use crate::wire::suffix_table::first::FirstSuffixes;
use std::alloc::{AllocError, Global};
use std::collections::BTreeMap;
use std::marker::Model;

/// What an encoder keeps of the names that it wrote.
pub trait HasSuffixes {
    ghost use Rattle.std.specs.Prelude.{List};
    ghost use Rattle.base.specs.writing.State.{Stored};

    ghost suffixes: { Self → List Stored };
}

/// Room for the key of the longest suffix: a number of four bytes, and the labels of a name (RFC 1035, 2.3.4).
const KEY: usize = 258;

/// How many cells there are.
const CELLS: usize = 16_384;

/// How many of them suffixes of one number may take: so a look-up passes few, however numbers are chosen.
const WAYS: usize = 8;

/// How far the bits of a product that say which cells stand above the lowest: there are 2^11 times as many as `WAYS`.
const CELL_SHIFT: u32 = 21;

/// An odd number near 2^32 divided by the golden ratio: all bits of a number count for the highest bits of its product
/// with this one.
const SPREAD: u32 = 0x9E37_79B1;

/// What a number is multiplied with before that of the next bytes is added, so that it tells in which order they stand.
const OF_THE_NEXT: u32 = 33;

/// How many bytes a number is made of at once.
const STEP: usize = 8;

/// A number of labels by which most are told from others: of how many bytes there are, of each eight of them, and of the
/// last eight.
fn key_number(wire: &[u8]) -> u32
    requires { length wire.now ≤ MAX_LABELS }
    ensures { result ≡ key_number wire.now }
{
    let mut number = wire.len() as u32;
    let mut rest = wire;
    while rest.len() >= STEP {
        number = number
            .wrapping_mul(OF_THE_NEXT)
            .wrapping_add(front_number(rest));
        rest = &rest[STEP..];
    }
    let last = front_number(&wire[wire.len().saturating_sub(STEP)..]);
    number.wrapping_mul(OF_THE_NEXT).wrapping_add(last)
}

/// The first of the cells for suffixes of these labels.
fn cell_of(wire: &[u8]) -> usize
    requires { length wire.now ≤ MAX_LABELS }
    ensures value { result ≡ cell_of wire.now }
    ensures below { result + WAYS ≤ CELLS }
{
    (key_number(wire).wrapping_mul(SPREAD) >> CELL_SHIFT) as usize * WAYS
}

/// Which of these cells is the first free one.
fn free_cell(cells: &[u16]) -> Option<usize>
    ensures { MatchOption result (taken cells.now ≡ length cells.now)
        (λ way. (way ≡ taken cells.now) × (way < length cells.now)) }
{
    let mut way = 0;
    for place in cells {
        if *place == 0 {
            return Some(way);
        }
        way += 1;
    }
    None
}

/// Makes the cells, where there are none yet.
fn make_cells(cells: &mut Vec<u16>) -> Result<(), AllocError>
    ensures ok { OnOk result (CELLS ≤ length cells.new.items) }
    ensures same { CELLS ≤ length cells.old.items → cells.new.items ≡ cells.old.items }
{
    if cells.len() < CELLS {
        cells.resize(CELLS, 0)?;
    }
    Ok(())
}

/// Puts the key of a suffix of these labels at the front of the room, and answers how many bytes it has. Their number
/// stands before the labels, so that most keys differ early.
fn key_into(wire: &[u8], room: &mut [u8; KEY]) -> usize
    requires { length wire.now ≤ MAX_LABELS }
    ensures len { result ≤ 258 }
    ensures key { take result room.new ≡ index_key wire.now }
{
    let len = 4 + wire.len();
    room[..4].copy_from_slice(&key_number(wire).to_be_bytes());
    room[4..len].copy_from_slice(wire);
    len
}

/// The key of a suffix of these labels, in memory of its own.
#[inline(never)]
fn key_of(alloc: Global, wire: &[u8]) -> Result<Vec<u8>, AllocError>
    requires { length wire.now ≤ MAX_LABELS }
    ensures { IfOk result (λ key. key.items ≡ index_key wire.now) }
{
    let mut room = [0; KEY];
    let len = key_into(wire, &mut room);
    Vec::from_slice(alloc, &room[..len])
}

/// The suffixes that a later name may point to, in order of offset, each once.
///
/// The first ones stand inside the table and are looked up one by one, so that a message with few names takes no memory
/// for them. Most others are found by a cell for a number of their labels; those that found no cell free, by an ordered
/// index, so that a look-up costs little whatever the labels are.
#[derive(Drop)]
pub struct SuffixTable {
    first: FirstSuffixes,
    others: Vec<Suffix>,
    /// One more than the place of one of the others, or than a place where one stood, and 0 in a free cell.
    cells: Vec<u16>,
    /// The offset of each of the others that no cell was free for, by its key.
    index: BTreeMap<Vec<u8>, u16>,
}

impl Model for SuffixTable {
    ghost use Rattle.std.specs.Prelude.{◌++◌, List};
    ghost use Rattle.base.specs.writing.State.{Stored};
    ghost use Rattle.base.specs.writing.Suffixes.{offset_in, IsTable};

    ghost Value = { List Stored };

    ghost view = { λ t. t.first ++ t.others.items };

    ghost invariant = { λ t.
        IsTable (offset_in t.index) t.cells.items t.first t.others.items };
}

impl HasSuffixes for SuffixTable {
    ghost suffixes = { λ t. t };
}

impl SuffixTable {
    /// No suffix. Takes no memory.
    pub(crate) fn new(alloc: Global) -> SuffixTable
        ensures { result ≡ [] }
    {
        SuffixTable {
            first: FirstSuffixes::new(),
            others: Vec::new(alloc),
            cells: Vec::new(alloc),
            index: BTreeMap::new(alloc),
        }
    }

    /// How many suffixes are stored.
    pub(crate) fn len(&self) -> usize
        ensures { result ≡ length self.now }
    {
        self.first.len() + self.others.len()
    }

    /// Where the suffix of these labels, each with its length before it, is spelled. Letters are compared as they are.
    pub(crate) fn find(&self, wire: &[u8]) -> Option<u16>
        requires { IsWire wire.now }
        ensures found { MatchOption result (All (λ t. t.labels ≢ labels_of wire.now) self.now)
            (λ offset. Any (λ t. (t.labels ≡ labels_of wire.now) × (t.offset ≡ offset)) self.now) }
        // A pointer can name the offset.
        ensures near { IfSome result (λ offset. offset < POINTER_LIMIT) }
        // It is that of the first stored suffix of exactly these labels.
        ensures value { result ≡ found_in self.now (labels_of wire.now) }
    {
        let front = front_number(wire);
        if let Some(offset) = self.first.find(wire, front) {
            return Some(offset);
        }
        if self.others.is_empty() {
            return None;
        }
        find_other(&self.cells, &self.others, &self.index, wire)
    }

    /// Stores a suffix of these labels, each with its length before it, that isn't stored yet, after all others.
    ///
    /// # Errors
    ///
    /// If memory runs out, with nothing stored.
    pub(crate) fn store(&mut self, wire: &[u8], at: u16) -> Result<(), AllocError>
        requires wire { IsWire wire.now }
        // A pointer can name the offset.
        requires near { at < POINTER_LIMIT }
        requires absent { All (λ t. t.labels ≢ labels_of wire.now) self.old }
        // It is after the offsets of all stored suffixes.
        requires later { All (λ t. t.offset < at) self.old }
        ensures ok { OnOk result (self.new
            ≡ self.old ++ record { labels = labels_of wire.now; offset = at } ∷ []) }
        ensures err { OnErr result (self.new ≡ self.old) }
    {
        if self.others.is_empty() && self.first.push(wire, front_number(wire), at) {
            return Ok(());
        }
        self.store_other(wire, at)
    }

    /// The same with a suffix that has no room inside. It stands by itself, since few messages have so many suffixes.
    ///
    /// # Errors
    ///
    /// If memory runs out, with nothing stored.
    #[inline(never)]
    fn store_other(&mut self, wire: &[u8], at: u16) -> Result<(), AllocError>
        requires wire { IsWire wire.now }
        requires near { at < POINTER_LIMIT }
        requires absent { All (λ t. t.labels ≢ labels_of wire.now) self.old }
        requires later { All (λ t. t.offset < at) self.old }
        ensures ok { OnOk result (self.new
            ≡ self.old ++ record { labels = labels_of wire.now; offset = at } ∷ []) }
        ensures err { OnErr result (self.new ≡ self.old) }
    {
        let alloc = *self.others.allocator();
        let suffix = Suffix::new(alloc, wire, at)?;
        make_cells(&mut self.cells)?;
        self.others.reserve(1)?;
        let start = cell_of(wire);
        if let Some(way) = free_cell(&self.cells[start..start + WAYS]) {
            self.cells[start + way] = (self.others.len() + 1) as u16;
            self.others.push_reserved(suffix);
            return Ok(());
        }
        let key = key_of(alloc, wire)?;
        self.index.insert(key, at)?;
        self.others.push_reserved(suffix);
        Ok(())
    }

    /// Forgets all but the first `count` suffixes.
    pub(crate) fn truncate(&mut self, count: usize)
        ensures { self.new ≡ take count self.old }
    {
        let after = count.saturating_sub(self.first.len());
        while self.others.len() > after {
            if let Some(suffix) = self.others.pop() {
                let mut room = [0; KEY];
                let len = key_into(suffix.as_wire(), &mut room);
                self.index.remove(&room[..len]);
            }
        }
        self.first.truncate(count);
    }
}

/// Where the one of these suffixes is spelled that has these labels, found by their cells, or by the index where none of
/// these is free. It stands by itself, as `store_other` does.
#[inline(never)]
fn find_other(
    cells: &[u16],
    others: &[Suffix],
    index: &BTreeMap<Vec<u8>, u16>,
    wire: &[u8],
) -> Option<u16>
    requires wire { IsWire wire.now }
    requires made { CELLS ≤ length cells.now }
    ensures { result ≡ found_at others.now (offset_in index.now wire.now) (labels_of wire.now)
        (cells_of cells.now wire.now) }
{
    let start = cell_of(wire);
    for cell in &cells[start..start + WAYS] {
        let place = usize::from(*cell);
        if place == 0 {
            return None;
        }
        if place <= others.len() && others[place - 1].as_wire() == wire {
            return Some(others[place - 1].offset());
        }
    }
    find_indexed(index, wire)
}

/// The offset that the index has for a suffix of these labels. It stands by itself, since few are looked up there.
#[inline(never)]
fn find_indexed(index: &BTreeMap<Vec<u8>, u16>, wire: &[u8]) -> Option<u16>
    requires { length wire.now ≤ MAX_LABELS }
    ensures { result ≡ offset_in index.now wire.now }
{
    let mut room = [0; KEY];
    let len = key_into(wire, &mut room);
    index.get(&room[..len]).copied()
}
