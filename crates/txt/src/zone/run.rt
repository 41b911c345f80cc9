//! Sets in the order of their keys, as they come and until they go into a map.

ghost use Rattle.std.specs.Prelude.{◌≡◌, ◌++◌, ◌∷◌, ◌-◌, ◌<◌, [], IfNone, IfOk, OnErr, OnOk, length, slice_get, vec_capacity, vec_len};
ghost use Rattle.std.specs.Option.{option_copied, option_to_list};
ghost use Rattle.txt.specs.Run.{AreFilled, sets_in, sets_of};

use base::RrKey;
use rr::RecordSet;
use std::alloc::{AllocError, Global};
use std::marker::Model;
use std::mem::replace;

/// How many sets a block has at most.
const BLOCK: usize = 64;

/// Sets with their keys, of which the last one leaves first.
///
/// They stand in blocks: the memory of a block is free as soon as its sets have left, and so serves the map that they
/// go into.
#[derive(Drop)]
pub(super) struct Run {
    alloc: Global,
    /// The blocks before the last one. None is empty.
    blocks: Vec<Vec<(RrKey, RecordSet)>>,
    /// The last block, which is empty only where no other is there.
    last: Vec<(RrKey, RecordSet)>,
}

impl Model for Run {
    ghost use Rattle.std.specs.Prelude.{◌≡◌, []};
    ghost use Rattle.txt.specs.Run.{AreFilled, sets_of};
    ghost use Rattle.txt.specs.ZoneSets.{ZoneSets as Sets};

    ghost Value = { Sets };

    ghost view = { λ r. sets_of r.blocks.items r.last.items };

    ghost invariant = { λ r. AreFilled r.blocks.items
        × (r.last.items ≡ [] → r.blocks.items ≡ []) };
}

impl Run {
    /// No sets. Takes no memory.
    pub(super) fn new(alloc: Global) -> Run
        ensures { result ≡ [] }
    {
        Run {
            alloc,
            blocks: Vec::new(alloc),
            last: Vec::new(alloc),
        }
    }

    /// The allocator.
    pub(super) fn allocator(&self) -> Global {
        self.alloc
    }

    /// The last set, if there is one.
    pub(super) fn last(&self) -> Option<&(RrKey, RecordSet)>
        ensures { option_copied result ≡ slice_get self.now (length self.now - 1) }
    {
        self.last.last()
    }

    /// Puts a set after the others.
    ///
    /// # Errors
    ///
    /// If memory runs out, with the sets as they were.
    pub(super) fn push(&mut self, entry: (RrKey, RecordSet)) -> Result<(), AllocError>
        ensures items { OnOk result (self.new ≡ self.old ++ entry ∷ []) }
        ensures err { OnErr result (self.new ≡ self.old) }
    {
        make_room(self.alloc, &mut self.blocks, &mut self.last)?;
        self.last.push_reserved(entry);
        Ok(())
    }

    /// The blocks, in order.
    ///
    /// # Errors
    ///
    /// If memory runs out.
    pub(super) fn into_blocks(self) -> Result<Vec<Vec<(RrKey, RecordSet)>>, AllocError>
        ensures { IfOk result (λ blocks. sets_in blocks.items ≡ self) }
    {
        let Run {
            mut blocks,
            last,
            ..
        } = self;
        blocks.push(last)?;
        Ok(blocks)
    }

    /// Takes the last set out, if there is one. Takes no memory.
    pub(super) fn pop(&mut self) -> Option<(RrKey, RecordSet)>
        ensures items { self.old ≡ self.new ++ option_to_list result }
        // None is answered only where there is no set.
        ensures none { IfNone result (self.old ≡ []) }
    {
        let entry = self.last.pop()?;
        if !self.last.is_empty() {
            return Some(entry);
        }
        let Some(block) = self.blocks.pop() else {
            return Some(entry);
        };
        self.last = block;
        Some(entry)
    }
}

/// Makes room for one more set in the last block. A full one goes after the others, and a new one is the last then.
///
/// # Errors
///
/// If memory runs out, with the blocks as they were.
fn make_room(
    alloc: Global,
    blocks: &mut Vec<Vec<(RrKey, RecordSet)>>,
    last: &mut Vec<(RrKey, RecordSet)>,
) -> Result<(), AllocError>
    requires { AreFilled blocks.old.items }
    ensures same { sets_of blocks.new.items last.new.items
        ≡ sets_of blocks.old.items last.old.items }
    ensures filled { AreFilled blocks.new.items }
    ensures room { OnOk result (vec_len last.new < vec_capacity last.new) }
    ensures err { OnErr result ((blocks.new.items ≡ blocks.old.items)
        × (last.new.items ≡ last.old.items)) }
{
    if last.len() < BLOCK {
        return last.reserve(1);
    }
    blocks.reserve(1)?;
    let fresh = Vec::with_capacity(alloc, BLOCK)?;
    blocks.push_reserved(replace(last, fresh));
    Ok(())
}
