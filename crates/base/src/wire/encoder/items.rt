//! Writes items one after another.

ghost use Rattle.base.specs.writing.Items.{IsCountable, EmitsAll, StaysValid};
ghost use Rattle.base.specs.writing.Laws.{Keeps};
ghost use Rattle.base.specs.writing.Wire.{state_of};
ghost use Rattle.std.specs.Iterator.{UpTo};
ghost use Rattle.std.specs.Prelude.{Some, ◌<◌, ◌^◌, ◌-◌};

use crate::error::ProtoError;
use crate::wire::encodable::BinEncodable;
use crate::wire::encoder::BinEncoder;

impl<'a> BinEncoder<'a> {
    /// Writes the items that the iterator gives, to its end, and answers their number.
    ///
    /// Where an item doesn't fit the limit, refused with `NotAllRecordsWritten`, the number of the items before it, and
    /// bytes and suffixes as they were after those; the iterator stands after that item.
    ///
    /// # Errors
    ///
    /// `Memory` if memory runs out.
    #[inline(always)]
    pub fn emit_all<E: BinEncodable + Drop, I: Iterator<Item = E>>(
        &mut self,
        items: &mut I,
    ) -> Result<usize, ProtoError>
        // The iterator may be asked for its next item.
        requires can { I.can_next items.old }
        // It gives no more items than a `usize` can count.
        requires countable { IsCountable (I.remaining items.old) }
        // Whatever the answer, what stood before stays, and no byte is written past the limit.
        ensures keeps { Keeps (state_of self.old) (state_of self.new) }
        // After `Ok`, and where not all fit, each stored suffix is spelled at its offset.
        ensures valid { StaysValid (state_of self.old) (state_of self.new) result }
        // The items were written in turn: all of them, or those before the first that has no room.
        ensures emits { EmitsAll E.fits E.written I.next_gives items.old
            items.new (state_of self.old) (state_of self.new) result }
        // The limit is at most 65,535 bytes.
        ensures narrow { (state_of self.old).limit < 2 ^ 16 }
    {
        match items.next() {
            Some(first) => self.emit_from(first, items),
            None => Ok(0),
        }
    }

    /// Writes this item and those that the iterator gives after it. It stands by itself so that a part without items,
    /// as most messages have some, costs no call.
    ///
    /// # Errors
    ///
    /// As of `emit_all`.
    #[inline(never)]
    fn emit_from<E: BinEncodable + Drop, I: Iterator<Item = E>>(
        &mut self,
        first: E,
        items: &mut I,
    ) -> Result<usize, ProtoError>
        requires can { I.can_next items.old }
        // It gives fewer items than a `usize` can count, since this one is counted too.
        requires countable { UpTo (I.remaining items.old) (2 ^ 64 - 2) }
        ensures keeps { Keeps (state_of self.old) (state_of self.new) }
        ensures valid { StaysValid (state_of self.old) (state_of self.new) result }
        // From wherever the iterator gave this item, all were written in turn that it gave, or those
        // before the first that has no room.
        ensures emits { (before : I) → I.next_gives before (Some first) items.old
            → EmitsAll E.fits E.written I.next_gives before items.new
            (state_of self.old) (state_of self.new) result }
    {
        let mut count = 0;
        let mut next = Some(first);
        while let Some(item) = next {
            let mark = self.mark();
            match item.emit(self) {
                Ok(()) => count += 1,
                Err(error) => match error {
                    ProtoError::MaxBufferSizeExceeded => {
                        self.roll_back(mark);
                        return Err(ProtoError::NotAllRecordsWritten { count });
                    }
                    other => return Err(other),
                },
            }
            next = items.next();
        }
        Ok(count)
    }
}
