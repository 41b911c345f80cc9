//! Parts of a message that are written and counted.

ghost use Rattle.base.specs.writing.Items.{IsCountable, EmitsAll};

use crate::error::ProtoError;
use crate::wire::encodable::BinEncodable;
use crate::wire::encoder::BinEncoder;

/// A part of a message that writes items and says how many.
///
/// `emits` relates the part and the encoder's state before a call to the answer, and to the part and the
/// state after it. That the answered number is the number of items is no law: it is only carried.
pub trait EmitAndCount {
    ghost use Rattle.std.specs.Prelude.{ℕ, Result};
    ghost use Rattle.base.specs.declared.error.proto_error.ProtoError.{ProtoError};
    ghost use Rattle.base.specs.writing.Items.{StaysValid};
    ghost use Rattle.base.specs.writing.Laws.{Keeps};
    ghost use Rattle.base.specs.writing.State.{State};
    ghost use Rattle.base.specs.writing.Wire.{state_of};

    ghost can_emit: { Self → Type 0 };

    ghost emits: { Self → State → Result ℕ ProtoError → Self → State → Type 0 };

    /// Writes the items after what the encoder holds, and answers their number.
    ///
    /// Where not all fit, refused with `NotAllRecordsWritten` and the number of those that stand.
    fn emit(&mut self, encoder: &mut BinEncoder<'_>) -> Result<usize, ProtoError>
        requires { can_emit self.old }
        // Whatever the answer, what stood before stays, and no byte is written past the limit.
        ensures keeps { Keeps (state_of encoder.old) (state_of encoder.new) }
        // After `Ok`, and where not all fit, each stored suffix is spelled at its offset.
        ensures valid { StaysValid (state_of encoder.old) (state_of encoder.new) result }
        ensures emits { emits self.old (state_of encoder.old) result self.new
            (state_of encoder.new) };
}

impl<E: BinEncodable + Drop, I: Iterator<Item = E>> EmitAndCount for I {
    ghost can_emit = { λ items. I.can_next items × IsCountable (I.remaining items) };

    ghost emits = { λ s a result t b. EmitsAll E.fits E.written I.next_gives
        s t a b result };

    fn emit(&mut self, encoder: &mut BinEncoder<'_>) -> Result<usize, ProtoError> {
        encoder.emit_all(self)
    }
}
