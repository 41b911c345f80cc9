//! Writes a name (RFC 1035, 4.1.4).

ghost use Rattle.std.specs.Prelude.{◌≡◌, [], ◌∷◌, ◌++◌, OnOk};
ghost use Rattle.base.specs.writing.AppendError.{told};
ghost use Rattle.base.specs.names.Labels.{AreNameLabels, plain_len, wire_of};
ghost use Rattle.base.specs.writing.Laws.{Keeps};
ghost use Rattle.base.specs.writing.SaysName.{Says-name};
ghost use Rattle.base.specs.writing.State.{appended};
ghost use Rattle.base.specs.writing.Wire.{state_of};
ghost use Rattle.base.specs.Words.{NameAt};
ghost use Rattle.base.specs.writing.Written.{Exactly, name, plain_name};

use crate::error::ProtoError;
use crate::name::Name;
use crate::wire::encoder::append::AppendError;
use crate::wire::{BinEncodable, BinEncoder};

impl BinEncodable for Name {
    ghost word = { λ n. NameAt n.labels };

    ghost plain_len = { λ n. plain_len n.labels };

    ghost owner = { λ n. n.labels };

    ghost written = { λ n. name n.labels };

    ghost fits = { λ n. AreNameLabels n.labels };

    ghost says = { λ n. Says-name n.labels };

    /// Writes the name, letters as they are; whether it is absolute isn't written.
    ///
    /// Ends with a pointer at the first suffix of it, but the root, that was stored with the same labels byte for byte.
    /// Each suffix before that is stored, if it begins below the offset 16,384 (RFC 1035, 4.1.4).
    ///
    /// # Errors
    ///
    /// `MaxBufferSizeExceeded` where a byte would pass the limit; `Memory` if memory runs out. What stood before stays,
    /// and labels that were written before the refusal stand after it.
    #[inline(always)]
    fn emit(&self, encoder: &mut BinEncoder<'_>) -> Result<(), ProtoError> {
        self.append_to(encoder)?;
        Ok(())
    }
}

impl Name {
    /// Writes the name as `emit` does. It stands by itself for its refusal, which is small: where nothing is refused, that
    /// costs its callers nothing.
    #[inline(never)]
    fn append_to(&self, encoder: &mut BinEncoder<'_>) -> Result<(), AppendError>
        // Whatever the answer, what stood before stays, and no byte is written past the limit.
        ensures keeps { Keeps (state_of encoder.old) (state_of encoder.new) }
        // After `Ok` the labels have 1 to 63 bytes each, and the name has at most 255.
        ensures fits { OnOk result (AreNameLabels self.now.labels) }
        // After `Ok` exactly the name was written; refused for the limit only where that would
        // pass it.
        ensures exact { Exactly (name self.now.labels)
            (state_of encoder.old) (state_of encoder.new) (told result) }
    {
        let wire = self.as_wire();
        let (kept, found) = encoder.find_longest(wire);
        if kept == 0 {
            return encoder.append_end(found);
        }
        let at = encoder.len();
        encoder.append(&wire[..kept])?;
        let mut before = 0;
        while before < kept {
            encoder.store(&wire[before..], at + before)?;
            before += 1 + usize::from(wire[before]);
        }
        encoder.append_end(found)
    }

    /// Writes the name without compression, letters as they are; whether it is absolute isn't written. Neither looks
    /// suffixes up nor stores them.
    ///
    /// # Errors
    ///
    /// `MaxBufferSizeExceeded` where a byte would pass the limit; `Memory` if memory runs out. What stood before stays,
    /// and labels that were written before the refusal stand after it.
    pub fn emit_plain(&self, encoder: &mut BinEncoder<'_>) -> Result<(), ProtoError>
        ensures state { OnOk result (state_of encoder.new
            ≡ appended (wire_of self.now.labels ++ 0 ∷ []) (state_of encoder.old)) }
        // Whatever the answer, what stood before stays, and no byte is written past the limit.
        ensures keeps { Keeps (state_of encoder.old) (state_of encoder.new) }
        // After `Ok` the labels have 1 to 63 bytes each, and the name has at most 255.
        ensures fits { OnOk result (AreNameLabels self.now.labels) }
        // After `Ok` exactly the uncompressed name was written; refused for the limit only where
        // that would pass it.
        ensures exact { Exactly (plain_name self.now.labels)
            (state_of encoder.old) (state_of encoder.new) result }
    {
        encoder.emit_slice(self.as_wire())?;
        encoder.emit(0)
    }
}
