//! Values that can be written.

ghost use Rattle.std.specs.Prelude.{◌≡◌, ◌<◌, ◌^◌, []};
ghost use Rattle.std.specs.Int.{w16, to_be_bytes};
ghost use Rattle.base.specs.writing.SaysParts.{Says-number};
ghost use Rattle.base.specs.Words.{Number};
ghost use Rattle.base.specs.writing.Written.{just};

use crate::error::ProtoError;
use crate::wire::encoder::BinEncoder;

/// A value that can be written.
///
/// `word` relates a buffer to the places where what is written of the value begins and ends there, `plain_len` is how
/// many bytes it takes with every name uncompressed, `owner` are the labels of the name of a question or record, none
/// for all else. `written` are the bytes, and the suffixes stored after them, by the place where they begin and the
/// suffixes stored until then. `fits` is what the type keeps of the value: that its numbers are in range, and its
/// labels those of names.
///
/// That what is written is the word, has no more than `plain_len` bytes and compresses the owner is a law of `written`,
/// by itself.
pub trait BinEncodable {
    ghost use Rattle.std.specs.Prelude.{ℕ, List, [], OnOk};
    ghost use Rattle.base.specs.writing.Laws.{Keeps};
    ghost use Rattle.base.specs.writing.Says.{Says};
    ghost use Rattle.base.specs.writing.Wire.{state_of};
    ghost use Rattle.base.specs.writing.Written.{Writing, Exactly};

    ghost word: { Self → List ℕ → ℕ → ℕ → Type 0 };

    ghost plain_len: { Self → ℕ };

    ghost owner: { Self → List (List ℕ) } = { λ _. [] };

    ghost written: { Self → Writing };

    ghost fits: { Self → Type 0 };

    /// Writes the value after what the encoder holds (RFC 1035, 4.1).
    ///
    /// # Errors
    ///
    /// `MaxBufferSizeExceeded` where a byte would pass the limit; `Memory` if memory runs out. What stood before stays.
    fn emit(&self, encoder: &mut BinEncoder<'_>) -> Result<(), ProtoError>
        // Whatever the answer, what stood before stays, and no byte is written past the limit.
        ensures keeps { Keeps (state_of encoder.old) (state_of encoder.new) }
        // After `Ok`, the value's numbers are in range and its labels those of names.
        ensures fits { OnOk result (fits self.now) }
        // After `Ok` exactly `written` of the value was written; refused for the limit only where
        // that would pass it.
        ensures exact { Exactly (written self.now)
            (state_of encoder.old) (state_of encoder.new) result };

    ghost says: { (x : Self) → Says (written x) (fits x) (word x) (plain_len x) (owner x) };
}

/// A value that always takes the same number of bytes, `LEN`, so that room can be kept for it.
pub trait EncodedSize: BinEncodable {
    ghost use Rattle.std.specs.Prelude.{◌≡◌, ◌+◌, ℕ, List, length};
    ghost use Rattle.base.specs.Words.{Stands};

    ghost encoded: { Self → List ℕ };

    ghost LEN: { ℕ };

    /// How many bytes the value takes.
    const LEN: usize;

    /// Writes the value over the bytes kept for it.
    fn fill(&self, room: &mut [u8])
        requires { length room.old ≡ LEN }
        ensures bytes { room.new ≡ encoded self.now }
        // Wherever these bytes stand in a buffer, the value stands in wire form.
        ensures word { (B : List ℕ) (i : ℕ) → Stands (encoded self.now) B i
            → Self.word self.now B i (i + LEN) };
}

impl BinEncodable for u16 {
    ghost word = { Number w16 };

    ghost plain_len = { λ _. 2 };

    ghost written = { λ n. just (to_be_bytes w16 n) };

    ghost fits = { λ n. n < 2 ^ 16 };

    ghost says = { Says-number };

    fn emit(&self, encoder: &mut BinEncoder<'_>) -> Result<(), ProtoError> {
        let number = *self;
        encoder.emit_u16(number)
    }
}

impl<E: BinEncodable> BinEncodable for &E {
    ghost word = { λ e. E.word e.now };

    ghost plain_len = { λ e. E.plain_len e.now };

    ghost owner = { λ e. E.owner e.now };

    ghost written = { λ e. E.written e.now };

    ghost fits = { λ e. E.fits e.now };

    ghost says = { λ e. E.says e.now };

    fn emit(&self, encoder: &mut BinEncoder<'_>) -> Result<(), ProtoError> {
        let value: &E = self;
        value.emit(encoder)
    }
}

impl EncodedSize for u16 {
    ghost encoded = { to_be_bytes w16 };

    ghost LEN = { 2 };

    const LEN: usize = 2;

    fn fill(&self, room: &mut [u8]) {
        let number = *self;
        room.copy_from_slice(&number.to_be_bytes());
    }
}
