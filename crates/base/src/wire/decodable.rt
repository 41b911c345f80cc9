//! Values that can be read.

ghost use Rattle.std.specs.Int.{w16};
ghost use Rattle.base.specs.reading.Reading.{number_at};

use crate::error::DecodeError;
use crate::wire::decoder::BinDecoder;

/// A value that can be read.
///
/// `read_at` is what a buffer spells at a place: the value and the place after it, or the first fault. `names_at` are
/// the places of the names of the value that is read there.
pub trait BinDecodable: Drop {
    ghost use Rattle.std.specs.Prelude.{ℕ, List, []};
    ghost use Rattle.base.specs.reading.Reading.{Read, Reads};
    ghost use Rattle.base.specs.reading.Tracks.{Tracks};

    ghost read_at: { List ℕ → ℕ → Read Self };

    ghost names_at: { List ℕ → ℕ → List ℕ } = { λ _ _. [] };

    /// Reads the value at the decoder's place, and moves after it.
    ///
    /// # Errors
    ///
    /// The first fault; `Memory` if memory runs out. A decoder that refused isn't used again.
    fn read(decoder: &mut BinDecoder<'_>) -> Result<Self, DecodeError>
        ensures read { Reads (λ x. x) decoder.old decoder.new result
            (read_at decoder.old.bytes decoder.old.index) }
        // The targets that the names at the places of `names_at` pass are kept in addition, and no
        // others. Where as many pointers were followed as targets are kept, that stays so, and even
        // after a refusal no more were followed than a pointer can name offsets.
        ensures tracks { Tracks (λ _. names_at decoder.old.bytes decoder.old.index) decoder.old
            decoder.new result };
}

impl BinDecodable for u16 {
    ghost read_at = { number_at w16 };

    fn read(decoder: &mut BinDecoder<'_>) -> Result<u16, DecodeError> {
        decoder.read_u16()
    }
}
