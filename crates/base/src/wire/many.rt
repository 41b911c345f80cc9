//! Reads values one after another.

ghost use Rattle.base.specs.reading.Many.{many_at, many_names};
ghost use Rattle.base.specs.reading.Reading.{Reads};
ghost use Rattle.base.specs.reading.Tracks.{Tracks};

use crate::error::DecodeError;
use crate::wire::decodable::BinDecodable;
use crate::wire::decoder::BinDecoder;

/// Reads `count` values, one after another. Makes room for all at once, but for no more than there are bytes left.
///
/// # Errors
///
/// The first fault; `Memory` if memory runs out. A decoder that refused isn't used again.
pub fn read_many<T: BinDecodable>(
    decoder: &mut BinDecoder<'_>,
    count: usize,
) -> Result<Vec<T>, DecodeError>
    ensures read { Reads (λ v. v.items) decoder.old decoder.new result
        (many_at T.read_at count decoder.old.bytes decoder.old.index) }
    // As of every read: see `BinDecodable::read`. The names are those of all these values.
    ensures tracks { Tracks
        (λ _. many_names T.read_at T.names_at count decoder.old.bytes decoder.old.index)
        decoder.old decoder.new result }
{
    let mut values = Vec::with_capacity(decoder.allocator(), count.min(decoder.len()))?;
    for _ in 0..count {
        let value = T::read(decoder)?;
        values.push(value)?;
    }
    Ok(values)
}
