//! Writes values after their length.

ghost use Rattle.std.specs.Prelude.{◌-◌, ◌≤◌, OnOk, length, take};
ghost use Rattle.base.specs.writing.Laws.{Keeps};
ghost use Rattle.base.specs.writing.Wire.{state_of};
ghost use Rattle.base.specs.writing.Written.{Exactly, both, just, sized};

use crate::error::ProtoError;
use crate::wire::encodable::{BinEncodable, EncodedSize};
use crate::wire::encoder::BinEncoder;
use crate::wire::place::Place;
use std::marker::PhantomData;

/// Writes bytes, of which the last two are room for the number of the value's bytes, a `u16` (RDLENGTH, RFC 1035,
/// 3.2.1), and then the value. The bytes and that number are written at once, since that is faster.
///
/// # Errors
///
/// `MaxBufferSizeExceeded` where a byte would pass the limit; `Memory` if memory runs out. What stood before stays.
pub fn emit_sized<R: BinEncodable>(
    front: &[u8],
    value: &R,
    encoder: &mut BinEncoder<'_>,
) -> Result<(), ProtoError>
    // There is room for the number.
    requires { 2 ≤ length front.now }
    // Whatever the answer, what stood before stays, and no byte is written past the limit.
    ensures keeps { Keeps (state_of encoder.old) (state_of encoder.new) }
    // After `Ok`, the value's numbers are in range and its labels those of names.
    ensures fits { OnOk result (R.fits value.now) }
    // After `Ok` exactly the bytes, the length and the value were written; refused for the limit
    // only where they would pass it.
    ensures exact { Exactly (both (just (take (length front.now - 2) front.now))
        (sized (R.written value.now)))
        (state_of encoder.old) (state_of encoder.new) result }
{
    encoder.append(front)?;
    let place = Place {
        start: encoder.len() - u16::LEN,
        value: PhantomData,
    };
    value.emit(encoder)?;
    let len = encoder.len_since_place(&place);
    encoder.replace(place, &(len as u16));
    Ok(())
}
