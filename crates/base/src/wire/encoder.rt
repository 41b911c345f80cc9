//! Writes a message's bytes under a limit.

ghost use Rattle.base.specs.declared.limits.TheConstants.{MAX_MESSAGE};
ghost use Rattle.std.specs.Prelude.{◌≡◌, ◌+◌, ◌-◌, ◌^◌, ◌<◌, ◌≤◌, [], ◌∷◌, ◌++◌, length, take, drop, replicate, All, OnOk, OnErr, IfOk, IsErrOf, ◌==◌};
ghost use Rattle.std.specs.Int.{w16, w32, to_be_bytes};
ghost use Rattle.base.specs.writing.State.{appended, overwritten};

pub(crate) mod append;
mod items;
mod rollback;
mod table;

use crate::error::ProtoError;
use crate::limits::MAX_MESSAGE;
use crate::wire::encodable::EncodedSize;
use crate::wire::place::Place;
use crate::wire::suffix_table::{HasSuffixes, SuffixTable};
use std::marker::PhantomData;

/// Writes bytes to a vector, up to a limit.
///
/// Everyone writes `BinEncoder<'a>`: the second parameter is there for proofs alone.
pub struct BinEncoder<'a, T: HasSuffixes = SuffixTable> {
    buffer: &'a mut Vec<u8>,
    limit: u16,
    suffixes: T,
    // At most 65,535 bytes may be written.
    ghost narrow: { limit < 2 ^ 16 },
    // Each stored suffix begins within the bytes that were written.
    ghost below: { All (λ t. t.offset < length buffer.now.items) (T.suffixes suffixes) },
}

impl<'a, T: HasSuffixes + Drop> Drop for BinEncoder<'a, T> {
    ghost use Rattle.base.specs.writing.Wire.{vector_of};

    fn drop(self)
        ensures { self.exit.0.now ≡ vector_of self.entry }
    {
        let BinEncoder {
            buffer: _,
            limit: _,
            suffixes: _,
        } = self;
    }
}

impl<'a> BinEncoder<'a> {
    ghost use Rattle.base.specs.writing.Wire.{state_of, Refuses};
    ghost use Rattle.base.specs.writing.Laws.{Keeps};
    ghost use Rattle.base.specs.writing.Written.{Exactly, just};

    /// An encoder over the emptied vector, with the limit of 65,535 bytes. Takes no memory.
    pub fn new(buffer: &'a mut Vec<u8>) -> BinEncoder<'a>
        ensures { state_of result
            ≡ record {
              buffer = buffer.entry.ghost_name;
              bytes = [];
              limit = MAX_MESSAGE;
              suffixes = [];
            } }
    {
        buffer.clear();
        let alloc = *buffer.allocator();
        BinEncoder {
            buffer,
            limit: MAX_MESSAGE,
            suffixes: SuffixTable::new(alloc),
        }
    }

    /// Sets the limit, in bytes: none is written past it from now on. What stands past it stays.
    pub fn set_max_size(&mut self, limit: u16)
        ensures { state_of self.new ≡ record (state_of self.old) { limit = limit } }
    {
        self.limit = limit;
    }

    /// Appends one byte.
    ///
    /// # Errors
    ///
    /// `MaxBufferSizeExceeded` where the byte would pass the limit; `Memory` if memory runs out. Nothing is written
    /// then.
    pub fn emit(&mut self, byte: u8) -> Result<(), ProtoError>
        // Whatever the answer, what stood before stays, and no byte is written past the limit.
        ensures keeps { Keeps (state_of self.old) (state_of self.new) }
        // After `Ok` exactly the byte was written; refused for the limit only where it would pass it.
        ensures exact { Exactly (just (byte ∷ [])) (state_of self.old) (state_of self.new) result }
        ensures err { OnErr result (state_of self.new ≡ state_of self.old) }
        // Where the byte would pass the limit, the answer is `MaxBufferSizeExceeded`.
        ensures full { (state_of self.old).limit < length (state_of self.old).bytes + 1
            → IsErrOf result ProtoError.MaxBufferSizeExceeded }
    {
        self.emit_slice(&[byte])
    }

    /// Appends a number in two bytes, the high one first (RFC 1035, 2.3.2).
    ///
    /// # Errors
    ///
    /// `MaxBufferSizeExceeded` where a byte would pass the limit; `Memory` if memory runs out. Nothing is written then.
    pub fn emit_u16(&mut self, number: u16) -> Result<(), ProtoError>
        // Whatever the answer, what stood before stays, and no byte is written past the limit.
        ensures keeps { Keeps (state_of self.old) (state_of self.new) }
        // After `Ok` exactly the number was written; refused for the limit only where it would pass it.
        ensures exact { Exactly (just (to_be_bytes w16 number))
            (state_of self.old) (state_of self.new) result }
        ensures err { OnErr result (state_of self.new ≡ state_of self.old) }
        // Where two bytes would pass the limit, the answer is `MaxBufferSizeExceeded`.
        ensures full { (state_of self.old).limit < length (state_of self.old).bytes + 2
            → IsErrOf result ProtoError.MaxBufferSizeExceeded }
    {
        self.emit_slice(&number.to_be_bytes())
    }

    /// Appends a number in four bytes, the highest one first (RFC 1035, 2.3.2).
    ///
    /// # Errors
    ///
    /// `MaxBufferSizeExceeded` where a byte would pass the limit; `Memory` if memory runs out. Nothing is written then.
    pub fn emit_u32(&mut self, number: u32) -> Result<(), ProtoError>
        // Whatever the answer, what stood before stays, and no byte is written past the limit.
        ensures keeps { Keeps (state_of self.old) (state_of self.new) }
        // After `Ok` exactly the number was written; refused for the limit only where it would pass it.
        ensures exact { Exactly (just (to_be_bytes w32 number))
            (state_of self.old) (state_of self.new) result }
        ensures err { OnErr result (state_of self.new ≡ state_of self.old) }
        // Where four bytes would pass the limit, the answer is `MaxBufferSizeExceeded`.
        ensures full { (state_of self.old).limit < length (state_of self.old).bytes + 4
            → IsErrOf result ProtoError.MaxBufferSizeExceeded }
    {
        self.emit_slice(&number.to_be_bytes())
    }

    /// Appends bytes as they are.
    ///
    /// # Errors
    ///
    /// `MaxBufferSizeExceeded` where a byte would pass the limit; `Memory` if memory runs out. Nothing is written then.
    pub fn emit_slice(&mut self, bytes: &[u8]) -> Result<(), ProtoError>
        // Whatever the answer, what stood before stays, and no byte is written past the limit.
        ensures keeps { Keeps (state_of self.old) (state_of self.new) }
        // After `Ok` exactly the bytes were written; refused for the limit only where they would
        // pass it.
        ensures exact { Exactly (just bytes.now) (state_of self.old) (state_of self.new) result }
        ensures err { OnErr result (state_of self.new ≡ state_of self.old) }
        // Where the bytes would pass the limit, the answer is `MaxBufferSizeExceeded`.
        ensures full { (state_of self.old).limit
            < length (state_of self.old).bytes + length bytes.now
            → IsErrOf result ProtoError.MaxBufferSizeExceeded }
    {
        self.append(bytes)?;
        Ok(())
    }

    /// How many bytes stand.
    pub fn len(&self) -> usize
        ensures { result ≡ length (state_of self.now).bytes }
    {
        self.buffer.len()
    }

    /// Whether no byte stands.
    pub fn is_empty(&self) -> bool
        ensures { result ≡ (length (state_of self.now).bytes == 0) }
    {
        self.buffer.is_empty()
    }

    /// Keeps room for a value that comes later: appends `T::LEN` zero bytes.
    ///
    /// # Errors
    ///
    /// `MaxBufferSizeExceeded` where a byte would pass the limit; `Memory` if memory runs out. Nothing is written then.
    pub fn place<T: EncodedSize>(&mut self) -> Result<Place<T>, ProtoError>
        ensures ok { IfOk result (λ place. (state_of self.new
            ≡ appended (replicate T.LEN 0) (state_of self.old))
            × (place ≡ length (state_of self.old).bytes)) }
        ensures err { OnErr result (state_of self.new ≡ state_of self.old) }
        // After `Ok` no byte stands past the limit.
        ensures within { OnOk result (length (state_of self.new).bytes
            ≤ (state_of self.old).limit) }
        // Refused for the limit only where the room would pass it, and else for memory alone.
        ensures refuses { Refuses T.LEN (state_of self.old) result }
        // Where the room would pass the limit, the answer is `MaxBufferSizeExceeded`.
        ensures full { (state_of self.old).limit < length (state_of self.old).bytes + T.LEN
            → IsErrOf result ProtoError.MaxBufferSizeExceeded }
        // The limit is at most 65,535 bytes.
        ensures narrow { (state_of self.old).limit < 2 ^ 16 }
    {
        let start = self.buffer.len();
        let limit = usize::from(self.limit);
        if limit < start || limit - start < T::LEN {
            return Err(ProtoError::MaxBufferSizeExceeded);
        }
        self.buffer.resize(start + T::LEN, 0)?;
        Ok(Place {
            start,
            value: PhantomData,
        })
    }

    /// How many bytes were written after the room that was kept.
    pub fn len_since_place<T: EncodedSize>(&self, place: &Place<T>) -> usize
        requires { place.now + T.LEN ≤ length (state_of self.now).bytes }
        ensures { result ≡ length (state_of self.now).bytes - (place.now + T.LEN) }
    {
        self.buffer.len() - (place.start + T::LEN)
    }

    /// Writes the value into the room that was kept for it, whose bytes have to stand still. No suffix is stored there:
    /// see the law `filled_room_is_free`.
    #[inline(always)]
    pub fn replace<T: EncodedSize>(&mut self, place: Place<T>, value: &T)
        requires { place + T.LEN ≤ length (state_of self.old).bytes }
        ensures state { state_of self.new
            ≡ overwritten place (T.encoded value.now) (state_of self.old) }
    {
        let start = place.start;
        fill_at(self.buffer, start, value);
    }
}

/// Writes the value over the bytes from a place on.
#[inline(always)]
fn fill_at<T: EncodedSize>(bytes: &mut Vec<u8>, start: usize, value: &T)
    requires { start + T.LEN ≤ length bytes.old.items }
    ensures items { bytes.new.items
        ≡ take start bytes.old.items
        ++ (T.encoded value.now ++ drop (start + length (T.encoded value.now)) bytes.old.items) }
    ensures len { length bytes.new.items ≡ length bytes.old.items }
{
    value.fill(&mut bytes[start..start + T::LEN]);
}
