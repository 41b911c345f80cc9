//! Appends bytes.

ghost use Rattle.base.specs.declared.limits.TheConstants.{POINTER_LIMIT};
ghost use Rattle.std.specs.Int.{w16, to_be_bytes};
ghost use Rattle.std.specs.Option.{ForSome};
ghost use Rattle.std.specs.Prelude.{◌≡◌, ◌+◌, ◌^◌, ◌<◌, [], ◌∷◌, Err, length, OnErr, is_some, if◌then◌else◌};
ghost use Rattle.base.specs.writing.AppendError.{refusal, told};
ghost use Rattle.base.specs.writing.Laws.{Keeps};
ghost use Rattle.base.specs.writing.Wire.{state_of};
ghost use Rattle.base.specs.writing.Written.{Exactly, just, pointer_or};
ghost use Rattle.base.specs.declared.wire.encoder.append.AppendError.TheVariants as reasons;

use crate::error::ProtoError;
use crate::wire::encoder::BinEncoder;
use std::alloc::AllocError;

/// The two bytes of a pointer to offset 0 (RFC 1035, 4.1.4).
const POINTER: u16 = 0xC000;

/// Why bytes were not appended. It is small, since a refusal takes room, and is cleared, in each call that might give
/// it.
#[derive(Clone, Copy, Drop)]
pub(crate) enum AppendError {
    /// A byte would pass the limit.
    NoRoom,
    /// Memory ran out.
    Memory,
}

impl From<AllocError> for AppendError {
    ghost from_gives = { λ _ e. e ≡ reasons.Memory };

    fn from(_e: AllocError) -> AppendError {
        AppendError::Memory
    }
}

impl From<AppendError> for ProtoError {
    ghost from_gives = { λ reason e. e ≡ refusal reason };

    fn from(reason: AppendError) -> ProtoError {
        match reason {
            AppendError::NoRoom => ProtoError::MaxBufferSizeExceeded,
            AppendError::Memory => ProtoError::Memory,
        }
    }
}

impl<'a> BinEncoder<'a> {
    /// Appends bytes as they are.
    ///
    /// # Errors
    ///
    /// If a byte would pass the limit, or memory runs out. Nothing is written then.
    pub(crate) fn append(&mut self, bytes: &[u8]) -> Result<(), AppendError>
        // Whatever the answer, what stood before stays, and no byte is written past the limit.
        ensures keeps { Keeps (state_of self.old) (state_of self.new) }
        // After `Ok` exactly the bytes were written; refused for the limit only where they would
        // pass it.
        ensures exact { Exactly (just bytes.now) (state_of self.old) (state_of self.new)
            (told result) }
        ensures err { OnErr result (state_of self.new ≡ state_of self.old) }
        // Where the bytes would pass the limit, that is why they aren't appended.
        ensures full { (state_of self.old).limit
            < length (state_of self.old).bytes + length bytes.now
            → result ≡ Err reasons.NoRoom }
        // The limit is at most 65,535 bytes.
        ensures narrow { (state_of self.old).limit < 2 ^ 16 }
    {
        let limit = usize::from(self.limit);
        if limit < self.buffer.len() || limit - self.buffer.len() < bytes.len() {
            return Err(AppendError::NoRoom);
        }
        self.buffer.extend_from_slice(bytes)?;
        Ok(())
    }

    /// Appends one byte, without the detour of a slice.
    ///
    /// # Errors
    ///
    /// As of `append`.
    #[inline(always)]
    pub(crate) fn append_byte(&mut self, byte: u8) -> Result<(), AppendError>
        ensures keeps { Keeps (state_of self.old) (state_of self.new) }
        ensures exact { Exactly (just (byte ∷ [])) (state_of self.old) (state_of self.new)
            (told result) }
        ensures err { OnErr result (state_of self.new ≡ state_of self.old) }
        ensures full { (state_of self.old).limit < length (state_of self.old).bytes + 1
            → result ≡ Err reasons.NoRoom }
    {
        if usize::from(self.limit) <= self.buffer.len() {
            return Err(AppendError::NoRoom);
        }
        self.buffer.reserve(1)?;
        self.buffer.push_reserved(byte);
        Ok(())
    }

    /// Appends a number in two bytes, the high one first, without the detour of a slice.
    ///
    /// # Errors
    ///
    /// As of `append`.
    #[inline(always)]
    pub(crate) fn append_u16(&mut self, number: u16) -> Result<(), AppendError>
        ensures keeps { Keeps (state_of self.old) (state_of self.new) }
        ensures exact { Exactly (just (to_be_bytes w16 number)) (state_of self.old)
            (state_of self.new) (told result) }
        ensures err { OnErr result (state_of self.new ≡ state_of self.old) }
        ensures full { (state_of self.old).limit < length (state_of self.old).bytes + 2
            → result ≡ Err reasons.NoRoom }
    {
        let limit = usize::from(self.limit);
        if limit < self.buffer.len() || limit - self.buffer.len() < 2 {
            return Err(AppendError::NoRoom);
        }
        self.buffer.reserve(2)?;
        let [high, low] = number.to_be_bytes();
        self.buffer.push_reserved(high);
        self.buffer.push_reserved(low);
        Ok(())
    }

    /// Appends the end of a name: a pointer to an offset, or the zero byte where there is none (RFC 1035, 4.1.4).
    ///
    /// # Errors
    ///
    /// As of `append`.
    #[inline(always)]
    pub(crate) fn append_end(&mut self, offset: Option<u16>) -> Result<(), AppendError>
        // A pointer can name the offset.
        requires { ForSome offset (λ o. o < POINTER_LIMIT) }
        ensures keeps { Keeps (state_of self.old) (state_of self.new) }
        ensures exact { Exactly (pointer_or (just (0 ∷ [])) offset) (state_of self.old)
            (state_of self.new) (told result) }
        ensures err { OnErr result (state_of self.new ≡ state_of self.old) }
        ensures full { (state_of self.old).limit < length (state_of self.old).bytes
            + (if is_some offset then 2 else 1) → result ≡ Err reasons.NoRoom }
    {
        match offset {
            Some(offset) => self.append_u16(POINTER + offset),
            None => self.append_byte(0),
        }
    }
}
