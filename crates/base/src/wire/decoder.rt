//! Reads a message's bytes.

ghost use Rattle.base.specs.declared.limits.TheConstants.{POINTER_LIMIT};
ghost use Rattle.std.specs.Prelude.{◌≡◌, ℕ, true, false, ◌+◌, ◌-◌, ◌^◌, ◌<◌, ◌≤◌, length, min, drop, nat_le, is_some, IfSome, OnOk, OnErr, IsOkUnless, []};
ghost use Rattle.std.specs.FinSet as set;
ghost use Rattle.std.specs.Int.{w16, w32};
ghost use Rattle.base.specs.reading.Passing.{IsClosed};
ghost use Rattle.base.specs.reading.Pointers.{CanKeep, IsKept};
ghost use Rattle.base.specs.reading.Reader.{begun};
ghost use Rattle.base.specs.reading.Reading.{Reads, byte_at, bytes_at, number_at};
ghost use Rattle.base.specs.reading.Tracks.{IsCounted, Tracks};

use crate::error::DecodeError;
use crate::limits::POINTER_LIMIT;
use crate::name::reading::NamePiece;
use crate::wire::pointer_cache::PointerCache;
use std::alloc::{AllocError, Global};
use std::marker::Model;

/// Reads values one by one from a buffer, which a name in it may point back into.
pub struct BinDecoder<'a> {
    alloc: Global,
    buffer: &'a [u8],
    index: usize,
    /// The labels at each offset that a pointer led to.
    cache: PointerCache<'a>,
    jumps: usize,
}

impl<'a> Model for BinDecoder<'a> {
    ghost use Rattle.std.specs.Prelude.{◌≤◌, length};
    ghost use Rattle.base.specs.reading.Reader.{Reader, reader_code};
    ghost use Rattle.base.specs.reading.Passing.{IsClosed};
    ghost use Rattle.base.specs.reading.Pointers.{AreKept, targets_of};

    ghost Value = { Reader };

    ghost coded = { reader_code };

    ghost view = { λ d.
        record {
          bytes = d.buffer.now;
          index = d.index;
          kept = targets_of d.cache;
          jumps = d.jumps;
        } };

    ghost invariant = { λ d. (d.index ≤ length d.buffer.now)
        × (AreKept d.buffer.now d.cache × IsClosed d.buffer.now (targets_of d.cache)) };
}

// By hand, as of `Name`.
impl<'a> Drop for BinDecoder<'a> {
    fn drop(self) {
        let BinDecoder {
            alloc: _,
            buffer: _,
            index: _,
            cache: _,
            jumps: _,
        } = self;
    }
}

impl<'a> BinDecoder<'a> {
    /// A decoder at the start of the buffer. Takes no memory.
    pub fn new(alloc: Global, buffer: &'a [u8]) -> BinDecoder<'a>
        ensures { result ≡ begun buffer.now }
    {
        BinDecoder {
            alloc,
            buffer,
            index: 0,
            cache: PointerCache::new(alloc),
            jumps: 0,
        }
    }

    /// The place that is read next, in bytes from the buffer's start.
    pub fn index(&self) -> usize
        ensures value { result ≡ self.now.index }
        // The place is inside the buffer or at its end.
        ensures inside { result ≤ length self.now.bytes }
        // A buffer has fewer than 2^63 bytes.
        ensures addressable { length self.now.bytes < 2 ^ 63 }
    {
        self.index
    }

    /// How many bytes are left.
    pub fn len(&self) -> usize
        ensures left { result ≡ length self.now.bytes - self.now.index }
    {
        self.buffer.len() - self.index
    }

    /// Whether no byte is left.
    pub fn is_empty(&self) -> bool
        ensures { result ≡ nat_le (length self.now.bytes) self.now.index }
    {
        self.index >= self.buffer.len()
    }

    /// The allocator that values read here take their memory from.
    pub fn allocator(&self) -> Global {
        self.alloc
    }

    /// The bytes from the place on that is read next.
    pub(crate) fn rest(&self) -> &'a [u8]
        ensures { result.now ≡ drop self.now.index self.now.bytes }
    {
        &self.buffer[self.index..]
    }

    /// Follows a pointer: lends the bytes from its target on, and counts it. No other call lends bytes before the place
    /// that is read next, but for labels that are kept.
    pub(crate) fn follow(&mut self, target: u16) -> &'a [u8]
        requires { target ≤ length self.old.bytes }
        ensures lent { result.now ≡ drop target self.old.bytes }
        // The count of pointers followed grows by one, unless it is the largest `usize` already.
        ensures counted { self.new
            ≡ record self.old { jumps = min (self.old.jumps + 1) usize.MAX } }
    {
        self.jumps = self.jumps.saturating_add(1);
        &self.buffer[usize::from(target)..]
    }

    /// How many pointers were followed into bytes. The labels that a pointer led to are read once and kept, so of a new
    /// decoder it is no more than there are offsets that a pointer can name, whatever the buffer, up to the first read
    /// that is refused and after it.
    pub fn jumps(&self) -> usize
        ensures value { result ≡ self.now.jumps }
        // Where that is the number of targets that are kept, the decoder is counted: no more are
        // kept than a pointer can lead to.
        ensures counted { result ≡ set.len self.now.kept → IsCounted self.now }
    {
        self.jumps
    }

    /// The labels at an offset that a pointer led to, each with its length before it, where they are kept.
    pub(crate) fn labels_at(&self, target: u16) -> Option<&[u8]>
        // There are labels exactly for the offsets that the decoder keeps.
        ensures is { is_some result ≡ set.contains self.now.kept target }
        // Each offset that is kept is below 16,384, so that a pointer can name it.
        ensures near { (q : ℕ) → set.contains self.now.kept q ≡ true → q < POINTER_LIMIT }
        // They are the labels that are spelled at the offset.
        ensures spelled { IfSome result (λ labels. IsKept self.now.bytes target labels.now) }
        // What is spelled at a kept offset passes kept offsets alone.
        ensures closed { IsClosed self.now.bytes self.now.kept }
    {
        self.cache.find(target)
    }

    /// Keeps the labels at an offset that a pointer led to: those of the piece there, and then those that its pointer
    /// leads to.
    #[inline(always)]
    pub(crate) fn keep(&mut self, target: u16, piece: NamePiece) -> Result<(), AllocError>
        requires { CanKeep self.old target piece }
        ensures ok { OnOk result (self.new
            ≡ record self.old { kept = set.insert self.old.kept target }) }
        ensures err { OnErr result (self.new ≡ self.old) }
    {
        let most = self.buffer.len().min(POINTER_LIMIT) as u16;
        let bytes = &self.buffer[usize::from(target)..];
        self.cache
            .insert(target, &bytes[..piece.len], piece.pointer, most)?;
        Ok(())
    }

    /// Goes on to a place inside the buffer or at its end, and never back: `follow` lends what a pointer leads to.
    pub(crate) fn move_to(&mut self, index: usize)
        requires on { self.old.index ≤ index }
        requires inside { index ≤ length self.old.bytes }
        ensures { self.new ≡ record self.old { index = index } }
    {
        self.index = index;
    }

    /// Reads one byte.
    ///
    /// # Errors
    ///
    /// `InsufficientBytes` where none is left.
    pub fn pop(&mut self) -> Result<u8, DecodeError>
        ensures only { IsOkUnless result DecodeError.InsufficientBytes }
        ensures read { Reads (λ b. b) self.old self.new result
            (byte_at self.old.bytes self.old.index) }
        // As of every read, see `BinDecodable::read`: no name is read.
        ensures tracks { Tracks (λ _. []) self.old self.new result }
    {
        match self.buffer.get(self.index) {
            Some(byte) => {
                self.index += 1;
                Ok(*byte)
            }
            None => Err(DecodeError::InsufficientBytes),
        }
    }

    /// Reads a number of two bytes, the high one first (RFC 1035, 2.3.2).
    ///
    /// # Errors
    ///
    /// `InsufficientBytes` where fewer are left.
    pub fn read_u16(&mut self) -> Result<u16, DecodeError>
        ensures only { IsOkUnless result DecodeError.InsufficientBytes }
        ensures read { Reads (λ n. n) self.old self.new result
            (number_at w16 self.old.bytes self.old.index) }
        // As of every read, see `BinDecodable::read`: no name is read.
        ensures tracks { Tracks (λ _. []) self.old self.new result }
    {
        match &self.buffer[self.index..] {
            [high, low, ..] => {
                self.index += 2;
                Ok(u16::from_be_bytes([*high, *low]))
            }
            _ => Err(DecodeError::InsufficientBytes),
        }
    }

    /// Reads a number of four bytes, the highest one first (RFC 1035, 2.3.2).
    ///
    /// # Errors
    ///
    /// `InsufficientBytes` where fewer are left.
    pub fn read_u32(&mut self) -> Result<u32, DecodeError>
        ensures only { IsOkUnless result DecodeError.InsufficientBytes }
        ensures read { Reads (λ n. n) self.old self.new result
            (number_at w32 self.old.bytes self.old.index) }
        // As of every read, see `BinDecodable::read`: no name is read.
        ensures tracks { Tracks (λ _. []) self.old self.new result }
    {
        match &self.buffer[self.index..] {
            [highest, high, low, lowest, ..] => {
                self.index += 4;
                Ok(u32::from_be_bytes([*highest, *high, *low, *lowest]))
            }
            _ => Err(DecodeError::InsufficientBytes),
        }
    }

    /// Reads `len` bytes, just as they stand.
    ///
    /// # Errors
    ///
    /// `InsufficientBytes` where fewer are left.
    pub fn read_slice(&mut self, len: usize) -> Result<&'a [u8], DecodeError>
        ensures only { IsOkUnless result DecodeError.InsufficientBytes }
        ensures read { Reads (λ bytes. bytes.now) self.old self.new result
            (bytes_at len self.old.bytes self.old.index) }
        // As of every read, see `BinDecodable::read`: no name is read.
        ensures tracks { Tracks (λ _. []) self.old self.new result }
    {
        let start = self.index;
        if len > self.buffer.len() - start {
            return Err(DecodeError::InsufficientBytes);
        }
        self.index += len;
        Ok(&self.buffer[start..start + len])
    }

    /// Reads `N` bytes, just as they stand.
    ///
    /// # Errors
    ///
    /// `InsufficientBytes` where fewer are left.
    pub fn read_array<const N: usize>(&mut self) -> Result<[u8; N], DecodeError>
        ensures only { IsOkUnless result DecodeError.InsufficientBytes }
        ensures read { Reads (λ bytes. bytes) self.old self.new result
            (bytes_at N self.old.bytes self.old.index) }
        // As of every read, see `BinDecodable::read`: no name is read.
        ensures tracks { Tracks (λ _. []) self.old self.new result }
    {
        let mut bytes = [0; N];
        bytes.copy_from_slice(self.read_slice(N)?);
        Ok(bytes)
    }
}
