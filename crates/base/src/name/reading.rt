//! Reads a name (RFC 1035, 4.1.4).

ghost use Rattle.base.specs.declared.limits.TheConstants.{MAX_LABELS, POINTER_LIMIT};
ghost use Rattle.std.specs.Prelude.{Some, ◌≡◌, ℕ, ◌<◌, ◌≤◌, ◌+◌, ◌++◌, ◌∷◌, [], Ok, Err, length, take, drop, IfErr, IfOk, IfSome, OnOk, OnErr, IsOkUnless, MatchResult, is_some, true};
ghost use Rattle.std.specs.FinSet as set;
ghost use Rattle.base.specs.names.Labels.{IsWire, labels_of};
ghost use Rattle.base.specs.declared.name.reading.NameFault.TheVariants as reasons;
ghost use Rattle.base.specs.reading.NameFault.{fault_of, told};
ghost use Rattle.base.specs.reading.Names.{labels_at, name_at};
ghost use Rattle.base.specs.reading.Pieces.{IsPiece, IsRefusedIn};
ghost use Rattle.base.specs.reading.Pointers.{AreTooLong, Fit, IsAdded, IsKept, IsNewTarget};
ghost use Rattle.base.specs.reading.Passing.{IsClosed, passed};
ghost use Rattle.base.specs.reading.Reading.{Fails, Reads};
ghost use Rattle.base.specs.reading.Spelling.{Spelled};
ghost use Rattle.base.specs.reading.Tracks.{IsBounded, Tracks};

use crate::error::DecodeError;
use crate::labels::Labels;
use crate::limits::{MAX_LABEL, MAX_LABELS, MAX_NAME, POINTER_BITS};
use crate::name::Name;
use crate::wire::{BinDecodable, BinDecoder};
use std::alloc::{AllocError, AllocFailed};

/// Why a name was not read. It is small, since a refusal takes room, and is cleared, in each call that might give it.
#[derive(Clone, Copy, Drop)]
pub(crate) enum NameFault {
    /// Memory ran out.
    Memory,
    /// The bytes end inside a piece.
    InsufficientBytes,
    /// The name is spelled wrongly (RFC 1035, 4.1.4).
    BadName,
}

impl From<AllocError> for NameFault {
    ghost from_gives = { λ _ fault. fault ≡ reasons.Memory };

    fn from(_e: AllocError) -> NameFault {
        NameFault::Memory
    }
}

impl<T: Drop> From<AllocFailed<T>> for NameFault {
    ghost from_gives = { λ _ fault. fault ≡ reasons.Memory };

    fn from(_e: AllocFailed<T>) -> NameFault {
        NameFault::Memory
    }
}

impl From<NameFault> for DecodeError {
    ghost from_gives = { λ fault e. e ≡ fault_of fault };

    fn from(fault: NameFault) -> DecodeError {
        match fault {
            NameFault::Memory => DecodeError::Memory,
            NameFault::InsufficientBytes => DecodeError::InsufficientBytes,
            NameFault::BadName => DecodeError::BadName,
        }
    }
}

/// A piece of a name: labels up to a zero byte or a pointer (RFC 1035, 4.1.4).
#[derive(Clone, Copy)]
pub(crate) struct NamePiece {
    /// How many bytes its labels are, each with its length before it.
    pub(crate) len: usize,
    /// The offset that its pointer leads to, none where a zero byte ends it.
    pub(crate) pointer: Option<u16>,
}

/// Reads the piece at the front of these bytes, where the labels before it took as many.
///
/// # Errors
///
/// `InsufficientBytes` where the bytes end inside the piece; `BadName` where the top bits of a byte are 01 or 10, and
/// where the name would have more than 255 bytes (RFC 1035, 2.3.4).
fn read_piece(bytes: &[u8], before: usize) -> Result<NamePiece, NameFault>
    requires { before ≤ MAX_LABELS }
    ensures piece { MatchResult result (λ p. IsPiece bytes.now before p)
        (λ e. IsRefusedIn bytes.now before (fault_of e)) }
    // A pointer has 14 bits for its offset, which is therefore below 16,384.
    ensures near { IfOk result (λ p. IfSome p.pointer (λ t. t < POINTER_LIMIT)) }
{
    // A name that ends within so many bytes isn't too long, so that its length isn't looked at after each label.
    let near = &bytes[..bytes.len().min(MAX_NAME - before)];
    let mut len = 0;
    while len < near.len() && near[len] != 0 && usize::from(near[len]) <= MAX_LABEL {
        len += 1 + usize::from(near[len]);
    }
    if len >= near.len() {
        if len > bytes.len() || before + len < MAX_NAME {
            return Err(NameFault::InsufficientBytes);
        }
        return Err(NameFault::BadName);
    }
    let first = near[len];
    if first == 0 {
        return Ok(NamePiece { len, pointer: None });
    }
    if first < POINTER_BITS {
        return Err(NameFault::BadName);
    }
    if len + 1 >= bytes.len() {
        return Err(NameFault::InsufficientBytes);
    }
    let target = 256 * u16::from(first - POINTER_BITS) + u16::from(bytes[len + 1]);
    Ok(NamePiece {
        len,
        pointer: Some(target),
    })
}

/// The labels that a pointer leads to, where they are kept. It stands in a piece of the name that begins at `start`,
/// after as many bytes of labels as are used.
///
/// # Errors
///
/// `BadName` where it doesn't lead below that start (RFC 1035, 4.1.4), and where the name would have more than 255
/// bytes (2.3.4).
fn kept_labels<'d>(
    decoder: &'d BinDecoder<'_>,
    target: u16,
    start: usize,
    used: usize,
) -> Result<Option<&'d [u8]>, NameFault>
    requires { used ≤ MAX_LABELS }
    ensures below { IfOk result (λ _. target < start) }
    ensures is { IfOk result
        (λ found. is_some found ≡ set.contains decoder.now.kept target) }
    ensures spelled { IfOk result (λ found.
        IfSome found (λ labels. IsKept decoder.now.bytes target labels.now)) }
    ensures short { IfOk result (λ found.
        IfSome found (λ labels. used + length labels.now ≤ MAX_LABELS)) }
    ensures err { IsOkUnless result NameFault.BadName }
    // A target below the start is refused only for the length of the labels there.
    ensures refused { IfErr result (λ _. target < start
        → AreTooLong decoder.now.bytes target used) }
    // Each offset that is kept is below 16,384, so that a pointer can name it.
    ensures near { OnOk result
        ((q : ℕ) → set.contains decoder.now.kept q ≡ true → q < POINTER_LIMIT) }
    // What is spelled at a kept offset passes kept offsets alone.
    ensures closed { OnOk result (IsClosed decoder.now.bytes decoder.now.kept) }
{
    if usize::from(target) >= start {
        return Err(NameFault::BadName);
    }
    let Some(labels) = decoder.labels_at(target) else {
        return Ok(None);
    };
    if used + labels.len() > MAX_LABELS {
        return Err(NameFault::BadName);
    }
    Ok(Some(labels))
}

/// Keeps the labels at an offset that a pointer leads to, after as many bytes of labels as are used. Those that the
/// pieces there lead to are kept before them. It isn't copied into each `read`, since few names come here.
///
/// # Errors
///
/// What reading on from there refuses.
#[inline(never)]
fn keep_target(decoder: &mut BinDecoder<'_>, target: u16, used: usize) -> Result<(), NameFault>
    requires few { used ≤ MAX_LABELS }
    requires new { IsNewTarget decoder.old target }
    ensures read { MatchResult result (λ _. Fit decoder.old.bytes target used)
        (λ e. Fails (fault_of e) (labels_at decoder.old.bytes target target used)) }
    ensures kept { OnOk result (IsAdded target decoder.old decoder.new) }
    ensures bounded { OnErr result (IsBounded decoder.old decoder.new) }
{
    let mut at = target;
    let mut before = used;
    // The pieces whose pointer leads to labels that aren't kept yet.
    let mut waiting = Vec::new(decoder.allocator());
    let mut piece = read_piece(decoder.follow(at), before)?;
    'pieces: while let Some(next) = piece.pointer {
        let all = before + piece.len;
        if kept_labels(decoder, next, usize::from(at), all)?.is_some() {
            break;
        }
        waiting.push((at, piece))?;
        at = next;
        before = all;
        piece = read_piece(decoder.follow(at), before)?;
    }
    'kept: while let Some((above, longer)) = waiting.pop() {
        decoder.keep(at, piece)?;
        at = above;
        piece = longer;
    }
    decoder.keep(at, piece)?;
    Ok(())
}

impl BinDecodable for Name {
    ghost read_at = { name_at };

    ghost names_at = { λ _ i. i ∷ [] };

    /// Reads an absolute name at the decoder's place, its pointers followed, and moves after it (RFC 1035, 4.1.4).
    /// May grow memory for the labels, to keep those of each pointer target that it follows, where the buffer has more
    /// than a few, and for a list of the pieces that lead from one target to the next. A target that is kept already
    /// ends the walk.
    ///
    /// # Errors
    ///
    /// `InsufficientBytes` where the buffer ends inside a piece of the name; `BadName` where the top bits of a byte are
    /// 01 or 10, where a pointer doesn't go below the start of its piece, and where the name would have more than 255
    /// bytes; `Memory` if memory runs out.
    #[inline(always)]
    fn read(decoder: &mut BinDecoder<'_>) -> Result<Name, DecodeError>
        ensures read { Reads (λ x. x) decoder.old decoder.new result
            (name_at decoder.old.bytes decoder.old.index) }
        // The targets of the pointers in the name's spelling are kept in addition, and no others.
        ensures passes { IfOk result
            (λ n. (h : Spelled decoder.old.bytes n.labels decoder.old.index decoder.old.index
            decoder.new.index)
            → decoder.new.kept ≡ set.union decoder.old.kept (set.from_list (passed h))) }
        // The same, said as of every read: see `BinDecodable::read`.
        ensures tracks { Tracks (λ _. decoder.old.index ∷ []) decoder.old decoder.new result }
    {
        let mut name = Name::root(decoder.allocator());
        name.read_in_place(decoder)?;
        Ok(name)
    }
}

impl Name {
    /// Reads a name as `read` does, but in the place of this one, since it is faster not to move what was read.
    ///
    /// # Errors
    ///
    /// Those of `read`. Of this name nothing is said then.
    // Each caller has a copy of its own, since a name is read in fewer instructions so.
    #[inline(always)]
    pub fn read_in_place(&mut self, decoder: &mut BinDecoder<'_>) -> Result<(), DecodeError>
        ensures read { Reads (λ _. self.new) decoder.old decoder.new result
            (name_at decoder.old.bytes decoder.old.index) }
        // The targets of the pointers in the name's spelling are kept in addition, and no others.
        ensures passes { OnOk result
            ((h : Spelled decoder.old.bytes self.new.labels decoder.old.index decoder.old.index
            decoder.new.index)
            → decoder.new.kept ≡ set.union decoder.old.kept (set.from_list (passed h))) }
        // As of every read, see `BinDecodable::read`: of this name.
        ensures tracks { Tracks (λ _. decoder.old.index ∷ []) decoder.old decoder.new result }
    {
        Ok(self.read_labels(decoder)?)
    }

    /// Reads a name in the place of this one.
    #[inline(always)]
    #[tactic(auto, unfolding(crate::specs::reading::Names::name_at))]
    fn read_labels(&mut self, decoder: &mut BinDecoder<'_>) -> Result<(), NameFault>
        ensures read { Reads (λ _. self.new) decoder.old decoder.new (told result)
            (name_at decoder.old.bytes decoder.old.index) }
        // The targets of the pointers in the name's spelling are kept in addition, and no others.
        ensures passes { OnOk result
            ((h : Spelled decoder.old.bytes self.new.labels decoder.old.index decoder.old.index
            decoder.new.index)
            → decoder.new.kept ≡ set.union decoder.old.kept (set.from_list (passed h))) }
        // As of every read, see `BinDecodable::read`: of this name.
        ensures tracks { Tracks (λ _. decoder.old.index ∷ []) decoder.old decoder.new
            (told result) }
    {
        let start = decoder.index();
        let own = decoder.rest();
        let piece = read_piece(own, 0)?;
        let Some(target) = piece.pointer else {
            self.labels.set(own, piece.len, &[])?;
            self.labels.set_fqdn(true);
            decoder.move_to(start + piece.len + 1);
            return Ok(());
        };
        // Labels that aren't kept yet are at the second look.
        'look: loop {
            if let Some(kept) = kept_labels(decoder, target, start, piece.len)? {
                self.labels.set(own, piece.len, kept)?;
                self.labels.set_fqdn(true);
                decoder.move_to(start + piece.len + 2);
                return Ok(());
            }
            keep_target(decoder, target, piece.len)?;
        }
    }
}
