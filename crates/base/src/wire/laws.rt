//! What is true of every decoder, and of all that is written under a limit.

ghost use Rattle.std.specs.Prelude.{◌≡◌, ℕ, ◌+◌, ◌^◌, ◌<◌, ◌≤◌, List, ◌++◌, All, length, max, OnOk, Result};
ghost use Rattle.std.specs.FinSet as set;
ghost use Rattle.base.specs.writing.Items.{EachWritten};
ghost use Rattle.base.specs.writing.Laws.{Keeps, Writes};
ghost use Rattle.base.specs.reading.Passing.{NamesPass};
ghost use Rattle.base.specs.reading.Reader.{Reader, begun};
ghost use Rattle.base.specs.writing.State.{State, Stored, appended, overwritten};
ghost use Rattle.base.specs.reading.Tracks.{IsCounted, IsPassed, Tracked};
ghost use Rattle.base.specs.writing.Wire.{Refuses};
ghost use Rattle.base.specs.writing.Written.{in_turn, piece_at, that_fit, after, fitting, Exactly, FirstPasses};
ghost use Rattle.base.specs.declared.error.proto_error.ProtoError.{ProtoError};

use crate::wire::encodable::BinEncodable;

/// A new decoder keeps nothing and has followed no pointer, so that the clause `tracks` of each read tells of all that is
/// read from there on.
pub fn a_new_decoder_is_counted()
    ensures counted { (bytes : List ℕ) → IsCounted (begun bytes) }
    ensures passed { (bytes : List ℕ) → IsPassed (begun bytes) }
{}

/// Where exactly those targets are kept that the names before the place pass, that stays so after a read.
pub fn reads_keep_what_is_passed()
    ensures { (names : List ℕ) (old new : Reader) → Tracked names old new → IsPassed old
        → IsPassed new }
{}

/// What a new decoder keeps after a read is exactly what the names pass that were read: the clause `tracks` of the read
/// tells their places.
pub fn a_new_decoder_keeps_what_is_passed()
    ensures { (bytes names : List ℕ) (new : Reader) → Tracked names (begun bytes) new
        → (offsets : List ℕ) × NamesPass bytes names offsets × (new.kept ≡ set.from_list offsets) }
{}

/// What an emit wrote is the word of its value, has no more bytes than uncompressed, compresses the owner, and leaves
/// each stored suffix spelled; and it is refused for the limit only where the uncompressed bytes would pass it.
pub fn what_is_written_is_its_word<E: BinEncodable>()
    ensures writes { (x : E) (a b : State) (answer : Result (Unit {0}) ProtoError) → Keeps a b
        → a.limit < 2 ^ 16
        → OnOk answer (E.fits x) → Exactly (E.written x) a b answer
        → OnOk answer (Writes (E.word x) (E.plain_len x) (E.owner x) a b) }
    ensures refuses { (x : E) (a b : State) (answer : Result (Unit {0}) ProtoError)
        → Exactly (E.written x) a b answer → Refuses (E.plain_len x) a answer }
{}

/// What `emit_all` writes stands back to back: each item was written after the one before it, as its own `emit` does,
/// and for one that has no room by its own bytes there is none uncompressed. `emit_all` says all that is asked here, in
/// `emits` and `narrow`.
pub fn what_is_written_in_turn_stands<E: BinEncodable>()
    ensures writes { (xs : List E) (a b : State) → All E.fits xs
        → b ≡ after (in_turn E.written xs) a → length b.bytes ≤ max (length a.bytes) a.limit
        → a.limit < 2 ^ 16 → EachWritten E.word E.plain_len E.owner xs a b }
    ensures full { (x : E) (limit : ℕ) (b : State)
        → limit < length b.bytes + length (piece_at (E.written x) b).bytes
        → limit < length b.bytes + E.plain_len x }
{}

/// Room that was kept and is filled after something was written is as if it had been filled first: no stored suffix is
/// spelled in it, so all that is said of what was written after it stays true (`BinEncoder::place` and `replace`).
pub fn filled_room_is_free<E: BinEncodable>()
    ensures keeps { (room filling : List ℕ) (a c : State) → length filling ≡ length room
        → Keeps (appended room a) c
        → Keeps (appended filling a) (overwritten (length a.bytes) filling c) }
    ensures writes { (x : E) (room filling : List ℕ) (a c : State) → length filling ≡ length room
        → Keeps (appended room a) c
        → Writes (E.word x) (E.plain_len x) (E.owner x) (appended room a) c
        → Writes (E.word x) (E.plain_len x) (E.owner x) (appended filling a)
        (overwritten (length a.bytes) filling c) }
{}

/// Of values that are written in turn under a limit, those that fit are the first of them, and the own bytes of the
/// next one would pass the limit. All fit where there is room for all, and under a larger limit no fewer fit.
pub fn what_fits_under_a_limit<E: BinEncodable>()
    ensures first { (limit : ℕ) (values : List E) (s : State) → (lost : List E)
        × (values ≡ that_fit E.written limit values (length s.bytes) s.suffixes ++ lost)
        × FirstPasses E.written limit (after (fitting E.written limit values) s) lost }
    ensures all { (limit : ℕ) (values : List E) (at : ℕ) (stored : List Stored)
        → at + length (in_turn E.written values at stored).bytes ≤ limit
        → that_fit E.written limit values at stored ≡ values }
    ensures no_fewer { (limit larger : ℕ) (values : List E) (at : ℕ) (stored : List Stored)
        → limit ≤ larger
        → (others : List E)
        × (that_fit E.written larger values at stored
        ≡ that_fit E.written limit values at stored ++ others) }
{}
