//! What is written of a name is read as that name.

ghost use Rattle.std.specs.Prelude.{◌≡◌, ℕ, List, length, true};
ghost use Rattle.base.specs.writing.Laws.{IsValid, Writes};
ghost use Rattle.base.specs.reading.Names.{name_at};
ghost use Rattle.base.specs.writing.State.{State};
ghost use Rattle.base.specs.Words.{NameAt};

/// Where a name was written, with pointers or without, the same labels are read as an absolute name,
/// which ends where the writing ended (RFC 1035, 4.1.4).
pub fn written_names_are_read()
    ensures { (labels : List (List ℕ)) (plain : ℕ) (owner : List (List ℕ)) (a b : State)
        → IsValid a b.bytes → Writes (NameAt labels) plain owner a b
        → name_at b.bytes (length a.bytes)
        ≡ Ok (record { labels = labels; absolute = true }, length b.bytes) }
{}
