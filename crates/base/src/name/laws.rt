//! Laws of the definitions that names are read and written by.

ghost use Rattle.base.specs.declared.limits.TheConstants.{MAX_NAME};
ghost use Rattle.std.specs.Prelude.{◌≡◌, ◌≢◌, ◌↔◌, ℕ, ◌+◌, ◌<◌, ◌≤◌, List, [], ◌++◌, length, take, drop, All, Bool, Option, false};
ghost use Rattle.base.specs.writing.Compression.{IsCompressed};
ghost use Rattle.base.specs.reading.Faults.{IsFaulty};
ghost use Rattle.base.specs.names.Labels.{NameValue, AreLabels, plain_len};
ghost use Rattle.base.specs.writing.Laws.{StoresSuffixes};
ghost use Rattle.base.specs.texts.NameText.{IsNameText, name_text};
ghost use Rattle.base.specs.reading.Names.{name_at};
ghost use Rattle.base.specs.writing.State.{State, Stored};
ghost use Rattle.base.specs.reading.Spelling.{Spelled, SpelledIn, KeepsSeen, IsNameAt, among, outside};
ghost use Rattle.base.specs.writing.Written.{after, name};

/// What `name_at` answers is what the bytes spell: the name that stands there, or the first fault.
pub fn reading_is_spelling()
    ensures spelled { (bytes : List ℕ) (i : ℕ) (name : NameValue) (e : ℕ)
        → (name_at bytes i ≡ Ok (name, e)) ↔ IsNameAt bytes i name e }
    ensures faulty { (bytes : List ℕ) (i : ℕ) (f : _)
        → (name_at bytes i ≡ Err f) ↔ IsFaulty bytes i i 0 f }
{}

/// A spelling has one list of labels and one end. It stays where no byte that its pieces look at changes, whatever
/// becomes of the others: so where bytes are added after it, and where a range that it doesn't look at is replaced by
/// other bytes of the same number. What is spelled by looking at some places is spelled (RFC 1035, 4.1.4).
pub fn spellings_stay()
    ensures once { (bytes : List ℕ) (s i e f : ℕ) (xs ys : List (List ℕ)) → Spelled bytes xs s i e
        → Spelled bytes ys s i f → (xs ≡ ys) × (e ≡ f) }
    // Where no byte that is looked at changes, the spelling stays.
    ensures kept { (looks : ℕ → Bool) (old new : List ℕ) (s i e : ℕ) (xs : List (List ℕ))
        → KeepsSeen (among looks) old new
        → SpelledIn (among looks) old s i xs e → SpelledIn (among looks) new s i xs e }
    // What is spelled by looking at some places is spelled.
    ensures anywhere { (looks : ℕ → Bool) (bytes : List ℕ) (s i e : ℕ) (xs : List (List ℕ))
        → SpelledIn (among looks) bytes s i xs e → Spelled bytes xs s i e }
    ensures longer { (from to : ℕ) (bytes more : List ℕ) (s i e : ℕ) (xs : List (List ℕ))
        → SpelledIn (outside from to) bytes s i xs e
        → SpelledIn (outside from to) (bytes ++ more) s i xs e }
    ensures patched { (from to : ℕ) (bytes patch : List ℕ) (s i e : ℕ) (xs : List (List ℕ))
        → from + length patch ≡ to → to ≤ length bytes
        → SpelledIn (outside from to) bytes s i xs e
        → SpelledIn (outside from to) (take from bytes ++ (patch ++ drop to bytes)) s i xs e }
{}

/// The text of a name is read as that name, save that of the relative name without labels; and a text
/// names one name at most (RFC 1035, 5.1).
pub fn text_is_name()
    ensures named { (n : NameValue) → All (All (λ b. b < 256)) n.labels → AreLabels n.labels
        → plain_len n.labels ≤ MAX_NAME
        → (n.absolute ≡ false → n.labels ≢ []) → IsNameText (name_text n) None n }
    ensures once { (text : List ℕ) (origin : Option NameValue) (a b : NameValue)
        → IsNameText text origin a → IsNameText text origin b → a ≡ b }
{}

/// A name is compressed as far as it can be: it ends in a pointer to the longest of its suffixes that was stored before
/// it, where one was, and is else written with all its labels (RFC 1035, 4.1.4). So are the names of questions, of
/// owners, and in data of the kinds of RFC 1035; those in data of later kinds stand with all their labels (RFC 3597,
/// 4).
pub fn names_are_compressed()
    ensures { (labels : List (List ℕ)) (at : ℕ) (stored : List Stored)
        → IsCompressed labels at stored }
{}

/// Each suffix of a name that is written by labels, and begins where a pointer can lead, is stored where it begins: the
/// suffixes that are stored of a name are those that its definition stores (RFC 1035, 4.1.4).
pub fn names_store_their_suffixes()
    ensures { (labels : List (List ℕ)) (a b : State) → b ≡ after (name labels) a
        → StoresSuffixes labels a b }
{}
