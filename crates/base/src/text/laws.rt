//! Laws of the tokens of zone text.

ghost use Rattle.std.specs.Prelude.{ℕ, List, Some, length, false, ◌∷◌, ◌++◌, ◌≡◌, ◌↔◌};
ghost use Rattle.base.specs.texts.TokenList.{followed, next_symbol, symbols};
ghost use Rattle.base.specs.texts.TokenText.{EndsItem, IsItem, IsList, IsQuoted};
ghost use Rattle.base.specs.texts.Tokens.{Unread, item, list_items, quoted};
ghost use Rattle.base.specs.texts.Ttl.{ttl_of};
ghost use Rattle.base.specs.texts.TtlText.{IsTtlText};

/// The tokens of a text are its first and then the tokens of the rest; the fault, where it comes, is the
/// last, and at the text's end there is none. So a text that `Lexer::next_token` reads to its end gives
/// exactly this list.
pub fn tokens_come_in_turn()
    ensures { (unread : Unread) → symbols unread ≡ followed symbols (next_symbol unread) }
{}

/// What an item, a quoted text and a list are: what is cut off a text is one of that shape, and where a text begins
/// with one, that is cut off (RFC 1035, 5.1).
pub fn tokens_have_three_shapes()
    ensures item { (text word rest : List ℕ) → (item false text ≡ Some (word, rest))
        ↔ ((text ≡ word ++ rest) × IsItem word × EndsItem rest) }
    ensures quoted { (text word rest : List ℕ) → (quoted false text ≡ Some (word, rest))
        ↔ ((text ≡ word ++ 34 ∷ rest) × IsQuoted word) }
    ensures list { (text rest : List ℕ) (words : List (List ℕ))
        → (list_items (length text) text ≡ Some (words, rest))
        ↔ ((inner : List ℕ) × (text ≡ inner ++ rest) × IsList words inner) }
{}

/// What `ttl_of` answers is what the text says: a decimal number of seconds, or groups of a number and a unit that are
/// summed up, below 2 to the 32nd (RFC 1035, 4.1.3 and 5.1).
pub fn ttl_texts_say_seconds()
    ensures { (text : List ℕ) (seconds : ℕ)
        → (ttl_of text ≡ Some seconds) ↔ IsTtlText text seconds }
{}
