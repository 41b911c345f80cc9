//! The classes (RFC 1035, 3.2.4 and 3.2.5; RFC 6895, 3.2).

ghost use Rattle.base.specs.declared.limits.TheConstants.{MIN_PAYLOAD};
ghost use Rattle.std.specs.Prelude.{◌≡◌, ◌^◌, ◌<◌, ◌≤◌, ◌⊎◌, ℕ, List, IsTrue, Some, None, false, codes};
ghost use Rattle.std.proofs.Common.{rules};
ghost use Rattle.std.specs.Cmp.{partial_order_from_own_ties};
ghost use Rattle.std.specs.Cmp.Rules.{comparing};
ghost use Rattle.std.specs.Ordering.{as_partial_cmp};
ghost use Rattle.base.specs.DNSClass.{class_cmp, class_field, class_from_text, class_number, class_of, class_rank, class_text, field_class, field_top, is_named_class, is_opt_class, opt_class};

use crate::limits::MIN_PAYLOAD;
use std::cmp::Ordering;
use std::fmt;

/// A class, or what the class field of an OPT record has in place of one (RFC 1035, 3.2.4 and 3.2.5; RFC 6891, 6.1.2).
///
/// Classes are ordered by number, a named one before `OPT` and `OPT` before `Unknown` of the same number.
#[derive(Clone, Copy, Debug, PartialEq, Eq, Hash, Drop)]
pub enum DNSClass {
    /// The Internet (RFC 1035, 3.2.4).
    IN,
    /// Chaos (RFC 1035, 3.2.4).
    CH,
    /// Hesiod (RFC 1035, 3.2.4).
    HS,
    /// No class, in an update (RFC 2136, 2.4).
    NONE,
    /// Any class, in a question (RFC 1035, 3.2.5) or an update (RFC 2136, 2.4).
    ANY,
    /// The payload size of an OPT record, in bytes (RFC 6891, 6.1.2), as `for_opt` makes it.
    OPT(u16),
    /// The class of this number. `from` makes it of the numbers without a name alone (RFC 3597, 2).
    Unknown(u16),
}

impl DNSClass {
    /// The class whose name is `text`, letter for letter in upper case, or ANY for `*` (RFC 1035, 3.2.4 and 3.2.5).
    /// The text `CLASSn` of a class without a name (RFC 3597, 5) is not read.
    pub fn from_text(text: &str) -> Option<DNSClass>
        ensures { result ≡ class_from_text text.now }
    {
        match text {
            "IN" => Some(DNSClass::IN),
            "CH" => Some(DNSClass::CH),
            "HS" => Some(DNSClass::HS),
            "NONE" => Some(DNSClass::NONE),
            "ANY" | "*" => Some(DNSClass::ANY),
            _ => None,
        }
    }

    /// The class field of an OPT record whose sender takes in `payload` bytes at most (RFC 6891, 6.1.2).
    /// A payload below 512 is taken as 512 (RFC 6891, 6.2.3).
    pub fn for_opt(payload: u16) -> DNSClass
        ensures { result ≡ opt_class payload }
    {
        DNSClass::OPT(payload.max(MIN_PAYLOAD))
    }

    /// The class field of a question or record: the number, with its top bit set where `top_bit` says so:
    /// a unicast response is asked for, or the cache is to be flushed (RFC 6762, 5.4 and 10.2).
    pub fn to_field(self, top_bit: bool) -> u16
        ensures { result ≡ class_field top_bit (class_number self) }
    {
        let number = u16::from(self);
        if top_bit {
            0x8000 | number & 0x7FFF
        } else {
            number
        }
    }

    /// The class of a class field, never `OPT`, and the field's top bit (RFC 6762, 5.4 and 10.2).
    pub fn from_field(field: u16) -> (DNSClass, bool)
        ensures class { result.0 ≡ field_class field }
        ensures top { result.1 ≡ field_top field }
    {
        (DNSClass::from(field & 0x7FFF), field >= 0x8000)
    }

    /// Where this class stands among those of its number.
    fn rank(self) -> u8
        ensures { result ≡ class_rank self }
    {
        match self {
            DNSClass::OPT(_) => 1,
            DNSClass::Unknown(_) => 2,
            _ => 0,
        }
    }
}

impl From<u16> for DNSClass {
    ghost from_gives = { λ number c. c ≡ class_of number };

    /// The named class of this number, else `Unknown` (RFC 3597, 2); never `OPT`.
    fn from(number: u16) -> DNSClass {
        match number {
            1 => DNSClass::IN,
            3 => DNSClass::CH,
            4 => DNSClass::HS,
            254 => DNSClass::NONE,
            255 => DNSClass::ANY,
            _ => DNSClass::Unknown(number),
        }
    }
}

impl From<DNSClass> for u16 {
    ghost from_gives = { λ c number. number ≡ class_number c };

    /// The number on the wire (RFC 1035, 3.2.4 and 3.2.5), or the payload size (RFC 6891, 6.1.2).
    fn from(class: DNSClass) -> u16 {
        match class {
            DNSClass::IN => 1,
            DNSClass::CH => 3,
            DNSClass::HS => 4,
            DNSClass::NONE => 254,
            DNSClass::ANY => 255,
            DNSClass::OPT(payload) => payload,
            DNSClass::Unknown(number) => number,
        }
    }
}

impl fmt::Display for DNSClass {
    ghost output = { λ c. Some (class_text c) };

    /// The name in upper case, `CLASSn` for `Unknown(n)` (RFC 3597, 5), or `OPT`.
    fn fmt<W: fmt::Write>(&self, f: &mut fmt::Formatter<W>) -> fmt::Result {
        match self {
            DNSClass::IN => f.write_str("IN"),
            DNSClass::CH => f.write_str("CH"),
            DNSClass::HS => f.write_str("HS"),
            DNSClass::NONE => f.write_str("NONE"),
            DNSClass::ANY => f.write_str("ANY"),
            DNSClass::OPT(_) => f.write_str("OPT"),
            DNSClass::Unknown(number) => write!(f, "CLASS{number}"),
        }
    }
}

impl Ord for DNSClass {
    ghost cmp = { class_cmp };

    ghost total = { Prim.search (comparing, rules) };

    ghost matches_partial_cmp = { Prim.search (comparing, rules) };

    ghost matches_eq = { Prim.search (comparing, rules) };

    fn cmp(&self, other: &DNSClass) -> Ordering {
        u16::from(*self)
            .cmp(&u16::from(*other))
            .then(self.rank().cmp(&other.rank()))
    }
}

impl PartialOrd for DNSClass {
    ghost partial_cmp = { as_partial_cmp class_cmp };

    ghost laws = { partial_order_from_own_ties (Prim.search (comparing, rules))
        (Prim.search (comparing, rules)) };

    fn partial_cmp(&self, other: &DNSClass) -> Option<Ordering> {
        Some(self.cmp(other))
    }
}

/// A number is kept through the class that it is read as, which is no payload size, and a named class through
/// its number (RFC 3597, 2).
pub fn class_round_trip()
    ensures number { (n : ℕ) → n < 2 ^ 16 → class_number (class_of n) ≡ n }
    ensures named { (c : DNSClass) → IsTrue (is_named_class c) → class_of (class_number c) ≡ c }
    ensures no_payload { (n : ℕ) → is_opt_class (class_of n) ≡ false }
{}

/// A payload size is kept from 512 on, and a smaller one is 512 (RFC 6891, 6.2.3).
pub fn payload_sizes()
    ensures payload { (n : ℕ) → IsTrue (is_opt_class (opt_class n)) }
    ensures kept { (n : ℕ) → MIN_PAYLOAD ≤ n → class_number (opt_class n) ≡ n }
    ensures raised { (n : ℕ) → n < MIN_PAYLOAD → class_number (opt_class n) ≡ MIN_PAYLOAD }
{}

/// The text of a named class is read as that class and `*` as ANY, and that of another is not read; what is read as
/// a class is the text of it, a named one, or `*` (RFC 1035, 3.2.4 and 3.2.5; RFC 3597, 5).
pub fn class_text_round_trip()
    ensures text { (c : DNSClass) → IsTrue (is_named_class c)
        → class_from_text (class_text c) ≡ Some c }
    ensures unread { (c : DNSClass) → is_named_class c ≡ false
        → class_from_text (class_text c) ≡ None }
    ensures star { class_from_text (codes "*") ≡ Some DNSClass.ANY }
    ensures read { (text : List ℕ) (c : DNSClass) → class_from_text text ≡ Some c
        → (class_text c ≡ text) ⊎ ((text ≡ codes "*") × (c ≡ DNSClass.ANY)) }
    ensures named { (text : List ℕ) (c : DNSClass) → class_from_text text ≡ Some c
        → IsTrue (is_named_class c) }
{}

/// The order goes by number, at one number a named class stands before a payload size and that before an unknown
/// class, and no two classes tie: classes serve as the keys of maps.
pub fn class_order()
    ensures by_number { (a b : DNSClass) → class_number a < class_number b
        → ⟦<DNSClass as Ord>⟧.cmp a b ≡ Ordering.Less }
    ensures named_first { (c : DNSClass) → IsTrue (is_named_class c)
        → ⟦<DNSClass as Ord>⟧.cmp c (DNSClass.OPT (class_number c)) ≡ Ordering.Less }
    ensures payload_next { (n : ℕ)
        → ⟦<DNSClass as Ord>⟧.cmp (DNSClass.OPT n) (DNSClass.Unknown n) ≡ Ordering.Less }
    ensures exact { (a b : DNSClass) → ⟦<DNSClass as Ord>⟧.cmp a b ≡ Ordering.Equal → a ≡ b }
    // Classes that are equal by `==` are the same one.
    ensures same { (a b : DNSClass) → IsTrue (⟦<DNSClass as PartialEq>⟧.eq a b) → a ≡ b }
{}
