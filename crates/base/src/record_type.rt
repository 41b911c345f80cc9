//! The record types (RFC 1035, 3.2.2 and 3.2.3; RFC 6895, 3.1).

ghost use Rattle.std.specs.Prelude.{◌≡◌, ◌++◌, ◌^◌, ◌<◌, ℕ, List, IsTrue, Some, None, false, option_map};
ghost use Rattle.std.proofs.Common.{rules};
ghost use Rattle.std.specs.Array.Iter.{array_into_iter_items};
ghost use Rattle.std.specs.Cmp.{partial_order_from_own_ties};
ghost use Rattle.std.specs.Cmp.Rules.{comparing, hashing};
ghost use Rattle.std.specs.Hash as fed;
ghost use Rattle.std.specs.Ordering.{as_partial_cmp};
ghost use Rattle.base.specs.Keys.{keys_match};
ghost use Rattle.base.specs.RecordType.{is_dnssec_type, is_named_type, named_types, same_type, type_cmp, type_from_text, type_name, type_number, type_of, type_rank, type_text};

use std::cmp::Ordering;
use std::hash::{Hash, Hasher};
use std::{array, fmt};

/// A record type, or what a question asks for in place of one (RFC 1035, 3.2.2 and 3.2.3; RFC 6895, 3.1).
///
/// Types are ordered by number, a named one before `Unknown` of the same number.
#[derive(Clone, Copy, Debug, Drop)]
pub enum RecordType {
    /// The reserved number 0 (RFC 6895, 3.1), which a signature over a transaction covers (RFC 2931, 3).
    ZERO,
    /// An IPv4 address (RFC 1035, 3.4.1).
    A,
    /// A name server of the zone (RFC 1035, 3.3.11).
    NS,
    /// The canonical name of an alias (RFC 1035, 3.3.1).
    CNAME,
    /// The start of a zone of authority (RFC 1035, 3.3.13).
    SOA,
    /// Bytes of any meaning (RFC 1035, 3.3.10).
    NULL,
    /// A pointer to a name (RFC 1035, 3.3.12).
    PTR,
    /// A mail exchange (RFC 1035, 3.3.9).
    MX,
    /// Text strings (RFC 1035, 3.3.14).
    TXT,
    /// A signature of a transaction (RFC 2535, 4.1; RFC 2931).
    SIG,
    /// A key of a transaction's signature (RFC 2535, 3.1).
    KEY,
    /// An IPv6 address (RFC 3596, 2.1).
    AAAA,
    /// The place of a service (RFC 2782).
    SRV,
    /// The options of EDNS (RFC 6891, 6.1.1).
    OPT,
    /// A delegation's signer (RFC 4034, 5).
    DS,
    /// A signature of a record set (RFC 4034, 3).
    RRSIG,
    /// The next name that there is (RFC 4034, 4).
    NSEC,
    /// A key of a zone (RFC 4034, 2).
    DNSKEY,
    /// The next name that there is, hashed (RFC 5155, 3).
    NSEC3,
    /// How a zone hashes its names (RFC 5155, 4).
    NSEC3PARAM,
    /// A child's copy of its DS records (RFC 7344, 3.1).
    CDS,
    /// A child's copy of the keys for its DS records (RFC 7344, 3.2).
    CDNSKEY,
    /// A signature of a transaction by a shared secret (RFC 8945, 4.2).
    TSIG,
    /// A transfer of a zone's changes (RFC 1995, 2).
    IXFR,
    /// A transfer of a whole zone (RFC 5936, 2.1).
    AXFR,
    /// Any type, in a question (RFC 1035, 3.2.3) or an update (RFC 2136, 2.4).
    ANY,
    /// An alias that is resolved to addresses, of a number for private use (RFC 6895, 3.1).
    ANAME,
    /// The type of this number. `from` makes it of the numbers without a name alone (RFC 3597, 2).
    Unknown(u16),
}

impl RecordType {
    /// The type whose name is `text`, letter for letter in upper case (RFC 1035, 3.2.2 and 3.2.3).
    /// The text `TYPEn` of a type without a name (RFC 3597, 5) is not read.
    pub fn from_text(text: &str) -> Option<RecordType>
        ensures { result ≡ type_from_text text.now }
    {
        match text {
            "ZERO" => Some(RecordType::ZERO),
            "A" => Some(RecordType::A),
            "NS" => Some(RecordType::NS),
            "CNAME" => Some(RecordType::CNAME),
            "SOA" => Some(RecordType::SOA),
            "NULL" => Some(RecordType::NULL),
            "PTR" => Some(RecordType::PTR),
            "MX" => Some(RecordType::MX),
            "TXT" => Some(RecordType::TXT),
            "SIG" => Some(RecordType::SIG),
            "KEY" => Some(RecordType::KEY),
            "AAAA" => Some(RecordType::AAAA),
            "SRV" => Some(RecordType::SRV),
            "OPT" => Some(RecordType::OPT),
            "DS" => Some(RecordType::DS),
            "RRSIG" => Some(RecordType::RRSIG),
            "NSEC" => Some(RecordType::NSEC),
            "DNSKEY" => Some(RecordType::DNSKEY),
            "NSEC3" => Some(RecordType::NSEC3),
            "NSEC3PARAM" => Some(RecordType::NSEC3PARAM),
            "CDS" => Some(RecordType::CDS),
            "CDNSKEY" => Some(RecordType::CDNSKEY),
            "TSIG" => Some(RecordType::TSIG),
            "IXFR" => Some(RecordType::IXFR),
            "AXFR" => Some(RecordType::AXFR),
            "ANY" => Some(RecordType::ANY),
            "ANAME" => Some(RecordType::ANAME),
            _ => None,
        }
    }

    /// The name of a named type (RFC 1035, 3.2.2 and 3.2.3).
    fn name(self) -> Option<&'static str>
        ensures { option_map (λ name. name.now) result ≡ type_name self }
    {
        match self {
            RecordType::ZERO => Some("ZERO"),
            RecordType::A => Some("A"),
            RecordType::NS => Some("NS"),
            RecordType::CNAME => Some("CNAME"),
            RecordType::SOA => Some("SOA"),
            RecordType::NULL => Some("NULL"),
            RecordType::PTR => Some("PTR"),
            RecordType::MX => Some("MX"),
            RecordType::TXT => Some("TXT"),
            RecordType::SIG => Some("SIG"),
            RecordType::KEY => Some("KEY"),
            RecordType::AAAA => Some("AAAA"),
            RecordType::SRV => Some("SRV"),
            RecordType::OPT => Some("OPT"),
            RecordType::DS => Some("DS"),
            RecordType::RRSIG => Some("RRSIG"),
            RecordType::NSEC => Some("NSEC"),
            RecordType::DNSKEY => Some("DNSKEY"),
            RecordType::NSEC3 => Some("NSEC3"),
            RecordType::NSEC3PARAM => Some("NSEC3PARAM"),
            RecordType::CDS => Some("CDS"),
            RecordType::CDNSKEY => Some("CDNSKEY"),
            RecordType::TSIG => Some("TSIG"),
            RecordType::IXFR => Some("IXFR"),
            RecordType::AXFR => Some("AXFR"),
            RecordType::ANY => Some("ANY"),
            RecordType::ANAME => Some("ANAME"),
            RecordType::Unknown(_) => None,
        }
    }

    /// Whether this is a type of DNSSEC (RFC 2535, 3 and 4; RFC 4034; RFC 5155, 3 and 4; RFC 7344, 3).
    pub fn is_dnssec(&self) -> bool
        ensures { result ≡ is_dnssec_type self.now }
    {
        match self {
            RecordType::SIG
            | RecordType::KEY
            | RecordType::DS
            | RecordType::RRSIG
            | RecordType::NSEC
            | RecordType::DNSKEY
            | RecordType::NSEC3
            | RecordType::NSEC3PARAM
            | RecordType::CDS
            | RecordType::CDNSKEY => true,
            _ => false,
        }
    }

    /// Where this type stands among those of its number.
    fn rank(self) -> u8
        ensures { result ≡ type_rank self }
    {
        match self {
            RecordType::Unknown(_) => 1,
            _ => 0,
        }
    }
}

impl From<u16> for RecordType {
    ghost from_gives = { λ number t. t ≡ type_of number };

    /// The named type of this number, else `Unknown` (RFC 3597, 2).
    #[inline(always)]
    fn from(number: u16) -> RecordType {
        match number {
            0 => RecordType::ZERO,
            1 => RecordType::A,
            2 => RecordType::NS,
            5 => RecordType::CNAME,
            6 => RecordType::SOA,
            10 => RecordType::NULL,
            12 => RecordType::PTR,
            15 => RecordType::MX,
            16 => RecordType::TXT,
            24 => RecordType::SIG,
            25 => RecordType::KEY,
            28 => RecordType::AAAA,
            33 => RecordType::SRV,
            41 => RecordType::OPT,
            43 => RecordType::DS,
            46 => RecordType::RRSIG,
            47 => RecordType::NSEC,
            48 => RecordType::DNSKEY,
            50 => RecordType::NSEC3,
            51 => RecordType::NSEC3PARAM,
            59 => RecordType::CDS,
            60 => RecordType::CDNSKEY,
            250 => RecordType::TSIG,
            251 => RecordType::IXFR,
            252 => RecordType::AXFR,
            255 => RecordType::ANY,
            65305 => RecordType::ANAME,
            _ => RecordType::Unknown(number),
        }
    }
}

impl From<RecordType> for u16 {
    ghost from_gives = { λ t number. number ≡ type_number t };

    /// The number on the wire (RFC 1035, 3.2.2 and 3.2.3).
    fn from(record_type: RecordType) -> u16 {
        match record_type {
            RecordType::ZERO => 0,
            RecordType::A => 1,
            RecordType::NS => 2,
            RecordType::CNAME => 5,
            RecordType::SOA => 6,
            RecordType::NULL => 10,
            RecordType::PTR => 12,
            RecordType::MX => 15,
            RecordType::TXT => 16,
            RecordType::SIG => 24,
            RecordType::KEY => 25,
            RecordType::AAAA => 28,
            RecordType::SRV => 33,
            RecordType::OPT => 41,
            RecordType::DS => 43,
            RecordType::RRSIG => 46,
            RecordType::NSEC => 47,
            RecordType::DNSKEY => 48,
            RecordType::NSEC3 => 50,
            RecordType::NSEC3PARAM => 51,
            RecordType::CDS => 59,
            RecordType::CDNSKEY => 60,
            RecordType::TSIG => 250,
            RecordType::IXFR => 251,
            RecordType::AXFR => 252,
            RecordType::ANY => 255,
            RecordType::ANAME => 65305,
            RecordType::Unknown(number) => number,
        }
    }
}

impl fmt::Display for RecordType {
    ghost output = { λ t. Some (type_text t) };

    /// The name in upper case, or `TYPEn` for `Unknown(n)` (RFC 3597, 5).
    fn fmt<W: fmt::Write>(&self, f: &mut fmt::Formatter<W>) -> fmt::Result {
        match self.name() {
            Some(name) => f.write_str(name),
            None => write!(f, "TYPE{}", u16::from(*self)),
        }
    }
}

impl PartialEq for RecordType {
    ghost eq = { same_type };

    ghost laws = { Prim.search (comparing, rules) };

    #[inline(always)]
    fn eq(&self, other: &RecordType) -> bool {
        u16::from(*self) == u16::from(*other) && self.rank() == other.rank()
    }
}

impl Eq for RecordType {
    ghost laws = { Prim.search (comparing, rules) };
}

impl Hash for RecordType {
    ghost hash_input = { λ t. fed.u16 (type_number t) ++ fed.u8 (type_rank t) };

    ghost respects_eq = { Prim.search (hashing, rules) };

    fn hash<H: Hasher>(&self, state: &mut H) {
        u16::from(*self).hash(state);
        self.rank().hash(state);
    }
}

impl Ord for RecordType {
    ghost cmp = { type_cmp };

    ghost total = { Prim.search (comparing, rules) };

    ghost matches_partial_cmp = { Prim.search (comparing, rules) };

    ghost matches_eq = { keys_match type_number type_rank };

    fn cmp(&self, other: &RecordType) -> Ordering {
        u16::from(*self)
            .cmp(&u16::from(*other))
            .then(self.rank().cmp(&other.rank()))
    }
}

impl PartialOrd for RecordType {
    ghost partial_cmp = { as_partial_cmp type_cmp };

    ghost laws = { partial_order_from_own_ties (Prim.search (comparing, rules))
        (keys_match type_number type_rank) };

    fn partial_cmp(&self, other: &RecordType) -> Option<Ordering> {
        Some(self.cmp(other))
    }
}

/// A number is kept through the type that it is read as, and so is a named type through its number (RFC 3597, 2).
pub fn type_round_trip()
    ensures number { (n : ℕ) → n < 2 ^ 16 → type_number (type_of n) ≡ n }
    ensures named { (t : RecordType) → IsTrue (is_named_type t) → type_of (type_number t) ≡ t }
{}

/// The text of a named type is read as that type, and that of another is not read; what is read as a type is the
/// text of it, a named one (RFC 1035, 3.2.2 and 3.2.3; RFC 3597, 5).
pub fn type_text_round_trip()
    ensures text { (t : RecordType) → IsTrue (is_named_type t)
        → type_from_text (type_text t) ≡ Some t }
    ensures read { (text : List ℕ) (t : RecordType) → type_from_text text ≡ Some t
        → type_text t ≡ text }
    ensures unread { (t : RecordType) → is_named_type t ≡ false
        → type_from_text (type_text t) ≡ None }
    ensures named { (text : List ℕ) (t : RecordType) → type_from_text text ≡ Some t
        → IsTrue (is_named_type t) }
{}

/// The order goes by number, a named type stands before an unknown one of its number, and no two types tie:
/// types serve as the keys of maps.
pub fn type_order()
    ensures by_number { (a b : RecordType) → type_number a < type_number b
        → ⟦<RecordType as Ord>⟧.cmp a b ≡ Ordering.Less }
    ensures named_first { (t : RecordType) → IsTrue (is_named_type t)
        → ⟦<RecordType as Ord>⟧.cmp t (RecordType.Unknown (type_number t)) ≡ Ordering.Less }
    ensures exact { (a b : RecordType) → ⟦<RecordType as Ord>⟧.cmp a b ≡ Ordering.Equal → a ≡ b }
    // Types that are equal by `==` are the same one.
    ensures same { (a b : RecordType) → IsTrue (⟦<RecordType as PartialEq>⟧.eq a b) → a ≡ b }
{}
