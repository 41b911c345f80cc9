//! Why a call gives its caller nothing.

ghost use Rattle.std.specs.Prelude.{◌≡◌};
ghost use Rattle.base.specs.DecodeError.{decode_number};
ghost use Rattle.base.specs.ParseError.{parse_number};
ghost use Rattle.base.specs.ProtoError.{proto_number};
ghost use Rattle.parsed_zone.specs.Faults.{zone_number};

use base::{DecodeError, ParseError, ProtoError};
use parsed_zone::ZoneRefusal;
use std::alloc::{AllocError, AllocFailed};

/// A refusal, as C sees it.
#[derive(Drop)]
pub struct Refusal {
    /// Its number (docs/REFUSALS.md).
    pub number: u8,
}

impl Refusal {
    /// A text isn't UTF-8.
    pub const NOT_UTF8: Refusal = Refusal { number: 24 };

    /// A record isn't of the class IN.
    pub const CLASS: Refusal = Refusal { number: 25 };

    /// No zone is named: the origin has no bytes.
    pub const NO_ORIGIN: Refusal = Refusal { number: 26 };

    /// The text of a set has no record, or records of several owners or types.
    pub const NOT_ONE_SET: Refusal = Refusal { number: 27 };

    /// The owner isn't in the zone.
    pub const OUTSIDE: Refusal = Refusal { number: 28 };

    /// No update here is of this type.
    pub const TYPE: Refusal = Refusal { number: 29 };

    /// The record isn't the SOA of the zone.
    pub const NOT_SOA: Refusal = Refusal { number: 30 };

    /// The message can't stand on the wire: data has a relative name.
    pub const NOT_ON_WIRE: Refusal = Refusal { number: 31 };

    /// The message has more than 65,535 bytes.
    pub const TOO_LONG: Refusal = Refusal { number: 32 };

    /// An owner is left with two ANAME records, which the text of a zone can't say.
    pub const TWO_ANAMES: Refusal = Refusal { number: 33 };

    /// The handle is closed.
    pub const CLOSED: Refusal = Refusal { number: 34 };

    /// The zone has no SOA set of exactly one SOA record.
    pub const NO_SOA: Refusal = Refusal { number: 35 };

    /// The place of a transfer is none that a call left.
    pub const NO_PLACE: Refusal = Refusal { number: 36 };

    /// The text names no class, or no response code.
    pub const NO_MNEMONIC: Refusal = Refusal { number: 37 };

    /// The message is a response, where a query is asked for.
    pub const NOT_A_QUERY: Refusal = Refusal { number: 38 };
}

impl From<AllocError> for Refusal {
    ghost from_gives = { λ _ refusal. refusal.number ≡ 3 };

    fn from(_e: AllocError) -> Refusal {
        Refusal { number: 3 }
    }
}

impl<T: Drop> From<AllocFailed<T>> for Refusal {
    ghost from_gives = { λ _ refusal. refusal.number ≡ 3 };

    fn from(_e: AllocFailed<T>) -> Refusal {
        Refusal { number: 3 }
    }
}

impl From<DecodeError> for Refusal {
    ghost from_gives = { λ e refusal. refusal.number ≡ decode_number e };

    fn from(e: DecodeError) -> Refusal {
        Refusal { number: e.number() }
    }
}

impl From<ProtoError> for Refusal {
    ghost from_gives = { λ e refusal. refusal.number ≡ proto_number e };

    fn from(e: ProtoError) -> Refusal {
        Refusal { number: e.number() }
    }
}

impl From<ParseError> for Refusal {
    ghost from_gives = { λ e refusal. refusal.number ≡ parse_number e };

    fn from(e: ParseError) -> Refusal {
        Refusal { number: e.number() }
    }
}

impl From<ZoneRefusal> for Refusal {
    ghost from_gives = { λ e refusal. refusal.number ≡ zone_number e };

    fn from(e: ZoneRefusal) -> Refusal {
        Refusal { number: e.number() }
    }
}
