//! Why a zone isn't read, or isn't updated.

ghost use Rattle.std.specs.Prelude.{◌≡◌};
ghost use Rattle.parsed_zone.specs.Faults.{zone_number};
ghost use Rattle.parsed_zone.specs.declared.refusal.ZoneRefusal.TheVariants as refusals;

use base::ParseError;
use std::alloc::AllocError;

/// Why a zone isn't read, or isn't updated.
#[derive(Debug, Drop)]
pub enum ZoneRefusal {
    /// The bytes aren't UTF-8.
    NotUtf8,
    /// The text is no zone's.
    Parse(ParseError),
    /// A set or a record isn't of the class IN.
    Class,
    /// Memory ran out.
    Memory,
}

impl ZoneRefusal {
    /// The number of the refusal.
    pub fn number(&self) -> u8
        ensures { result ≡ zone_number self.now }
    {
        match self {
            ZoneRefusal::NotUtf8 => 24,
            ZoneRefusal::Parse(e) => e.number(),
            ZoneRefusal::Class => 25,
            ZoneRefusal::Memory => 3,
        }
    }
}

impl From<ParseError> for ZoneRefusal {
    ghost from_gives = { λ e refusal. refusal ≡ refusals.Parse e };

    fn from(e: ParseError) -> ZoneRefusal {
        ZoneRefusal::Parse(e)
    }
}

impl From<AllocError> for ZoneRefusal {
    ghost from_gives = { λ _ refusal. refusal ≡ refusals.Memory };

    fn from(_e: AllocError) -> ZoneRefusal {
        ZoneRefusal::Memory
    }
}
