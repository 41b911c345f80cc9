ghost use Rattle.std.specs.Prelude.{◌≡◌};
ghost use Rattle.base.specs.declared.error.proto_error.ProtoError.TheVariants as protos;
ghost use Rattle.examples.specs.declared.refusal.Refusal.TheVariants as refusals;

use base::{DecodeError, ParseError, ProtoError};
use std::alloc::AllocError;

/// Why no set was created in a zone.
#[derive(Debug, Drop)]
pub enum Refusal {
    /// The update doesn't fit a message.
    Input,
    /// The bytes could not be read.
    Decode(DecodeError),
    /// A call of the library was refused.
    Proto(ProtoError),
    /// The text is no zone's.
    Parse(ParseError),
    /// A set or a record of the zone isn't of the class IN.
    Class,
}

impl From<AllocError> for Refusal {
    ghost from_gives = { λ _ e. e ≡ refusals.Proto protos.Memory };

    fn from(_e: AllocError) -> Refusal {
        Refusal::Proto(ProtoError::Memory)
    }
}

impl From<DecodeError> for Refusal {
    ghost from_gives = { λ d e. e ≡ refusals.Decode d };

    fn from(e: DecodeError) -> Refusal {
        Refusal::Decode(e)
    }
}

impl From<ProtoError> for Refusal {
    ghost from_gives = { λ p e. e ≡ refusals.Proto p };

    fn from(e: ProtoError) -> Refusal {
        Refusal::Proto(e)
    }
}

impl From<ParseError> for Refusal {
    ghost from_gives = { λ p e. e ≡ refusals.Parse p };

    fn from(e: ParseError) -> Refusal {
        Refusal::Parse(e)
    }
}
