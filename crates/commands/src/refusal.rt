//! Why a command has no output: a refusal, whose number is printed, or an input that can't be read.

ghost use Rattle.std.specs.Prelude.{◌≡◌};
ghost use Rattle.base.specs.declared.error.proto_error.ProtoError.TheVariants as protos;
ghost use Rattle.commands.specs.Refusal.{refusal_number};
ghost use Rattle.commands.specs.declared.refusal.Failure.TheVariants as failures;
ghost use Rattle.commands.specs.declared.refusal.Refusal.TheVariants as refusals;

use base::{DecodeError, ProtoError};
use parsed_zone::ZoneRefusal;
use std::alloc::AllocError;

/// Why a command prints `refused` and a number.
#[derive(Debug, Drop)]
pub enum Refusal {
    /// The input isn't what the command takes.
    Input,
    /// The bytes could not be read.
    Decode(DecodeError),
    /// A call of the library was refused.
    Proto(ProtoError),
    /// The zone is refused: its text, or a class other than IN.
    Zone(ZoneRefusal),
}

impl Refusal {
    /// The number that is printed.
    pub fn number(&self) -> u8
        ensures { result ≡ refusal_number self.now }
    {
        match self {
            Refusal::Input => 24,
            Refusal::Decode(e) => e.number(),
            Refusal::Proto(e) => e.number(),
            Refusal::Zone(e) => e.number(),
        }
    }
}

impl From<AllocError> for Refusal {
    ghost from_gives = { λ _ e. refusal_number e ≡ 3 };

    fn from(_e: AllocError) -> Refusal {
        Refusal::Proto(ProtoError::Memory)
    }
}

impl From<DecodeError> for Refusal {
    ghost from_gives = { λ d e. e ≡ refusals.Decode d };

    fn from(e: DecodeError) -> Refusal {
        Refusal::Decode(e)
    }
}

impl From<ProtoError> for Refusal {
    ghost from_gives = { λ p e. e ≡ refusals.Proto p };

    fn from(e: ProtoError) -> Refusal {
        Refusal::Proto(e)
    }
}

impl From<ZoneRefusal> for Refusal {
    ghost from_gives = { λ z e. e ≡ refusals.Zone z };

    fn from(e: ZoneRefusal) -> Refusal {
        Refusal::Zone(e)
    }
}

/// Why a run of a command has no answer.
#[derive(Debug, Drop)]
pub enum Failure {
    /// The command refuses: the number of the refusal is printed.
    Refused(Refusal),
    /// The input can't be read: nothing is printed.
    Broken,
}

impl From<Refusal> for Failure {
    ghost from_gives = { λ refusal e. e ≡ failures.Refused refusal };

    fn from(refusal: Refusal) -> Failure {
        Failure::Refused(refusal)
    }
}

impl From<AllocError> for Failure {
    ghost from_gives = { λ _ e. e ≡ failures.Refused (refusals.Proto protos.Memory) };

    fn from(_e: AllocError) -> Failure {
        Failure::Refused(Refusal::Proto(ProtoError::Memory))
    }
}
