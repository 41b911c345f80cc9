//! Where zone text is refused, and for what.

ghost use Rattle.std.specs.Prelude.{◌≡◌, None};
ghost use Rattle.base.specs.declared.error.parse_error.ParseError.TheVariants as refusals;

use base::ParseError;
use std::alloc::{AllocError, AllocFailed};

/// An `$INCLUDE` on the way to a fault.
#[derive(Debug, Drop)]
pub struct Inclusion {
    /// The name of the text that it opens.
    pub name: String,
    /// The line of that name, from 1, in the text that it stands in.
    pub line: usize,
}

/// A place in zone text.
#[derive(Debug, Drop)]
pub struct FaultPlace {
    /// The `$INCLUDE`s that lead to the text, the one in the text that was handed in first. The last one names the
    /// text; with none it is the text that was handed in.
    pub inclusions: Vec<Inclusion>,
    /// The line, from 1. A line ends with LF, CR or CR LF.
    pub line: usize,
    /// The column, from 1, in bytes.
    pub column: usize,
}

/// Why zone text is refused, and where.
#[derive(Debug, Drop)]
pub struct ZoneFault {
    /// What the first entry with a fault is refused for, in words by its `Display`; `Memory` if memory ran out.
    pub error: ParseError,
    /// The first token that makes the fault; `None` if memory ran out.
    pub place: Option<FaultPlace>,
}

impl From<AllocError> for ZoneFault {
    ghost from_gives = { λ _ e. e ≡ record { error = refusals.Memory; place = None } };

    /// Running out of memory is `Memory`, which has no place.
    fn from(_e: AllocError) -> ZoneFault {
        ZoneFault {
            error: ParseError::Memory,
            place: None,
        }
    }
}

impl<T: Drop> From<AllocFailed<T>> for ZoneFault {
    ghost from_gives = { λ _ e. e ≡ record { error = refusals.Memory; place = None } };

    /// Running out of memory is `Memory`, which has no place. The value that it was for is dropped.
    fn from(_e: AllocFailed<T>) -> ZoneFault {
        ZoneFault {
            error: ParseError::Memory,
            place: None,
        }
    }
}
