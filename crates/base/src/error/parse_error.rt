//! The refusals of zone text and of the text of names.

ghost use Rattle.std.specs.Prelude.{◌≡◌};
ghost use Rattle.base.specs.ParseError.{parse_number};
ghost use Rattle.base.specs.declared.error.parse_error.ParseError.TheVariants as refusals;

use crate::record_type::RecordType;
use crate::text::Token;
use std::alloc::{AllocError, AllocFailed};
use thiserror::Error;

/// Why zone text could not be read.
#[derive(Debug, Drop, Error)]
pub enum ParseError {
    /// Memory ran out.
    #[error("out of memory")]
    Memory,
    /// A token that the entry has no place for.
    #[error("unexpected token")]
    UnexpectedToken(Token),
    /// A character or a bracket that no token has a place for.
    #[error("the text can't be split into tokens")]
    Lexer,
    /// An entry that can't be carried out, in words.
    #[error("{0}")]
    Message(&'static str),
    /// An included text that was not handed in.
    #[error("no text named {0} to include")]
    IncludeNotFound(String),
    /// A text that is no record type, in upper case.
    #[error("unknown record type: {0}")]
    UnknownRecordType(String),
    /// A type without a text form.
    #[error("record type {0} has no text form")]
    UnsupportedRecordType(RecordType),
    /// Items that are no data of the type.
    #[error("invalid data for type {0}")]
    BadData(RecordType),
    /// A name that the text rules refuse (RFC 1035, 5.1).
    #[error("invalid name")]
    BadName,
    /// A TTL that the text rules refuse.
    #[error("invalid TTL")]
    BadTtl,
}

impl ParseError {
    /// The number of the refusal.
    pub fn number(&self) -> u8
        ensures { result ≡ parse_number self.now }
    {
        match self {
            ParseError::Memory => 3,
            ParseError::UnexpectedToken(_) => 17,
            ParseError::Lexer => 18,
            ParseError::Message(_) => 19,
            ParseError::IncludeNotFound(_) => 20,
            ParseError::UnknownRecordType(_) => 21,
            ParseError::UnsupportedRecordType(_) => 22,
            ParseError::BadData(_) => 23,
            ParseError::BadName => 23,
            ParseError::BadTtl => 23,
        }
    }
}

impl From<AllocError> for ParseError {
    ghost from_gives = { λ _ e. e ≡ refusals.Memory };

    /// Running out of memory is `Memory`.
    fn from(_e: AllocError) -> ParseError {
        ParseError::Memory
    }
}

impl<T: Drop> From<AllocFailed<T>> for ParseError {
    ghost from_gives = { λ _ e. e ≡ refusals.Memory };

    /// Running out of memory is `Memory`. The value that it was for is dropped.
    fn from(_e: AllocFailed<T>) -> ParseError {
        ParseError::Memory
    }
}
