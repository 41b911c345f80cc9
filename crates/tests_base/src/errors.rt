//! Refusals: their numbers, that each prints, and texts of some.

use base::{DecodeError, Name, ParseError, ProtoError, RecordType, Token};
use std::alloc::{AllocError, Global};
use std::fmt;
use test_tools::forms::has_text;
use test_tools::texts::prints;

/// Whether a refusal has this text; where none is given, whether it prints.
fn is_shown_as<E: fmt::Display>(alloc: Global, refusal: &E, text: &str) -> bool {
    if text.is_empty() {
        prints(alloc, refusal)
    } else {
        has_text(alloc, refusal, text)
    }
}

#[test]
fn refusals_of_reading(rt: HostRuntime) {
    let refusals = [
        (DecodeError::Memory, 3, ""),
        (DecodeError::InsufficientBytes, 4, ""),
        (DecodeError::BadName, 5, ""),
        (DecodeError::EdnsNameNotRoot(Name::root(rt.alloc())), 6, ""),
        (
            DecodeError::IncorrectRDataLengthRead { read: 4, len: 5 },
            7,
            "",
        ),
        (DecodeError::BadData(RecordType::MX), 8, ""),
        (DecodeError::BadData(RecordType::A), 8, ""),
        (DecodeError::InvalidEmptyRecord, 10, ""),
        (
            DecodeError::RecordAfterSig,
            11,
            "record after TSIG or SIG(0)",
        ),
        (
            DecodeError::RecordNotInAdditionalSection(RecordType::OPT),
            12,
            "record type OPT only allowed in additional",
        ),
        (DecodeError::DuplicateEdns, 13, "more than one EDNS record"),
    ];
    for row in &refusals {
        let is_shown = is_shown_as(rt.alloc(), &row.0, row.2);
        assert!(rt; row.0.number() == row.1 && is_shown, "{}", row.1);
    }
    drop(refusals);
}

#[test]
fn refusals_of_zone_text(rt: HostRuntime) {
    let refusals = [
        (ParseError::Memory, 3),
        (ParseError::UnexpectedToken(Token::At), 17),
        (ParseError::UnexpectedToken(Token::EOL), 17),
        (ParseError::Lexer, 18),
        (ParseError::Message("$ORIGIN was not specified"), 19),
        (ParseError::Message("record name not specified"), 19),
        (ParseError::IncludeNotFound(String::new(rt.alloc())), 20),
        (ParseError::UnknownRecordType(String::new(rt.alloc())), 21),
        (ParseError::UnsupportedRecordType(RecordType::NULL), 22),
        (ParseError::BadData(RecordType::A), 23),
        (ParseError::BadName, 23),
        (ParseError::BadTtl, 23),
    ];
    for row in &refusals {
        let prints = prints(rt.alloc(), &row.0);
        assert!(rt; row.0.number() == row.1 && prints, "{}", row.1);
    }
    drop(refusals);
}

/// Whether the refusal of a text that isn't there, and that of a type, have their numbers, and the second names the
/// type.
fn are_named(alloc: Global, file: &str, record_type: &str, text: &str) -> Result<bool, AllocError> {
    let missing = ParseError::IncludeNotFound(String::from_str(alloc, file)?);
    let number = missing.number();
    drop(missing);
    let unknown = ParseError::UnknownRecordType(String::from_str(alloc, record_type)?);
    let is_named = unknown.number() == 21 && has_text(alloc, &unknown, text);
    drop(unknown);
    Ok(is_named && number == 20)
}

#[test]
fn refusals_of_what_a_zone_names(rt: HostRuntime) -> Result<(), AllocError> {
    assert!(rt; are_named(rt.alloc(), "f", "TYPE11", "unknown record type: TYPE11")?);
    Ok(())
}

#[test]
fn other_refusals(rt: HostRuntime) {
    let refusals = [
        (ProtoError::MaxBufferSizeExceeded, 1),
        (ProtoError::NotAllRecordsWritten { count: 7 }, 2),
        (ProtoError::NotAllRecordsWritten { count: 0 }, 2),
        (ProtoError::Memory, 3),
        (ProtoError::NotOpt, 9),
        (ProtoError::NotAResponse, 16),
        (ProtoError::from(DecodeError::BadName), 5),
        (ProtoError::Decode(DecodeError::BadName), 5),
        (
            ProtoError::Message("too many records to fit in header count"),
            14,
        ),
        (
            ProtoError::Message("too many queries to fit in header count"),
            15,
        ),
        (ProtoError::Message("too many"), 0),
    ];
    for row in &refusals {
        let prints = prints(rt.alloc(), &row.0);
        assert!(rt; row.0.number() == row.1 && prints, "{}", row.1);
    }
    drop(refusals);
}
