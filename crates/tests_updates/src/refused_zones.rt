//! What the refusal of a zone's text names: the token, the reason in words, the text that is missing, the type.

use base::{Name, ParseError, Token};
use std::alloc::{AllocError, Global};
use std::collections::BTreeMap;
use std::test::Fail;
use txt::Parser;

/// The origin, the text, the number of the refusal, and what it names.
const REFUSED: &[(&'static str, &'static str, u8, &'static str)] = &[
    ("a.", "www 60 CNAME @\n", 17, "@"),
    ("a.", "$INCLUDE\n", 17, "\n"),
    (
        "a.",
        "$INCLUDE f\n",
        19,
        "Max depth level for nested $INCLUDE is reached",
    ),
    (
        "a.",
        "$INCLUDE f other.\n",
        19,
        "Domain name for $INCLUDE is not supported",
    ),
    ("", "a. 60 A 192.0.2.1", 19, "$ORIGIN was not specified"),
    ("", "@ 60 A 192.0.2.1\n", 19, "record name not specified"),
    ("a.", "n A 192.0.2.1\n", 19, "record ttl not specified"),
    (
        "a.",
        "@ 5 SOA a b 1 1 1 1 1\n@ SOA a b 2 1 1 1 1\n",
        19,
        "SOA is already specified",
    ),
    ("a.", "$INCLUDE g\n", 20, "g"),
    (
        "",
        "$ORIGIN parsed.zone.origin.org.\n faulty-record-type 60 IN A 1.2.3.4\n",
        21,
        "FAULTY-RECORD-TYPE",
    ),
    ("a.", "n 60 TYPE11 x\n", 21, "TYPE11"),
];

/// What the refusal names.
fn named(refusal: &ParseError) -> &str {
    match refusal {
        ParseError::UnexpectedToken(Token::At) => "@",
        ParseError::UnexpectedToken(Token::EOL) => "\n",
        ParseError::Message(text) => *text,
        ParseError::IncludeNotFound(text) | ParseError::UnknownRecordType(text) => text.as_str(),
        _ => "",
    }
}

/// One text, `f`, which includes itself.
fn includes(alloc: Global) -> Result<BTreeMap<String, String>, AllocError> {
    let name = String::from_str(alloc, "f")?;
    let text = String::from_str(alloc, "$INCLUDE f\n")?;
    let mut includes = BTreeMap::new(alloc);
    includes.insert(name, text)?;
    Ok(includes)
}

/// Whether a row's text under its origin, or under none, is refused with the row's number, and
/// the refusal names what the row does.
fn is_refused(
    alloc: Global,
    includes: &BTreeMap<String, String>,
    &(under, text, number, wanted): &(&str, &str, u8, &str),
) -> Result<bool, ParseError> {
    let origin = if under.is_empty() {
        None
    } else {
        Some(Name::parse(alloc, under, None)?)
    };
    Ok(match Parser::new(alloc, text, includes, origin).parse() {
        Ok(_) => false,
        Err(refusal) => refusal.number() == number && named(&refusal) == wanted,
    })
}

#[test]
fn refusals_name_what_is_wrong(rt: HostRuntime) -> Result<(), Fail> {
    let includes = includes(rt.alloc())?;
    for row in REFUSED {
        assert!(rt; is_refused(rt.alloc(), &includes, row)?, "{row:?}");
    }
    Ok(())
}
