//! Questions, as they are asked and in lower case.

use base::{DNSClass, DecodeError, Name, ParseError, RecordType};
use op::{LowerQuery, Query};
use std::alloc::Global;
use std::test::Fail;
use test_tools::forms::{
    has_text, is_copied, is_cut, is_read_as, is_read_to, is_read_with_text, is_written_as,
    is_written_back, read,
};

/// Questions in upper and lower case; the name of the second has memory of its own.
const WWW: &[u8] = b"\x03WWW\x07example\x03com\x00\x00\x1C\x00\x01";

const LONG: &[u8] = b"\x1DA-Name-With-Memory-Of-Its-Own\x00\x00\x1C\x00\x01";

/// Whether a question is written as these bytes, and read from them, and has this text.
fn stands_as(alloc: Global, query: Query, wire: &[u8], text: &str) -> bool {
    let stands = is_written_as(alloc, &query, wire) && is_read_as(alloc, wire, &query);
    let is_shown = has_text(alloc, &query, text);
    drop(query);
    stands && is_shown
}

#[test]
fn a_question(rt: HostRuntime) -> Result<(), ParseError> {
    let name = Name::parse(rt.alloc(), "WWW.example.com.", None)?;
    let text = "WWW.example.com. IN AAAA; mdns_unicast_response: false";
    let stands = stands_as(rt.alloc(), Query::query(name, RecordType::AAAA), WWW, text);
    let is_read = is_read_with_text::<Query>(rt.alloc(), WWW, text);
    assert!(rt; stands && is_read && is_read_to::<Query>(rt.alloc(), WWW, 21));
    let text = "name: www.example.com. type: AAAA class: IN";
    let is_written = is_written_back::<LowerQuery>(rt.alloc(), WWW);
    assert!(rt; is_written && is_read_with_text::<LowerQuery>(rt.alloc(), WWW, text));
    Ok(())
}

/// Whether a lower question is the one in lower case, and keeps the one that was asked.
fn is_lowered(alloc: Global, question: &LowerQuery, lower: &str, asked: &str) -> bool {
    let asks = question.query_type() == RecordType::AAAA && question.query_class() == DNSClass::IN;
    asks && has_text(alloc, question.name(), lower)
        && has_text(alloc, question.original().name(), asked)
}

/// Whether that is so of the lower question of these bytes, and the one that is made of their question is read of them,
/// and is equal to its copy.
fn keeps_what_was_asked(
    alloc: Global,
    wire: &[u8],
    lower: &str,
    asked: &str,
) -> Result<bool, Fail> {
    let question: LowerQuery = read(alloc, wire)?;
    let is_lowered = is_lowered(alloc, &question, lower, asked);
    drop(question);
    let question: Query = read(alloc, wire)?;
    let made = LowerQuery::try_from(question)?;
    let is_read = is_read_as(alloc, wire, &made);
    Ok(is_copied(made) && is_read && is_lowered)
}

/// Questions, their names in lower case, and as they were asked.
const ASKED: &[(&'static [u8], &'static str, &'static str)] = &[
    (WWW, "www.example.com.", "WWW.example.com."),
    (
        LONG,
        "a-name-with-memory-of-its-own.",
        "A-Name-With-Memory-Of-Its-Own.",
    ),
];

#[test]
fn a_lower_question_keeps_the_one_that_was_asked(rt: HostRuntime) -> Result<(), Fail> {
    for &(wire, lower, asked) in ASKED {
        assert!(rt;
            keeps_what_was_asked(rt.alloc(), wire, lower, asked)?,
            "{asked}"
        );
    }
    Ok(())
}

/// A question of the root with the unicast bit.
const UNICAST: &[u8] = &[0x00, 0x00, 0x01, 0x80, 0x01];

/// Whether the bytes begin with a question of this name, for this type in this class, and whether it asks for unicast.
fn asks(
    alloc: Global,
    wire: &[u8],
    name: &str,
    query_type: RecordType,
    class: DNSClass,
) -> (bool, bool) {
    let found: Result<Query, DecodeError> = read(alloc, wire);
    let asks = match &found {
        Ok(query) => {
            let is_typed = query.query_type() == query_type && query.query_class() == class;
            let is_named = has_text(alloc, query.name(), name);
            (is_typed && is_named, query.mdns_unicast_response())
        }
        Err(_) => (false, false),
    };
    drop(found);
    asks
}

#[test]
fn the_top_bit_asks_for_unicast(rt: HostRuntime) {
    let read = asks(rt.alloc(), UNICAST, ".", RecordType::A, DNSClass::IN);
    assert!(rt; read == (true, true));
    let mut query = Query::new(rt.alloc());
    query.set_mdns_unicast_response(true);
    let text = ". IN A; mdns_unicast_response: true";
    assert!(rt; stands_as(rt.alloc(), query, UNICAST, text));
    let plain = Query::new(rt.alloc());
    let is_written = is_written_as(rt.alloc(), &plain, &[0, 0, 1, 0, 1]);
    let is_read = is_read_as(rt.alloc(), UNICAST, &plain);
    drop(plain);
    assert!(rt; is_written && !is_read);
}

/// Whether the bytes begin with no name.
fn is_bad_name(alloc: Global, bytes: &[u8]) -> bool {
    let refused: Result<Query, DecodeError> = read(alloc, bytes);
    let is_bad = matches!(&refused, Err(DecodeError::BadName));
    drop(refused);
    is_bad
}

#[test]
fn questions_that_are_read_as_others_or_refused(rt: HostRuntime) {
    let wire = [0x01, 0x61, 0x00, 0x00, 0x29, 0x00, 0x64];
    let read = asks(
        rt.alloc(),
        &wire,
        "a.",
        RecordType::OPT,
        DNSClass::Unknown(100),
    );
    assert!(rt; read == (true, false));
    assert!(rt; is_bad_name(rt.alloc(), &[0x40, 0x00]));
    let ends_in_name = is_cut::<Query>(rt.alloc(), &[0x03, 0x77, 0x77]);
    assert!(rt; ends_in_name && is_cut::<Query>(rt.alloc(), &[0x00, 0x00, 0x01, 0x00]));
}

/// Whether the question that the setters make of the first name in this class has this text, is its copy, and is the
/// question for the second name in IN or not.
fn is_set(
    alloc: Global,
    (one, other): (&str, &str),
    class: DNSClass,
    text: &str,
    is_same: bool,
) -> Result<bool, ParseError> {
    let name = Name::parse(alloc, one, None)?;
    let other = Name::parse(alloc, other, None)?;
    let mut query = Query::new(alloc);
    query
        .set_name(name)
        .set_query_type(RecordType::MX)
        .set_query_class(DNSClass::CH)
        .set_query_class(class);
    let other = Query::query(other, RecordType::MX);
    let is_right = (query == other) == is_same && has_text(alloc, &query, text);
    drop(other);
    Ok(is_copied(query) && is_right)
}

/// Names, classes, the texts of the questions, and whether they are the same as the other.
const SET: &[((&'static str, &'static str), DNSClass, &'static str, bool)] = &[
    (
        ("a.", "A."),
        DNSClass::CH,
        "a. CH MX; mdns_unicast_response: false",
        false,
    ),
    (
        ("a.", "A."),
        DNSClass::IN,
        "a. IN MX; mdns_unicast_response: false",
        true,
    ),
    (
        (
            "a-name-with-memory-of-its-own.",
            "A-Name-With-Memory-Of-Its-Own.",
        ),
        DNSClass::IN,
        "a-name-with-memory-of-its-own. IN MX; mdns_unicast_response: false",
        true,
    ),
];

#[test]
fn setters_change_their_field(rt: HostRuntime) -> Result<(), ParseError> {
    for &(names, class, text, is_same) in SET {
        assert!(rt; is_set(rt.alloc(), names, class, text, is_same)?, "{text}");
    }
    Ok(())
}
