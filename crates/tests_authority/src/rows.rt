//! Rows of questions to a zone: each a line, with a name, a type, and what is said. Of a look-up that is which sets are
//! found, and how many records they have or where they lead; of an answer the code, AA, and the records of the three
//! sections, the owner, TTL and type of each.

ghost use Rattle.authority.specs.ZoneRef.{AreUnderKeys};

use crate::zone::parsed;
use authority::{Answer, Found, answer_question, lookup};
use base::{DNSClass, Name, RecordType, RrKey};
use rr::{Record, RecordSet};
use std::alloc::{AllocError, Global};
use std::collections::BTreeMap;
use std::test::Fail;

/// The call that is asked.
#[derive(Clone, Copy)]
pub(crate) enum Call {
    Lookup,
    Answer,
}

/// What was found, in words.
fn found_text(alloc: Global, found: &Found<'_>) -> Result<String, AllocError> {
    match found {
        Found::Outside => String::from_str(alloc, "Outside"),
        Found::NoName => String::from_str(alloc, "NoName"),
        Found::NoData => String::from_str(alloc, "NoData"),
        Found::Cut(set) => format!(in alloc; "Cut {} {}", set.name(), set.records_count()),
        Found::Alias(set, target) => format!(in alloc; "Alias {} {}", set.name(), target),
        Found::Data(set) => format!(in alloc; "Data {} {}", set.name(), set.records_count()),
        Found::All(sets) => format!(in alloc; "All {}", sets.len()),
    }
}

/// Adds a section.
fn add_section(alloc: Global, text: &mut String, records: &[Record]) -> Result<(), AllocError> {
    text.push_str(" |")?;
    for record in records {
        let line = format!(in alloc; " {} {} {};", record.name, record.ttl, record.record_type())?;
        text.push_str(&line)?;
    }
    Ok(())
}

/// Adds an answer, in words.
fn add_answer(alloc: Global, text: &mut String, answer: &Answer) -> Result<(), AllocError> {
    text.push_str(answer.response_code.to_str())?;
    if answer.authoritative {
        text.push_str(" AA")?;
    }
    add_section(alloc, text, &answer.answers)?;
    add_section(alloc, text, &answer.authorities)?;
    add_section(alloc, text, &answer.additionals)
}

/// What is found, in words.
fn lookup_text(
    alloc: Global,
    origin: &Name,
    sets: &BTreeMap<RrKey, RecordSet>,
    name: &Name,
    record_type: RecordType,
) -> Result<String, Fail> {
    let found = lookup(alloc, sets, origin, name, record_type)?;
    Ok(found_text(alloc, &found)?)
}

/// What is answered, in words.
fn answer_text(
    alloc: Global,
    origin: &Name,
    sets: &BTreeMap<RrKey, RecordSet>,
    name: &Name,
    record_type: RecordType,
) -> Result<String, Fail>
    requires { AreUnderKeys sets.now }
{
    let answer = answer_question(alloc, sets, origin, DNSClass::IN, name, record_type)?;
    let mut text = String::new(alloc);
    add_answer(alloc, &mut text, &answer)?;
    Ok(text)
}

/// What is said to a question: a name and a type.
fn said(
    alloc: Global,
    origin: &Name,
    sets: &BTreeMap<RrKey, RecordSet>,
    call: Call,
    name: &str,
    record_type: RecordType,
) -> Result<String, Fail>
    requires { AreUnderKeys sets.now }
{
    let name = Name::parse(alloc, name, Some(origin))?;
    match call {
        Call::Lookup => lookup_text(alloc, origin, sets, &name, record_type),
        Call::Answer => answer_text(alloc, origin, sets, &name, record_type),
    }
}

/// Whether the sets say what a row does.
fn is_said(
    alloc: Global,
    origin: &Name,
    sets: &BTreeMap<RrKey, RecordSet>,
    call: Call,
    row: &str,
) -> Result<bool, Fail>
    requires { AreUnderKeys sets.now }
{
    let Some((question, wanted)) = row.split_once(" => ") else {
        return Ok(false);
    };
    let Some((name, record_type)) = question.split_once(' ') else {
        return Ok(false);
    };
    let Some(record_type) = RecordType::from_text(record_type) else {
        return Ok(false);
    };
    let text = said(alloc, origin, sets, call, name, record_type)?;
    Ok(text.as_str() == wanted)
}

/// The first row that the zone of a text doesn't say.
pub(crate) fn first_wrong<'a>(
    alloc: Global,
    zone: &str,
    call: Call,
    rows: &'a str,
) -> Result<Option<&'a str>, Fail> {
    let (origin, sets) = parsed(alloc, zone)?;
    for row in rows.lines() {
        if !is_said(alloc, &origin, &sets, call, row)? {
            return Ok(Some(row));
        }
    }
    Ok(None)
}
