//! The text of messages.

ghost use Rattle.std.specs.Prelude.{◌≡◌, Some, [], if◌then◌else◌};
ghost use Rattle.op.specs.Message.{message_value};
ghost use Rattle.op.specs.MessageText.{edns_line, message_text, query_lines, record_lines, section_lines, sections_text, shows_sections};

use crate::edns::Edns;
use crate::header::{MessageType, Metadata};
use crate::message::Message;
use crate::op_code::OpCode;
use crate::query::Query;
use rr::Record;
use std::fmt;

/// The line of EDNS, if there is any.
#[derive(Drop)]
struct EdnsLine<'a>(&'a Option<Edns>);

impl fmt::Display for EdnsLine<'_> {
    ghost output = { λ text. Some (edns_line text.0.now) };

    fn fmt<W: fmt::Write>(&self, f: &mut fmt::Formatter<W>) -> fmt::Result {
        match self.0 {
            Some(edns) => writeln!(f, "; edns {edns}"),
            None => Ok(()),
        }
    }
}

/// A line for each question.
#[derive(Drop)]
struct QueryLines<'a>(&'a [Query]);

impl fmt::Display for QueryLines<'_> {
    ghost output = { λ lines. Some (query_lines lines.0.now) };

    fn fmt<W: fmt::Write>(&self, f: &mut fmt::Formatter<W>) -> fmt::Result {
        for query in self.0 {
            writeln!(f, ";; {query}")?;
        }
        Ok(())
    }
}

/// A line for each record.
#[derive(Drop)]
struct RecordLines<'a>(&'a [Record]);

impl fmt::Display for RecordLines<'_> {
    ghost output = { λ lines. Some (record_lines lines.0.now) };

    fn fmt<W: fmt::Write>(&self, f: &mut fmt::Formatter<W>) -> fmt::Result {
        for record in self.0 {
            writeln!(f, "{record}")?;
        }
        Ok(())
    }
}

/// The name of a section and how many records it has, and after that line its records.
#[derive(Drop)]
struct SectionLines<'a> {
    name: &'a str,
    records: &'a [Record],
}

impl fmt::Display for SectionLines<'_> {
    ghost output = { λ lines. Some (section_lines lines.name.now lines.records.now) };

    fn fmt<W: fmt::Write>(&self, f: &mut fmt::Formatter<W>) -> fmt::Result {
        write!(
            f,
            "; {} {}\n{}",
            self.name,
            self.records.len(),
            RecordLines(self.records)
        )
    }
}

/// The sections of records, where they are printed.
#[derive(Drop)]
struct SectionsText<'a>(&'a Message);

impl fmt::Display for SectionsText<'_> {
    ghost output = { λ text.
        Some (if shows_sections text.0.now.metadata then sections_text (message_value text.0.now)
        else []) };

    fn fmt<W: fmt::Write>(&self, f: &mut fmt::Formatter<W>) -> fmt::Result {
        if !shows_sections(&self.0.metadata) {
            return Ok(());
        }
        write!(
            f,
            "{}{}{}",
            SectionLines {
                name: "answers",
                records: &self.0.answers
            },
            SectionLines {
                name: "authorities",
                records: &self.0.authorities
            },
            SectionLines {
                name: "additionals",
                records: &self.0.additionals
            }
        )
    }
}

/// Whether the sections of records are printed: of a response, and of an Update.
fn shows_sections(metadata: &Metadata) -> bool
    ensures { result ≡ shows_sections metadata.now }
{
    metadata.message_type == MessageType::Response || metadata.op_code == OpCode::Update
}

impl fmt::Display for Message {
    ghost output = { λ m. Some (message_text (message_value m)) };

    /// The header, EDNS if there is any, the questions, and the sections of records of a response or an Update, a line
    /// each.
    fn fmt<W: fmt::Write>(&self, f: &mut fmt::Formatter<W>) -> fmt::Result {
        write!(
            f,
            "; header {}\n{}; query\n{}{}",
            self.metadata,
            EdnsLine(&self.edns),
            QueryLines(&self.queries),
            SectionsText(self)
        )
    }
}
