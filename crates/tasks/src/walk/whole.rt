//! A message walked whole, by one reader that keeps what pointers lead to, so that it costs what the bytes cost.

ghost use Rattle.std.specs.Prelude.{◌≡◌, ◌+◌, ◌*◌, ◌<◌, ◌≤◌, ◌^◌, IfOk, MatchResult, OnOk, length};
ghost use Rattle.base.specs.reading.Reading.{Fails, Reads};
ghost use Rattle.tasks.specs.WalkWhole.{go_on, question_stop, record_stop, stop_at, walk_of};

use super::{RecordFound, read_fields};
use base::{BinDecodable, BinDecoder, DecodeError, Name, RecordType};
use op::Header;
use rr::Record;
use std::alloc::Global;

/// A section of a message (RFC 1035, 4.1).
#[derive(Clone, Copy, Drop)]
pub enum Section {
    /// The questions.
    Question,
    /// The answers.
    Answer,
    /// The authorities.
    Authority,
    /// The additional records.
    Additional,
}

/// A question or a record that a walk came to.
#[derive(Drop)]
pub struct Stop {
    /// Its section.
    pub section: Section,
    /// Its name.
    pub name: Name,
    /// Where it stands, and its fields. A question has no TTL and no data: 0, and no bytes at the place after it.
    pub found: RecordFound,
}

/// The questions and the records of the message that the bytes begin with, as many as its header counts, section after
/// section, and the place after the last.
///
/// # Errors
///
/// The first fault of the header, a question or a record.
pub fn walk(alloc: Global, bytes: &[u8]) -> Result<(Vec<Stop>, usize), DecodeError>
    ensures found { MatchResult result (λ w. walk_of bytes.now ≡ Ok (w.0.items, w.1))
        (λ e. Fails e (walk_of bytes.now)) }
    // The place is below 2^63, so that it can be answered as an `i64`.
    ensures addressable { IfOk result (λ w. w.1 < 2 ^ 63) }
    // The header's four counts have two bytes each.
    ensures few { IfOk result (λ w. length w.0.items < 4 * 2 ^ 16) }
{
    let mut decoder = BinDecoder::new(alloc, bytes);
    let counts = Header::read(&mut decoder)?.counts;
    let mut stops = Vec::new(alloc);
    go_on(
        &mut stops,
        &mut decoder,
        bytes,
        Section::Question,
        counts.queries,
    )?;
    go_on(
        &mut stops,
        &mut decoder,
        bytes,
        Section::Answer,
        counts.answers,
    )?;
    go_on(
        &mut stops,
        &mut decoder,
        bytes,
        Section::Authority,
        counts.authorities,
    )?;
    go_on(
        &mut stops,
        &mut decoder,
        bytes,
        Section::Additional,
        counts.additionals,
    )?;
    Ok((stops, decoder.index()))
}

/// Adds the stops of a section, of which there are `count`.
fn go_on(
    stops: &mut Vec<Stop>,
    decoder: &mut BinDecoder<'_>,
    bytes: &[u8],
    section: Section,
    count: u16,
) -> Result<(), DecodeError>
    requires { decoder.old.bytes ≡ bytes.now }
    ensures read { Reads (λ _. stops.new.items) decoder.old decoder.new result
        (go_on section count bytes.now (stops.old.items, decoder.old.index)) }
    ensures few { OnOk result (length stops.new.items ≤ length stops.old.items + count) }
{
    for _ in 0..count {
        let stop = stop_at(decoder, bytes, section)?;
        stops.push(stop)?;
    }
    Ok(())
}

/// What stands at a decoder's place, which reads these bytes.
fn stop_at(
    decoder: &mut BinDecoder<'_>,
    bytes: &[u8],
    section: Section,
) -> Result<Stop, DecodeError>
    requires { decoder.old.bytes ≡ bytes.now }
    ensures { Reads (λ stop. stop) decoder.old decoder.new result
        (stop_at section decoder.old.bytes decoder.old.index) }
{
    match section {
        Section::Question => question(decoder),
        _ => record(decoder, bytes, section),
    }
}

/// The question at a decoder's place.
fn question(decoder: &mut BinDecoder<'_>) -> Result<Stop, DecodeError>
    ensures { Reads (λ stop. stop) decoder.old decoder.new result
        (question_stop decoder.old.bytes decoder.old.index) }
{
    let place = decoder.index();
    let name = Name::read(decoder)?;
    let query_type = decoder.read_u16()?;
    let class = decoder.read_u16()?;
    Ok(Stop {
        section: Section::Question,
        name,
        found: RecordFound {
            name: place,
            data_place: decoder.index(),
            ttl: 0,
            record_type: query_type,
            class,
            data_len: 0,
        },
    })
}

/// The record at a decoder's place, which reads these bytes.
fn record(decoder: &mut BinDecoder<'_>, bytes: &[u8], section: Section) -> Result<Stop, DecodeError>
    requires { decoder.old.bytes ≡ bytes.now }
    ensures { Reads (λ stop. stop) decoder.old decoder.new result
        (record_stop section decoder.old.bytes decoder.old.index) }
{
    let place = decoder.index();
    let mut record = Record::update0(Name::root(decoder.allocator()), 0, RecordType::ZERO);
    let (_, type_place) = record.read_in_place(decoder)?;
    let mut fields = BinDecoder::new(decoder.allocator(), bytes);
    let _before = fields.read_slice(type_place)?;
    let found = read_fields(&mut fields, place)?;
    let Record { name, .. } = record;
    Ok(Stop {
        section,
        name,
        found,
    })
}
