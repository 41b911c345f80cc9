//! Responses to queries (RFC 1035, 4.1; RFC 6895, 2; RFC 6891, 6.1.1).

ghost use Rattle.std.specs.Option.{option_copied};
ghost use Rattle.std.specs.Prelude.{◌≡◌, IfOk};
ghost use Rattle.op.specs.Message.{message_value};
ghost use Rattle.tasks.specs.Asked.{Makes, MakesBy};
ghost use Rattle.tasks.specs.Reply.{IsBuilt, has_bits, query_of, records_of, reply_asked, saying, section_of};

use crate::message::message_of;
use crate::refusal::Refusal;
use crate::zone::zone_under;
use authority::Carrier;
use authority::replies::reply_edns;
use authority::sending::most_sent;
use base::{Name, RecordType, RrKey};
use op::{Edns, Message, MessageType, Metadata};
use rr::{Record, RecordSet};
use std::alloc::{AllocError, Global};
use std::collections::BTreeMap;

/// How many codes the header's four bits say (RFC 1035, 4.1.1).
pub const HEADER_CODES: u16 = 16;

/// How many codes these and the eight bits of EDNS say (RFC 6891, 6.1.3).
pub const EDNS_CODES: u16 = 4096;

/// What a response says beside its records.
#[derive(Clone, Copy)]
pub struct Says {
    /// The response code.
    pub code: u16,
    /// Whether the server is an authority for the name (RFC 1035, 4.1.1, AA).
    pub authoritative: bool,
    /// Whether the server asks others (RFC 1035, 4.1.1, RA).
    pub recursion_available: bool,
}

/// The bytes of the response to a query, as many as are carried: the records of its sections are those of three zone
/// texts.
///
/// # Errors
///
/// The query's first fault, and 38 for a response; 31 for a code that has no bits, and for a record that can't stand on
/// the wire; those of `zone_under`; 2 for questions without room.
pub fn reply_bytes(
    alloc: Global,
    query: &[u8],
    says: Says,
    by: Carrier,
    answers: &[u8],
    authorities: &[u8],
    additionals: &[u8],
) -> Result<Vec<u8>, Refusal>
    ensures { MakesBy (IsBuilt (reply_asked query.now says by answers.now authorities.now
        additionals.now)) result }
{
    let (limit, reply) = reply_of(alloc, query, says, by, answers, authorities, additionals)?;
    if !reply.fits_wire() {
        return Err(Refusal::NOT_ON_WIRE);
    }
    Ok(reply.to_vec_within(limit)?)
}

/// The response to a query, and how many bytes of it are sent at most.
fn reply_of(
    alloc: Global,
    query: &[u8],
    says: Says,
    by: Carrier,
    answers: &[u8],
    authorities: &[u8],
    additionals: &[u8],
) -> Result<(u16, Message), Refusal>
    ensures { Makes (λ r. (r.0, message_value r.1))
        (reply_asked query.now says by answers.now authorities.now additionals.now) result }
{
    let query = query_of(alloc, query)?;
    let limit = most_sent(by, query.max_payload());
    let mut reply = response_to(alloc, query, says)?;
    reply.answers = section_of(alloc, answers)?;
    reply.authorities = section_of(alloc, authorities)?;
    reply.additionals = section_of(alloc, additionals)?;
    Ok((limit, reply))
}

/// The query that the bytes begin with.
fn query_of(alloc: Global, bytes: &[u8]) -> Result<Message, Refusal>
    ensures { Makes message_value (query_of bytes.now) result }
{
    let query = message_of(alloc, bytes)?;
    match query.metadata.message_type {
        MessageType::Response => Err(Refusal::NOT_A_QUERY),
        MessageType::Query => Ok(query),
    }
}

/// The response to a query without records, if there are bits for its code.
fn response_to(alloc: Global, query: Message, says: Says) -> Result<Message, Refusal>
    ensures { Makes message_value (saying says (message_value query)) result }
{
    if !has_bits(query.edns.as_ref(), says.code) {
        return Err(Refusal::NOT_ON_WIRE);
    }
    Ok(Message {
        metadata: Metadata {
            authoritative: says.authoritative,
            recursion_available: says.recursion_available,
            response_code: says.code.into(),
            ..Metadata::response_from_request(&query.metadata)
        },
        edns: reply_edns(alloc, query.edns.as_ref()),
        queries: query.queries,
        answers: Vec::new(alloc),
        authorities: Vec::new(alloc),
        additionals: Vec::new(alloc),
        signature: None,
    })
}

/// Whether a response can say a code: with EDNS there are more bits for it.
fn has_bits(edns: Option<&Edns>, code: u16) -> bool
    ensures { result ≡ has_bits (option_copied edns.entry) code }
{
    match edns {
        None => code < HEADER_CODES,
        Some(_) => code < EDNS_CODES,
    }
}

/// The records of zone text, those of aliases first.
fn section_of(alloc: Global, text: &[u8]) -> Result<Vec<Record>, Refusal>
    ensures { Makes (λ records. records.items) (section_of text.now) result }
{
    let (_origin, sets) = zone_under(alloc, Some(Name::root(alloc)), text)?;
    Ok(records_of(alloc, sets)?)
}

/// The records of sets, those of aliases first.
fn records_of(alloc: Global, sets: BTreeMap<RrKey, RecordSet>) -> Result<Vec<Record>, AllocError>
    ensures { IfOk result (λ records. records.items ≡ records_of sets.entries) }
{
    let mut aliases = Vec::new(alloc);
    let mut others = Vec::new(alloc);
    for (_key, set) in sets {
        let is_alias = set.record_type() == RecordType::CNAME;
        let mut records = set.into_parts().records;
        if is_alias {
            aliases.append(&mut records)?;
        } else {
            others.append(&mut records)?;
        }
    }
    aliases.append(&mut others)?;
    Ok(aliases)
}
