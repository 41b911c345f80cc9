//! Which message a server answers to a message (RFC 1035, 4.1.1; RFC 6891, 6.1; RFC 9619).

ghost use Rattle.authority.specs.Answer.{answer_value};
ghost use Rattle.authority.specs.Reply.{answer_to as the_answer, edns_of_reply, framed as the_frame};
ghost use Rattle.authority.specs.Reply.{header_refusal as the_header_refusal, one_question as the_question};
ghost use Rattle.authority.specs.Reply.{only_code as the_code, question_refusal as the_refusal, refused_or};
ghost use Rattle.authority.specs.Reply.{reply as the_reply};
ghost use Rattle.authority.specs.ZoneRef.{AreUnderKeys, zone_of};
ghost use Rattle.base.specs.RrKey.{key_of as the_key};
ghost use Rattle.op.specs.Message.{empty_message, message_value};
ghost use Rattle.op_use.specs.Applying.{zone_of_map};
ghost use Rattle.op_use.specs.Server.{is_any, is_meta as is_meta_type};
ghost use Rattle.op_use.specs.Zone.{has_set};
ghost use Rattle.rr.specs.RecordOrder.{same_class};
ghost use Rattle.std.specs.Option.{option_copied};
ghost use Rattle.std.specs.Prelude.{IfOk, IsOkUnless, not, option_map, ◌&&◌, ◌||◌, ◌≡◌};

use crate::answer::{Answer, answer_from};
use crate::sets::is_within;
use crate::zone_ref::ZoneRef;
use base::{DNSClass, Name, ProtoError, RecordType, RrKey};
use op::{Edns, Message, MessageType, Metadata, OpCode, Query, ResponseCode};
use rr::RecordSet;
use std::alloc::{AllocError, Global};
use std::collections::BTreeMap;

/// The message that a server answers to a message about a zone, or none to a response: `sets` are the zone's sets under
/// their keys, as `Parser::parse` and `apply_update` answer them.
///
/// It is what `answer_question` answers to the one question of a query; or a code alone, the first of: BADVERS for EDNS
/// of another version than 0 (RFC 6891, 6.1.3); NotImp for another operation (RFC 1035, 4.1.1); FormErr for no question
/// or several (RFC 9619); Refused for a class other than the zone's, or one with its top bit set; NotImp for a type
/// that no record has, but for ANY (RFC 6895, 3.1), zone transfers among them; Refused for a name outside the zone;
/// ServFail where the zone has no SOA.
///
/// It has the query's id, operation, RD and CD, the question if there is one, and EDNS of version 0 with the query's DO
/// where the query has EDNS (RFC 6891, 6.1.1; RFC 3225, 3). A signature isn't looked at.
///
/// # Errors
///
/// `Memory` alone, if memory runs out.
pub fn reply(
    alloc: Global,
    sets: &BTreeMap<RrKey, RecordSet>,
    origin: &Name,
    class: DNSClass,
    query: &Message,
) -> Result<Option<Message>, ProtoError>
    // Each set stands under the key of its owner and type.
    requires { AreUnderKeys sets.now }
    ensures replied { IfOk result (λ m. option_map message_value m
        ≡ the_reply (zone_of_map origin.now class sets.now) (message_value query.now)) }
    ensures only { IsOkUnless result ProtoError.Memory }
{
    if query.metadata.message_type == MessageType::Response {
        return Ok(None);
    }
    let zone = ZoneRef {
        alloc,
        sets,
        origin,
        class,
    };
    let queries = one_question(alloc, &query.queries)?;
    let answer = match header_refusal(query) {
        Some(code) => only_code(alloc, code),
        None => answer_to(&zone, &query.queries)?,
    };
    Ok(Some(framed(alloc, query, queries, answer)))
}

/// What a query is refused with before its question is looked at.
pub(crate) fn header_refusal(query: &Message) -> Option<ResponseCode>
    ensures { result ≡ the_header_refusal (message_value query.now) }
{
    if query.version() != 0 {
        return Some(ResponseCode::BADVERS);
    }
    match query.metadata.op_code {
        OpCode::Query => None,
        _ => Some(ResponseCode::NotImp),
    }
}

/// Whether a question is of a class, without its top bit set.
pub(crate) fn is_of_class(question: &Query, class: DNSClass) -> bool
    ensures { result
        ≡ (same_class question.now.query_class class && not question.now.mdns_unicast_response) }
{
    question.query_class == class && !question.mdns_unicast_response
}

/// What a question is refused with, if it is.
fn question_refusal(
    zone: &ZoneRef<'_>,
    question: &Query,
) -> Result<Option<ResponseCode>, AllocError>
    ensures { IfOk result (λ code. code ≡ the_refusal (zone_of zone.now) question.now) }
{
    if !is_of_class(question, zone.class) {
        return Ok(Some(ResponseCode::Refused));
    }
    if !is_answered(question.query_type) {
        return Ok(Some(ResponseCode::NotImp));
    }
    if !is_within(zone.origin, &question.name) {
        return Ok(Some(ResponseCode::Refused));
    }
    if has_soa(zone)? {
        return Ok(None);
    }
    Ok(Some(ResponseCode::ServFail))
}

/// Whether the zone has an SOA.
fn has_soa(zone: &ZoneRef<'_>) -> Result<bool, AllocError>
    ensures { IfOk result (λ b. b
        ≡ has_set (zone_of zone.now) (the_key zone.now.origin.now RecordType.SOA)) }
{
    let key = RrKey::of(zone.origin, RecordType::SOA)?;
    Ok(zone.sets.contains_key(&key))
}

/// Whether a question may be for a type: one that records have, or all.
fn is_answered(record_type: RecordType) -> bool
    ensures { result ≡ (is_any record_type || not (is_meta_type record_type)) }
{
    record_type == RecordType::ANY || !is_meta(record_type)
}

/// Whether no record has the type (RFC 6895, 3.1).
fn is_meta(record_type: RecordType) -> bool
    ensures { result ≡ is_meta_type record_type }
{
    let number = u16::from(record_type);
    128 <= number && number <= 255
}

/// FormErr to a query of which no more than the header can be read (RFC 6891, 7). Takes no memory.
pub(crate) fn form_error(alloc: Global, query: &Metadata) -> Message
    ensures { message_value result ≡ the_frame (empty_message query.now) (the_code ResponseCode.FormErr) }
{
    let mut reply = Message::response(alloc, query.id, query.op_code);
    reply.metadata = Metadata {
        response_code: ResponseCode::FormErr,
        ..Metadata::response_from_request(query)
    };
    reply
}

/// The answer that is a code alone. Takes no memory.
pub(crate) fn only_code(alloc: Global, response_code: ResponseCode) -> Answer
    ensures { answer_value result ≡ the_code response_code }
{
    Answer {
        response_code,
        authoritative: false,
        answers: Vec::new(alloc),
        authorities: Vec::new(alloc),
        additionals: Vec::new(alloc),
    }
}

/// The answer to questions, of which there is to be one (RFC 9619).
fn answer_to(zone: &ZoneRef<'_>, questions: &[Query]) -> Result<Answer, ProtoError>
    requires { AreUnderKeys zone.now.sets.now }
    ensures value { IfOk result (λ a. answer_value a ≡ the_answer (zone_of zone.now) questions.now) }
    ensures only { IsOkUnless result ProtoError.Memory }
{
    let [question] = questions else {
        return Ok(only_code(zone.alloc, ResponseCode::FormErr));
    };
    if let Some(code) = question_refusal(zone, question)? {
        return Ok(only_code(zone.alloc, code));
    }
    answer_from(zone, &question.name, question.query_type)
}

/// The one question; of several none.
pub(crate) fn one_question(alloc: Global, questions: &[Query]) -> Result<Vec<Query>, AllocError>
    ensures { IfOk result (λ v. v.items ≡ the_question questions.now) }
{
    let [question] = questions else {
        return Ok(Vec::new(alloc));
    };
    Ok(vec![in alloc; question.clone()?]?)
}

/// EDNS of a response, where the query has it. Takes no memory.
pub fn reply_edns(alloc: Global, edns: Option<&Edns>) -> Option<Edns>
    ensures { result ≡ option_map edns_of_reply (option_copied edns.entry) }
{
    let edns = edns?;
    let mut reply = Edns::new(alloc);
    reply.set_dnssec_ok(edns.flags.dnssec_ok);
    Some(reply)
}

/// An answer as a message with these questions. Takes no memory.
pub(crate) fn framed(alloc: Global, query: &Message, queries: Vec<Query>, answer: Answer) -> Message
    ensures { message_value result
        ≡ record (the_frame (message_value query.now) (answer_value answer)) {
          queries = queries.items;
        } }
{
    Message {
        metadata: Metadata {
            authoritative: answer.authoritative,
            response_code: answer.response_code,
            ..Metadata::response_from_request(&query.metadata)
        },
        queries,
        answers: answer.answers,
        authorities: answer.authorities,
        additionals: answer.additionals,
        signature: None,
        edns: reply_edns(alloc, query.edns.as_ref()),
    }
}
