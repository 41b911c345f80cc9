//! Which messages a server sends for a zone transfer (RFC 5936, 2.2).

ghost use Rattle.authority.specs.Reply.{framed as the_frame, header_refusal as the_header_refusal};
ghost use Rattle.authority.specs.Reply.{one_question as the_question, only_code as the_code};
ghost use Rattle.authority.specs.Transfer.{IsFull, IsNextOf, IsTooLarge, IsTransferred, is_end, left_at, records_from};
ghost use Rattle.authority.specs.Transfer.{axfr_refusal as the_axfr_refusal, one_axfr_refusal as the_one_refusal};
ghost use Rattle.authority.specs.Transfer.{questions_at as the_questions, room_beside as the_room, soa_of as the_soa};
ghost use Rattle.authority.specs.Transfer.{transferring};
ghost use Rattle.authority.specs.declared.transferring.TransferPlace.{TransferPlace as Place};
ghost use Rattle.op.specs.Message.{MessageValue, message_value};
ghost use Rattle.op_use.specs.Server.{and_then};
ghost use Rattle.std.specs.Prelude.{IfErr, IfOk, IsOkUnless, Some, false, option_map, slice_get, ◌≡◌, ◌⊎◌};

use crate::answer::plain;
use crate::filling::Answers;
use crate::records::{least_ttl, record_of};
use crate::replies::{framed, header_refusal, is_of_class, one_question, only_code};
use crate::room::room_beside;
use crate::sets::set_at;
use crate::zone_ref::ZoneRef;
use base::{DNSClass, Name, ProtoError, RecordType, RrKey};
use op::{Message, MessageType, Query, ResponseCode};
use rr::{Record, RecordSet};
use std::alloc::{AllocError, Global};
use std::collections::BTreeMap;

/// Where the next message of a zone transfer begins. It borrows nothing of the zone: a transfer goes on at it by one
/// look-up.
#[derive(Debug, Drop)]
pub enum TransferPlace {
    /// At the first SOA.
    Start,
    /// At the record of this number in the set under this key, or with the first set after that key.
    Records(RrKey, usize),
    /// At the last SOA.
    LastSoa,
    /// Behind the last SOA: there is no message.
    End,
}

/// The next message of a zone transfer, and where the one after it begins; or none to a response, nor at the end:
/// `sets` are the zone's sets under their keys, as `Parser::parse` and `apply_update` answer them.
///
/// From `Start` on, the answers of all messages together are the SOA; each other record at the origin or below it, glue
/// and names below cuts among them, in the order of the sets' keys; and the SOA once more (RFC 5936, 2.2). Owners are
/// spelled as those of their sets, and each record has the least TTL of its set (RFC 2181, 5.2); records without data
/// are left out. Each message has AA and, where the query has it, EDNS as in `reply`; the first has the question. None
/// is cut at 65,535 bytes. A message has as many records as fit it without compression.
///
/// A query that asks for no transfer of the zone is answered by one message with a code alone, the first of: BADVERS,
/// NotImp and FormErr as in `reply`; Refused for a class other than the zone's, or one with its top bit set; NotImp for
/// another type than AXFR; NotAuth for another name than the origin; ServFail where the zone has no SOA.
///
/// Takes one look-up in the map, and what the records of the message take.
///
/// # Errors
///
/// `MaxBufferSizeExceeded` where the next record has no room in a message of its own; `Memory` if memory runs out.
pub fn transfer(
    alloc: Global,
    sets: &BTreeMap<RrKey, RecordSet>,
    origin: &Name,
    class: DNSClass,
    query: &Message,
    place: &TransferPlace,
) -> Result<Option<(Message, TransferPlace)>, ProtoError>
    ensures transferred { IfOk result (λ o. IsTransferred origin.now class sets.now
        (message_value query.now) place.now
        (option_map (λ r. (message_value r.0, r.1)) o)) }
    ensures refused { IfErr result (λ e. (e ≡ ProtoError.Memory)
        ⊎ ((e ≡ ProtoError.MaxBufferSizeExceeded)
        × IsTooLarge origin.now class sets.now (message_value query.now) place.now)) }
{
    if query.metadata.message_type == MessageType::Response {
        return Ok(None);
    }
    if let TransferPlace::End = place {
        return Ok(None);
    }
    let zone = ZoneRef {
        alloc,
        sets,
        origin,
        class,
    };
    if let Some(code) = refusal(origin, class, query) {
        return refused(alloc, query, code);
    }
    match soa_of(&zone)? {
        Some(soa) => next_message(&zone, &soa, query, place),
        None => refused(alloc, query, ResponseCode::ServFail),
    }
}

/// What a query for a transfer is refused with before the zone is looked at.
fn refusal(origin: &Name, class: DNSClass, query: &Message) -> Option<ResponseCode>
    ensures { result ≡ and_then (the_header_refusal (message_value query.now))
        (the_one_refusal origin.now class (message_value query.now).queries) }
{
    if let Some(code) = header_refusal(query) {
        return Some(code);
    }
    let [question] = &query.queries[..] else {
        return Some(ResponseCode::FormErr);
    };
    question_refusal(origin, class, question)
}

/// What a question is refused with before the zone is looked at.
fn question_refusal(origin: &Name, class: DNSClass, question: &Query) -> Option<ResponseCode>
    ensures { result ≡ the_axfr_refusal origin.now class question.now }
{
    if !is_of_class(question, class) {
        return Some(ResponseCode::Refused);
    }
    if question.query_type != RecordType::AXFR {
        return Some(ResponseCode::NotImp);
    }
    if question.name != *origin {
        return Some(ResponseCode::NotAuth);
    }
    None
}

/// The one message of a transfer that is refused.
fn refused(
    alloc: Global,
    query: &Message,
    code: ResponseCode,
) -> Result<Option<(Message, TransferPlace)>, ProtoError>
    ensures refused { IfOk result (λ o. option_map {U = MessageValue × Place}
        (λ r. (message_value r.0, r.1)) o
        ≡ Some (the_frame (message_value query.now) (the_code code), TransferPlace.End)) }
    ensures only { IsOkUnless result ProtoError.Memory }
{
    let queries = one_question(alloc, &query.queries)?;
    let message = framed(alloc, query, queries, only_code(alloc, code));
    Ok(Some((message, TransferPlace::End)))
}

/// The SOA that a transfer begins and ends with.
fn soa_of(zone: &ZoneRef<'_>) -> Result<Option<Record>, AllocError>
    ensures { IfOk result (λ o. o ≡ the_soa zone.now.origin.now zone.now.class zone.now.sets.now) }
{
    match set_at(zone.sets, zone.origin, RecordType::SOA)? {
        Some(set) => first_answer(zone.class, set),
        None => Ok(None),
    }
}

/// The first record of a set that isn't left out.
fn first_answer(class: DNSClass, set: &RecordSet) -> Result<Option<Record>, AllocError>
    ensures { IfOk result (λ o. o ≡ slice_get (records_from class 0 set.now) 0) }
{
    let entries = set.as_slice();
    let ttl = least_ttl(entries);
    for entry in entries {
        if entry.rdata.is_update() {
            continue;
        }
        return Ok(Some(record_of(set.name(), class, ttl, &entry.rdata)?));
    }
    Ok(None)
}

/// The questions of a message of a transfer: the first has the question of the query.
fn questions_at(
    alloc: Global,
    place: &TransferPlace,
    questions: &[Query],
) -> Result<Vec<Query>, AllocError>
    ensures { IfOk result (λ v. v.items ≡ the_questions place.now (the_question questions.now)) }
{
    match place {
        TransferPlace::Start => one_question(alloc, questions),
        _ => Ok(Vec::new(alloc)),
    }
}

/// The next message of a transfer with this SOA, and the place after it.
fn next_message(
    zone: &ZoneRef<'_>,
    soa: &Record,
    query: &Message,
    place: &TransferPlace,
) -> Result<Option<(Message, TransferPlace)>, ProtoError>
    requires { is_end place.now ≡ false }
    ensures next { IfOk result (λ o. IsNextOf zone.now.origin.now zone.now.class zone.now.sets.now
        soa.now (message_value query.now) place.now
        (option_map (λ r. (message_value r.0, r.1)) o)) }
    ensures refused { IfErr result (λ e. (e ≡ ProtoError.Memory)
        ⊎ ((e ≡ ProtoError.MaxBufferSizeExceeded) × IsFull (the_room (message_value query.now).queries)
        (left_at zone.now.origin.now zone.now.class zone.now.sets.now soa.now place.now))) }
{
    let mut answers = Answers::new(zone.alloc, room_beside(&query.queries));
    let next = answers.fill(zone, soa, place)?;
    if answers.records.is_empty() {
        return Err(ProtoError::MaxBufferSizeExceeded);
    }
    let message = message_with(zone.alloc, query, place, answers.records)?;
    Ok(Some((message, next)))
}

/// The message of a transfer from a place on that has these answers.
fn message_with(
    alloc: Global,
    query: &Message,
    place: &TransferPlace,
    answers: Vec<Record>,
) -> Result<Message, AllocError>
    ensures { IfOk result (λ m. message_value m
        ≡ transferring (message_value query.now) place.now answers.items) }
{
    let queries = questions_at(alloc, place, &query.queries)?;
    let answer = plain(alloc, ResponseCode::NoError, answers);
    Ok(framed(alloc, query, queries, answer))
}
