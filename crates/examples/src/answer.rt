//! Answers a query, as a server does for each that it receives.

ghost use Rattle.std.specs.Prelude.{◌≡◌, IfErr, IfOk};
ghost use Rattle.op.specs.Message.{message_value};
ghost use Rattle.examples.specs.Callers.{AnswersReceived, IsUnanswered, is_query, response_to};

use base::ProtoError;
use op::{Edns, Message, MessageType, Metadata, OpCode};
use rr::Record;
use std::alloc::Global;

/// The bytes of the response that has these answers to the query that was received, as much of it as the client takes
/// (RFC 1035, 4.1.1; RFC 2181, 9; RFC 6891, 6.2.5); none where a message was received that isn't a query of EDNS
/// version 0: a response is never answered.
///
/// # Errors
///
/// `Decode` where no message begins what was received; `NotAllRecordsWritten` where its questions have no room;
/// `Memory` if memory runs out.
pub fn respond(
    alloc: Global,
    received: &[u8],
    answers: Vec<Record>,
) -> Result<Option<Vec<u8>>, ProtoError>
    ensures sent { IfOk result (λ sent. AnswersReceived received.now answers.items sent) }
    ensures refused { IfErr result (λ e. IsUnanswered received.now answers.items e) }
{
    let query = Message::from_vec(alloc, received)?;
    if !is_query(&query) {
        return Ok(None);
    }
    let limit = query.max_payload();
    let response = response_to(alloc, query, answers);
    Ok(Some(response.to_vec_within(limit)?))
}

/// The response to a query that has these answers.
fn response_to(alloc: Global, query: Message, answers: Vec<Record>) -> Message
    ensures { message_value result ≡ response_to (message_value query) answers.items }
{
    let metadata = Metadata::response_from_request(&query.metadata);
    let mut response = Message::response(alloc, metadata.id, metadata.op_code);
    response.metadata = metadata;
    response.queries = query.queries;
    response.answers = answers;
    if query.edns.is_some() {
        response.set_edns(Edns::new(alloc));
    }
    response
}

/// Whether a message is a query of EDNS version 0, or without EDNS.
fn is_query(message: &Message) -> bool
    ensures { result ≡ is_query (message_value message.now) }
{
    matches!(message.metadata.message_type, MessageType::Query)
        && matches!(message.metadata.op_code, OpCode::Query)
        && message.version() == 0
}
