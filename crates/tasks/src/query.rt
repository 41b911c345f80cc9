//! Queries (RFC 1035, 4.1.1 and 4.1.2), and NOTIFY (RFC 1996).

ghost use Rattle.std.specs.Prelude.{◌≡◌, IfOk};
ghost use Rattle.op.specs.Message.{message_value};
ghost use Rattle.tasks.specs.Asked.{Makes};
ghost use Rattle.tasks.specs.Query.{edns_of, notify_of, notify_sent, query_of, query_sent};
ghost use Rattle.tasks.specs.ZoneText.{zone_name_of};

use crate::refusal::Refusal;
use crate::zone::zone_name_of;
use base::{DNSClass, Name, RecordType};
use op::{Edns, Message, MessageType, OpCode, Query};
use std::alloc::{AllocError, Global};

/// What a query asks for.
#[derive(Clone, Copy)]
pub struct Question {
    /// The id of the message.
    pub id: u16,
    /// The number of the type.
    pub record_type: u16,
    /// The number of the class.
    pub dns_class: u16,
    /// Whether the server is asked to ask others (RFC 1035, 4.1.1, RD).
    pub recursion: bool,
    /// How many bytes the asker takes, 512 at least; 0 for a query without EDNS.
    pub payload: u16,
}

/// The bytes of the query for a name, which is taken as absolute.
///
/// # Errors
///
/// 26 for a name without bytes, 24 for one that isn't UTF-8, and 23 for a text that is no name.
pub fn query_bytes(alloc: Global, name: &[u8], question: Question) -> Result<Vec<u8>, Refusal>
    ensures { Makes (λ bytes. bytes.items) (query_sent name.now question) result }
{
    let name = zone_name_of(alloc, name)?;
    let message = query_of(alloc, name, question)?;
    Ok(message.to_vec()?)
}

/// The query for a name.
fn query_of(alloc: Global, name: Name, question: Question) -> Result<Message, AllocError>
    ensures { IfOk result (λ m. message_value m ≡ query_of question name) }
{
    let mut asked = Query::query(name, RecordType::from(question.record_type));
    asked.set_query_class(DNSClass::from(question.dns_class));
    let mut message = Message::query(alloc, question.id);
    message.queries = vec![in alloc; asked]?;
    message.metadata.recursion_desired = question.recursion;
    message.edns = edns_of(alloc, question.payload);
    Ok(message)
}

/// The bytes of the NOTIFY for the zone of an origin.
///
/// # Errors
///
/// 26 for an origin without bytes, 24 for one that isn't UTF-8, and 23 for a text that is no name.
pub fn notify_bytes(alloc: Global, id: u16, origin: &[u8]) -> Result<Vec<u8>, Refusal>
    ensures { Makes (λ bytes. bytes.items) (notify_sent id origin.now) result }
{
    let zone = zone_name_of(alloc, origin)?;
    let message = notify_of(alloc, id, zone)?;
    Ok(message.to_vec()?)
}

/// The NOTIFY for a zone.
fn notify_of(alloc: Global, id: u16, zone: Name) -> Result<Message, AllocError>
    ensures { IfOk result (λ m. message_value m ≡ notify_of id zone) }
{
    let mut message = Message::new(alloc, id, MessageType::Query, OpCode::Notify);
    message.queries = vec![in alloc; Query::query(zone, RecordType::SOA)]?;
    message.metadata.authoritative = true;
    Ok(message)
}

/// EDNS that says how many bytes are taken, if that is named.
fn edns_of(alloc: Global, payload: u16) -> Option<Edns>
    ensures { result ≡ edns_of payload }
{
    if payload == 0 {
        return None;
    }
    let mut edns = Edns::new(alloc);
    edns.set_max_payload(payload);
    Some(edns)
}
