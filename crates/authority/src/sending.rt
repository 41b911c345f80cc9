//! Which bytes a server sends for those that it received (RFC 1035, 4.2; RFC 2181, 9; RFC 6891, 6.2.5 and 7).

ghost use Rattle.authority.specs.Sent.{bytes_of as the_bytes, is_cut_short, malformed as the_malformed, most_sent as the_most, sent, sent_of, sent_to};
ghost use Rattle.authority.specs.ZoneRef.{AreUnderKeys};
ghost use Rattle.op.specs.Message.{message_value};
ghost use Rattle.op_use.specs.Applying.{zone_of_map};
ghost use Rattle.std.specs.Prelude.{Err, IfErr, IfOk, Ok, option_map, ◌≡◌, ◌⊎◌};

use crate::answer::Answer;
use crate::replies::{form_error, reply};
use base::limits::{MAX_MESSAGE, MIN_PAYLOAD};
use base::{BinDecodable, BinDecoder, DNSClass, DecodeError, Name, ProtoError, RrKey};
use op::{Header, Message, MessageType};
use rr::RecordSet;
use std::alloc::Global;
use std::collections::BTreeMap;

/// What carries a response, and how much it may carry.
#[derive(Clone, Copy, Debug, Drop, PartialEq, Eq)]
pub enum Carrier {
    /// A datagram of this many bytes at most (RFC 1035, 4.2.1).
    Datagram(u16),
    /// A stream, which carries 65,535 bytes (RFC 1035, 4.2.2).
    Stream,
}

/// The bytes that a server sends for those that it received, or none: `sets` are the zone's sets under their keys, as
/// `Parser::parse` and `apply_update` answer them.
///
/// They are those of the message that `reply` answers, and for bytes that begin with no message, but with the header of
/// a query, of FormErr with its id, operation, RD and CD (RFC 1035, 4.1.1; RFC 6891, 7). Nothing is sent for a
/// response, nor for less than a header.
///
/// A datagram has as many bytes as it and the query's EDNS allow, and 512 at least (RFC 6891, 6.2.5). Where they don't
/// hold all, the additional records of an answer are left out, but not those of a referral; what still has no room is
/// cut, and TC says so (RFC 2181, 9).
///
/// # Errors
///
/// `Memory` alone, if memory runs out: 512 bytes have room for the header and the question of any reply, by the law
/// `responses_have_room`.
pub fn respond(
    alloc: Global,
    sets: &BTreeMap<RrKey, RecordSet>,
    origin: &Name,
    class: DNSClass,
    received: &[u8],
    carrier: Carrier,
) -> Result<Option<Vec<u8>>, ProtoError>
    // Each set stands under the key of its owner and type.
    requires { AreUnderKeys sets.now }
    ensures sent { IfOk result (λ o. sent (zone_of_map origin.now class sets.now) carrier received.now
        ≡ Ok (option_map (λ v. v.items) o)) }
    // Refused with what `sent` gives, unless memory runs out.
    ensures refused { IfErr result (λ e. (e ≡ ProtoError.Memory)
        ⊎ (sent (zone_of_map origin.now class sets.now) carrier received.now ≡ Err e)) }
{
    match Message::from_vec(alloc, received) {
        Ok(query) => respond_to(alloc, sets, origin, class, &query, carrier),
        Err(DecodeError::Memory) => Err(ProtoError::Memory),
        Err(_) => send(malformed(alloc, received), most_sent(carrier, MIN_PAYLOAD)),
    }
}

/// The bytes that a server sends for a message, or none.
fn respond_to(
    alloc: Global,
    sets: &BTreeMap<RrKey, RecordSet>,
    origin: &Name,
    class: DNSClass,
    query: &Message,
    carrier: Carrier,
) -> Result<Option<Vec<u8>>, ProtoError>
    requires { AreUnderKeys sets.now }
    ensures sent { IfOk result (λ o. sent_to (zone_of_map origin.now class sets.now) carrier
        (message_value query.now) ≡ Ok (option_map (λ v. v.items) o)) }
    ensures refused { IfErr result (λ e. (e ≡ ProtoError.Memory)
        ⊎ (sent_to (zone_of_map origin.now class sets.now) carrier (message_value query.now) ≡ Err e)) }
{
    let reply = reply(alloc, sets, origin, class, query)?;
    send(reply, most_sent(carrier, query.max_payload()))
}

/// The most bytes that are sent to one who takes so many: by datagram at least 512 (RFC 6891, 6.2.5).
pub fn most_sent(carrier: Carrier, taken: u16) -> u16
    ensures { result ≡ the_most carrier taken }
{
    match carrier {
        Carrier::Datagram(most) => most.min(taken).max(MIN_PAYLOAD),
        Carrier::Stream => MAX_MESSAGE,
    }
}

/// The reply to bytes that begin with no message: none without a header, nor to the header of a response.
fn malformed(alloc: Global, received: &[u8]) -> Option<Message>
    ensures { option_map message_value result ≡ the_malformed received.now }
{
    let header = Header::read(&mut BinDecoder::new(alloc, received)).ok()?;
    match header.metadata.message_type {
        MessageType::Response => None,
        MessageType::Query => Some(form_error(alloc, &header.metadata)),
    }
}

/// The bytes of a reply, if there is one.
fn send(reply: Option<Message>, limit: u16) -> Result<Option<Vec<u8>>, ProtoError>
    ensures sent { IfOk result (λ o. sent_of limit (option_map message_value reply)
        ≡ Ok (option_map (λ v. v.items) o)) }
    ensures refused { IfErr result (λ e. (e ≡ ProtoError.Memory)
        ⊎ (sent_of limit (option_map message_value reply) ≡ Err e)) }
{
    match reply {
        Some(mut reply) => Ok(Some(bytes_of(&mut reply, limit)?)),
        None => Ok(None),
    }
}

/// The bytes of a reply under a limit. Where they don't hold all of it and it is no referral, which has authorities,
/// its additional records are left out (RFC 2181, 9).
fn bytes_of(reply: &mut Message, limit: u16) -> Result<Vec<u8>, ProtoError>
    ensures bytes { IfOk result (λ v. the_bytes limit (message_value reply.old) ≡ Ok v.items) }
    ensures refused { IfErr result (λ e. (e ≡ ProtoError.Memory)
        ⊎ (the_bytes limit (message_value reply.old) ≡ Err e)) }
{
    let bytes = reply.to_vec_within(limit)?;
    if !is_cut(&bytes) || !reply.authorities.is_empty() {
        return Ok(bytes);
    }
    reply.additionals.clear();
    reply.to_vec_within(limit)
}

/// Whether the header of these bytes has TC set (RFC 1035, 4.1.1).
fn is_cut(bytes: &[u8]) -> bool
    ensures { result ≡ is_cut_short bytes.now }
{
    2 < bytes.len() && bytes[2] / 2 % 2 == 1
}
