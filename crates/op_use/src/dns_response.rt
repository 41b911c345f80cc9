//! Responses, and what they say (RFC 1035, 4.1; RFC 2308, 5).

ghost use Rattle.base.specs.declared.limits.TheConstants.{MAX_MESSAGE};
ghost use Rattle.std.specs.Prelude.{◌≡◌, ◌⊎◌, ◌&&◌, ◌↔◌, ℕ, IfErr, IfOk, MatchResult, Err, Ok};
ghost use Rattle.std.specs.Borrow.{sem};
ghost use Rattle.std.specs.List.{list_any};
ghost use Rattle.std.specs.Option.{option_map};
ghost use Rattle.base.specs.names.NameOrder.{is_zone_of, same_name};
ghost use Rattle.base.specs.declared.record_type.RecordType.TheVariants as types;
ghost use Rattle.op.specs.Cut.{IsWritten};
ghost use Rattle.op.specs.Fault.{IsMessageFault};
ghost use Rattle.op.specs.Fits.{Fits};
ghost use Rattle.op.specs.Message.{IsMessageAt, MessageValue, message_value};
ghost use Rattle.op.specs.MessageWritten.{message_answer};
ghost use Rattle.op.specs.Parts.{all_records};
ghost use Rattle.op_use.specs.DnsResponse.{IsQuery, IsRefusedResponse, IsResponse};
ghost use Rattle.op_use.specs.Lending.{LendsMessage};
ghost use Rattle.op_use.specs.Responses.{answers_by, contains_answer, first_soa, is_of, negative_ttl, soa_authority};
ghost use Rattle.rr.specs.RecordRef.{seen};

use base::{BinEncoder, DecodeError, Name, ProtoError, RecordType};
use base_data::SOA;
use op::{Message, MessageType, Query};
use rr::{Record, RecordRef};
use std::alloc::{AllocError, Global};
use std::marker::Model;

/// A response, and its bytes: those that it was read from, or that it is written as.
///
/// Contracts see it as its message and its bytes.
#[derive(Debug, Drop)]
pub struct DnsResponse {
    message: Message,
    buffer: Vec<u8>,
}

impl Model for DnsResponse {
    ghost use Rattle.op.specs.Message.{message_value};
    ghost use Rattle.op_use.specs.DnsResponse.{ResponseValue};

    ghost Value = { ResponseValue };

    ghost view = { λ r. record { message = message_value r.message; buffer = r.buffer.items } };
}

impl DnsResponse {
    /// The response that a message is, with the bytes that `Message::to_vec` writes of it.
    ///
    /// # Errors
    ///
    /// `NotAResponse` for a query, before anything is written; `NotAllRecordsWritten` where the questions don't fit
    /// 65,535 bytes, with the number of those before the first that doesn't; `Memory` if memory runs out.
    pub fn from_message(alloc: Global, message: Message) -> Result<DnsResponse, ProtoError>
        // The response has this message, which is a response by its QR bit.
        ensures same { IfOk result (λ r. (r.message ≡ message_value message)
            × IsResponse (message_value message)) }
        // Refused with `NotAResponse` exactly where the message is a query by its QR bit.
        ensures query { (result ≡ Err ProtoError.NotAResponse) ↔ IsQuery (message_value message) }
        // Of a message that fits, the bytes are a cut under 65,535 bytes, and are read as that cut.
        ensures written { Fits (message_value message)
            → IfOk result (λ r. IsWritten (message_value message) MAX_MESSAGE r.buffer) }
        // The bytes are what the definition `message_answer` gives.
        ensures answer { IfOk result (λ r. message_answer MAX_MESSAGE (message_value message)
            ≡ Ok r.buffer) }
        // A response is refused with what `message_answer` gives, unless memory runs out.
        ensures refusal { IsResponse (message_value message)
            → IfErr result (λ e. (e ≡ ProtoError.Memory)
            ⊎ (message_answer MAX_MESSAGE (message_value message) ≡ Err e)) }
    {
        match message.metadata.message_type {
            MessageType::Query => Err(ProtoError::NotAResponse),
            MessageType::Response => {
                let buffer = write(alloc, &message)?;
                Ok(DnsResponse { message, buffer })
            }
        }
    }

    /// The response that bytes begin with, as `Message::from_vec` reads it, with all of these bytes (RFC 1035, 4.1).
    ///
    /// # Errors
    ///
    /// `Decode` of the first fault of bytes that begin with no message; of `Memory` if memory runs out; `NotAResponse`
    /// for a query.
    pub fn from_buffer(alloc: Global, buffer: Vec<u8>) -> Result<DnsResponse, ProtoError>
        ensures found { IfOk result (λ r. ((e : ℕ) × IsMessageAt buffer.items 0 r.message e)
            × IsResponse r.message × (r.buffer ≡ buffer.items)) }
        // Where a message begins the bytes, it is that one; refused only for a query or for memory.
        ensures only { (m : MessageValue) (e : ℕ) → IsMessageAt buffer.items 0 m e
            → MatchResult result (λ r. r.message ≡ m)
            (λ f. (f ≡ ProtoError.Decode DecodeError.Memory)
            ⊎ ((f ≡ ProtoError.NotAResponse) × IsQuery m)) }
        // Refused only so: `NotAResponse` for a query, `Decode` of the first fault or of `Memory`.
        ensures refused { IfErr result (λ f. IsRefusedResponse buffer.items f) }
        // Unless memory ran out, that is the first fault in the terms of the standard.
        ensures fault { (f : DecodeError) → result ≡ Err (ProtoError.Decode f)
            → (f ≡ DecodeError.Memory) ⊎ IsMessageFault buffer.items 0 f }
        // A message that was read can stand on the wire, and is read there as it was.
        ensures fits { IfOk result (λ r. Fits r.message) }
    {
        let message = Message::from_vec(alloc, &buffer)?;
        match message.metadata.message_type {
            MessageType::Query => Err(ProtoError::NotAResponse),
            MessageType::Response => Ok(DnsResponse { message, buffer }),
        }
    }

    /// The message.
    pub fn message(&self) -> &Message
        ensures { message_value result.now ≡ self.now.message }
    {
        &self.message
    }

    /// The message, to be changed. A change leaves the bytes as they are.
    pub fn message_mut(&mut self) -> &mut Message
        // When the borrow of the answer ends, the response has the message as it was left, and its
        // bytes as before.
        ensures* writes_back { sem 𝓛 (LendsMessage self.entry result) }
        ensures value { message_value result.now ≡ self.old.message }
    {
        &mut self.message
    }

    /// The first authority that is an SOA (RFC 1035, 3.3.13).
    pub fn soa(&self) -> Option<RecordRef<'_, SOA>>
        ensures { option_map seen result ≡ soa_authority self.now.message }
    {
        first_soa(&self.message.authorities)
    }

    /// For how many seconds the absence of an answer may be kept: the lesser of the TTL and the minimum of the first
    /// SOA among the authorities; none without one (RFC 2308, 5).
    pub fn negative_ttl(&self) -> Option<u32>
        ensures { result ≡ negative_ttl self.now.message }
    {
        let soa = self.soa()?;
        Some(soa.ttl().min(soa.data().minimum()))
    }

    /// Whether some question is answered: for type ANY by any record of its name; for SOA by an SOA in whose zone the
    /// name lies; for another type by any record among the answers, or one of that type and name in any section.
    pub fn contains_answer(&self) -> bool
        ensures { result ≡ contains_answer self.now.message }
    {
        self.message
            .queries
            .iter()
            .any(|query| answers_query(&self.message, query))
    }

    /// The bytes that the response was read from, or is written as.
    pub fn as_buffer(&self) -> &[u8]
        ensures { result.now ≡ self.now.buffer }
    {
        &self.buffer
    }

    /// The bytes alone.
    pub fn into_buffer(self) -> Vec<u8>
        ensures { result.items ≡ self.buffer }
    {
        self.buffer
    }

    /// The message alone.
    pub fn into_message(self) -> Message
        ensures { message_value result ≡ self.message }
    {
        self.message
    }

    /// The message and the bytes.
    pub fn into_parts(self) -> (Message, Vec<u8>)
        ensures message { message_value result.0 ≡ self.message }
        ensures buffer { result.1.items ≡ self.buffer }
    {
        (self.message, self.buffer)
    }
}

impl Clone for DnsResponse {
    ghost is_clone = { λ a b. b ≡ a };

    /// The same message and bytes.
    ///
    /// # Errors
    ///
    /// If memory runs out.
    fn clone(&self) -> Result<DnsResponse, AllocError> {
        Ok(DnsResponse {
            message: self.message.clone()?,
            buffer: self.buffer.clone()?,
        })
    }
}

impl From<DnsResponse> for Message {
    ghost from_gives = { λ r m. message_value m ≡ r.message };

    fn from(response: DnsResponse) -> Message {
        response.into_message()
    }
}

/// The bytes of the message, as `Message::to_vec` writes them.
fn write(alloc: Global, message: &Message) -> Result<Vec<u8>, ProtoError>
    // These clauses are those of `DnsResponse::from_message`, of a query as well.
    ensures written { Fits (message_value message.now)
        → IfOk result (λ bytes. IsWritten (message_value message.now) MAX_MESSAGE bytes.items) }
    ensures answer { IfOk result (λ bytes. message_answer MAX_MESSAGE (message_value message.now)
        ≡ Ok bytes.items) }
    ensures refusal { IfErr result (λ e. (e ≡ ProtoError.Memory)
        ⊎ (message_answer MAX_MESSAGE (message_value message.now) ≡ Err e)) }
{
    let mut buffer = Vec::new(alloc);
    {
        let mut encoder = BinEncoder::new(&mut buffer);
        message.emit(&mut encoder)?;
    }
    Ok(buffer)
}

/// The first of the records that is an SOA.
fn first_soa<'a>(records: &'a [Record]) -> Option<RecordRef<'a, SOA>>
    ensures { option_map seen result ≡ first_soa records.now }
{
    for record in records {
        if let Some(soa) = record.try_borrow::<SOA>() {
            return Some(soa);
        }
    }
    None
}

/// Whether the records of a message answer a question.
fn answers_query(message: &Message, query: &Query) -> bool
    ensures { result ≡ answers_by query.now.query_type (message_value message.now) query.now }
{
    match query.query_type() {
        RecordType::ANY => has_name(message, query.name()),
        RecordType::SOA => has_soa_above(message, query.name()),
        record_type => {
            !message.answers.is_empty() || has_record(message, record_type, query.name())
        }
    }
}

/// Whether any record has the name.
fn has_name(message: &Message, name: &Name) -> bool
    ensures { result
        ≡ list_any (λ r. same_name r.name name.now) (all_records (message_value message.now)) }
{
    message.all_sections().any(|record| record.name == *name)
}

/// Whether any record is the SOA of a zone in which the name lies.
fn has_soa_above(message: &Message, name: &Name) -> bool
    ensures { result ≡ list_any (λ r. is_of types.SOA r
        && is_zone_of r.name name.now) (all_records (message_value message.now)) }
{
    message.all_sections().any(|record| record.record_type() == RecordType::SOA
        && record.name.zone_of(name))
}

/// Whether any record has the type and the name.
fn has_record(message: &Message, record_type: RecordType, name: &Name) -> bool
    ensures { result ≡ list_any (λ r. is_of record_type r
        && same_name r.name name.now) (all_records (message_value message.now)) }
{
    message.all_sections().any(|record| record.record_type() == record_type && record.name == *name)
}
