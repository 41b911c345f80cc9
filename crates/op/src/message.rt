//! Messages (RFC 1035, 4.1).

ghost use Rattle.std.specs.Option.{option_copied};
ghost use Rattle.std.specs.Prelude.{◌≡◌, ◌+◌, ◌++◌, ◌∷◌, [], filter, IfOk, IsOkUnless, None, OnErr, OnOk, Some};
ghost use Rattle.base.specs.writing.Items.{IsCountable};
ghost use Rattle.op.specs.Message.{empty_message, message_value};
ghost use Rattle.op.specs.Metadata.{plain_metadata};
ghost use Rattle.op.specs.Parts.{AddsGiven, edns_version, is_for_all, payload_taken, stripped, truncated};

mod display;
mod fits_wire;
pub mod laws;
mod reading;
mod sections;
mod writing;

use crate::edns::Edns;
use crate::header::{MessageType, Metadata};
use crate::op_code::OpCode;
use crate::query::Query;
use crate::response_code::ResponseCode;
pub use base::EmitAndCount;
use base::limits::MIN_PAYLOAD;
use base::{ProtoError, RecordType};
use base_data::TSIG;
use rr::Record;
pub use sections::{AllSections, TakeAllSections};
use std::alloc::{AllocError, Global};
pub use writing::emit_message_parts;

/// A message: a header, questions, three sections of records, EDNS and a signature (RFC 1035, 4.1).
///
/// EDNS and the signature are no records of the additional section here; on the wire they stand after it.
#[derive(Debug, Drop, PartialEq, Eq)]
pub struct Message {
    /// The header without its counts.
    pub metadata: Metadata,
    /// The questions; in an Update, the zone (RFC 2136, 2.3).
    pub queries: Vec<Query>,
    /// The answers; in an Update, the prerequisites (RFC 2136, 2.4).
    pub answers: Vec<Record>,
    /// The authorities; in an Update, what changes (RFC 2136, 2.5).
    pub authorities: Vec<Record>,
    /// The additional records.
    pub additionals: Vec<Record>,
    /// The signature over the message (RFC 8945, 5.1).
    pub signature: Option<Box<Record<TSIG>>>,
    /// What the OPT record says (RFC 6891, 6.1).
    pub edns: Option<Edns>,
}

impl Message {
    /// A message without questions and records. Takes no memory.
    pub fn new(alloc: Global, id: u16, message_type: MessageType, op_code: OpCode) -> Message
        ensures { message_value result ≡ empty_message (plain_metadata id message_type op_code) }
    {
        Message {
            metadata: Metadata::new(id, message_type, op_code),
            queries: Vec::new(alloc),
            answers: Vec::new(alloc),
            authorities: Vec::new(alloc),
            additionals: Vec::new(alloc),
            signature: None,
            edns: None,
        }
    }

    /// A query without questions. Takes no memory.
    pub fn query(alloc: Global, id: u16) -> Message
        ensures { message_value result
            ≡ empty_message (plain_metadata id MessageType.Query OpCode.Query) }
    {
        Message::new(alloc, id, MessageType::Query, OpCode::Query)
    }

    /// A response without records. Takes no memory.
    pub fn response(alloc: Global, id: u16, op_code: OpCode) -> Message
        ensures { message_value result
            ≡ empty_message (plain_metadata id MessageType.Response op_code) }
    {
        Message::new(alloc, id, MessageType::Response, op_code)
    }

    /// A response with a code. Takes no memory.
    pub fn error_msg(
        alloc: Global,
        id: u16,
        op_code: OpCode,
        response_code: ResponseCode,
    ) -> Message
        ensures { message_value result
            ≡ empty_message
            (record (plain_metadata id MessageType.Response op_code) {
              response_code = response_code;
            }) }
    {
        let mut message = Message::response(alloc, id, op_code);
        message.metadata.response_code = response_code;
        message
    }

    /// Adds a question after the others.
    ///
    /// # Errors
    ///
    /// If memory runs out; the message stays as it was then.
    pub fn add_query(&mut self, query: Query) -> Result<(), ProtoError>
        ensures ok { OnOk result (message_value self.new
            ≡ record (message_value self.old) {
              queries = (message_value self.old).queries ++ query ∷ [];
            }) }
        ensures err { OnErr result (message_value self.new ≡ message_value self.old) }
        ensures only { IsOkUnless result ProtoError.Memory }
    {
        Ok(self.queries.push(query)?)
    }

    /// Adds an answer after the others.
    ///
    /// # Errors
    ///
    /// If memory runs out; the message stays as it was then.
    pub fn add_answer(&mut self, answer: Record) -> Result<(), ProtoError>
        ensures ok { OnOk result (message_value self.new
            ≡ record (message_value self.old) {
              answers = (message_value self.old).answers ++ answer ∷ [];
            }) }
        ensures err { OnErr result (message_value self.new ≡ message_value self.old) }
        ensures only { IsOkUnless result ProtoError.Memory }
    {
        Ok(self.answers.push(answer)?)
    }

    /// Adds an authority after the others.
    ///
    /// # Errors
    ///
    /// If memory runs out; the message stays as it was then.
    pub fn add_authority(&mut self, authority: Record) -> Result<(), ProtoError>
        ensures ok { OnOk result (message_value self.new
            ≡ record (message_value self.old) {
              authorities = (message_value self.old).authorities ++ authority ∷ [];
            }) }
        ensures err { OnErr result (message_value self.new ≡ message_value self.old) }
        ensures only { IsOkUnless result ProtoError.Memory }
    {
        Ok(self.authorities.push(authority)?)
    }

    /// Adds an additional record after the others.
    ///
    /// # Errors
    ///
    /// If memory runs out; the message stays as it was then.
    pub fn add_additional(&mut self, additional: Record) -> Result<(), ProtoError>
        ensures ok { OnOk result (message_value self.new
            ≡ record (message_value self.old) {
              additionals = (message_value self.old).additionals ++ additional ∷ [];
            }) }
        ensures err { OnErr result (message_value self.new ≡ message_value self.old) }
        ensures only { IsOkUnless result ProtoError.Memory }
    {
        Ok(self.additionals.push(additional)?)
    }

    /// Sets what the OPT record says (RFC 6891, 6.1). All else stays.
    pub fn set_edns(&mut self, edns: Edns) -> &mut Message
        // The reference that is answered is `self` itself.
        ensures same { result.ghost_name ≡ self.entry.ghost_name }
        ensures value { result.now ≡ record self.old { edns = Some edns } }
    {
        self.edns = Some(edns);
        self
    }

    /// Sets the signature (RFC 8945, 5.1). All else stays.
    pub fn set_signature(&mut self, signature: Box<Record<TSIG>>) -> &mut Message
        // The reference that is answered is `self` itself.
        ensures same { result.ghost_name ≡ self.entry.ghost_name }
        ensures value { result.now ≡ record self.old { signature = Some signature } }
    {
        self.signature = Some(signature);
        self
    }

    /// Adds what the iterator gives, to its end, after the questions.
    ///
    /// # Errors
    ///
    /// If memory runs out; the questions then stand that came before the one for which there was none.
    pub fn add_queries<I: Iterator<Item = Query> + Drop>(
        &mut self,
        queries: I,
    ) -> Result<(), ProtoError>
        // The iterator may be asked for its next item.
        requires can { I.can_next queries }
        // It gives no more items than a `usize` can count.
        requires countable { IsCountable (I.remaining queries) }
        // All items stand after the others, or those before the item for which there was no memory.
        ensures added { AddsGiven I.next_gives queries (message_value self.old).queries
            (message_value self.new).queries result }
        // Whatever the answer, all else of the message stays.
        ensures others { message_value self.new
            ≡ record (message_value self.old) { queries = (message_value self.new).queries } }
        ensures only { IsOkUnless result ProtoError.Memory }
    {
        Ok(append(&mut self.queries, queries)?)
    }

    /// Adds what the iterator gives, to its end, after the answers.
    ///
    /// # Errors
    ///
    /// If memory runs out; the answers then stand that came before the one for which there was none.
    pub fn add_answers<I: Iterator<Item = Record> + Drop>(
        &mut self,
        records: I,
    ) -> Result<(), ProtoError>
        // The iterator may be asked for its next item.
        requires can { I.can_next records }
        // It gives no more items than a `usize` can count.
        requires countable { IsCountable (I.remaining records) }
        // All items stand after the others, or those before the item for which there was no memory.
        ensures added { AddsGiven I.next_gives records (message_value self.old).answers
            (message_value self.new).answers result }
        // Whatever the answer, all else of the message stays.
        ensures others { message_value self.new
            ≡ record (message_value self.old) { answers = (message_value self.new).answers } }
        ensures only { IsOkUnless result ProtoError.Memory }
    {
        Ok(append(&mut self.answers, records)?)
    }

    /// Adds what the iterator gives, to its end, after the authorities.
    ///
    /// # Errors
    ///
    /// If memory runs out; the authorities then stand that came before the one for which there was none.
    pub fn add_authorities<I: Iterator<Item = Record> + Drop>(
        &mut self,
        records: I,
    ) -> Result<(), ProtoError>
        // The iterator may be asked for its next item.
        requires can { I.can_next records }
        // It gives no more items than a `usize` can count.
        requires countable { IsCountable (I.remaining records) }
        // All items stand after the others, or those before the item for which there was no memory.
        ensures added { AddsGiven I.next_gives records (message_value self.old).authorities
            (message_value self.new).authorities result }
        // Whatever the answer, all else of the message stays.
        ensures others { message_value self.new
            ≡ record (message_value self.old) {
              authorities = (message_value self.new).authorities;
            } }
        ensures only { IsOkUnless result ProtoError.Memory }
    {
        Ok(append(&mut self.authorities, records)?)
    }

    /// Adds what the iterator gives, to its end, after the additional records.
    ///
    /// # Errors
    ///
    /// If memory runs out; the additional records then stand that came before the one for which there was none.
    pub fn add_additionals<I: Iterator<Item = Record> + Drop>(
        &mut self,
        records: I,
    ) -> Result<(), ProtoError>
        // The iterator may be asked for its next item.
        requires can { I.can_next records }
        // It gives no more items than a `usize` can count.
        requires countable { IsCountable (I.remaining records) }
        // All items stand after the others, or those before the item for which there was no memory.
        ensures added { AddsGiven I.next_gives records (message_value self.old).additionals
            (message_value self.new).additionals result }
        // Whatever the answer, all else of the message stays.
        ensures others { message_value self.new
            ≡ record (message_value self.old) {
              additionals = (message_value self.new).additionals;
            } }
        ensures only { IsOkUnless result ProtoError.Memory }
    {
        Ok(append(&mut self.additionals, records)?)
    }

    /// Makes these records the answers of a message that has none. Takes no memory.
    pub fn insert_answers(&mut self, records: Vec<Record>)
        requires { (message_value self.old).answers ≡ [] }
        ensures { message_value self.new
            ≡ record (message_value self.old) { answers = records.items } }
    {
        self.answers = records;
    }

    /// Makes these records the authorities of a message that has none. Takes no memory.
    pub fn insert_authorities(&mut self, records: Vec<Record>)
        requires { (message_value self.old).authorities ≡ [] }
        ensures { message_value self.new
            ≡ record (message_value self.old) { authorities = records.items } }
    {
        self.authorities = records;
    }

    /// Makes these records the additional records of a message that has none. Takes no memory.
    pub fn insert_additionals(&mut self, records: Vec<Record>)
        requires { (message_value self.old).additionals ≡ [] }
        ensures { message_value self.new
            ≡ record (message_value self.old) { additionals = records.items } }
    {
        self.additionals = records;
    }

    /// The bytes of the largest answer that the sender takes: what EDNS says, and at least 512; 512 without EDNS
    /// (RFC 6891, 6.2.3 and 6.2.5).
    pub fn max_payload(&self) -> u16
        ensures { result ≡ payload_taken self.now.edns }
    {
        match &self.edns {
            Some(edns) => edns.max_payload().max(MIN_PAYLOAD),
            None => MIN_PAYLOAD,
        }
    }

    /// The version of EDNS; 0 without EDNS (RFC 6891, 6.1.3).
    pub fn version(&self) -> u8
        ensures { result ≡ edns_version self.now.edns }
    {
        match &self.edns {
            Some(edns) => edns.version(),
            None => 0,
        }
    }

    /// The signature over the message, if there is one (RFC 8945, 5.1).
    pub fn signature(&self) -> Option<&Record<TSIG>>
        ensures { option_copied result ≡ (message_value self.now).signature }
    {
        self.signature.as_deref()
    }

    /// Takes the signature out of the message, if there is one (RFC 8945, 5.1). All else stays.
    pub fn take_signature(&mut self) -> Option<Box<Record<TSIG>>>
        ensures taken { result ≡ self.old.signature }
        ensures left { self.new ≡ record self.old { signature = None } }
    {
        self.signature.take()
    }

    /// The message as a response: QR alone changes (RFC 1035, 4.1.1). Takes no memory.
    pub fn into_response(mut self) -> Message
        ensures { result
            ≡ record self {
              metadata = record self.metadata { message_type = MessageType.Response };
            } }
    {
        self.metadata.message_type = MessageType::Response;
        self
    }

    /// The message cut to its metadata with TC, its questions and EDNS: without records and without a signature (RFC
    /// 2181, 9).
    ///
    /// # Errors
    ///
    /// If memory runs out.
    pub fn truncate(&self) -> Result<Message, ProtoError>
        ensures ok { IfOk result (λ m. message_value m ≡ truncated (message_value self.now)) }
        ensures only { IsOkUnless result ProtoError.Memory }
    {
        let alloc = *self.queries.allocator();
        Ok(Message {
            metadata: Metadata {
                truncation: true,
                ..self.metadata
            },
            queries: self.queries.clone()?,
            answers: Vec::new(alloc),
            authorities: Vec::new(alloc),
            additionals: Vec::new(alloc),
            signature: None,
            edns: self.edns.clone()?,
        })
    }

    /// The message as it is sent to one who takes records of DNSSEC, which changes nothing, or doesn't: then those of
    /// all three sections go whose type is one of DNSSEC and not the first question's; without a question all stay
    /// (RFC 4035, 3.2.1). All else stays. Takes no memory.
    pub fn maybe_strip_dnssec_records(mut self, query_has_dnssec_ok: bool) -> Message
        ensures { message_value result ≡ stripped query_has_dnssec_ok (message_value self) }
    {
        if query_has_dnssec_ok {
            return self;
        }
        let Some(query) = self.queries.first() else {
            return self;
        };
        let asked = query.query_type();
        keep_for_all(&mut self.answers, asked);
        keep_for_all(&mut self.authorities, asked);
        keep_for_all(&mut self.additionals, asked);
        self
    }
}

impl Clone for Message {
    ghost is_clone = { λ a b. message_value b ≡ message_value a };

    /// The same message.
    ///
    /// # Errors
    ///
    /// If memory runs out.
    fn clone(&self) -> Result<Message, AllocError> {
        Ok(Message {
            metadata: self.metadata,
            queries: self.queries.clone()?,
            answers: self.answers.clone()?,
            authorities: self.authorities.clone()?,
            additionals: self.additionals.clone()?,
            signature: self.signature.clone()?,
            edns: self.edns.clone()?,
        })
    }
}

/// Puts what an iterator gives after a list, as long as there is memory.
fn append<T: Drop, I: Iterator<Item = T> + Drop>(
    list: &mut Vec<T>,
    items: I,
) -> Result<(), AllocError>
    // The iterator may be asked for its next item.
    requires can { I.can_next items }
    // It gives no more items than a `usize` can count.
    requires countable { IsCountable (I.remaining items) }
    ensures { AddsGiven I.next_gives items list.old.items list.new.items result }
{
    for item in items {
        list.push(item)?;
    }
    Ok(())
}

/// Takes away the records that go to those alone who take records of DNSSEC.
fn keep_for_all(records: &mut Vec<Record>, asked: RecordType)
    ensures { records.new.items ≡ filter (is_for_all asked) records.old.items }
{
    records.retain(|record| is_for_all(record, asked));
}

/// Whether a record goes to those too who take none of DNSSEC: it is of the type that was asked for, or of none of
/// DNSSEC (RFC 4035, 3.2.1).
fn is_for_all(entry: &Record, asked: RecordType) -> bool
    ensures { result ≡ is_for_all asked entry.now }
{
    let record_type = entry.record_type();
    record_type == asked || !record_type.is_dnssec()
}
