//! Writes messages (RFC 1035, 4.1; RFC 2181, 9).

ghost use Rattle.base.specs.declared.limits.TheConstants.{MAX_MESSAGE};
ghost use Rattle.std.specs.Option.{option_copied};
ghost use Rattle.std.specs.Prelude.{◌≡◌, ◌⊎◌, [], ◌<◌, ◌^◌, drop, Err, IfErr, IfOk, length, Ok, ⊤};
ghost use Rattle.base.specs.writing.Laws.{Keeps};
ghost use Rattle.base.specs.writing.Wire.{state_of};
ghost use Rattle.op.specs.Composition.{AddsCounts, AndThen, Composition, CountsItems, EmitsPart, HasHeader, Narrows, Tests, WritesItems, WritesRecordItems};
ghost use Rattle.op.specs.Cut.{IsWritten};
ghost use Rattle.op.specs.Fits.{Fits, as_list, opt_records, signature_records};
ghost use Rattle.op.specs.Message.{message_value};
ghost use Rattle.op.specs.MessageWritten.{Answers, message_answer};

use crate::edns::{Edns, RaisedEdns};
use crate::header::{Header, HeaderCounts, Metadata};
use crate::message::Message;
use crate::response_code::ResponseCode;
use base::limits::{MAX_MESSAGE, MIN_PAYLOAD};
use base::{BinEncodable, BinEncoder, EmitAndCount, ProtoError};
use base_data::TSIG;
use rr::Record;
use std::iter;

/// The bytes that a new message has room for at first: as many as fit a datagram (RFC 1035, 4.2.1).
const ROOM: usize = MIN_PAYLOAD as usize;

impl Message {
    /// Writes the message after what the encoder holds: a header, the questions, answers, authorities and additional
    /// records, EDNS and the signature (RFC 1035, 4.1).
    ///
    /// What doesn't fit the limit is cut, each part by itself and before the first item that doesn't fit, and TC says
    /// so. Into a new encoder, of a message that fits the wire, this writes a cut of the message, which is read as
    /// exactly that.
    ///
    /// # Errors
    ///
    /// `MaxBufferSizeExceeded` where the header doesn't fit, and then nothing is written; `NotAllRecordsWritten` where
    /// the questions don't, with the number of those that are written, all before the first that doesn't fit; `Memory`
    /// if memory runs out. With room for header and questions uncompressed it is refused for memory alone, by the law
    /// `a_refused_message_has_no_room`.
    pub fn emit(&self, encoder: &mut BinEncoder<'_>) -> Result<(), ProtoError>
        // Whatever the answer, what stood before stays, and no byte is written past the limit.
        ensures keeps { Keeps (state_of encoder.old) (state_of encoder.new) }
        // Where memory didn't run out, it answers what the definition `message_answer_at` gives of
        // what stood before, and leaves what `message_left` does: after `Ok` exactly the bytes and
        // suffixes of `message_written` are added.
        ensures answer { IfOk result (λ _. Answers (message_value self.now) (state_of encoder.old)
            (Ok (drop (length (state_of encoder.old).bytes) (state_of encoder.new).bytes))
            (state_of encoder.new)) }
        ensures refused { IfErr result (λ e. (e ≡ ProtoError.Memory)
            ⊎ Answers (message_value self.now) (state_of encoder.old) (Err e)
            (state_of encoder.new)) }
        // Of a message that fits, the bytes of a new encoder are a cut under its limit, and are
        // read as that cut.
        ensures written { Fits (message_value self.now) → (state_of encoder.old).bytes ≡ []
            → (state_of encoder.old).suffixes ≡ []
            → IfOk result
            (λ _. IsWritten (message_value self.now) (state_of encoder.old).limit
            (state_of encoder.new).bytes) }
    {
        emit_message_parts(
            &self.metadata,
            &mut self.queries.iter(),
            &mut self.answers.iter(),
            &mut self.authorities.iter(),
            &mut self.additionals.iter(),
            self.edns.as_ref(),
            self.signature.as_deref(),
            encoder,
        )?;
        Ok(())
    }

    /// The bytes of the message, cut at 65,535 bytes (RFC 1035, 4.2.2): what `emit` leaves in a new encoder.
    ///
    /// # Errors
    ///
    /// `NotAllRecordsWritten` where the questions don't fit, with the number of those before the first that doesn't;
    /// `Memory` if memory runs out.
    pub fn to_vec(&self) -> Result<Vec<u8>, ProtoError>
        // Of a message that fits, the bytes are a cut under 65,535 bytes, and are read as that cut.
        ensures written { Fits (message_value self.now)
            → IfOk result (λ bytes. IsWritten (message_value self.now) MAX_MESSAGE bytes.items) }
        // The bytes are what the definition `message_answer` gives.
        ensures answer { IfOk result (λ bytes. message_answer MAX_MESSAGE (message_value self.now)
            ≡ Ok bytes.items) }
        // Refused with what `message_answer` gives, unless memory runs out.
        ensures refusal { IfErr result (λ e. (e ≡ ProtoError.Memory)
            ⊎ (message_answer MAX_MESSAGE (message_value self.now) ≡ Err e)) }
    {
        self.to_vec_within(MAX_MESSAGE)
    }

    /// The bytes of the message, cut at this many bytes, as a server sends it in a datagram (RFC 1035, 4.2.1; RFC 6891,
    /// 6.2.5): what `emit` leaves in a new encoder of this limit.
    ///
    /// # Errors
    ///
    /// `MaxBufferSizeExceeded` where the header doesn't fit; `NotAllRecordsWritten` where the questions don't, with the
    /// number of those before the first that doesn't; `Memory` if memory runs out.
    pub fn to_vec_within(&self, limit: u16) -> Result<Vec<u8>, ProtoError>
        // Of a message that fits, the bytes are a cut under the limit, and are read as that cut.
        ensures written { Fits (message_value self.now)
            → IfOk result (λ bytes. IsWritten (message_value self.now) limit bytes.items) }
        // The bytes are what the definition `message_answer` gives.
        ensures answer { IfOk result (λ bytes. message_answer limit (message_value self.now)
            ≡ Ok bytes.items) }
        // Refused with what `message_answer` gives, unless memory runs out.
        ensures refusal { IfErr result (λ e. (e ≡ ProtoError.Memory)
            ⊎ (message_answer limit (message_value self.now) ≡ Err e)) }
    {
        let mut buffer = Vec::with_capacity(*self.queries.allocator(), ROOM)?;
        {
            let mut encoder = BinEncoder::new(&mut buffer);
            encoder.set_max_size(limit);
            self.emit(&mut encoder)?;
        }
        Ok(buffer)
    }
}

/// Writes a message of its parts: a header, the questions, answers, authorities and additional records, EDNS and the
/// signature (RFC 1035, 4.1). Answers the header that was written.
///
/// A part other than the questions that doesn't fit the limit is cut, and the next one is still written; TC says that
/// something was cut, or what `metadata` says (RFC 1035, 4.1.1). The high bits of EDNS are those of the response code
/// (RFC 6891, 6.1.3). The count of the additional records includes EDNS and the signature.
///
/// # Errors
///
/// `MaxBufferSizeExceeded` where the header doesn't fit; what the questions are refused with, which is
/// `NotAllRecordsWritten` where they don't fit; what another part is refused with, unless it is only cut; `Memory` if
/// memory runs out; a `Message` where a count passes 65,535: for a section as soon as it is written, for EDNS and the
/// signature with the additional records before them, and for the questions at the end.
pub fn emit_message_parts<Q, A, N, D>(
    metadata: &Metadata,
    queries: &mut Q,
    answers: &mut A,
    authorities: &mut N,
    additionals: &mut D,
    edns: Option<&Edns>,
    signature: Option<&Record<TSIG>>,
    encoder: &mut BinEncoder<'_>,
) -> Result<Header, ProtoError>
where
    Q: EmitAndCount,
    A: EmitAndCount,
    N: EmitAndCount,
    D: EmitAndCount,
    // These four are what `EmitAndCount::emit` of each part requires.
    requires queries { Q.can_emit queries.old }
    requires answers { A.can_emit answers.old }
    requires authorities { N.can_emit authorities.old }
    requires additionals { D.can_emit additionals.old }
    // Whatever the answer, what stood before stays, and no byte is written past the limit.
    ensures keeps { Keeps (state_of encoder.old) (state_of encoder.new) }
    // Room for the header is kept, the parts are written in turn, each as its own `emit` says, and
    // the header is filled in. A refusal ends it, but for a part after the questions that is cut.
    ensures run { Composition A.emits N.emits D.emits answers.old answers.new authorities.old
        authorities.new additionals.old additionals.new
        metadata.now Q.emits queries.old queries.new
        (opt_records metadata.now.response_code (option_copied edns.entry))
        (signature_records (option_copied signature.entry))
        (state_of encoder.old) result (state_of encoder.new) }
    // The limit is at most 65,535 bytes.
    ensures narrow { (state_of encoder.old).limit < 2 ^ 16 }
{
    let place = encoder.place::<Header>()?;
    let query_count = queries.emit(encoder)?;
    let answers = emit_part(answers, encoder)?;
    let authorities = emit_part(authorities, encoder)?;
    let additionals = emit_additionals(
        additionals,
        edns,
        metadata.response_code,
        signature,
        encoder,
    )?;
    let header = header_of(*metadata, query_count, answers, authorities, additionals)?;
    encoder.replace(place, &header);
    Ok(header)
}

/// What was written of a part.
#[derive(Clone, Copy, Drop)]
struct Written {
    /// How many items stand.
    count: u16,
    /// Whether an item had no room.
    is_cut: bool,
}

/// Writes a part, and counts what has room.
#[inline(always)]
fn emit_part<P: EmitAndCount>(
    part: &mut P,
    encoder: &mut BinEncoder<'_>,
) -> Result<Written, ProtoError>
    requires { P.can_emit part.old }
    // Whatever the answer, what stood before stays, and no byte is written past the limit.
    ensures keeps { Keeps (state_of encoder.old) (state_of encoder.new) }
    // The part was written as its own `emit` says, and its items counted up to where it is cut.
    ensures run { EmitsPart P.emits part.old part.new (state_of encoder.old) result
        (state_of encoder.new) }
{
    count_items(part.emit(encoder))
}

/// Writes the additional records, EDNS and the signature, each of which is cut if it has no room, and counts them
/// together.
#[inline(always)]
fn emit_additionals<D: EmitAndCount>(
    records: &mut D,
    edns: Option<&Edns>,
    code: ResponseCode,
    signature: Option<&Record<TSIG>>,
    encoder: &mut BinEncoder<'_>,
) -> Result<Written, ProtoError>
    requires { D.can_emit records.old }
    // Whatever the answer, what stood before stays, and no byte is written past the limit.
    ensures keeps { Keeps (state_of encoder.old) (state_of encoder.new) }
    // The records are written as their own `emit` says, and EDNS and the signature after them; the
    // sum of what stands is tested after each of the two.
    ensures run { AndThen (EmitsPart D.emits records.old records.new) ⊤ (λ counted.
        AndThen (WritesRecordItems (opt_records code (option_copied edns.entry))) ⊤ (λ opt.
        AndThen (Tests (AddsCounts counted opt)) ⊤ (λ sum.
        AndThen (WritesRecordItems (signature_records (option_copied signature.entry))) ⊤
        (λ signed. Tests (AddsCounts sum signed)))))
        (state_of encoder.old) result (state_of encoder.new) }
{
    let counted = emit_part(records, encoder)?;
    let rcode_high = code.high();
    let raised = edns.map(|edns| RaisedEdns { edns, rcode_high });
    let with_opt = add_item(counted, raised.as_ref(), encoder)?;
    add_item(with_opt, signature, encoder)
}

/// Writes an item if there is one, and counts it, if it has room, with what was written before.
#[inline(always)]
fn add_item<E: BinEncodable>(
    before: Written,
    item: Option<&E>,
    encoder: &mut BinEncoder<'_>,
) -> Result<Written, ProtoError>
    // Whatever the answer, what stood before stays, and no byte is written past the limit.
    ensures keeps { Keeps (state_of encoder.old) (state_of encoder.new) }
    // The item is written, or is cut since it has no room, and then the sum is tested.
    ensures run { AndThen (WritesItems E.fits E.written
        (as_list (option_copied item.entry))) ⊤ (λ written. Tests (AddsCounts before written))
        (state_of encoder.old) result (state_of encoder.new) }
{
    let Some(item) = item else {
        return Ok(before);
    };
    let written = count_items(encoder.emit_all(&mut iter::once(item)))?;
    add_counts(before, written)
}

/// What a part's answer counts: all its items, or those before the one that had no room.
fn count_items(answer: Result<usize, ProtoError>) -> Result<Written, ProtoError>
    ensures { CountsItems answer result }
{
    match answer {
        Ok(count) => narrow(count, false),
        Err(error) => match error {
            ProtoError::NotAllRecordsWritten { count } => narrow(count, true),
            other => Err(other),
        },
    }
}

/// Two counts together, cut where either is.
fn add_counts(one: Written, other: Written) -> Result<Written, ProtoError>
    ensures { AddsCounts one other result }
{
    let count = usize::from(one.count) + usize::from(other.count);
    narrow(count, one.is_cut || other.is_cut)
}

/// A count in two bytes, as a header holds it.
fn narrow(count: usize, is_cut: bool) -> Result<Written, ProtoError>
    // Refused, with a `Message`, exactly where the count passes 65,535.
    ensures { Narrows count is_cut result }
{
    match u16::try_from(count) {
        Ok(count) => Ok(Written { count, is_cut }),
        Err(_) => Err(ProtoError::Message("too many records to fit in header count")),
    }
}

/// The header of a message of which so much was written: its own codes and flags, but that TC is set too where a part
/// is cut.
#[inline(always)]
fn header_of(
    metadata: Metadata,
    query_count: usize,
    answers: Written,
    authorities: Written,
    additionals: Written,
) -> Result<Header, ProtoError>
    // Refused, with a `Message`, exactly where the questions are more than 65,535.
    ensures { HasHeader metadata query_count answers authorities additionals result }
{
    let Ok(queries) = u16::try_from(query_count) else {
        return Err(ProtoError::Message("too many queries to fit in header count"));
    };
    let is_cut = answers.is_cut || authorities.is_cut || additionals.is_cut;
    Ok(Header {
        metadata: Metadata {
            truncation: metadata.truncation || is_cut,
            ..metadata
        },
        counts: HeaderCounts {
            queries,
            answers: answers.count,
            authorities: authorities.count,
            additionals: additionals.count,
        },
    })
}
