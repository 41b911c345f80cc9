//! Reads messages (RFC 1035, 4.1).

ghost use Rattle.std.specs.Prelude.{◌≡◌, ◌⊎◌, ◌+◌, Err, IfErr, IfOk, MatchResult, Ok, ℕ};
ghost use Rattle.base.specs.reading.Many.{many_at};
ghost use Rattle.base.specs.reading.Tracks.{Tracks};
ghost use Rattle.base.specs.reading.Reading.{Fails, Reads};
ghost use Rattle.op.specs.Fault.{IsMessageFault, IsQueriesFault, IsSectionFault};
ghost use Rattle.op.specs.Fits.{Fits};
ghost use Rattle.op.specs.Message.{asking, high_code, IsMessageAt, message_at, message_value, MessageValue, rest_at};
ghost use Rattle.op.specs.Places.{message_places, queries_places, records_places};
ghost use Rattle.op.specs.Query.{query_at};
ghost use Rattle.op.specs.ReadsOrDecodes.{ReadsOrDecodes};
ghost use Rattle.op.specs.Section.{read_section_value, section_at};

mod section;

use crate::edns::Edns;
use crate::header::{Header, HeaderCounts, Metadata};
use crate::message::Message;
use crate::op_code::OpCode;
use crate::query::Query;
use base::{BinDecodable, BinDecoder, DecodeError, ProtoError, read_many};
use base_data::TSIG;
use rr::Record;
use section::read_section;
use std::alloc::Global;

impl Message {
    /// Reads `count` questions, one after another (RFC 1035, 4.1.2).
    ///
    /// # Errors
    ///
    /// `Decode` of what reading a question is refused with: the first fault; `Memory` if memory runs out.
    pub fn read_queries(
        decoder: &mut BinDecoder<'_>,
        count: usize,
    ) -> Result<Vec<Query>, ProtoError>
        // A refusal is `Decode` of the fault met in reading `count` questions, or of `Memory`.
        ensures read { ReadsOrDecodes (λ v. v.items) decoder.old decoder.new result
            (many_at query_at count decoder.old.bytes decoder.old.index) }
        // Unless memory ran out, `Decode` has the first fault in the terms of the standard.
        ensures fault { (f : DecodeError) → result ≡ Err (ProtoError.Decode f)
            → (f ≡ DecodeError.Memory)
            ⊎ IsQueriesFault count decoder.old.bytes decoder.old.index f }
        // As of every read, see `BinDecodable::read`: of the names of the questions.
        ensures tracks { Tracks (λ _. queries_places count decoder.old.bytes decoder.old.index)
            decoder.old decoder.new result }
    {
        Ok(read_many::<Query>(decoder, count)?)
    }

    /// Reads a section of `count` records: the ordinary ones in their order, what an OPT record says, and the signature
    /// (RFC 1035, 4.1.3; RFC 6891, 6.1.1; RFC 8945, 5.1). `is_additional` tells whether it is the additional section,
    /// and `op_code` is the operation of the message's header: by these two it is tested which records may stand.
    ///
    /// Each record is read and then tested before the next one.
    ///
    /// # Errors
    ///
    /// Beside the faults of a record, `InvalidEmptyRecord` for empty data outside an Update and of another type than
    /// OPT, `RecordAfterSig` after a signature, `RecordNotInAdditionalSection` for OPT, SIG and TSIG outside the
    /// additional section, `DuplicateEdns` for a second OPT record; `Memory` if memory runs out.
    pub fn read_records(
        decoder: &mut BinDecoder<'_>,
        count: usize,
        is_additional: bool,
        op_code: OpCode,
    ) -> Result<(Vec<Record>, Option<Edns>, Option<Box<Record<TSIG>>>), DecodeError>
        ensures read { Reads read_section_value decoder.old decoder.new result
            (section_at is_additional op_code count decoder.old.bytes decoder.old.index) }
        // A refusal is the first fault in the terms of the standard, unless memory ran out.
        ensures fault { IfErr result (λ f. (f ≡ DecodeError.Memory)
            ⊎ IsSectionFault is_additional op_code count decoder.old.bytes decoder.old.index f) }
        // As of every read, see `BinDecodable::read`: of the names of the records.
        ensures tracks { Tracks (λ _. records_places count decoder.old.bytes decoder.old.index)
            decoder.old decoder.new result }
    {
        let mut records = Vec::new(decoder.allocator());
        let mut edns = None;
        let mut signature = None;
        read_section(
            &mut records,
            &mut edns,
            &mut signature,
            decoder,
            count,
            is_additional,
            op_code,
        )?;
        Ok((records, edns, signature))
    }

    /// Reads the three sections, each of the number of records that the header says, into a message that has its
    /// header and its questions alone.
    ///
    /// # Errors
    ///
    /// The first fault; `Memory` if memory runs out. What was read before stays.
    #[inline(always)]
    fn read_sections(
        &mut self,
        decoder: &mut BinDecoder<'_>,
        counts: HeaderCounts,
    ) -> Result<(), DecodeError>
        requires { message_value self.old
            ≡ asking self.old.metadata self.old.queries.items }
        ensures read { Reads (λ _. message_value self.new) decoder.old decoder.new result
            (rest_at self.old.metadata self.old.queries.items counts decoder.old.bytes
            decoder.old.index) }
        // As of every read, see `BinDecodable::read`: of the names of the records.
        ensures tracks { Tracks
            (λ _. records_places (counts.answers + counts.authorities + counts.additionals)
            decoder.old.bytes decoder.old.index) decoder.old decoder.new result }
    {
        let op_code = self.metadata.op_code;
        read_section(
            &mut self.answers,
            &mut self.edns,
            &mut self.signature,
            decoder,
            usize::from(counts.answers),
            false,
            op_code,
        )?;
        read_section(
            &mut self.authorities,
            &mut self.edns,
            &mut self.signature,
            decoder,
            usize::from(counts.authorities),
            false,
            op_code,
        )?;
        read_section(
            &mut self.additionals,
            &mut self.edns,
            &mut self.signature,
            decoder,
            usize::from(counts.additionals),
            true,
            op_code,
        )?;
        merge_high_code(&mut self.metadata, &self.edns);
        Ok(())
    }

    /// Reads a message at the decoder's place, and moves after it: the header, the questions and the three sections as
    /// the header counts them (RFC 1035, 4.1). The code has the eight bits of EDNS above the header's four (RFC 6891,
    /// 6.1.3).
    ///
    /// # Errors
    ///
    /// The first fault; `Memory` if memory runs out. A decoder that refused isn't used again.
    #[inline(never)]
    pub fn read(decoder: &mut BinDecoder<'_>) -> Result<Message, DecodeError>
        ensures read { Reads message_value decoder.old decoder.new result
            (message_at decoder.old.bytes decoder.old.index) }
        // A refusal is the first fault in the terms of the standard, unless memory ran out.
        ensures fault { IfErr result (λ f. (f ≡ DecodeError.Memory)
            ⊎ IsMessageFault decoder.old.bytes decoder.old.index f) }
        // As of every read, see `BinDecodable::read`: of the names of the message.
        ensures tracks { Tracks (λ _. message_places decoder.old.bytes decoder.old.index)
            decoder.old decoder.new result }
    {
        let header = Header::read(decoder)?;
        let queries = read_many::<Query>(decoder, usize::from(header.counts.queries))?;
        let alloc = decoder.allocator();
        // the records are read into the message itself, so that no section is moved
        let mut message = Message {
            metadata: header.metadata,
            queries,
            answers: Vec::new(alloc),
            authorities: Vec::new(alloc),
            additionals: Vec::new(alloc),
            signature: None,
            edns: None,
        };
        message.read_sections(decoder, header.counts)?;
        Ok(message)
    }

    /// Reads the message that a buffer begins with. Bytes after it are not looked at.
    ///
    /// Accepts exactly the buffers that begin with a message word, and answers that word's message (RFC 1035, 4.1);
    /// that message fits.
    ///
    /// # Errors
    ///
    /// The buffer's first fault; `Memory` if memory runs out.
    pub fn from_vec(alloc: Global, buffer: &[u8]) -> Result<Message, DecodeError>
        // The message that is answered stands, in wire form, at the start of the buffer.
        ensures found { IfOk result (λ m. (e : ℕ) × IsMessageAt buffer.now 0 (message_value m) e) }
        // Where a message begins the buffer, it is that one, unless memory runs out.
        ensures only { (m : MessageValue) (e : ℕ) → IsMessageAt buffer.now 0 m e
            → MatchResult result (λ read. message_value read ≡ m) (λ f. f ≡ DecodeError.Memory) }
        // A refusal is the fault of the definition `message_at`, or memory ran out.
        ensures refused { IfErr result (λ f. Fails f (message_at buffer.now 0)) }
        // Unless memory ran out, that is the first fault in the terms of the standard.
        ensures fault { IfErr result (λ f. (f ≡ DecodeError.Memory)
            ⊎ IsMessageFault buffer.now 0 f) }
        // A message that was read can stand on the wire, and is read there as it was.
        ensures fits { IfOk result (λ m. Fits (message_value m)) }
    {
        Message::read(&mut BinDecoder::new(alloc, buffer))
    }
}

/// Puts the eight high bits of EDNS above the code of a header, if there is EDNS.
#[inline(always)]
fn merge_high_code(metadata: &mut Metadata, edns: &Option<Edns>)
    ensures { metadata.new ≡ high_code edns.now metadata.old }
{
    if let Some(edns) = edns {
        metadata.merge_response_code(edns.rcode_high);
    }
}
