//! The header of a message (RFC 1035, 4.1.1).

ghost use Rattle.std.specs.Prelude.{◌≡◌, ◌↔◌, ◌<◌, ◌+◌, ◌%◌, ◌≤◌, ◌||◌, ◌^◌, ℕ, List, [], ◌∷◌, length, slice_index, Ok, Err, IfOk, OnOk, OnErr, IsOkUnless, IsErrOf};
ghost use Rattle.std.specs.Int.{w16, from_be_bytes};
ghost use Rattle.base.specs.reading.Tracks.{Tracks};
ghost use Rattle.base.specs.reading.Reading.{Reads};
ghost use Rattle.base.specs.writing.State.{appended};
ghost use Rattle.base.specs.writing.Laws.{Keeps};
ghost use Rattle.base.specs.writing.Wire.{state_of};
ghost use Rattle.base.specs.Words.{Stands};
ghost use Rattle.base.specs.writing.Written.{Exactly, just};
ghost use Rattle.op.specs.Header.{HeaderWord, IsHeaderAt, IsNarrow, bit_of, header_at, header_bytes, high_byte, low_byte, metadata_of_bytes, raw_header};
ghost use Rattle.op.specs.HeaderSays.{header_says};
ghost use Rattle.op.specs.MessageType.{is_response};
ghost use Rattle.op.specs.OpCode.{op_number};
ghost use Rattle.op.specs.ResponseCode.{code_number};

pub mod flags;
pub mod header_counts;
pub mod message_type;
pub mod metadata;

use crate::op_code::OpCode;
use crate::response_code::ResponseCode;
use base::{
    BinDecodable, BinDecoder, BinEncodable, BinEncoder, DecodeError, EncodedSize, ProtoError,
};
pub use flags::Flags;
pub use header_counts::HeaderCounts;
pub use message_type::MessageType;
pub use metadata::Metadata;

/// The twelve bytes in front of a message (RFC 1035, 4.1.1).
#[derive(Clone, Copy, Debug, Drop, PartialEq, Eq, PartialOrd, Hash)]
pub struct Header {
    /// The first four bytes: id, codes and flags.
    pub metadata: Metadata,
    /// How many items each section holds.
    pub counts: HeaderCounts,
}

impl Header {
    /// The twelve bytes of the header (RFC 1035, 4.1.1). Bit 0x40 of the fourth is clear, and an opcode whose number
    /// has more than four bits spills into QR.
    #[inline(always)]
    pub fn to_bytes(&self) -> [u8; 12]
        ensures bytes { result ≡ header_bytes (raw_header self.now) }
        // ID and counts are below 2^16.
        ensures narrow { IsNarrow self.now.metadata.id self.now.counts }
        // Wherever these bytes stand in a buffer, the header stands in wire form.
        ensures word { (B : List ℕ) (i : ℕ) → Stands (header_bytes (raw_header self.now)) B i
            → HeaderWord self.now B i (i + 12) }
    {
        let HeaderCounts {
            queries,
            answers,
            authorities,
            additionals,
        } = self.counts;
        let [id_high, id_low] = self.metadata.id.to_be_bytes();
        let [queries_high, queries_low] = queries.to_be_bytes();
        let [answers_high, answers_low] = answers.to_be_bytes();
        let [authorities_high, authorities_low] = authorities.to_be_bytes();
        let [additionals_high, additionals_low] = additionals.to_be_bytes();
        [
            id_high,
            id_low,
            high_byte_of(&self.metadata),
            low_byte_of(&self.metadata),
            queries_high,
            queries_low,
            answers_high,
            answers_low,
            authorities_high,
            authorities_low,
            additionals_high,
            additionals_low,
        ]
    }
}

/// QR, the opcode, AA, TC and RD.
#[inline(always)]
fn high_byte_of(metadata: &Metadata) -> u8
    ensures { let m = metadata.now in result
        ≡ high_byte (is_response m.message_type
        || bit_of 16 (op_number m.op_code)) (op_number m.op_code % 16)
        m.authoritative m.truncation m.recursion_desired }
{
    let response = u8::from(metadata.message_type.bit());
    let op_code = u8::from(metadata.op_code);
    let authoritative = u8::from(metadata.authoritative);
    let truncation = u8::from(metadata.truncation);
    let recursion_desired = u8::from(metadata.recursion_desired);
    response << 7 | op_code << 3 | authoritative << 2 | truncation << 1 | recursion_desired
}

/// RA, AD, CD and the code.
#[inline(always)]
fn low_byte_of(metadata: &Metadata) -> u8
    ensures { let m = metadata.now in result
        ≡ low_byte m.recursion_available m.authentic_data m.checking_disabled
        (code_number m.response_code % 16) }
{
    let recursion_available = u8::from(metadata.recursion_available);
    let authentic_data = u8::from(metadata.authentic_data);
    let checking_disabled = u8::from(metadata.checking_disabled);
    recursion_available << 7
        | authentic_data << 5
        | checking_disabled << 4
        | metadata.response_code.low()
}

impl BinEncodable for Header {
    ghost word = { HeaderWord };

    ghost plain_len = { λ _. 12 };

    ghost written = { λ h. just (header_bytes (raw_header h)) };

    ghost fits = { λ h. IsNarrow h.metadata.id h.counts };

    ghost says = { header_says };

    /// Writes the twelve bytes of the header, as `to_bytes` has them (RFC 1035, 4.1.1).
    ///
    /// # Errors
    ///
    /// `MaxBufferSizeExceeded` where a byte would pass the limit; `Memory` if memory runs out. Nothing is written then.
    fn emit(&self, encoder: &mut BinEncoder<'_>) -> Result<(), ProtoError>
        // Whatever the answer, what stood before stays, and no byte is written past the limit.
        ensures keeps { Keeps (state_of encoder.old) (state_of encoder.new) }
        // After `Ok`, ID and counts are below 2^16.
        ensures fits { OnOk result (IsNarrow self.now.metadata.id self.now.counts) }
        // After `Ok` exactly these twelve bytes were written; refused for the limit only where they
        // would pass it.
        ensures exact { Exactly (just (header_bytes (raw_header self.now)))
            (state_of encoder.old) (state_of encoder.new) result }
        ensures ok { OnOk result (state_of encoder.new
            ≡ appended (header_bytes (raw_header self.now)) (state_of encoder.old)) }
        ensures err { OnErr result (state_of encoder.new ≡ state_of encoder.old) }
        // Where twelve bytes would pass the limit, the answer is `MaxBufferSizeExceeded`.
        ensures full { (state_of encoder.old).limit < length (state_of encoder.old).bytes + 12
            → IsErrOf result ProtoError.MaxBufferSizeExceeded }
    {
        encoder.emit_slice(&self.to_bytes())
    }
}

impl EncodedSize for Header {
    ghost encoded = { λ h. header_bytes (raw_header h) };

    ghost LEN = { 12 };

    const LEN: usize = 12;

    #[inline(always)]
    fn fill(&self, room: &mut [u8]) {
        room.copy_from_slice(&self.to_bytes());
    }
}

impl BinDecodable for Header {
    ghost read_at = { header_at };

    /// Reads the twelve bytes of a header at the decoder's place, and moves after them (RFC 1035, 4.1.1). Bit 0x40 of
    /// the fourth is not looked at. Takes no memory.
    ///
    /// # Errors
    ///
    /// `InsufficientBytes` where fewer than twelve bytes are left.
    #[tactic(auto, unfolding(crate::specs::Header::header_at))]
    fn read(decoder: &mut BinDecoder<'_>) -> Result<Header, DecodeError>
        ensures read { Reads (λ x. x) decoder.old decoder.new result
            (header_at decoder.old.bytes decoder.old.index) }
        // As of every read, see `BinDecodable::read`: a header has no names.
        ensures tracks { Tracks (λ _. []) decoder.old decoder.new result }
        // The header stands at the place, and the decoder after its twelve bytes.
        ensures found { IfOk result (λ h. IsHeaderAt decoder.old.bytes decoder.old.index h
            × (decoder.new.index ≡ decoder.old.index + 12)) }
        ensures only { IsOkUnless result DecodeError.InsufficientBytes }
        // Refused with `InsufficientBytes` exactly where fewer than twelve bytes are left.
        ensures short { length decoder.old.bytes < decoder.old.index + 12
            ↔ IsErrOf result DecodeError.InsufficientBytes }
    {
        // all twelve are read at once, since that is faster
        let bytes = decoder.read_slice(12)?;
        let metadata = metadata_of(number(bytes, 0), bytes[2], bytes[3]);
        let counts = HeaderCounts {
            queries: number(bytes, 4),
            answers: number(bytes, 6),
            authorities: number(bytes, 8),
            additionals: number(bytes, 10),
        };
        Ok(Header { metadata, counts })
    }
}

/// The number that two bytes of a header are, the high one first.
#[inline(always)]
fn number(bytes: &[u8], at: usize) -> u16
    requires { at + 2 ≤ length bytes.now }
    ensures { result
        ≡ from_be_bytes w16 (slice_index bytes.now (at + 0) ∷ slice_index bytes.now (at + 1) ∷ []) }
{
    u16::from_be_bytes([bytes[at], bytes[at + 1]])
}

/// What an id and the two bytes of codes and flags after it are read as.
fn metadata_of(id: u16, high: u8, low: u8) -> Metadata
    ensures { result ≡ metadata_of_bytes id high low }
{
    Metadata {
        id,
        message_type: MessageType::from_bit(bit(high, 7)),
        op_code: OpCode::from_u8(high >> 3 & 0x0F),
        authoritative: bit(high, 2),
        truncation: bit(high, 1),
        recursion_desired: bit(high, 0),
        recursion_available: bit(low, 7),
        authentic_data: bit(low, 5),
        checking_disabled: bit(low, 4),
        response_code: ResponseCode::from_low(low),
    }
}

/// Whether the bit is set, counted from the lowest and from 0.
fn bit(byte: u8, place: u32) -> bool
    requires { place < 8 }
    ensures { result ≡ bit_of (2 ^ place) byte }
{
    byte >> place & 1 == 1
}

/// Reading a header is the header word, and a header can't be read exactly where fewer than twelve bytes
/// are left (RFC 1035, 4.1.1).
pub fn reading_is_the_header_word()
    // A header is read exactly where its word stands, and ends twelve bytes after that place.
    ensures word { (B : List ℕ) (i : ℕ) (h : Header) (e : ℕ)
        → (header_at B i ≡ Ok (h, e)) ↔ (IsHeaderAt B i h × (e ≡ i + 12)) }
    // Refused exactly where fewer than twelve bytes are left, with `InsufficientBytes`.
    ensures fault { (B : List ℕ) (i : ℕ) (f : DecodeError)
        → (header_at B i ≡ Err f) ↔ ((f ≡ DecodeError.InsufficientBytes) × (length B < i + 12)) }
{}
