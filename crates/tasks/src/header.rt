//! The header of a message (RFC 1035, 4.1.1).

ghost use Rattle.std.specs.Prelude.{◌≡◌, MatchResult};
ghost use Rattle.op.specs.MessageType.{is_response};
ghost use Rattle.tasks.specs.Header.{first_header, numbers_of};

use crate::refusal::Refusal;
use base::{BinDecodable, BinDecoder};
use op::{Header, MessageType};
use std::alloc::Global;

/// The fields of a header, its counts among them.
#[repr(C)]
#[derive(Drop)]
pub struct HeaderNumbers {
    /// The id.
    pub id: u16,
    /// How many questions are counted.
    pub queries: u16,
    /// How many answers.
    pub answers: u16,
    /// How many authorities.
    pub authorities: u16,
    /// How many additional records.
    pub additionals: u16,
    /// The operation.
    pub opcode: u8,
    /// The four bits of the code.
    pub rcode: u8,
    /// QR: this is a response.
    pub response: bool,
    /// AA.
    pub authoritative: bool,
    /// TC: something is left out.
    pub truncated: bool,
    /// RD.
    pub recursion_desired: bool,
    /// RA.
    pub recursion_available: bool,
    /// AD (RFC 4035, 3.1.6).
    pub authentic_data: bool,
    /// CD (RFC 4035, 3.1.6).
    pub checking_disabled: bool,
}

/// The header that the bytes begin with. What comes after it isn't looked at.
///
/// # Errors
///
/// 4 for fewer than twelve bytes.
pub fn read(alloc: Global, bytes: &[u8]) -> Result<Header, Refusal>
    ensures { MatchResult result (λ header. first_header bytes.now ≡ Ok header)
        (λ refusal. first_header bytes.now ≡ Err refusal.number) }
{
    Ok(Header::read(&mut BinDecoder::new(alloc, bytes))?)
}

/// The fields of a header as numbers.
pub fn numbers(header: &Header) -> HeaderNumbers
    ensures { result ≡ numbers_of header.now }
{
    let metadata = &header.metadata;
    HeaderNumbers {
        id: metadata.id,
        queries: header.counts.queries,
        answers: header.counts.answers,
        authorities: header.counts.authorities,
        additionals: header.counts.additionals,
        opcode: u8::from(metadata.op_code),
        rcode: metadata.response_code.low(),
        response: is_response(metadata.message_type),
        authoritative: metadata.authoritative,
        truncated: metadata.truncation,
        recursion_desired: metadata.recursion_desired,
        recursion_available: metadata.recursion_available,
        authentic_data: metadata.authentic_data,
        checking_disabled: metadata.checking_disabled,
    }
}

/// Whether the bit QR is set.
fn is_response(message_type: MessageType) -> bool
    ensures { result ≡ is_response message_type }
{
    matches!(message_type, MessageType::Response)
}
