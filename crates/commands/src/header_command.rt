//! The command `header`.

ghost use Rattle.std.specs.Prelude.{◌≡◌, IfOk, IsOkUnless};
ghost use Rattle.std.specs.String.{string_bytes};
ghost use Rattle.op.specs.Header.{header_bytes, raw_header};
ghost use Rattle.commands.specs.Answering.{Answers};
ghost use Rattle.commands.specs.HeaderCommand.{header_answer, header_lines, counts_text, three_lines};

use crate::hex_input::decode;
use crate::refusal::Refusal;
use base::{BinDecodable, BinDecoder, BinEncodable, BinEncoder, ProtoError};
use op::{Header, HeaderCounts};
use std::alloc::{AllocError, Global};

/// What is printed of the twelve bytes of a header that the text spells in hexadecimal (RFC 1035, 4.1.1).
///
/// # Errors
///
/// 24 for any other text; `Memory` if memory runs out.
pub fn header(alloc: Global, text: &[u8]) -> Result<String, Refusal>
    ensures { Answers string_bytes (header_answer text.now) result }
{
    let bytes = decode(alloc, text)?;
    if bytes.len() != 12 {
        return Err(Refusal::Input);
    }
    let header = Header::read(&mut BinDecoder::new(alloc, &bytes))?;
    Ok(lines(alloc, &header)?)
}

/// The metadata, the counts, and the header written again, a line each.
fn lines(alloc: Global, header: &Header) -> Result<String, ProtoError>
    ensures value { IfOk result (λ text. string_bytes text ≡ header_lines header.now) }
    ensures only { IsOkUnless result ProtoError.Memory }
{
    let bytes = bytes_of(alloc, header)?;
    let metadata = header.metadata.to_string(alloc)?;
    let counts = counts_text(alloc, &header.counts)?;
    let hexadecimal = hex::encode(alloc, bytes)?;
    Ok(three_lines(alloc, &metadata, &counts, &hexadecimal)?)
}

/// The line of the four counts, without its end.
fn counts_text(alloc: Global, counts: &HeaderCounts) -> Result<String, AllocError>
    ensures { IfOk result (λ text. string_bytes text ≡ counts_text counts.now) }
{
    let HeaderCounts {
        queries,
        answers,
        authorities,
        additionals,
    } = *counts;
    format!(in alloc; "counts {queries} {answers} {authorities} {additionals}")
}

/// Three texts, each with the end of its line.
fn three_lines(alloc: Global, first: &str, second: &str, third: &str) -> Result<String, AllocError>
    ensures { IfOk result (λ text. string_bytes text ≡ three_lines first.now second.now third.now) }
{
    format!(in alloc; "{first}\n{second}\n{third}\n")
}

/// The bytes of the header.
fn bytes_of(alloc: Global, header: &Header) -> Result<Vec<u8>, ProtoError>
    ensures value { IfOk result (λ bytes. bytes.items ≡ header_bytes (raw_header header.now)) }
    ensures only { IsOkUnless result ProtoError.Memory }
{
    let mut bytes = Vec::new(alloc);
    {
        let mut encoder = BinEncoder::new(&mut bytes);
        header.emit(&mut encoder)?;
    }
    Ok(bytes)
}
