//! Messages (RFC 1035, 4.1).

ghost use Rattle.std.specs.Prelude.{◌<◌, ◌^◌, IfOk};
ghost use Rattle.op.specs.Message.{message_value};
ghost use Rattle.tasks.specs.Asked.{Makes};
ghost use Rattle.tasks.specs.Message.{IsCutOf, cut_of, end_of, message_of, text_of};

use crate::refusal::Refusal;
use base::BinDecoder;
use op::Message;
use std::alloc::Global;

/// The place after the message that the bytes begin with.
///
/// # Errors
///
/// The number of the first fault.
pub fn end(alloc: Global, bytes: &[u8]) -> Result<usize, Refusal>
    ensures made { Makes (λ n. n) (end_of bytes.now) result }
    // The place is below 2^63, so that it can be answered as an `i64`.
    ensures addressable { IfOk result (λ n. n < 2 ^ 63) }
{
    let mut decoder = BinDecoder::new(alloc, bytes);
    let _message = Message::read(&mut decoder)?;
    Ok(decoder.index())
}

/// The bytes of a cut of the message that the bytes begin with, `limit` at most: what doesn't fit is left out, and TC
/// says so (RFC 1035, 4.1; RFC 2181, 9).
///
/// # Errors
///
/// The number of the first fault; 1 for a limit without room for the header, 2 for one without room for the questions.
pub fn cut(alloc: Global, bytes: &[u8], limit: u16) -> Result<Vec<u8>, Refusal>
    // The bytes or the refusal are those of the definition `cut_of`, unless memory runs out.
    ensures exact { Makes (λ sent. sent.items) (cut_of bytes.now limit) result }
    ensures cut { IfOk result (λ sent. IsCutOf bytes.now limit sent.items) }
{
    let message = Message::from_vec(alloc, bytes)?;
    Ok(message.to_vec_within(limit)?)
}

/// The text of the message that the bytes begin with.
///
/// # Errors
///
/// The number of the first fault.
pub fn text(alloc: Global, bytes: &[u8]) -> Result<Vec<u8>, Refusal>
    ensures { Makes (λ text. text.items) (text_of bytes.now) result }
{
    let message = message_of(alloc, bytes)?;
    Ok(message.to_string(alloc)?.into_bytes())
}

/// The message that the bytes begin with.
///
/// # Errors
///
/// The number of the first fault.
pub fn message_of(alloc: Global, bytes: &[u8]) -> Result<Message, Refusal>
    ensures { Makes message_value (message_of bytes.now) result }
{
    Ok(Message::from_vec(alloc, bytes)?)
}
