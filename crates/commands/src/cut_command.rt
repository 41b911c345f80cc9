//! The command `cut`.

ghost use Rattle.std.specs.Prelude.{◌≡◌, IfOk, Ok};
ghost use Rattle.std.specs.String.{string_bytes};
ghost use Rattle.commands.specs.CutCommand.{CutAnswers, hex_line};

use crate::hex_input::decode;
use crate::refusal::Refusal;
use op::Message;
use std::alloc::{AllocError, Global};

/// What is printed of the message whose bytes the text spells in hexadecimal: the bytes of a cut of it under the limit,
/// in hexadecimal (RFC 1035, 4.1; RFC 2181, 9). Bytes after the message are not looked at.
///
/// # Errors
///
/// 24 for a text that isn't hexadecimal, with the number of the first fault of bytes that begin with no message; 1 for
/// a limit without room for the header; 2 for one without room for the questions; `Memory` if memory runs out.
pub fn cut(alloc: Global, text: &[u8], limit: u16) -> Result<String, Refusal>
    ensures { CutAnswers limit text.now result }
{
    let bytes = decode(alloc, text)?;
    let message = Message::from_vec(alloc, &bytes)?;
    let written = message.to_vec_within(limit)?;
    Ok(hex_line(alloc, &written)?)
}

/// The line of bytes in hexadecimal.
fn hex_line(alloc: Global, bytes: &[u8]) -> Result<String, AllocError>
    ensures { IfOk result (λ line. string_bytes line ≡ hex_line bytes.now) }
{
    let hexadecimal = hex::encode(alloc, bytes)?;
    format!(in alloc; "{hexadecimal}\n")
}
