//! The command `read`.

ghost use Rattle.std.specs.String.{string_bytes};
ghost use Rattle.commands.specs.Answering.{Answers};
ghost use Rattle.commands.specs.ReadCommand.{read_answer};

use crate::hex_input::decode;
use crate::refusal::Refusal;
use op::Message;
use std::alloc::Global;

/// What is printed of the message whose bytes the text spells in hexadecimal (RFC 1035, 4.1). Bytes after the message
/// are not looked at.
///
/// # Errors
///
/// 24 for a text that isn't hexadecimal, with the number of the first fault of bytes that begin with no message;
/// `Memory` if memory runs out.
pub fn read(alloc: Global, text: &[u8]) -> Result<String, Refusal>
    ensures { Answers string_bytes (read_answer text.now) result }
{
    let bytes = decode(alloc, text)?;
    let message = Message::from_vec(alloc, &bytes)?;
    Ok(message.to_string(alloc)?)
}
