//! The command `apply`.

ghost use Rattle.std.specs.Prelude.{◌≡◌, ◌⊎◌, Err, IfErr, IfOk, Ok};
ghost use Rattle.std.specs.String.{string_bytes};
ghost use Rattle.commands.specs.Answering.{Answers};
ghost use Rattle.commands.specs.ApplyCommand.{answer_to_text, first_word, update_of};
ghost use Rattle.commands.specs.Refusal.{refusal_number};
ghost use Rattle.commands.specs.Words.{as_bytes};
ghost use Rattle.op.specs.Message.{message_value};

use crate::hex_input::decode;
use crate::refusal::Refusal;
use base::Name;
use op::Message;
use parsed_zone::{lines_after, zone_of_bytes};
use std::alloc::Global;

/// The update whose bytes the first word spells in hexadecimal.
///
/// # Errors
///
/// 24 for a word that isn't hexadecimal, the number of the first fault of bytes that begin with no message, and 3 if
/// memory runs out.
pub fn update(alloc: Global, words: &[String]) -> Result<Message, Refusal>
    ensures read { IfOk result (λ m. update_of (as_bytes words.now) ≡ Ok (message_value m)) }
    ensures refused { IfErr result (λ e. (refusal_number e ≡ 3)
        ⊎ (update_of (as_bytes words.now) ≡ Err (refusal_number e))) }
{
    let bytes = decode(alloc, first_word(words).as_bytes())?;
    Ok(Message::from_vec(alloc, &bytes)?)
}

/// The first of the words, or the empty one.
fn first_word(words: &[String]) -> &str
    ensures { result.now ≡ first_word (as_bytes words.now) }
{
    match words {
        [word, ..] => word.as_str(),
        _ => "",
    }
}

/// What is printed of an update and of the zone whose text this is: the name of the server's code, and the zone then,
/// as `zone` prints it (RFC 2136, 3). No text is there to be included.
///
/// # Errors
///
/// 24 for a text that isn't UTF-8, the number of what the parser refuses, 25 for a set or a record of another class
/// than IN, and 3 if memory runs out.
pub fn apply(
    alloc: Global,
    message: &Message,
    origin: Option<Name>,
    text: &[u8],
) -> Result<String, Refusal>
    ensures { Answers string_bytes (answer_to_text (message_value message.now) origin text.now)
        result }
{
    let (name, sets) = zone_of_bytes(alloc, origin, text)?;
    Ok(lines_after(alloc, message, &name, sets)?)
}
