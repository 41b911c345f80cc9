//! The command `zone`.

ghost use Rattle.std.specs.Prelude.{◌≡◌, ℕ, IfOk, List};
ghost use Rattle.std.specs.List.{after_first, before_first};
ghost use Rattle.std.specs.String.{string_bytes};
ghost use Rattle.txt.specs.Parser.{texts_in};
ghost use Rattle.commands.specs.Answering.{Answers};
ghost use Rattle.commands.specs.Words.{as_bytes};
ghost use Rattle.commands.specs.ZoneCommand.{is_equals, text_named, zone_answer};

use crate::refusal::Refusal;
use base::Name;
use parsed_zone::{sets_lines, zone_sets};
use std::alloc::{AllocError, Global};
use std::collections::BTreeMap;

/// What is printed of the zone whose text this is, with the texts that the words hand in, NAME=TEXT each: the line of
/// its origin, and every record in the order of owners and types (RFC 1035, 5.1).
///
/// # Errors
///
/// 24 for a text that isn't UTF-8, with the number of what the parser refuses; `Memory` if memory runs out.
pub fn zone(
    alloc: Global,
    origin: Option<Name>,
    words: &[String],
    text: &[u8],
) -> Result<String, Refusal>
    ensures { Answers string_bytes (zone_answer origin (as_bytes words.now) text.now) result }
{
    let includes = included_texts(alloc, words)?;
    let (name, sets) = zone_sets(alloc, origin, &includes, text)?;
    Ok(sets_lines(alloc, &name, sets)?)
}

/// The texts that words hand in, by their names. The last word of a name stands.
fn included_texts(alloc: Global, words: &[String]) -> Result<BTreeMap<String, String>, AllocError>
    ensures { IfOk result (λ includes. (name : List ℕ)
        → texts_in includes name ≡ text_named (as_bytes words.now) name) }
{
    let mut includes = BTreeMap::new(alloc);
    for word in words {
        let (name, text) = name_and_text(word.as_str());
        includes.insert(
            String::from_str(alloc, name)?,
            String::from_str(alloc, text)?,
        )?;
    }
    Ok(includes)
}

/// What stands before the first equals sign, and what after it.
fn name_and_text(word: &str) -> (&str, &str)
    ensures { (result.0.now ≡ before_first is_equals word.now)
        × (result.1.now ≡ after_first is_equals word.now) }
{
    match word.split_once('=') {
        Some(parts) => parts,
        None => (word, ""),
    }
}
