//! What the words after the program's name ask for.

ghost use Rattle.std.specs.Prelude.{◌≡◌, IfErr, IfOk, codes, false, true};
ghost use Rattle.std.specs.List.{list_any};
ghost use Rattle.std.specs.Str.{bytes_eq};
ghost use Rattle.commands.specs.Command.{command_of, message_command};
ghost use Rattle.commands.specs.Words.{as_bytes};
ghost use Rattle.commands.specs.ZoneCommand.{are_texts, is_equals};
ghost use Rattle.commands.specs.ZoneWords.{apply_named, is_one, origin_named, parses_origin, zone_named};

use crate::limit::limit;
use base::{Name, ParseError};
use std::alloc::{AllocError, Global};

/// What the program can do.
#[derive(Debug, Drop)]
pub enum Command {
    /// What it can do with a message in hexadecimal.
    OnMessage(MessageCommand),
    /// Zone text under an origin, if one is given: the origin at its end, and its records.
    Zone(Option<Name>),
    /// An update in hexadecimal, and zone text under an origin, if one is given: the zone after the update.
    Apply(Option<Name>),
}

/// What the program can do with a message, or a part of one, in hexadecimal.
#[derive(Clone, Copy, Debug, Drop)]
pub enum MessageCommand {
    /// A header: its text, and the same twelve bytes again.
    Header,
    /// A message: its text.
    Read,
    /// A message, and how many bytes it may take: a cut of it.
    Cut(u16),
}

impl MessageCommand {
    /// The command that one or two words name, if they name one.
    pub fn from_words(words: &[String]) -> Option<MessageCommand>
        ensures { result ≡ message_command (as_bytes words.now) }
    {
        match words {
            [word] if word.as_str() == "header" => Some(MessageCommand::Header),
            [word] if word.as_str() == "read" => Some(MessageCommand::Read),
            [word, number] if word.as_str() == "cut" => {
                limit(number.as_str()).map(MessageCommand::Cut)
            }
            _ => None,
        }
    }
}

impl Command {
    /// The command that the words name, if they name one.
    ///
    /// # Errors
    ///
    /// If memory runs out while an origin is parsed.
    pub fn from_words(alloc: Global, words: &[String]) -> Result<Option<Command>, AllocError>
        ensures value { IfOk result (λ command. command ≡ command_of (as_bytes words.now)) }
        // Memory runs out only where the words have an origin that is parsed.
        ensures memory { IfErr result (λ _. parses_origin (as_bytes words.now) ≡ true) }
    {
        if let [word, origin, others @ ..] = words {
            if word.as_str() == "zone" {
                return zone(alloc, origin.as_str(), others);
            }
            if word.as_str() == "apply" {
                return apply(alloc, origin.as_str(), others);
            }
        }
        Ok(MessageCommand::from_words(words).map(Command::OnMessage))
    }
}

/// The command of an origin and of included texts, NAME=TEXT each.
#[tactic(auto, unfolding(crate::specs::ZoneWords::zone_named))]
fn zone(alloc: Global, origin: &str, included: &[String]) -> Result<Option<Command>, AllocError>
    ensures value { IfOk result
        (λ command. command ≡ zone_named origin.now (as_bytes included.now)) }
    // Memory runs out only where each of the words after the origin is NAME=TEXT.
    ensures memory { IfErr result (λ _. are_texts (as_bytes included.now) ≡ true) }
    // It runs out only where the origin isn't `-`.
    ensures parsed { IfErr result (λ _. bytes_eq origin.now (codes "-") ≡ false) }
{
    if !are_texts(included) {
        return Ok(None);
    }
    match named_origin(alloc, origin)? {
        Some(origin) => Ok(Some(Command::Zone(origin))),
        None => Ok(None),
    }
}

/// The command of an origin and of an update, one word.
fn apply(alloc: Global, origin: &str, others: &[String]) -> Result<Option<Command>, AllocError>
    ensures value { IfOk result
        (λ command. command ≡ apply_named origin.now (as_bytes others.now)) }
    // Memory runs out only where one word is after the origin.
    ensures memory { IfErr result (λ _. is_one (as_bytes others.now) ≡ true) }
    // It runs out only where the origin isn't `-`.
    ensures parsed { IfErr result (λ _. bytes_eq origin.now (codes "-") ≡ false) }
{
    let [_update] = others else {
        return Ok(None);
    };
    match named_origin(alloc, origin)? {
        Some(origin) => Ok(Some(Command::Apply(origin))),
        None => Ok(None),
    }
}

/// The origin that a word names, if it names one: `-` for none, else a name.
fn named_origin(alloc: Global, word: &str) -> Result<Option<Option<Name>>, AllocError>
    ensures value { IfOk result (λ origin. origin ≡ origin_named word.now) }
    // Memory runs out only where the word isn't `-`.
    ensures parsed { IfErr result (λ _. bytes_eq word.now (codes "-") ≡ false) }
{
    if word == "-" {
        return Ok(Some(None));
    }
    match Name::parse(alloc, word, None) {
        Ok(name) => Ok(Some(Some(name))),
        Err(ParseError::BadName) => Ok(None),
        Err(_) => Err(AllocError),
    }
}

/// Whether each word has a name before an equals sign.
fn are_texts(words: &[String]) -> bool
    ensures { result ≡ are_texts (as_bytes words.now) }
{
    for word in words {
        if !has_equals(word.as_str()) {
            return false;
        }
    }
    true
}

/// Whether a word has the character `=`.
fn has_equals(word: &str) -> bool
    ensures { result ≡ list_any is_equals word.now }
{
    word.bytes().any(|byte| byte == b'=')
}
