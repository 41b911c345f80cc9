//! A run of the program over any reader and writer.

ghost use Rattle.std.specs.Prelude.{◌≡◌, ◌≢◌, ◌⊎◌, ◌≤◌, IfSome, None, Some};
ghost use Rattle.commands.specs.Answer.{IsShown, IsPrinted, usage, refused, done, broken};
ghost use Rattle.commands.specs.Command.{GivesAnswer, IsGiven, IsRefused, IsUsageShown, command_of, refused_word};
ghost use Rattle.commands.specs.Words.{as_bytes};
ghost use Rattle.commands.specs.ZoneWords.{words_after_origin};
ghost use Rattle.commands.specs.declared.command.Command.{Command as Asked};

use crate::apply_command::{apply, update};
use crate::command::{Command, MessageCommand};
use crate::cut_command::cut;
use crate::header_command::header;
use crate::input::read_all;
use crate::read_command::read;
use crate::refusal::Failure;
use crate::zone_command::zone;
use std::alloc::Global;
use std::io::{Read, Write};

/// The exit status where a read or a write failed.
const BROKEN: u8 = 3;

/// Does what the words ask for: reads the input to its end, and writes to the output and nowhere else.
///
/// Answers the exit status: 0; 1 with the line `refused N`, N the number of the refusal; 2 with the usage line for
/// words that name no command; 3 where a read or a write failed, with no line of a refusal beside it. The words are
/// judged before anything is read, and so is the update that `apply` has among them.
pub fn run<R: Read, W: Write>(alloc: Global, words: &[String], input: &mut R, output: &mut W) -> u8
    ensures statuses { result ≤ 3 }
    // Where the words name no command, the input isn't read.
    ensures unread { command_of (as_bytes words.now) ≡ None → input.new ≡ input.old }
    // Unless writing fails, the usage line is printed then, or refusal 3 where an origin was
    // parsed and memory ran out.
    ensures wrong_words { command_of (as_bytes words.now) ≡ None → result ≢ broken
        → IsUsageShown (as_bytes words.now) result (W.contents output.old) (W.contents output.new) }
    // Words that hold a faulty update are refused with its number, and the input isn't read.
    ensures judged { (command : Asked) → command_of (as_bytes words.now) ≡ Some command
        → IfSome (refused_word command (as_bytes words.now))
        (λ n. (input.new ≡ input.old)
        × (result ≢ broken
        → IsShown (refused n) result (W.contents output.old) (W.contents output.new))) }
    // Unless a read or a write fails, the command's answer to the input is printed, or refusal 3
    // where memory ran out.
    ensures answered { (command : Asked) → command_of (as_bytes words.now) ≡ Some command
        → result ≢ broken → IfSome (R.remaining input.old)
        (λ text. IsGiven command (as_bytes words.now) text result (W.contents output.old)
        (W.contents output.new)) }
{
    match Command::from_words(alloc, words) {
        Ok(None) => print_usage(output),
        Ok(Some(command)) => match command.answer(alloc, words, input) {
            Ok(lines) => print_lines(&lines, output),
            Err(Failure::Refused(refusal)) => print_refusal(refusal.number(), output),
            Err(Failure::Broken) => BROKEN,
        },
        Err(_) => print_refusal(3, output),
    }
}

impl Command {
    /// What the command prints of the input, where these are all words. An update is judged before the input is read.
    fn answer<R: Read>(
        self,
        alloc: Global,
        words: &[String],
        input: &mut R,
    ) -> Result<String, Failure>
        // The answer is that of the command to the input, unless a read fails.
        ensures gives { GivesAnswer self (as_bytes words.now) (R.remaining input.old) result }
        // Words that hold a faulty update are refused with its number, and the input isn't read.
        ensures judged { IfSome (refused_word self (as_bytes words.now))
            (λ n. (input.new ≡ input.old) × IsRefused n result) }
    {
        match self {
            Command::OnMessage(command) => {
                let text = read_all(alloc, input)?;
                Ok(match command {
                    MessageCommand::Header => header(alloc, &text)?,
                    MessageCommand::Read => read(alloc, &text)?,
                    MessageCommand::Cut(limit) => cut(alloc, &text, limit)?,
                })
            }
            Command::Zone(origin) => {
                let text = read_all(alloc, input)?;
                Ok(zone(alloc, origin, after_origin(words), &text)?)
            }
            Command::Apply(origin) => {
                let update = update(alloc, after_origin(words))?;
                let text = read_all(alloc, input)?;
                Ok(apply(alloc, &update, origin, &text)?)
            }
        }
    }
}

/// The words after the command and the origin.
fn after_origin(words: &[String]) -> &[String]
    ensures { as_bytes result.now ≡ words_after_origin (as_bytes words.now) }
{
    match words {
        [_, _, others @ ..] => others,
        _ => &[],
    }
}

/// Prints the output of a command, and answers the exit status.
fn print_lines<W: Write>(lines: &str, output: &mut W) -> u8
    ensures { (result ≡ 3)
        ⊎ IsPrinted (done lines.now) result (W.contents output.old) (W.contents output.new) }
{
    match output.write_all(lines.as_bytes()) {
        Ok(()) => 0,
        Err(_) => BROKEN,
    }
}

/// Prints the line of a refusal, and answers the exit status.
fn print_refusal<W: Write>(number: u8, output: &mut W) -> u8
    ensures { (result ≡ 3)
        ⊎ IsPrinted (refused number) result (W.contents output.old) (W.contents output.new) }
{
    match writeln!(output, "refused {number}") {
        Ok(()) => 1,
        Err(_) => BROKEN,
    }
}

/// Prints the usage line, and answers the exit status.
fn print_usage<W: Write>(output: &mut W) -> u8
    ensures { (result ≡ 3)
        ⊎ IsPrinted usage result (W.contents output.old) (W.contents output.new) }
{
    match output.write_all(b"usage: dnsmsg COMMAND [WORDS]\n") {
        Ok(()) => 2,
        Err(_) => BROKEN,
    }
}
