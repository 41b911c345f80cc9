//! The texts that are open at once: one that is read, and below it those that it was opened in.

ghost use Rattle.std.specs.Prelude.{◌≡◌, IfOk, map};
ghost use Rattle.base.specs.texts.TextFaults.{Fault};
ghost use Rattle.txt.specs.Faults.{GivesPlaced, fault_value, frame_opened};
ghost use Rattle.txt.specs.Parser.{texts_in};
ghost use Rattle.txt.specs.Places.{position};
ghost use Rattle.txt.specs.Zone.{fault_here, folded_text};

use crate::zone::context::Context;
use crate::zone::entry::{Entry, next_entry};
use crate::zone::fault::{FaultPlace, Inclusion, ZoneFault};
use crate::zone::places::{fault_place, name_place, position};
use base::{Lexer, Name, ParseError};
use std::alloc::{AllocError, Global};
use std::collections::BTreeMap;

/// How many included texts may be open at once.
const MAX_DEPTH: usize = 256;

/// A text that another one was opened in.
#[derive(Drop)]
struct Frame<'a> {
    /// The whole text.
    text: &'a str,
    /// What is still to be read of it.
    lexer: Lexer<'a>,
    /// Its origin, which comes back.
    origin: Option<Name>,
    /// The name of the text that was opened in it.
    name: String,
    /// How many bytes of it stand from that name on.
    left: usize,
}

/// What all entries of a text make of it, and of those that it includes.
///
/// # Errors
///
/// The fault of the first entry that has one, with its place; `Memory` if memory runs out.
pub(super) fn read_texts<'a>(
    alloc: Global,
    text: &'a str,
    includes: &'a BTreeMap<String, String>,
    context: &mut Context,
) -> Result<(), ZoneFault>
    ensures { GivesPlaced (λ _. context.new) result
        (folded_text (texts_in includes.now) context.old text.now) }
{
    let mut text = text;
    let mut lexer = Lexer::new(alloc, text);
    let mut below: Vec<Frame<'a>> = Vec::new(alloc);
    'entries: loop {
        let start = lexer.fork();
        let Some(entry) = next_entry(alloc, &mut lexer)? else {
            let Some(frame) = below.pop() else {
                return Ok(());
            };
            text = frame.text;
            lexer = frame.lexer;
            context.set_origin(frame.origin);
            continue;
        };
        match entry {
            Entry::Include(name) => {
                let left = name_place(start)?;
                if below.len() >= MAX_DEPTH {
                    let place = place_in(alloc, below, text, left)?;
                    return Err(ZoneFault {
                        error: ParseError::Message(
                            "Max depth level for nested $INCLUDE is reached",
                        ),
                        place: Some(place),
                    });
                }
                let name = String::from_str(alloc, name)?;
                let Some(included) = includes.get(name.as_str()) else {
                    let place = place_in(alloc, below, text, left)?;
                    return Err(ZoneFault {
                        error: ParseError::IncludeNotFound(name),
                        place: Some(place),
                    });
                };
                let origin = context.copy_origin()?;
                below.push(Frame {
                    text,
                    lexer,
                    origin,
                    name,
                    left,
                })?;
                text = included.as_str();
                lexer = Lexer::new(alloc, text);
            }
            other => match context.apply(other) {
                Ok(()) => {}
                Err(error) => match error {
                    ParseError::Memory => return Err(ZoneFault::from(AllocError)),
                    fault => {
                        let left = fault_place(alloc, &fault, start)?;
                        let place = place_in(alloc, below, text, left)?;
                        return Err(ZoneFault {
                            error: fault,
                            place: Some(place),
                        });
                    }
                },
            },
        }
    }
}

/// The place in the text that is read, where so many bytes of it stand from there on.
///
/// # Errors
///
/// If memory runs out.
fn place_in(
    alloc: Global,
    below: Vec<Frame<'_>>,
    text: &str,
    left: usize,
) -> Result<FaultPlace, AllocError>
    ensures { IfOk result (λ place. (fault : Fault) → fault_value fault place
        ≡ record (fault_here (position text.now left) fault) {
          opened = map frame_opened below.entry.items;
        }) }
{
    let mut inclusions = Vec::with_capacity(alloc, below.len())?;
    for frame in below {
        let (line, _) = position(frame.text, frame.left);
        inclusions.push(Inclusion {
            name: frame.name,
            line,
        })?;
    }
    let (line, column) = position(text, left);
    Ok(FaultPlace {
        inclusions,
        line,
        column,
    })
}
