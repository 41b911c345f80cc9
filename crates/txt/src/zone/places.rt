//! Where the fault of an entry stands: at the first token that makes it.

ghost use Rattle.std.specs.Prelude.{◌≡◌, ◌+◌, ◌<◌, IfOk, Some, drop, get_or, length};
ghost use Rattle.base.specs.texts.TextFaults.{Fault, fault_of};
ghost use Rattle.base.specs.texts.TokenList.{symbols};
ghost use Rattle.txt.specs.Places.{ends_line, fault_place, include_place, place_after_items, place_after_name, place_in_line, position};

use crate::zone::entry::{Symbol, next_symbol, setting_of};
use base::{Lexer, ParseError, TokenRef};
use std::alloc::{AllocError, Global};

/// The place of the fault of an entry, where a lexer stands before it: how many bytes of the text stand from there on.
///
/// # Errors
///
/// If memory runs out.
pub(super) fn fault_place(
    alloc: Global,
    error: &ParseError,
    lexer: Lexer<'_>,
) -> Result<usize, AllocError>
    ensures { IfOk result (λ left. (fault : Fault) → fault_of error.now ≡ Some fault
        → left ≡ fault_place fault (symbols lexer.entry)) }
{
    let mut lexer = lexer;
    let left = lexer.left();
    let misplaced = matches!(error, ParseError::UnexpectedToken(_) | ParseError::Lexer);
    match next_symbol(&mut lexer)? {
        Some(Symbol::Token(TokenRef::Origin)) => Ok(lexer.left()),
        Some(Symbol::Token(TokenRef::Ttl)) => Ok(lexer.left()),
        Some(Symbol::Token(TokenRef::Include)) => place_after_name(lexer),
        Some(Symbol::Token(TokenRef::Blank)) => place_in_line(alloc, misplaced, lexer),
        Some(Symbol::Token(TokenRef::At)) => place_in_line(alloc, misplaced, lexer),
        Some(Symbol::Token(TokenRef::CharData(_))) => {
            if matches!(error, ParseError::BadName) {
                return Ok(left);
            }
            place_in_line(alloc, misplaced, lexer)
        }
        _ => Ok(left),
    }
}

/// The place of the name after `$INCLUDE`, where a lexer stands before that.
///
/// # Errors
///
/// If memory runs out.
pub(super) fn name_place(lexer: Lexer<'_>) -> Result<usize, AllocError>
    ensures { IfOk result (λ left. left ≡ include_place (symbols lexer.entry)) }
{
    let mut lexer = lexer;
    match next_symbol(&mut lexer)? {
        Some(Symbol::Token(_)) => Ok(lexer.left()),
        _ => Ok(0),
    }
}

/// The place of what follows a name after `$INCLUDE`, or of what stands where the name should.
fn place_after_name(lexer: Lexer<'_>) -> Result<usize, AllocError>
    ensures { IfOk result (λ left. left ≡ place_after_name (symbols lexer.entry)) }
{
    let mut lexer = lexer;
    let left = lexer.left();
    match next_symbol(&mut lexer)? {
        Some(Symbol::Token(TokenRef::CharData(_))) => Ok(lexer.left()),
        _ => Ok(left),
    }
}

/// After an owner: the place of the token that has none, where the fault is that there is one, else that of the type.
fn place_in_line(alloc: Global, misplaced: bool, lexer: Lexer<'_>) -> Result<usize, AllocError>
    ensures { IfOk result (λ left. left ≡ place_in_line misplaced (symbols lexer.entry)) }
{
    let mut lexer = lexer;
    'words: loop {
        let left = lexer.left();
        match next_symbol(&mut lexer)? {
            Some(Symbol::Token(TokenRef::CharData(word))) => {
                if setting_of(alloc, word)?.is_ok() {
                    continue;
                }
                if misplaced {
                    return place_after_items(lexer);
                }
                return Ok(left);
            }
            _ => return Ok(left),
        }
    }
}

/// The place of what comes after items.
fn place_after_items(lexer: Lexer<'_>) -> Result<usize, AllocError>
    ensures { IfOk result (λ left. left ≡ place_after_items (symbols lexer.entry)) }
{
    let mut lexer = lexer;
    'items: loop {
        let left = lexer.left();
        match next_symbol(&mut lexer)? {
            Some(Symbol::Token(TokenRef::CharData(_))) => continue,
            Some(Symbol::Token(TokenRef::List(_))) => continue,
            _ => return Ok(left),
        }
    }
}

/// Line and column, from 1, of the byte from which on so many stand in a text.
#[tactic(auto, unfolding(crate::specs::Places::position))]
pub(super) fn position(text: &str, left: usize) -> (usize, usize)
    ensures { record { line = result.0; column = result.1 } ≡ position text.now left }
{
    let bytes = text.as_bytes();
    let mut line = 1;
    let mut column = 1;
    let mut at = 0;
    'bytes: while bytes.len() - at > left {
        if ends_line(bytes, at) {
            line += 1;
            column = 1;
        } else {
            column += 1;
        }
        at += 1;
    }
    (line, column)
}

/// Whether a line ends with this byte: CR LF ends one (RFC 1035, 5.1).
fn ends_line(bytes: &[u8], at: usize) -> bool
    requires { at < length bytes.now }
    ensures { result ≡ ends_line (get_or bytes.now at 0) (drop (at + 1) bytes.now) }
{
    match bytes[at] {
        b'\n' => true,
        b'\r' => bytes.get(at + 1) != Some(&b'\n'),
        _ => false,
    }
}
