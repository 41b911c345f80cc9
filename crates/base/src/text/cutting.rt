//! Cuts off what a text begins with: blanks, comments, items, quoted texts and lists (RFC 1035, 5.1).
//!
//! Every character with a meaning is one of ASCII, so texts are looked at byte by byte.

ghost use Rattle.std.specs.Prelude.{◌≡◌, ◌<◌, ◌+◌, ◌∷◌, false, length, map, take, drop, get_or, slice_get, IfSome, IsTrue, None, Some};
ghost use Rattle.std.specs.Option.{option_map};
ghost use Rattle.std.specs.Str.{IsCharBoundary};
ghost use Rattle.base.specs.texts.Cuts.{AnswersElement, AnswersItem, CutsOff};
ghost use Rattle.base.specs.texts.Tokens.{begins_blank, element, ends_item, is_blank, is_line_end, item};
ghost use Rattle.base.specs.texts.Tokens.{line_end, list_items, past_blanks, past_comment, past_line_end, past_separators, quoted, separates};

use crate::error::ParseError;
use crate::text::TokenRef;
use std::alloc::Global;

/// Whether an item ends before this byte. All bytes that end one but `;` are at most `)`, and most bytes of an item are
/// greater.
fn ends_item(c: u8) -> bool
    ensures { result ≡ ends_item c }
{
    if c > b')' {
        return c == b';';
    }
    matches!(c, b' ' | b'\t' | b'\n' | b'\r' | b'(' | b')' | b'"')
}

/// The length in bytes of the item that a text begins with; none where the text ends with the item's backslash.
#[tactic(auto, unfolding(crate::specs::texts::Tokens::item))]
fn item_len(text: &[u8]) -> Option<usize>
    ensures value { option_map (λ n. (take n text.now, drop n text.now)) result
        ≡ item false text.now }
    // The item ends between two characters of the text.
    ensures boundary { IfSome result (λ n. IsCharBoundary text.now n) }
{
    let mut at = 0;
    'bytes: while at < text.len() {
        let c = text[at];
        if ends_item(c) {
            return Some(at);
        }
        at += 1;
        if c == b'\\' {
            if at == text.len() {
                return None;
            }
            at += 1;
        }
    }
    Some(text.len())
}

/// How many bytes stand before the next `"` that no backslash escapes; none where there is no such `"`.
#[tactic(auto, unfolding(crate::specs::texts::Tokens::quoted))]
fn quoted_len(text: &[u8]) -> Option<usize>
    ensures value { option_map (λ n. (take n text.now, drop (n + 1) text.now)) result
        ≡ quoted false text.now }
    // The quotation mark begins a character of the text.
    ensures boundary { IfSome result (λ n. IsCharBoundary text.now n) }
    // After these n bytes stands a `"`.
    ensures quote { IfSome result (λ n. (n < length text.now) × (get_or text.now n 0 ≡ 34)) }
{
    let mut kept = false;
    for (i, c) in text.iter().enumerate() {
        if !kept && *c == b'"' {
            return Some(i);
        }
        kept = !kept && *c == b'\\';
    }
    None
}

/// What is after the first character of a text, which is one of ASCII.
pub(super) fn past_first(text: &str) -> &str
    requires some { 0 < length text.now }
    requires ascii { get_or text.now 0 0 < 128 }
    ensures value { text.now ≡ get_or text.now 0 0 ∷ result.now }
{
    &text[1..]
}

/// Whether this byte is a space or a tab.
fn is_blank(c: u8) -> bool
    ensures { result ≡ is_blank c }
{
    c == b' ' || c == b'\t'
}

/// Whether this byte ends a line.
pub(super) fn is_line_end(c: u8) -> bool
    ensures { result ≡ is_line_end c }
{
    c == b'\n' || c == b'\r'
}

/// Whether this byte separates items within parentheses: a blank or the end of a line.
fn separates(c: u8) -> bool
    ensures { result ≡ separates c }
{
    is_blank(c) || is_line_end(c)
}

/// The first byte of a text, if there is one.
pub(super) fn first_byte(text: &str) -> Option<u8>
    ensures { result ≡ slice_get text.now 0 }
{
    text.as_bytes().first().copied()
}

/// Whether a text begins with a blank.
pub(super) fn begins_blank(text: &str) -> bool
    ensures value { result ≡ begins_blank text.now }
    ensures first { IsTrue result → (0 < length text.now) × (get_or text.now 0 0 < 128) }
{
    match first_byte(text) {
        Some(c) => is_blank(c),
        None => false,
    }
}

/// What is after the blanks that a text begins with.
pub(super) fn past_blanks(text: &str) -> &str
    ensures { result.now ≡ past_blanks text.now }
{
    let mut rest = text;
    'blanks: while begins_blank(rest) {
        rest = past_first(rest);
    }
    rest
}

/// The text from the end of its first line on, that end included.
fn line_end(text: &str) -> &str
    ensures { result.now ≡ line_end text.now }
{
    for (i, c) in text.as_bytes().iter().enumerate() {
        if is_line_end(*c) {
            return &text[i..];
        }
    }
    &text[text.len()..]
}

/// What is after the comment that a text begins with, if it begins with one.
pub(super) fn past_comment(text: &str) -> &str
    ensures { result.now ≡ past_comment text.now }
{
    if first_byte(text) == Some(b';') {
        return line_end(text);
    }
    text
}

/// Within parentheses: what is after blanks, line ends and comments.
#[tactic(auto, using(crate::proofs::texts::Cutting::separators_comment, crate::proofs::texts::Cutting::comment_shorter, crate::proofs::texts::Cutting::separators_here, crate::proofs::texts::Cutting::separators_none))]
fn past_separators(text: &str) -> &str
    ensures { result.now ≡ past_separators false text.now }
{
    let mut rest = text;
    'separators: while let Some(c) = first_byte(rest) {
        if c == b';' {
            rest = line_end(rest);
        } else {
            if !separates(c) {
                return rest;
            }
            rest = past_first(rest);
        }
    }
    rest
}

/// The item that a text begins with, and what is after it.
pub(super) fn take_item(text: &str) -> Result<(&str, &str), ParseError>
    ensures { CutsOff (λ r. (r.0.now, r.1.now)) result (item false text.now) }
{
    let Some(len) = item_len(text.as_bytes()) else {
        return Err(ParseError::Lexer);
    };
    Ok(text.split_at(len))
}

/// What stands before the closing quotation mark, and what is after that.
pub(super) fn take_quoted(text: &str) -> Result<(&str, &str), ParseError>
    ensures { CutsOff (λ r. (r.0.now, r.1.now)) result (quoted false text.now) }
{
    let Some(len) = quoted_len(text.as_bytes()) else {
        return Err(ParseError::Lexer);
    };
    let (word, rest) = text.split_at(len);
    Ok((word, past_first(rest)))
}

/// The next item or quoted text within parentheses, none where they close, and what is after it.
#[tactic(auto, unfolding(crate::specs::texts::Tokens::element))]
fn take_element(text: &str) -> Result<(Option<&str>, &str), ParseError>
    ensures { AnswersElement result (element (past_separators false text.now)) }
{
    let rest = past_separators(text);
    let (word, tail) = match first_byte(rest) {
        Some(b')') => return Ok((None, past_first(rest))),
        None | Some(b'(' | b'$') => return Err(ParseError::Lexer),
        Some(b'"') => take_quoted(past_first(rest))?,
        Some(_) => take_item(rest)?,
    };
    Ok((Some(word), tail))
}

/// The items within parentheses and what is after the closing one, of the text after the opening one.
pub(super) fn take_list(alloc: Global, text: &str) -> Result<(Vec<&str>, &str), ParseError>
    ensures { CutsOff (λ r. (map (λ word. word.now) r.0.items, r.1.now)) result
        (list_items (length text.now) text.now) }
{
    let mut items = Vec::new(alloc);
    let mut rest = text;
    'items: loop {
        let (word, tail) = take_element(rest)?;
        rest = tail;
        let Some(word) = word else {
            return Ok((items, rest));
        };
        items.push(word)?;
    }
}

/// What is after the end of the line that a text begins with: CR LF is one.
pub(super) fn past_line_end(text: &str) -> &str
    requires some { 0 < length text.now }
    requires ends { IsTrue (is_line_end (get_or text.now 0 0)) }
    ensures { result.now ≡ past_line_end (get_or text.now 0 0) (drop 1 text.now) }
{
    let rest = past_first(text);
    if first_byte(text) == Some(b'\r') && first_byte(rest) == Some(b'\n') {
        return past_first(rest);
    }
    rest
}

/// The token of an item outside parentheses.
pub(super) fn token_of(word: &str) -> Result<TokenRef<'_>, ParseError>
    ensures { AnswersItem result word.now }
{
    match first_byte(word) {
        Some(b'@' | b'$') => sign_of(word),
        _ => Ok(TokenRef::CharData(word)),
    }
}

/// The sign that an item is which begins with `@` or `$`, where it is one.
fn sign_of(word: &str) -> Result<TokenRef<'_>, ParseError>
    ensures { AnswersItem result word.now }
{
    if word == "@" {
        return Ok(TokenRef::At);
    }
    if word == "$ORIGIN" {
        return Ok(TokenRef::Origin);
    }
    if word == "$INCLUDE" {
        return Ok(TokenRef::Include);
    }
    if word == "$TTL" {
        return Ok(TokenRef::Ttl);
    }
    if first_byte(word) == Some(b'$') {
        return Err(ParseError::Lexer);
    }
    Ok(TokenRef::CharData(word))
}
