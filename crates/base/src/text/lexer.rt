//! Cuts zone text into tokens (RFC 1035, 5.1).

ghost use Rattle.std.specs.Prelude.{◌≡◌, IsTrue, Some, false, is_ok, slice_get, true};
ghost use Rattle.base.specs.texts.Cuts.{AnswersNext, AnswersToken, Stays, TakesNone};
ghost use Rattle.base.specs.texts.TokenList.{first_place, symbols};
ghost use Rattle.base.specs.texts.Tokens.{is_line_end, lent_value, next, value_of, visible};

use crate::error::ParseError;
use crate::text::cutting::{
    begins_blank, first_byte, is_line_end, past_blanks, past_comment, past_first, past_line_end,
    take_item, take_list, take_quoted, token_of,
};
use crate::text::{Token, TokenRef};
use std::alloc::Global;
use std::marker::Model;

/// Cuts a text into tokens (RFC 1035, 5.1).
///
/// Contracts see what is still to be read, and whether it stands at the beginning of a line.
#[derive(Drop)]
pub struct Lexer<'a> {
    alloc: Global,
    rest: &'a str,
    at_line_start: bool,
}

impl<'a> Model for Lexer<'a> {
    ghost use Rattle.base.specs.texts.Tokens.{Unread};

    ghost Value = { Unread };

    ghost view = { λ l. record { text = l.rest.now; at_line_start = l.at_line_start } };
}

impl<'a> Lexer<'a> {
    /// A lexer at the beginning of a text.
    pub fn new(alloc: Global, text: &'a str) -> Lexer<'a>
        ensures { result ≡ record { text = text.now; at_line_start = true } }
    {
        Lexer {
            alloc,
            rest: text,
            at_line_start: true,
        }
    }

    /// Another lexer that stands where this one does.
    pub fn fork(&self) -> Lexer<'a>
        ensures { result ≡ self.now }
    {
        Lexer {
            alloc: self.alloc,
            rest: self.rest,
            at_line_start: self.at_line_start,
        }
    }

    /// How many bytes of the text stand from the next token on, or from what can't be cut into one.
    #[tactic(auto, using(crate::proofs::texts::TokenLemmas::first_place_is))]
    pub fn left(&self) -> usize
        ensures { result ≡ first_place (symbols self.now) }
    {
        if self.at_line_start && begins_blank(self.rest) {
            return self.rest.len();
        }
        past_comment(past_blanks(self.rest)).len()
    }

    /// The next token; `None` at the end of the text, and again whenever it is asked for there. No end of a line is
    /// added at the end of the text.
    ///
    /// After `None` and after a refusal the lexer stands where it stood.
    ///
    /// # Errors
    ///
    /// `Lexer` where the text can't be cut on: a `(` or an item that begins with `$` within parentheses, a `)` outside
    /// them, an item that begins with `$` and is none of `$ORIGIN`, `$INCLUDE` and `$TTL`, and the text's end within
    /// parentheses, in quotes or after a backslash. `Memory` if memory runs out, which is never so at the end of the
    /// text, for blanks or at the end of a line.
    pub fn next_token(&mut self) -> Result<Option<Token>, ParseError>
        ensures value { AnswersNext value_of result self.new (next self.old) }
        ensures stays { Stays result self.old self.new }
        // At the end of the text, for blanks and at the end of a line, nothing is refused.
        ensures certain { TakesNone (next self.old) → IsTrue (is_ok result) }
    {
        let start = self.fork();
        let Some(lent) = self.next_ref()? else {
            return Ok(None);
        };
        let Ok(token) = lent.to_token(self.alloc) else {
            *self = start;
            return Err(ParseError::Memory);
        };
        Ok(Some(token))
    }

    /// The same with the items where they stand in the text, of which only those in parentheses take memory.
    ///
    /// # Errors
    ///
    /// Those of `next_token`.
    #[tactic(auto, unfolding(crate::specs::texts::Tokens::next, crate::specs::texts::Tokens::visible))]
    pub fn next_ref(&mut self) -> Result<Option<TokenRef<'a>>, ParseError>
        ensures value { AnswersNext lent_value result self.new (next self.old) }
        ensures stays { Stays result self.old self.new }
        // At the end of the text, for blanks and at the end of a line, nothing is refused.
        ensures certain { TakesNone (next self.old) → IsTrue (is_ok result) }
    {
        if self.at_line_start && begins_blank(self.rest) {
            self.rest = past_blanks(self.rest);
            self.at_line_start = false;
            return Ok(Some(TokenRef::Blank));
        }
        let text = past_comment(past_blanks(self.rest));
        let Some(c) = first_byte(text) else {
            return Ok(None);
        };
        if is_line_end(c) {
            self.rest = past_line_end(text);
            self.at_line_start = true;
            return Ok(Some(TokenRef::EOL));
        }
        let (token, rest) = cut_token(self.alloc, c, text)?;
        self.rest = rest;
        self.at_line_start = false;
        Ok(Some(token))
    }
}

/// The token that a text begins with, which begins with this byte, no blank, no comment and no line's end,
/// and what is after it.
#[tactic(auto, unfolding(crate::specs::texts::Tokens::visible))]
fn cut_token(alloc: Global, first: u8, text: &str) -> Result<(TokenRef<'_>, &str), ParseError>
    requires first { slice_get text.now 0 ≡ Some first }
    requires no_line_end { is_line_end first ≡ false }
    ensures { AnswersToken result (visible text.now) }
{
    match first {
        b'"' => {
            let (word, rest) = take_quoted(past_first(text))?;
            Ok((TokenRef::CharData(word), rest))
        }
        b'(' => {
            let (items, rest) = take_list(alloc, past_first(text))?;
            Ok((TokenRef::List(items), rest))
        }
        b')' => Err(ParseError::Lexer),
        _ => {
            let (word, rest) = take_item(text)?;
            Ok((token_of(word)?, rest))
        }
    }
}
