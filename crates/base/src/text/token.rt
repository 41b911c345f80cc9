//! The tokens of zone text.

ghost use Rattle.std.specs.Prelude.{◌≡◌, IfOk, IsTrue, is_ok, map};
ghost use Rattle.base.specs.texts.Cuts.{TakesNone};
ghost use Rattle.base.specs.texts.Tokens.{Unread, lent_value, texts, token, value_of};

use std::alloc::{AllocError, Global};

/// A token of zone text (RFC 1035, 5.1).
#[derive(Debug, Drop)]
pub enum Token {
    /// An item, or a text in quotes.
    CharData(String),
    /// What stands in parentheses.
    List(Vec<String>),
    /// Blanks at the beginning of a line.
    Blank,
    /// The end of a line.
    EOL,
    /// The sign @.
    At,
    /// `$ORIGIN`.
    Origin,
    /// `$INCLUDE`.
    Include,
    /// `$TTL`.
    Ttl,
}

/// A token whose items stand in the zone text that it was cut off.
#[derive(Debug, Drop)]
pub enum TokenRef<'a> {
    /// An item, or a text in quotes.
    CharData(&'a str),
    /// What stands in parentheses.
    List(Vec<&'a str>),
    /// Blanks at the beginning of a line.
    Blank,
    /// The end of a line.
    EOL,
    /// The sign @.
    At,
    /// `$ORIGIN`.
    Origin,
    /// `$INCLUDE`.
    Include,
    /// `$TTL`.
    Ttl,
}

impl<'a> TokenRef<'a> {
    /// The token with copies of its items.
    ///
    /// # Errors
    ///
    /// If memory runs out.
    pub fn to_token(&self, alloc: Global) -> Result<Token, AllocError>
        ensures value { IfOk result (λ t. value_of t ≡ lent_value self.now) }
        // Blanks and the end of a line are never refused.
        ensures certain { (rest : Unread) → TakesNone (token (lent_value self.now) rest)
            → IsTrue (is_ok result) }
    {
        match self {
            TokenRef::CharData(word) => Ok(Token::CharData(String::from_str(alloc, word)?)),
            TokenRef::List(items) => Ok(Token::List(copied(alloc, items)?)),
            TokenRef::Blank => Ok(Token::Blank),
            TokenRef::EOL => Ok(Token::EOL),
            TokenRef::At => Ok(Token::At),
            TokenRef::Origin => Ok(Token::Origin),
            TokenRef::Include => Ok(Token::Include),
            TokenRef::Ttl => Ok(Token::Ttl),
        }
    }
}

/// Copies of texts.
fn copied(alloc: Global, lent: &[&str]) -> Result<Vec<String>, AllocError>
    ensures { IfOk result (λ copies. texts copies.items ≡ map (λ item. item.now) lent.now) }
{
    let mut copies = Vec::with_capacity(alloc, lent.len())?;
    for item in lent {
        copies.push(String::from_str(alloc, item)?)?;
    }
    Ok(copies)
}
