//! Character strings as zone text (RFC 1035, 5.1).

ghost use Rattle.std.specs.List.{flat_map};
ghost use Rattle.std.specs.Prelude.{◌≡◌, ◌++◌, [], ◌∷◌, IfSome, IsTrue, Some, if◌then◌else◌};
ghost use Rattle.base_data.specs.TXT.{string_byte, string_text, txt_text};

use crate::rdata::txt::TXT;
use base::name::first_label;
use std::{fmt, str};

/// The text of a byte of a string.
#[derive(Drop)]
struct ByteText(u8);

impl fmt::Display for ByteText {
    ghost output = { λ b. Some (string_byte b.0) };

    fn fmt<W: fmt::Write>(&self, f: &mut fmt::Formatter<W>) -> fmt::Result {
        match self.0 {
            b'\\' | b'"' => write!(f, "\\{}", self.0 as char),
            b' '..=b'~' => write!(f, "{}", self.0 as char),
            b => write!(f, "\\{b:03}"),
        }
    }
}

/// Whether a byte prints as itself.
fn is_plain(b: u8) -> bool
    ensures { IsTrue result → string_byte b ≡ b ∷ [] }
{
    matches!(b, b' '..=b'~') && b != b'\\' && b != b'"'
}

/// The text of a string whose bytes all print as themselves, as those of most strings do.
fn plain_text(string: &[u8]) -> Option<&str>
    ensures { IfSome result (λ text. text.now ≡ flat_map string_byte string.now) }
{
    for b in string {
        if !is_plain(*b) {
            return None;
        }
    }
    str::from_utf8(string).ok()
}

/// A space, or nothing.
fn space_if(is_wanted: bool) -> &'static str
    ensures { result.now ≡ (if is_wanted then 32 ∷ [] else []) }
{
    if is_wanted { " " } else { "" }
}

/// A string in quotes, and the space after it where more strings follow.
#[derive(Drop)]
struct StringText<'a> {
    string: &'a [u8],
    is_last: bool,
}

impl<'a> fmt::Display for StringText<'a> {
    ghost output = { λ t. Some (string_text t.string.now ++ (if t.is_last then [] else 32 ∷ [])) };

    fn fmt<W: fmt::Write>(&self, f: &mut fmt::Formatter<W>) -> fmt::Result {
        f.write_str("\"")?;
        if let Some(text) = plain_text(self.string) {
            f.write_str(text)?;
        } else {
            for b in self.string {
                fmt::Display::fmt(&ByteText(*b), f)?;
            }
        }
        write!(f, "\"{}", space_if(!self.is_last))
    }
}

impl fmt::Display for TXT {
    ghost output = { λ t. Some (txt_text t) };

    /// Each string in quotes, with a space between them. The bytes 0x20 to 0x7E print as themselves, with a
    /// backslash before `"` and `\`; others as a backslash and three decimal digits (RFC 1035, 5.1).
    fn fmt<W: fmt::Write>(&self, f: &mut fmt::Formatter<W>) -> fmt::Result {
        let mut rest = self.as_wire();
        while let Some((string, tail)) = first_label(rest) {
            let is_last = tail.is_empty();
            fmt::Display::fmt(&StringText { string, is_last }, f)?;
            rest = tail;
        }
        Ok(())
    }
}
