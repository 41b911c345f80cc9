//! The text of names (RFC 1035, 5.1).

ghost use Rattle.std.specs.Prelude.{◌≡◌, ◌++◌, [], ◌∷◌, IfSome, IsTrue, Some, if◌then◌else◌};
ghost use Rattle.base.specs.texts.NameText.{byte_text, is_special, label_text, name_text};

use crate::name::{Name, first_label};
use std::{fmt, str};

/// The text of a byte of a label.
#[derive(Drop)]
struct ByteText(u8);

impl fmt::Display for ByteText {
    ghost output = { λ b. Some (byte_text b.0) };

    fn fmt<W: fmt::Write>(&self, f: &mut fmt::Formatter<W>) -> fmt::Result {
        let b = self.0;
        if !b.is_ascii_graphic() {
            write!(f, "\\{b:03}")
        } else if is_special(b) {
            write!(f, "\\{}", b as char)
        } else {
            write!(f, "{}", b as char)
        }
    }
}

/// Whether a byte stands for something else than itself in the text of a name.
fn is_special(b: u8) -> bool
    ensures { result ≡ is_special b }
{
    matches!(b, b'.' | b'\\' | b'"' | b'(' | b')' | b';' | b'@' | b'$')
}

/// Whether a byte prints as itself. Nearly all that do are above the special ones but for the backslash.
fn is_plain(b: u8) -> bool
    ensures { IsTrue result → byte_text b ≡ b ∷ [] }
{
    if b > b'@' {
        return b < 127 && b != b'\\';
    }
    b.is_ascii_graphic() && !is_special(b)
}

/// The text of a label whose bytes all print as themselves, as the labels of most names do.
fn plain_text(label: &[u8]) -> Option<&str>
    ensures { IfSome result (λ text. text.now ≡ label_text label.now) }
{
    for b in label {
        if !is_plain(*b) {
            return None;
        }
    }
    str::from_utf8(label).ok()
}

/// A dot, or nothing.
fn dot_if(is_wanted: bool) -> &'static str
    ensures { result.now ≡ (if is_wanted then 46 ∷ [] else []) }
{
    if is_wanted { "." } else { "" }
}

/// The text of a label, and the dot after it where more labels follow.
#[derive(Drop)]
struct LabelText<'a> {
    label: &'a [u8],
    is_last: bool,
}

impl<'a> fmt::Display for LabelText<'a> {
    ghost output = { λ t. Some (label_text t.label.now ++ (if t.is_last then [] else 46 ∷ [])) };

    fn fmt<W: fmt::Write>(&self, f: &mut fmt::Formatter<W>) -> fmt::Result {
        if let Some(text) = plain_text(self.label) {
            f.write_str(text)?;
        } else {
            for b in self.label {
                fmt::Display::fmt(&ByteText(*b), f)?;
            }
        }
        if self.is_last {
            return Ok(());
        }
        f.write_str(".")
    }
}

impl fmt::Display for Name {
    ghost output = { λ n. Some (name_text n) };

    /// The labels with dots between them, and a dot at the end of an absolute name: the root is `.`, and
    /// the relative name without labels the empty text. The bytes 0x21 to 0x7E print as themselves, with
    /// a backslash before `.`, `\`, `"`, `(`, `)`, `;`, `@` and `$`; others as a backslash and three decimal
    /// digits (RFC 1035, 5.1).
    fn fmt<W: fmt::Write>(&self, f: &mut fmt::Formatter<W>) -> fmt::Result {
        let mut rest = self.as_wire();
        while let Some((label, tail)) = first_label(rest) {
            let is_last = tail.is_empty();
            fmt::Display::fmt(&LabelText { label, is_last }, f)?;
            rest = tail;
        }
        f.write_str(dot_if(self.is_fqdn()))
    }
}

impl fmt::Debug for Name {
    /// The text of the name within `Name("")`.
    fn fmt<W: fmt::Write>(&self, f: &mut fmt::Formatter<W>) -> fmt::Result {
        write!(f, "Name(\"{self}\")")
    }
}
