//! Bytes in hexadecimal.

ghost use Rattle.std.specs.Prelude.{Some};
ghost use Rattle.base_data.specs.Opaque.{hex_text, opaque_text};

use std::fmt;

/// Bytes in hexadecimal, two digits in lower case each.
#[derive(Drop)]
pub(crate) struct HexText<'a>(pub &'a [u8]);

impl fmt::Display for HexText<'_> {
    ghost output = { λ text. Some (hex_text text.0.now) };

    fn fmt<W: fmt::Write>(&self, f: &mut fmt::Formatter<W>) -> fmt::Result {
        for &byte in self.0 {
            write!(f, "{byte:02x}")?;
        }
        Ok(())
    }
}

/// Bytes as data of a type that has no text of its own (RFC 3597, 5).
#[derive(Drop)]
pub(crate) struct OpaqueText<'a>(pub &'a [u8]);

impl fmt::Display for OpaqueText<'_> {
    ghost output = { λ text. Some (opaque_text text.0.now) };

    fn fmt<W: fmt::Write>(&self, f: &mut fmt::Formatter<W>) -> fmt::Result {
        if self.0.is_empty() {
            return f.write_str("\\# 0");
        }
        write!(f, "\\# {} {}", self.0.len(), HexText(self.0))
    }
}
