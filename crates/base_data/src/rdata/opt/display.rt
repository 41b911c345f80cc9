//! The text of options (RFC 3597, 5).

ghost use Rattle.std.specs.Prelude.{◌≡◌, Some};
ghost use Rattle.base_data.specs.Opaque.{hex_text, opaque_text};
ghost use Rattle.base_data.specs.OPT.{option_wire, options_wire, options_len};

use crate::rdata::hex_text::HexText;
use crate::rdata::opt::{EdnsOption, OPT};
use std::fmt;

/// An option as it stands on the wire, in hexadecimal.
#[derive(Drop)]
struct OptionHex<'a>(&'a EdnsOption);

impl fmt::Display for OptionHex<'_> {
    ghost output = { λ text. Some (hex_text (option_wire text.0.now)) };

    fn fmt<W: fmt::Write>(&self, f: &mut fmt::Formatter<W>) -> fmt::Result {
        let bytes = self.0.bytes();
        let code = self.0.code().to_be_bytes();
        let len = (bytes.len() as u16).to_be_bytes();
        write!(f, "{}{}{}", HexText(&code), HexText(&len), HexText(bytes))
    }
}

/// Options as they stand on the wire, in hexadecimal.
#[derive(Drop)]
struct OptionsHex<'a>(&'a [EdnsOption]);

impl fmt::Display for OptionsHex<'_> {
    ghost output = { λ text. Some (hex_text (options_wire text.0.now)) };

    fn fmt<W: fmt::Write>(&self, f: &mut fmt::Formatter<W>) -> fmt::Result {
        for option in self.0 {
            fmt::Display::fmt(&OptionHex(option), f)?;
        }
        Ok(())
    }
}

/// How many bytes options take on the wire.
fn wire_len(options: &[EdnsOption]) -> u128
    ensures { result ≡ options_len options.now }
{
    let mut len = 0;
    for option in options {
        len += 4 + option.bytes().len() as u128;
    }
    len
}

impl fmt::Display for OPT {
    ghost output = { λ o. Some (opaque_text (options_wire o)) };

    /// `\#`, the number of bytes on the wire, and these bytes in hexadecimal in lower case, if there are any
    /// (RFC 3597, 5).
    fn fmt<W: fmt::Write>(&self, f: &mut fmt::Formatter<W>) -> fmt::Result {
        let options = self.as_ref();
        let len = wire_len(options);
        if len == 0 {
            return f.write_str("\\# 0");
        }
        write!(f, "\\# {len} {}", OptionsHex(options))
    }
}
