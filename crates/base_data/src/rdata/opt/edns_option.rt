//! An EDNS option.

ghost use Rattle.base.specs.declared.limits.TheConstants.{MAX_DATA};
ghost use Rattle.std.specs.Prelude.{◌≡◌, ◌≤◌, length};
ghost use Rattle.std.specs.Cmp.{partial_equiv_from_equiv};
ghost use Rattle.base_data.specs.Equality.{same_option-equiv};
ghost use Rattle.base_data.specs.OPT.{FitsOption, option_at, option_len, option_says, option_word, option_written, same_option};

use base::{BinDecodable, BinDecoder, BinEncodable, BinEncoder, DecodeError, ProtoError};
use std::alloc::AllocError;
use std::marker::Model;

/// An EDNS option: a code, and up to 65,535 bytes (RFC 6891, 6.1.2).
#[derive(Debug, Drop)]
pub struct EdnsOption {
    code: u16,
    bytes: Vec<u8>,
}

impl Model for EdnsOption {
    ghost use Rattle.base.specs.declared.limits.TheConstants.{MAX_DATA};
    ghost use Rattle.std.specs.Prelude.{◌≤◌, length};
    ghost use Rattle.base_data.specs.OPT.{OptionValue};

    ghost Value = { OptionValue };

    ghost view = { λ o. record { code = o.code; bytes = o.bytes.items } };

    ghost invariant = { λ o. length o.bytes.items ≤ MAX_DATA };
}

impl EdnsOption {
    /// The option of this code and these bytes, 65,535 at most.
    pub fn new(code: u16, bytes: Vec<u8>) -> EdnsOption
        requires { length bytes.items ≤ MAX_DATA }
        ensures { result ≡ record { code = code; bytes = bytes.items } }
    {
        EdnsOption { code, bytes }
    }

    /// The code.
    pub fn code(&self) -> u16
        ensures { result ≡ self.now.code }
    {
        self.code
    }

    /// The bytes, 65,535 at most.
    pub fn bytes(&self) -> &[u8]
        ensures value { result.now ≡ self.now.bytes }
        ensures short { length self.now.bytes ≤ MAX_DATA }
    {
        &self.bytes
    }
}

impl Clone for EdnsOption {
    ghost is_clone = { λ a b. b ≡ a };

    fn clone(&self) -> Result<EdnsOption, AllocError> {
        Ok(EdnsOption {
            code: self.code,
            bytes: self.bytes.clone()?,
        })
    }
}

impl PartialEq for EdnsOption {
    ghost eq = { same_option };

    ghost laws = { partial_equiv_from_equiv same_option-equiv };

    fn eq(&self, other: &EdnsOption) -> bool {
        self.code() == other.code() && self.bytes() == other.bytes()
    }
}

impl Eq for EdnsOption {
    ghost laws = { same_option-equiv };
}

impl BinEncodable for EdnsOption {
    ghost word = { option_word };

    ghost plain_len = { option_len };

    ghost written = { option_written };

    ghost fits = { FitsOption };

    ghost says = { option_says };

    /// Writes the code, the number of the bytes, and the bytes (RFC 6891, 6.1.2). The first two are written at once,
    /// since that is faster.
    ///
    /// # Errors
    ///
    /// `MaxBufferSizeExceeded` where a byte would pass the limit; `Memory` if memory runs out.
    #[tactic(auto, using(base::proofs::writing::LawLemmas::writing))]
    fn emit(&self, encoder: &mut BinEncoder<'_>) -> Result<(), ProtoError> {
        let bytes = self.bytes();
        let mut front = [0; 4];
        front[..2].copy_from_slice(&self.code().to_be_bytes());
        front[2..].copy_from_slice(&(bytes.len() as u16).to_be_bytes());
        encoder.emit_slice(&front)?;
        encoder.emit_slice(bytes)?;
        Ok(())
    }
}

impl BinDecodable for EdnsOption {
    ghost read_at = { option_at };

    /// Reads a code, a length, and that number of bytes (RFC 6891, 6.1.2).
    ///
    /// # Errors
    ///
    /// `InsufficientBytes` where the buffer ends before; `Memory` if memory runs out.
    #[tactic(auto, using(base::proofs::reading::TrackLemmas::tracked_then))]
    fn read(decoder: &mut BinDecoder<'_>) -> Result<EdnsOption, DecodeError> {
        let code = decoder.read_u16()?;
        let len = decoder.read_u16()?;
        let bytes = decoder.read_slice(usize::from(len))?;
        Ok(EdnsOption {
            code,
            bytes: Vec::from_slice(decoder.allocator(), bytes)?,
        })
    }
}
