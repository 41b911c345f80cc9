//! The data of transaction signatures.

ghost use Rattle.std.specs.Prelude.{◌≡◌, ◌≢◌, ◌<◌, [], Some, length, refl};
ghost use Rattle.std.specs.Cmp.{partial_equiv_from_equiv};
ghost use Rattle.base.specs.reading.Reading.{bytes_at};
ghost use Rattle.base.specs.Words.{Bytes};
ghost use Rattle.base.specs.writing.SaysParts.{Says-bytes};
ghost use Rattle.base.specs.writing.Written.{just};
ghost use Rattle.base_data.specs.Opaque.{opaque_text, same_bytes};
ghost use Rattle.base_data.specs.Kinds.{tsig_in};
ghost use Rattle.base_data.specs.Equality.{same_bytes-equiv};
ghost use Rattle.base_data.specs.declared.rdata.RData.TheVariants as kinds;

use crate::rdata::RData;
use crate::rdata::hex_text::OpaqueText;
use crate::rdata::reading::SizedData;
use crate::record_data::RecordData;
use base::{BinDecoder, BinEncodable, BinEncoder, DecodeError, ProtoError, RecordType};
use std::alloc::AllocError;
use std::fmt;
use std::marker::Model;

/// The data of a transaction signature, one byte at least, as it stands (RFC 8945, 4.2).
#[derive(Debug)]
pub struct TSIG {
    bytes: Vec<u8>,
}

impl Model for TSIG {
    ghost use Rattle.std.specs.Prelude.{◌≢◌, ℕ, List, []};

    ghost Value = { List ℕ };

    ghost view = { λ t. t.bytes.items };

    ghost invariant = { λ t. t.bytes.items ≢ [] };
}

// By hand, so that a place that drops data is one call to a proof for this kind.
impl Drop for TSIG {
    fn drop(self) {
        let TSIG { bytes: _ } = self;
    }
}

impl TSIG {
    /// The data of these bytes, one at least.
    pub fn new(bytes: Vec<u8>) -> TSIG
        requires { bytes.items ≢ [] }
        ensures { result ≡ bytes.items }
    {
        TSIG { bytes }
    }

    /// The bytes, one at least.
    pub fn bytes(&self) -> &[u8]
        ensures value { result.now ≡ self.now }
        ensures some { result.now ≢ [] }
    {
        &self.bytes
    }
}

impl SizedData for TSIG {
    ghost sized_at = { bytes_at };

    /// Reads the bytes.
    ///
    /// # Errors
    ///
    /// `InsufficientBytes` where fewer are left; `Memory` if memory runs out.
    fn read(decoder: &mut BinDecoder<'_>, len: u16) -> Result<TSIG, DecodeError> {
        let bytes = decoder.read_slice(usize::from(len))?;
        Ok(TSIG::new(Vec::from_slice(decoder.allocator(), bytes)?))
    }
}

impl Clone for TSIG {
    ghost is_clone = { λ a b. b ≡ a };

    fn clone(&self) -> Result<TSIG, AllocError> {
        Ok(TSIG {
            bytes: self.bytes.clone()?,
        })
    }
}

impl PartialEq for TSIG {
    ghost eq = { same_bytes };

    ghost laws = { partial_equiv_from_equiv same_bytes-equiv };

    fn eq(&self, other: &TSIG) -> bool {
        self.bytes() == other.bytes()
    }
}

impl Eq for TSIG {
    ghost laws = { same_bytes-equiv };
}

impl fmt::Display for TSIG {
    ghost output = { λ n. Some (opaque_text n) };

    /// `\#`, the number of bytes, and the bytes in hexadecimal in lower case (RFC 3597, 5).
    fn fmt<W: fmt::Write>(&self, f: &mut fmt::Formatter<W>) -> fmt::Result {
        fmt::Display::fmt(&OpaqueText(self.bytes()), f)
    }
}

impl BinEncodable for TSIG {
    ghost word = { Bytes };

    ghost plain_len = { length };

    ghost written = { just };

    ghost fits = { λ _. Unit {0} };

    ghost says = { Says-bytes };

    /// Writes the bytes as they are (RFC 8945, 4.2).
    ///
    /// # Errors
    ///
    /// `MaxBufferSizeExceeded` where a byte would pass the limit; `Memory` if memory runs out.
    fn emit(&self, encoder: &mut BinEncoder<'_>) -> Result<(), ProtoError> {
        encoder.emit_slice(self.bytes())
    }
}

impl RecordData for TSIG {
    ghost as_rdata = { kinds.TSIG };

    ghost of_rdata = { tsig_in };

    ghost borrows_back = { λ _. refl };

    ghost keeps_word = { λ _ _ _ _. (λ h. h, λ h. h) };

    ghost keeps_len = { λ _. refl };

    ghost keeps_written = { λ _. refl };

    ghost keeps_text = { λ _. refl };

    ghost keeps_equality = { λ _ _. refl };

    fn try_borrow(rdata: &RData) -> Option<&TSIG> {
        match rdata {
            RData::TSIG(rdata) => Some(rdata),
            _ => None,
        }
    }

    fn into_rdata(self) -> RData {
        RData::TSIG(self)
    }

    fn record_type(&self) -> RecordType {
        RecordType::TSIG
    }

    fn is_update(&self) -> bool {
        false
    }
}
