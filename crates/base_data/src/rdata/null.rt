//! Data that is only carried.

ghost use Rattle.std.specs.Prelude.{◌≡◌, Some, length, refl};
ghost use Rattle.std.specs.Cmp.{partial_equiv_from_equiv};
ghost use Rattle.base.specs.reading.Reading.{bytes_at};
ghost use Rattle.base.specs.Words.{Bytes};
ghost use Rattle.base.specs.writing.SaysParts.{Says-bytes};
ghost use Rattle.base.specs.writing.Written.{just};
ghost use Rattle.base_data.specs.Opaque.{opaque_text, same_bytes};
ghost use Rattle.base_data.specs.Kinds.{null_in};
ghost use Rattle.base_data.specs.Equality.{same_bytes-equiv};
ghost use Rattle.base_data.specs.declared.rdata.RData.TheVariants as kinds;

use crate::rdata::RData;
use crate::rdata::hex_text::OpaqueText;
use crate::rdata::reading::SizedData;
use crate::record_data::RecordData;
use base::{BinDecoder, BinEncodable, BinEncoder, DecodeError, ProtoError, RecordType};
use std::alloc::AllocError;
use std::fmt;
use std::marker::Model;

/// Bytes without a form of their own: the data of type NULL (RFC 1035, 3.3.10), and of every type that has no
/// kind here (RFC 3597, 3).
#[derive(Debug)]
pub struct NULL {
    bytes: Vec<u8>,
}

impl Model for NULL {
    ghost use Rattle.std.specs.Prelude.{ℕ, List};

    ghost Value = { List ℕ };

    ghost view = { λ n. n.bytes.items };
}

// By hand, so that a place that drops data is one call to a proof for this kind.
impl Drop for NULL {
    fn drop(self) {
        let NULL { bytes: _ } = self;
    }
}

impl NULL {
    /// The data of these bytes.
    pub fn new(bytes: Vec<u8>) -> NULL
        ensures { result ≡ bytes.items }
    {
        NULL { bytes }
    }

    /// The bytes.
    pub fn bytes(&self) -> &[u8]
        ensures { result.now ≡ self.now }
    {
        &self.bytes
    }
}

impl SizedData for NULL {
    ghost sized_at = { bytes_at };

    /// Reads the bytes.
    ///
    /// # Errors
    ///
    /// `InsufficientBytes` where fewer are left; `Memory` if memory runs out.
    fn read(decoder: &mut BinDecoder<'_>, len: u16) -> Result<NULL, DecodeError> {
        let bytes = decoder.read_slice(usize::from(len))?;
        Ok(NULL::new(Vec::from_slice(decoder.allocator(), bytes)?))
    }
}

impl Clone for NULL {
    ghost is_clone = { λ a b. b ≡ a };

    fn clone(&self) -> Result<NULL, AllocError> {
        Ok(NULL {
            bytes: self.bytes.clone()?,
        })
    }
}

impl PartialEq for NULL {
    ghost eq = { same_bytes };

    ghost laws = { partial_equiv_from_equiv same_bytes-equiv };

    fn eq(&self, other: &NULL) -> bool {
        self.bytes() == other.bytes()
    }
}

impl Eq for NULL {
    ghost laws = { same_bytes-equiv };
}

impl fmt::Display for NULL {
    ghost output = { λ n. Some (opaque_text n) };

    /// `\#`, the number of bytes, and the bytes in hexadecimal in lower case, if there are any (RFC 3597, 5).
    fn fmt<W: fmt::Write>(&self, f: &mut fmt::Formatter<W>) -> fmt::Result {
        fmt::Display::fmt(&OpaqueText(self.bytes()), f)
    }
}

impl BinEncodable for NULL {
    ghost word = { Bytes };

    ghost plain_len = { length };

    ghost written = { just };

    ghost fits = { λ _. Unit {0} };

    ghost says = { Says-bytes };

    /// Writes the bytes as they are (RFC 1035, 3.3.10; RFC 3597, 3).
    ///
    /// # Errors
    ///
    /// `MaxBufferSizeExceeded` where a byte would pass the limit; `Memory` if memory runs out.
    fn emit(&self, encoder: &mut BinEncoder<'_>) -> Result<(), ProtoError> {
        encoder.emit_slice(self.bytes())
    }
}

impl RecordData for NULL {
    ghost as_rdata = { kinds.NULL };

    ghost of_rdata = { null_in };

    ghost borrows_back = { λ _. refl };

    ghost keeps_word = { λ _ _ _ _. (λ h. h, λ h. h) };

    ghost keeps_len = { λ _. refl };

    ghost keeps_written = { λ _. refl };

    ghost keeps_text = { λ _. refl };

    ghost keeps_equality = { λ _ _. refl };

    fn try_borrow(rdata: &RData) -> Option<&NULL> {
        match rdata {
            RData::NULL(rdata) => Some(rdata),
            _ => None,
        }
    }

    fn into_rdata(self) -> RData {
        RData::NULL(self)
    }

    fn record_type(&self) -> RecordType {
        RecordType::NULL
    }

    fn is_update(&self) -> bool {
        false
    }
}
