//! Texts.

ghost use Rattle.base.specs.declared.limits.TheConstants.{MAX_STRING};
ghost use Rattle.std.specs.Prelude.{◌≡◌, ◌≢◌, ◌<◌, ◌≤◌, ◌↔◌, ℕ, List, [], ◌∷◌, ◌++◌, All, IfOk, IsOkUnless, IsTrue, OnOk, length, map, refl, Some};
ghost use Rattle.std.specs.Cmp.{partial_equiv_from_equiv};
ghost use Rattle.base.specs.names.Labels.{wire_of, labels_of};
ghost use Rattle.base.specs.Words.{Bytes};
ghost use Rattle.base.specs.writing.SaysParts.{Says-bytes};
ghost use Rattle.base.specs.writing.Written.{just};
ghost use Rattle.base_data.specs.TXT.{AreShort, are_strings, same_txt, txt_at, txt_of};
ghost use Rattle.base_data.specs.Kinds.{txt_in};
ghost use Rattle.base_data.specs.Equality.{same_txt-equiv};
ghost use Rattle.base_data.specs.declared.rdata.RData.TheVariants as kinds;

mod display;
mod strings;
mod unescape;

use crate::rdata::RData;
use crate::rdata::fields::ItemFault;
use crate::rdata::items::TextData;
use crate::rdata::reading::SizedData;
use crate::record_data::RecordData;
use base::{BinDecoder, BinEncodable, BinEncoder, DecodeError, Name, ProtoError, RecordType};
use std::alloc::{AllocError, Global};
use std::marker::Model;
pub use strings::Strings;
use unescape::string_item;

/// One or more character strings, each of up to 255 bytes (RFC 1035, 3.3.14). Contracts see the strings.
#[derive(Debug)]
pub struct TXT {
    /// The strings, each with its length before it.
    bytes: Vec<u8>,
}

impl Model for TXT {
    ghost use Rattle.std.specs.Prelude.{ℕ, List};
    ghost use Rattle.base.specs.names.Labels.{labels_of};
    ghost use Rattle.base_data.specs.TXT.{IsText};

    ghost Value = { List (List ℕ) };

    ghost view = { λ t. labels_of t.bytes.items };

    ghost invariant = { λ t. IsText t.bytes.items };
}

// By hand, so that a place that drops data is one call to a proof for this kind.
impl Drop for TXT {
    fn drop(self) {
        let TXT { bytes: _ } = self;
    }
}

impl TXT {
    /// The data of these character strings, one at least, each of up to 255 bytes (RFC 1035, 3.3.14).
    ///
    /// # Errors
    ///
    /// `Memory` alone, if memory runs out.
    pub fn new(alloc: Global, strings: &[&[u8]]) -> Result<TXT, ProtoError>
        requires some { strings.now ≢ [] }
        requires short { All (λ string. length string.now ≤ MAX_STRING) strings.now }
        ensures value { IfOk result (λ text. text ≡ map (λ string. string.now) strings.now) }
        ensures only { IsOkUnless result ProtoError.Memory }
    {
        let mut bytes = Vec::new(alloc);
        for string in strings {
            push_string(&mut bytes, string)?;
        }
        Ok(TXT { bytes })
    }

    /// The strings, from the first on.
    pub fn strings(&self) -> Strings<'_>
        ensures strings { result ≡ self.now }
        // There is one string at least.
        ensures some { self.now ≢ [] }
        // Each string has up to 255 bytes.
        ensures short { AreShort self.now }
    {
        Strings::new(&self.bytes)
    }

    /// The strings as they stand on the wire, each with its length before it.
    pub(crate) fn as_wire(&self) -> &[u8]
        ensures value { result.now ≡ wire_of self.now }
        // The bytes are strings, each with its length before it, and nothing else.
        ensures whole { wire_of (labels_of result.now) ≡ result.now }
        // Cut at their lengths, they are the strings of the data.
        ensures strings { labels_of result.now ≡ self.now }
    {
        &self.bytes
    }
}

/// Puts a string after those before it, with its length.
fn push_string(bytes: &mut Vec<u8>, string: &[u8]) -> Result<(), AllocError>
    requires { length string.now ≤ MAX_STRING }
    ensures { OnOk result (bytes.new.items ≡ bytes.old.items ++ (length string.now ∷ string.now)) }
{
    bytes.push(string.len() as u8)?;
    bytes.extend_from_slice(string)
}

/// Whether bytes are strings, each with its length before it, that fill them exactly.
fn are_strings(bytes: &[u8]) -> bool
    ensures value { result ≡ are_strings bytes.now }
    // Where they are, each string has up to 255 bytes.
    ensures short { IsTrue result → AreShort (labels_of bytes.now) }
{
    let mut rest = bytes;
    while !rest.is_empty() {
        let end = 1 + usize::from(rest[0]);
        if rest.len() < end {
            return false;
        }
        rest = &rest[end..];
    }
    true
}

impl SizedData for TXT {
    ghost sized_at = { txt_at };

    /// Reads strings that fill the bytes exactly (RFC 1035, 3.3 and 3.3.14).
    ///
    /// # Errors
    ///
    /// `InsufficientBytes` where fewer are left or the last string doesn't end with them; `Memory` if memory runs out.
    fn read(decoder: &mut BinDecoder<'_>, len: u16) -> Result<TXT, DecodeError> {
        let bytes = decoder.read_slice(usize::from(len))?;
        if !are_strings(bytes) {
            return Err(DecodeError::InsufficientBytes);
        }
        Ok(TXT {
            bytes: Vec::from_slice(decoder.allocator(), bytes)?,
        })
    }
}

impl Clone for TXT {
    ghost is_clone = { λ a b. b ≡ a };

    fn clone(&self) -> Result<TXT, AllocError> {
        Ok(TXT {
            bytes: self.bytes.clone()?,
        })
    }
}

impl PartialEq for TXT {
    ghost eq = { same_txt };

    ghost laws = { partial_equiv_from_equiv same_txt-equiv };

    fn eq(&self, other: &TXT) -> bool {
        self.as_wire() == other.as_wire()
    }
}

impl Eq for TXT {
    ghost laws = { same_txt-equiv };
}

impl BinEncodable for TXT {
    ghost word = { λ t. Bytes (wire_of t) };

    ghost plain_len = { λ t. length (wire_of t) };

    ghost written = { λ t. just (wire_of t) };

    ghost fits = { λ _. Unit {0} };

    ghost says = { λ t. Says-bytes (wire_of t) };

    /// Writes each string after its length (RFC 1035, 3.3 and 3.3.14).
    ///
    /// # Errors
    ///
    /// `MaxBufferSizeExceeded` where a byte would pass the limit; `Memory` if memory runs out.
    fn emit(&self, encoder: &mut BinEncoder<'_>) -> Result<(), ProtoError> {
        encoder.emit_slice(self.as_wire())
    }
}

/// Texts are equal exactly where they have the same strings.
pub fn text_order()
    ensures equal { (a b : List (List ℕ)) → IsTrue (⟦<TXT as PartialEq>⟧.eq a b) ↔ (a ≡ b) }
{}

impl TextData for TXT {
    ghost of_items = { λ items _. txt_of items };

    /// An item for each string, one at least, without quotes (RFC 1035, 3.3.14 and 5.1).
    #[tactic(auto, unfolding(crate::specs::TXT::txt_of))]
    fn from_items(alloc: Global, items: &[&str], _origin: Option<&Name>) -> Result<TXT, ItemFault> {
        if items.is_empty() {
            return Err(ItemFault::Bad);
        }
        let mut bytes = Vec::new(alloc);
        for item in items {
            let string = string_item(alloc, item)?;
            push_string(&mut bytes, &string)?;
        }
        Ok(TXT { bytes })
    }
}

impl RecordData for TXT {
    ghost as_rdata = { kinds.TXT };

    ghost of_rdata = { txt_in };

    ghost borrows_back = { λ _. refl };

    ghost keeps_word = { λ _ _ _ _. (λ h. h, λ h. h) };

    ghost keeps_len = { λ _. refl };

    ghost keeps_written = { λ _. refl };

    ghost keeps_text = { λ _. refl };

    ghost keeps_equality = { λ _ _. refl };

    fn try_borrow(rdata: &RData) -> Option<&TXT> {
        match rdata {
            RData::TXT(rdata) => Some(rdata),
            _ => None,
        }
    }

    fn into_rdata(self) -> RData {
        RData::TXT(self)
    }

    fn record_type(&self) -> RecordType {
        RecordType::TXT
    }

    fn is_update(&self) -> bool {
        false
    }
}
