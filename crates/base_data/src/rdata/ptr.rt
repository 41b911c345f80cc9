//! Pointers to names.

ghost use Rattle.std.specs.Prelude.{◌≡◌, Some, refl};
ghost use Rattle.base_data.specs.PTR.{ptr_at, ptr_kind, ptr_of};
ghost use Rattle.base_data.specs.Kinds.{ptr_in};
ghost use Rattle.base_data.specs.OneName.{own_place};
ghost use Rattle.base_data.specs.declared.rdata.RData.TheVariants as kinds;

use crate::rdata::RData;
use crate::rdata::fields::{ItemFault, one_name};
use crate::rdata::items::TextData;
use crate::record_data::RecordData;
use base::{
    BinDecodable, BinDecoder, BinEncodable, BinEncoder, DecodeError, Name, ProtoError, RecordType,
};
use std::alloc::{AllocError, Global};
use std::fmt;

/// A name that another one points to (RFC 1035, 3.3.12).
#[derive(Debug, Drop, PartialEq, Eq)]
pub struct PTR {
    /// The name that is pointed to.
    pub name: Name,
}

impl PTR {
    /// The data of this name.
    pub fn new(name: Name) -> PTR
        ensures { result ≡ record { name = name } }
    {
        PTR { name }
    }

    /// The name that is pointed to.
    pub fn name(&self) -> &Name
        ensures { result.now ≡ self.now.name }
    {
        &self.name
    }
}

impl Clone for PTR {
    ghost is_clone = { λ a b. b ≡ a };

    fn clone(&self) -> Result<PTR, AllocError> {
        Ok(PTR {
            name: self.name.clone()?,
        })
    }
}

impl BinDecodable for PTR {
    ghost read_at = { ptr_at };

    ghost names_at = { own_place };

    /// Reads the name, its pointers followed (RFC 1035, 3.3.12 and 4.1.4).
    ///
    /// # Errors
    ///
    /// The first fault of the name, `InsufficientBytes` or `BadName`; `Memory` if memory runs out.
    #[tactic(auto, unfolding(crate::specs::PTR::ptr_at))]
    fn read(decoder: &mut BinDecoder<'_>) -> Result<PTR, DecodeError> {
        Ok(PTR {
            name: Name::read(decoder)?,
        })
    }
}

impl BinEncodable for PTR {
    ghost word = { λ x. (ptr_kind x).word };

    ghost plain_len = { λ x. (ptr_kind x).plain };

    ghost written = { λ x. (ptr_kind x).written };

    ghost fits = { λ x. (ptr_kind x).kept };

    ghost says = { λ x. (ptr_kind x).says };

    /// Writes the name with compression (RFC 1035, 3.3.12 and 4.1.4).
    ///
    /// # Errors
    ///
    /// `MaxBufferSizeExceeded` where a byte would pass the limit; `Memory` if memory runs out.
    fn emit(&self, encoder: &mut BinEncoder<'_>) -> Result<(), ProtoError> {
        self.name.emit(encoder)
    }
}

impl fmt::Display for PTR {
    ghost output = { λ x. Some (ptr_kind x).text };

    /// The name, as in zone files (RFC 1035, 5.1).
    fn fmt<W: fmt::Write>(&self, f: &mut fmt::Formatter<W>) -> fmt::Result {
        fmt::Display::fmt(&self.name, f)
    }
}

impl TextData for PTR {
    ghost of_items = { ptr_of };

    /// One item, the name (RFC 1035, 5.1).
    #[tactic(auto, unfolding(crate::specs::PTR::ptr_of))]
    fn from_items(alloc: Global, items: &[&str], origin: Option<&Name>) -> Result<PTR, ItemFault> {
        Ok(PTR::new(one_name(alloc, items, origin)?))
    }
}

impl RecordData for PTR {
    ghost as_rdata = { kinds.PTR };

    ghost of_rdata = { ptr_in };

    ghost borrows_back = { λ _. refl };

    ghost keeps_word = { λ _ _ _ _. (λ h. h, λ h. h) };

    ghost keeps_len = { λ _. refl };

    ghost keeps_written = { λ _. refl };

    ghost keeps_text = { λ _. refl };

    ghost keeps_equality = { λ _ _. refl };

    fn try_borrow(rdata: &RData) -> Option<&PTR> {
        match rdata {
            RData::PTR(rdata) => Some(rdata),
            _ => None,
        }
    }

    fn into_rdata(self) -> RData {
        RData::PTR(self)
    }

    fn record_type(&self) -> RecordType {
        RecordType::PTR
    }

    fn is_update(&self) -> bool {
        false
    }
}
