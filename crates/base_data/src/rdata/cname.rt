//! Aliases.

ghost use Rattle.std.specs.Prelude.{◌≡◌, Some, refl};
ghost use Rattle.base_data.specs.CNAME.{cname_at, cname_kind, cname_of};
ghost use Rattle.base_data.specs.Kinds.{cname_in};
ghost use Rattle.base_data.specs.OneName.{own_place};
ghost use Rattle.base_data.specs.declared.rdata.RData.TheVariants as kinds;

use crate::rdata::RData;
use crate::rdata::fields::{ItemFault, one_name};
use crate::rdata::items::TextData;
use crate::record_data::RecordData;
use base::{
    BinDecodable, BinDecoder, BinEncodable, BinEncoder, DecodeError, Name, ProtoError, RecordType,
};
use std::alloc::{AllocError, Global};
use std::fmt;

/// The name that an alias stands for (RFC 1035, 3.3.1).
#[derive(Debug, Drop, PartialEq, Eq)]
pub struct CNAME {
    /// The name that the alias stands for.
    pub name: Name,
}

impl CNAME {
    /// The data of this name.
    pub fn new(name: Name) -> CNAME
        ensures { result ≡ record { name = name } }
    {
        CNAME { name }
    }

    /// The name that the alias stands for.
    pub fn name(&self) -> &Name
        ensures { result.now ≡ self.now.name }
    {
        &self.name
    }
}

impl Clone for CNAME {
    ghost is_clone = { λ a b. b ≡ a };

    fn clone(&self) -> Result<CNAME, AllocError> {
        Ok(CNAME {
            name: self.name.clone()?,
        })
    }
}

impl BinDecodable for CNAME {
    ghost read_at = { cname_at };

    ghost names_at = { own_place };

    /// Reads the name, its pointers followed (RFC 1035, 3.3.1 and 4.1.4).
    ///
    /// # Errors
    ///
    /// The first fault of the name, `InsufficientBytes` or `BadName`; `Memory` if memory runs out.
    #[tactic(auto, unfolding(crate::specs::CNAME::cname_at))]
    fn read(decoder: &mut BinDecoder<'_>) -> Result<CNAME, DecodeError> {
        Ok(CNAME {
            name: Name::read(decoder)?,
        })
    }
}

impl BinEncodable for CNAME {
    ghost word = { λ x. (cname_kind x).word };

    ghost plain_len = { λ x. (cname_kind x).plain };

    ghost written = { λ x. (cname_kind x).written };

    ghost fits = { λ x. (cname_kind x).kept };

    ghost says = { λ x. (cname_kind x).says };

    /// Writes the name with compression (RFC 1035, 3.3.1 and 4.1.4).
    ///
    /// # Errors
    ///
    /// `MaxBufferSizeExceeded` where a byte would pass the limit; `Memory` if memory runs out.
    fn emit(&self, encoder: &mut BinEncoder<'_>) -> Result<(), ProtoError> {
        self.name.emit(encoder)
    }
}

impl fmt::Display for CNAME {
    ghost output = { λ x. Some (cname_kind x).text };

    /// The name, as in zone files (RFC 1035, 5.1).
    fn fmt<W: fmt::Write>(&self, f: &mut fmt::Formatter<W>) -> fmt::Result {
        fmt::Display::fmt(&self.name, f)
    }
}

impl TextData for CNAME {
    ghost of_items = { cname_of };

    /// One item, the name (RFC 1035, 5.1).
    #[tactic(auto, unfolding(crate::specs::CNAME::cname_of))]
    fn from_items(
        alloc: Global,
        items: &[&str],
        origin: Option<&Name>,
    ) -> Result<CNAME, ItemFault> {
        Ok(CNAME::new(one_name(alloc, items, origin)?))
    }
}

impl RecordData for CNAME {
    ghost as_rdata = { kinds.CNAME };

    ghost of_rdata = { cname_in };

    ghost borrows_back = { λ _. refl };

    ghost keeps_word = { λ _ _ _ _. (λ h. h, λ h. h) };

    ghost keeps_len = { λ _. refl };

    ghost keeps_written = { λ _. refl };

    ghost keeps_text = { λ _. refl };

    ghost keeps_equality = { λ _ _. refl };

    fn try_borrow(rdata: &RData) -> Option<&CNAME> {
        match rdata {
            RData::CNAME(rdata) => Some(rdata),
            _ => None,
        }
    }

    fn into_rdata(self) -> RData {
        RData::CNAME(self)
    }

    fn record_type(&self) -> RecordType {
        RecordType::CNAME
    }

    fn is_update(&self) -> bool {
        false
    }
}
