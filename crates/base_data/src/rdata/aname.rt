//! Names that lend their addresses to the owner (ANAME).

ghost use Rattle.std.specs.Prelude.{◌≡◌, Some, refl};
ghost use Rattle.base_data.specs.ANAME.{aname_at, aname_kind, aname_of};
ghost use Rattle.base_data.specs.Kinds.{aname_in};
ghost use Rattle.base_data.specs.OneName.{own_place};
ghost use Rattle.base_data.specs.declared.rdata.RData.TheVariants as kinds;

use crate::rdata::RData;
use crate::rdata::fields::{ItemFault, one_name};
use crate::rdata::items::TextData;
use crate::record_data::RecordData;
use base::{
    BinDecodable, BinDecoder, BinEncodable, BinEncoder, DecodeError, Name, ProtoError, RecordType,
};
use std::alloc::{AllocError, Global};
use std::fmt;

/// The name whose addresses a name has too.
#[derive(Debug, Drop, PartialEq, Eq)]
pub struct ANAME {
    /// The name that has the addresses.
    pub name: Name,
}

impl ANAME {
    /// The data of this name.
    pub fn new(name: Name) -> ANAME
        ensures { result ≡ record { name = name } }
    {
        ANAME { name }
    }

    /// The name that has the addresses.
    pub fn name(&self) -> &Name
        ensures { result.now ≡ self.now.name }
    {
        &self.name
    }
}

impl Clone for ANAME {
    ghost is_clone = { λ a b. b ≡ a };

    fn clone(&self) -> Result<ANAME, AllocError> {
        Ok(ANAME {
            name: self.name.clone()?,
        })
    }
}

impl BinDecodable for ANAME {
    ghost read_at = { aname_at };

    ghost names_at = { own_place };

    /// Reads the name, its pointers followed (RFC 1035, 4.1.4).
    ///
    /// # Errors
    ///
    /// The first fault of the name, `InsufficientBytes` or `BadName`; `Memory` if memory runs out.
    #[tactic(auto, unfolding(crate::specs::ANAME::aname_at))]
    fn read(decoder: &mut BinDecoder<'_>) -> Result<ANAME, DecodeError> {
        Ok(ANAME {
            name: Name::read(decoder)?,
        })
    }
}

impl BinEncodable for ANAME {
    ghost word = { λ x. (aname_kind x).word };

    ghost plain_len = { λ x. (aname_kind x).plain };

    ghost written = { λ x. (aname_kind x).written };

    ghost fits = { λ x. (aname_kind x).kept };

    ghost says = { λ x. (aname_kind x).says };

    /// Writes the name without compression (RFC 3597, 4).
    ///
    /// # Errors
    ///
    /// `MaxBufferSizeExceeded` where a byte would pass the limit; `Memory` if memory runs out.
    fn emit(&self, encoder: &mut BinEncoder<'_>) -> Result<(), ProtoError> {
        self.name.emit_plain(encoder)
    }
}

impl fmt::Display for ANAME {
    ghost output = { λ x. Some (aname_kind x).text };

    /// The name, as in zone files (RFC 1035, 5.1).
    fn fmt<W: fmt::Write>(&self, f: &mut fmt::Formatter<W>) -> fmt::Result {
        fmt::Display::fmt(&self.name, f)
    }
}

impl TextData for ANAME {
    ghost of_items = { aname_of };

    /// One item, the name (RFC 1035, 5.1).
    #[tactic(auto, unfolding(crate::specs::ANAME::aname_of))]
    fn from_items(
        alloc: Global,
        items: &[&str],
        origin: Option<&Name>,
    ) -> Result<ANAME, ItemFault> {
        Ok(ANAME::new(one_name(alloc, items, origin)?))
    }
}

impl RecordData for ANAME {
    ghost as_rdata = { kinds.ANAME };

    ghost of_rdata = { aname_in };

    ghost borrows_back = { λ _. refl };

    ghost keeps_word = { λ _ _ _ _. (λ h. h, λ h. h) };

    ghost keeps_len = { λ _. refl };

    ghost keeps_written = { λ _. refl };

    ghost keeps_text = { λ _. refl };

    ghost keeps_equality = { λ _ _. refl };

    fn try_borrow(rdata: &RData) -> Option<&ANAME> {
        match rdata {
            RData::ANAME(rdata) => Some(rdata),
            _ => None,
        }
    }

    fn into_rdata(self) -> RData {
        RData::ANAME(self)
    }

    fn record_type(&self) -> RecordType {
        RecordType::ANAME
    }

    fn is_update(&self) -> bool {
        false
    }
}
