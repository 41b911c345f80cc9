//! Authoritative servers.

ghost use Rattle.std.specs.Prelude.{◌≡◌, Some, refl};
ghost use Rattle.base_data.specs.NS.{ns_at, ns_kind, ns_of};
ghost use Rattle.base_data.specs.Kinds.{ns_in};
ghost use Rattle.base_data.specs.OneName.{own_place};
ghost use Rattle.base_data.specs.declared.rdata.RData.TheVariants as kinds;

use crate::rdata::RData;
use crate::rdata::fields::{ItemFault, one_name};
use crate::rdata::items::TextData;
use crate::record_data::RecordData;
use base::{
    BinDecodable, BinDecoder, BinEncodable, BinEncoder, DecodeError, Name, ProtoError, RecordType,
};
use std::alloc::{AllocError, Global};
use std::fmt;

/// An authoritative server of a zone (RFC 1035, 3.3.11).
#[derive(Debug, Drop, PartialEq, Eq)]
pub struct NS {
    /// The name of the server.
    pub name: Name,
}

impl NS {
    /// The data of this name.
    pub fn new(name: Name) -> NS
        ensures { result ≡ record { name = name } }
    {
        NS { name }
    }

    /// The name of the server.
    pub fn name(&self) -> &Name
        ensures { result.now ≡ self.now.name }
    {
        &self.name
    }
}

impl Clone for NS {
    ghost is_clone = { λ a b. b ≡ a };

    fn clone(&self) -> Result<NS, AllocError> {
        Ok(NS {
            name: self.name.clone()?,
        })
    }
}

impl BinDecodable for NS {
    ghost read_at = { ns_at };

    ghost names_at = { own_place };

    /// Reads the name, its pointers followed (RFC 1035, 3.3.11 and 4.1.4).
    ///
    /// # Errors
    ///
    /// The first fault of the name, `InsufficientBytes` or `BadName`; `Memory` if memory runs out.
    #[tactic(auto, unfolding(crate::specs::NS::ns_at))]
    fn read(decoder: &mut BinDecoder<'_>) -> Result<NS, DecodeError> {
        Ok(NS {
            name: Name::read(decoder)?,
        })
    }
}

impl BinEncodable for NS {
    ghost word = { λ x. (ns_kind x).word };

    ghost plain_len = { λ x. (ns_kind x).plain };

    ghost written = { λ x. (ns_kind x).written };

    ghost fits = { λ x. (ns_kind x).kept };

    ghost says = { λ x. (ns_kind x).says };

    /// Writes the name with compression (RFC 1035, 3.3.11 and 4.1.4).
    ///
    /// # Errors
    ///
    /// `MaxBufferSizeExceeded` where a byte would pass the limit; `Memory` if memory runs out.
    fn emit(&self, encoder: &mut BinEncoder<'_>) -> Result<(), ProtoError> {
        self.name.emit(encoder)
    }
}

impl fmt::Display for NS {
    ghost output = { λ x. Some (ns_kind x).text };

    /// The name, as in zone files (RFC 1035, 5.1).
    fn fmt<W: fmt::Write>(&self, f: &mut fmt::Formatter<W>) -> fmt::Result {
        fmt::Display::fmt(&self.name, f)
    }
}

impl TextData for NS {
    ghost of_items = { ns_of };

    /// One item, the name (RFC 1035, 5.1).
    #[tactic(auto, unfolding(crate::specs::NS::ns_of))]
    fn from_items(alloc: Global, items: &[&str], origin: Option<&Name>) -> Result<NS, ItemFault> {
        Ok(NS::new(one_name(alloc, items, origin)?))
    }
}

impl RecordData for NS {
    ghost as_rdata = { kinds.NS };

    ghost of_rdata = { ns_in };

    ghost borrows_back = { λ _. refl };

    ghost keeps_word = { λ _ _ _ _. (λ h. h, λ h. h) };

    ghost keeps_len = { λ _. refl };

    ghost keeps_written = { λ _. refl };

    ghost keeps_text = { λ _. refl };

    ghost keeps_equality = { λ _ _. refl };

    fn try_borrow(rdata: &RData) -> Option<&NS> {
        match rdata {
            RData::NS(rdata) => Some(rdata),
            _ => None,
        }
    }

    fn into_rdata(self) -> RData {
        RData::NS(self)
    }

    fn record_type(&self) -> RecordType {
        RecordType::NS
    }

    fn is_update(&self) -> bool {
        false
    }
}
