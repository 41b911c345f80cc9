//! Mail exchangers.

ghost use Rattle.std.specs.Prelude.{◌≡◌, Some, refl};
ghost use Rattle.base_data.specs.MX.{MXWord, mx_at, mx_kind, mx_of, mx_places, mx_text, plain_mx};
ghost use Rattle.base_data.specs.Kinds.{mx_in};
ghost use Rattle.base_data.specs.declared.rdata.RData.TheVariants as kinds;

use crate::rdata::RData;
use crate::rdata::fields::{ItemFault, name_item, u16_item};
use crate::rdata::items::TextData;
use crate::record_data::RecordData;
use base::{
    BinDecodable, BinDecoder, BinEncodable, BinEncoder, DecodeError, Name, ProtoError, RecordType,
};
use std::alloc::{AllocError, Global};
use std::fmt;

/// A host that takes mail (RFC 1035, 3.3.9).
#[derive(Debug, Drop, PartialEq, Eq)]
pub struct MX {
    /// The preference: hosts with a lower one are tried first.
    pub preference: u16,
    /// The name of the host.
    pub exchange: Name,
}

impl MX {
    /// The data of these fields.
    pub fn new(preference: u16, exchange: Name) -> MX
        ensures { result ≡ record { preference = preference; exchange = exchange } }
    {
        MX {
            preference,
            exchange,
        }
    }

    /// The preference: hosts with a lower one are tried first (RFC 1035, 3.3.9).
    pub fn preference(&self) -> u16
        ensures { result ≡ self.now.preference }
    {
        self.preference
    }

    /// The name of the host.
    pub fn exchange(&self) -> &Name
        ensures { result.now ≡ self.now.exchange }
    {
        &self.exchange
    }

    /// The name of the data, as of the kinds that are one name: that of the host.
    pub fn name(&self) -> &Name
        ensures { result.now ≡ self.now.exchange }
    {
        &self.exchange
    }
}

impl Clone for MX {
    ghost is_clone = { λ a b. b ≡ a };

    fn clone(&self) -> Result<MX, AllocError> {
        Ok(MX {
            preference: self.preference,
            exchange: self.exchange.clone()?,
        })
    }
}

impl BinDecodable for MX {
    ghost read_at = { mx_at };

    ghost names_at = { mx_places };

    /// Reads the fields one after another, names with their pointers followed (RFC 1035, 3.3.9 and 4.1.4).
    ///
    /// # Errors
    ///
    /// The first fault, `InsufficientBytes` or `BadName`; `Memory` if memory runs out.
    #[tactic(auto, using(base::proofs::reading::TrackLemmas::tracked_then), unfolding(crate::specs::MX::mx_at))]
    fn read(decoder: &mut BinDecoder<'_>) -> Result<MX, DecodeError> {
        Ok(MX {
            preference: decoder.read_u16()?,
            exchange: Name::read(decoder)?,
        })
    }
}

impl BinEncodable for MX {
    ghost word = { MXWord };

    ghost plain_len = { plain_mx };

    ghost written = { λ x. (mx_kind x).written };

    ghost fits = { λ x. (mx_kind x).kept };

    ghost says = { λ x. (mx_kind x).says };

    /// Writes the fields one after another, names with compression (RFC 1035, 3.3.9 and 4.1.4).
    ///
    /// # Errors
    ///
    /// `MaxBufferSizeExceeded` where a byte would pass the limit; `Memory` if memory runs out.
    #[tactic(auto, using(base::proofs::writing::LawLemmas::writing))]
    fn emit(&self, encoder: &mut BinEncoder<'_>) -> Result<(), ProtoError> {
        encoder.emit_u16(self.preference)?;
        self.exchange.emit(encoder)
    }
}

impl fmt::Display for MX {
    ghost output = { λ x. Some (mx_text x) };

    /// The fields as in zone files, with a space between each two (RFC 1035, 5.1).
    fn fmt<W: fmt::Write>(&self, f: &mut fmt::Formatter<W>) -> fmt::Result {
        write!(f, "{} {}", self.preference, self.exchange)
    }
}

impl TextData for MX {
    ghost of_items = { mx_of };

    /// Two items, the preference and the name of the host (RFC 1035, 3.3.9 and 5.1).
    #[tactic(auto, unfolding(crate::specs::MX::mx_of))]
    fn from_items(alloc: Global, items: &[&str], origin: Option<&Name>) -> Result<MX, ItemFault> {
        let [preference, exchange] = items else {
            return Err(ItemFault::Bad);
        };
        Ok(MX {
            preference: u16_item(preference)?,
            exchange: name_item(alloc, exchange, origin)?,
        })
    }
}

impl RecordData for MX {
    ghost as_rdata = { kinds.MX };

    ghost of_rdata = { mx_in };

    ghost borrows_back = { λ _. refl };

    ghost keeps_word = { λ _ _ _ _. (λ h. h, λ h. h) };

    ghost keeps_len = { λ _. refl };

    ghost keeps_written = { λ _. refl };

    ghost keeps_text = { λ _. refl };

    ghost keeps_equality = { λ _ _. refl };

    fn try_borrow(rdata: &RData) -> Option<&MX> {
        match rdata {
            RData::MX(rdata) => Some(rdata),
            _ => None,
        }
    }

    fn into_rdata(self) -> RData {
        RData::MX(self)
    }

    fn record_type(&self) -> RecordType {
        RecordType::MX
    }

    fn is_update(&self) -> bool {
        false
    }
}
