//! Hosts that have a service.

ghost use Rattle.std.specs.Prelude.{◌≡◌, Some, refl};
ghost use Rattle.base_data.specs.SRV.{SRVFits, SRVWord, plain_srv, srv_at, srv_kind, srv_numbers, srv_of, srv_places, srv_text};
ghost use Rattle.base_data.specs.Kinds.{srv_in};
ghost use Rattle.base_data.specs.declared.rdata.RData.TheVariants as kinds;

use crate::rdata::RData;
use crate::rdata::fields::{ItemFault, name_item, u16_item};
use crate::rdata::items::TextData;
use crate::record_data::RecordData;
use base::{
    BinDecodable, BinDecoder, BinEncodable, BinEncoder, DecodeError, Name, ProtoError, RecordType,
};
use std::alloc::{AllocError, Global};
use std::fmt;

/// A host that has a service (RFC 2782).
#[derive(Debug, Drop, PartialEq, Eq)]
pub struct SRV {
    /// The priority: hosts with a lower one are tried first.
    pub priority: u16,
    /// The share among hosts of one priority.
    pub weight: u16,
    /// The port of the service.
    pub port: u16,
    /// The name of the host.
    pub target: Name,
}

impl SRV {
    /// The data of these fields.
    pub fn new(priority: u16, weight: u16, port: u16, target: Name) -> SRV
        ensures { result
            ≡ record { priority = priority; weight = weight; port = port; target = target } }
    {
        SRV {
            priority,
            weight,
            port,
            target,
        }
    }

    /// The priority: hosts with a lower one are tried first (RFC 2782).
    pub fn priority(&self) -> u16
        ensures { result ≡ self.now.priority }
    {
        self.priority
    }

    /// The share among hosts of one priority.
    pub fn weight(&self) -> u16
        ensures { result ≡ self.now.weight }
    {
        self.weight
    }

    /// The port of the service.
    pub fn port(&self) -> u16
        ensures { result ≡ self.now.port }
    {
        self.port
    }

    /// The name of the host.
    pub fn target(&self) -> &Name
        ensures { result.now ≡ self.now.target }
    {
        &self.target
    }
}

impl Clone for SRV {
    ghost is_clone = { λ a b. b ≡ a };

    fn clone(&self) -> Result<SRV, AllocError> {
        Ok(SRV {
            priority: self.priority,
            weight: self.weight,
            port: self.port,
            target: self.target.clone()?,
        })
    }
}

impl BinDecodable for SRV {
    ghost read_at = { srv_at };

    ghost names_at = { srv_places };

    /// Reads the fields one after another, names with their pointers followed (RFC 2782; RFC 1035, 4.1.4).
    ///
    /// # Errors
    ///
    /// The first fault, `InsufficientBytes` or `BadName`; `Memory` if memory runs out.
    #[tactic(auto, unfolding(crate::specs::SRV::srv_at))]
    fn read(decoder: &mut BinDecoder<'_>) -> Result<SRV, DecodeError> {
        Ok(SRV {
            priority: decoder.read_u16()?,
            weight: decoder.read_u16()?,
            port: decoder.read_u16()?,
            target: Name::read(decoder)?,
        })
    }
}

impl BinEncodable for SRV {
    ghost word = { SRVWord };

    ghost plain_len = { plain_srv };

    ghost written = { λ x. (srv_kind x).written };

    ghost fits = { λ x. (srv_kind x).kept };

    ghost says = { λ x. (srv_kind x).says };

    /// Writes the fields one after another, the name without compression (RFC 2782; RFC 3597, 4).
    ///
    /// # Errors
    ///
    /// `MaxBufferSizeExceeded` where a byte would pass the limit; `Memory` if memory runs out.
    #[tactic(auto, using(base::proofs::writing::LawLemmas::writing))]
    fn emit(&self, encoder: &mut BinEncoder<'_>) -> Result<(), ProtoError> {
        encoder.emit_slice(&self.number_octets())?;
        self.target.emit_plain(encoder)
    }
}

impl SRV {
    /// The numbers as they are written, the high byte of each first.
    pub(crate) fn number_octets(&self) -> [u8; 6]
        ensures bytes { result ≡ srv_numbers self.now }
        // Each of the numbers is below 2^16.
        ensures fits { SRVFits self.now }
    {
        let &SRV {
            priority,
            weight,
            port,
            ..
        } = self;
        let [a, b] = priority.to_be_bytes();
        let [c, d] = weight.to_be_bytes();
        let [e, f] = port.to_be_bytes();
        [a, b, c, d, e, f]
    }
}

impl fmt::Display for SRV {
    ghost output = { λ x. Some (srv_text x) };

    /// The fields as in zone files, with a space between each two (RFC 1035, 5.1).
    fn fmt<W: fmt::Write>(&self, f: &mut fmt::Formatter<W>) -> fmt::Result {
        write!(
            f,
            "{} {} {} {}",
            self.priority, self.weight, self.port, self.target
        )
    }
}

impl TextData for SRV {
    ghost of_items = { srv_of };

    /// Four items: priority, weight, port and target (RFC 2782).
    #[tactic(auto, unfolding(crate::specs::SRV::srv_of))]
    fn from_items(alloc: Global, items: &[&str], origin: Option<&Name>) -> Result<SRV, ItemFault> {
        let [priority, weight, port, target] = items else {
            return Err(ItemFault::Bad);
        };
        Ok(SRV {
            priority: u16_item(priority)?,
            weight: u16_item(weight)?,
            port: u16_item(port)?,
            target: name_item(alloc, target, origin)?,
        })
    }
}

impl RecordData for SRV {
    ghost as_rdata = { kinds.SRV };

    ghost of_rdata = { srv_in };

    ghost borrows_back = { λ _. refl };

    ghost keeps_word = { λ _ _ _ _. (λ h. h, λ h. h) };

    ghost keeps_len = { λ _. refl };

    ghost keeps_written = { λ _. refl };

    ghost keeps_text = { λ _. refl };

    ghost keeps_equality = { λ _ _. refl };

    fn try_borrow(rdata: &RData) -> Option<&SRV> {
        match rdata {
            RData::SRV(rdata) => Some(rdata),
            _ => None,
        }
    }

    fn into_rdata(self) -> RData {
        RData::SRV(self)
    }

    fn record_type(&self) -> RecordType {
        RecordType::SRV
    }

    fn is_update(&self) -> bool {
        false
    }
}
