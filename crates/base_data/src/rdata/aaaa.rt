//! Addresses of sixteen bytes.

ghost use Rattle.std.specs.Prelude.{◌≡◌, ◌+◌, ◌++◌, ◌≤◌, ℕ, List, Some, codes, take, drop, refl, length};
ghost use Rattle.std.specs.Net.Addr.{ipv6_octets, ipv6_segments, segments_of};
ghost use Rattle.std.specs.Net.Text.{groups_text};
ghost use Rattle.base.specs.Words.{Bytes};
ghost use Rattle.base.specs.writing.SaysParts.{Says-bytes};
ghost use Rattle.base.specs.writing.Written.{just};
ghost use Rattle.base_data.specs.AAAA.{AreZeros, IsFirstLongest, aaaa_at, aaaa_text, aaaa_of};
ghost use Rattle.base_data.specs.Kinds.{aaaa_in};
ghost use Rattle.base_data.specs.declared.rdata.RData.TheVariants as kinds;

use crate::rdata::RData;
use crate::rdata::fields::{ItemFault, ipv6_item};
use crate::rdata::items::TextData;
use crate::record_data::RecordData;
use base::{
    BinDecodable, BinDecoder, BinEncodable, BinEncoder, DecodeError, Name, ProtoError, RecordType,
};
use std::alloc::Global;
use std::fmt;
use std::net::Ipv6Addr;

/// An address of a host: sixteen bytes (RFC 3596, 2.2).
#[derive(Clone, Copy, Debug, PartialEq, Eq)]
pub struct AAAA {
    /// The bytes of the address, in the order of the wire.
    pub octets: [u8; 16],
}

impl AAAA {
    /// The data of this address.
    pub fn new(address: Ipv6Addr) -> AAAA
        ensures { result.octets ≡ ipv6_octets address }
    {
        AAAA {
            octets: address.octets(),
        }
    }

    /// The address.
    pub fn address(&self) -> Ipv6Addr
        ensures { ipv6_segments result ≡ segments_of self.now.octets }
    {
        Ipv6Addr::from_octets(self.octets)
    }
}

impl fmt::Display for AAAA {
    ghost output = { λ a. Some (aaaa_text a.octets) };

    /// Eight groups in hexadecimal with colons between them, in lower case and without leading zeros. The
    /// first longest run of zero groups, if it has two or more, is written `::`; no part is ever dotted
    /// (RFC 5952, 4).
    fn fmt<W: fmt::Write>(&self, f: &mut fmt::Formatter<W>) -> fmt::Result {
        write!(f, "{}", self.address().hex_groups())
    }
}

impl BinEncodable for AAAA {
    ghost word = { λ a. Bytes a.octets };

    ghost plain_len = { λ a. length a.octets };

    ghost written = { λ a. just a.octets };

    ghost fits = { λ _. Unit {0} };

    ghost says = { λ a. Says-bytes a.octets };

    /// Writes the sixteen bytes (RFC 3596, 2.2).
    ///
    /// # Errors
    ///
    /// `MaxBufferSizeExceeded` where a byte would pass the limit; `Memory` if memory runs out.
    fn emit(&self, encoder: &mut BinEncoder<'_>) -> Result<(), ProtoError> {
        encoder.emit_slice(&self.octets)
    }
}

impl BinDecodable for AAAA {
    ghost read_at = { aaaa_at };

    /// Reads sixteen bytes.
    ///
    /// # Errors
    ///
    /// `InsufficientBytes` where fewer are left.
    fn read(decoder: &mut BinDecoder<'_>) -> Result<AAAA, DecodeError> {
        Ok(AAAA {
            octets: decoder.read_array()?,
        })
    }
}

/// The text of an address has `::` in place of the first of the longest runs of zero groups, if that run has
/// two groups or more; where no two zero groups stand side by side, it has all groups (RFC 5952, 4.2).
pub fn address_text()
    ensures shortened { (octets : List ℕ) (start len : ℕ)
        → IsFirstLongest (segments_of octets) start len → 2 ≤ len
        → aaaa_text octets ≡ groups_text (take start (segments_of octets)) ++ codes "::"
        ++ groups_text (drop (start + len) (segments_of octets)) }
    ensures whole { (octets : List ℕ) → ((start : ℕ) → ¬ AreZeros (segments_of octets) start 2)
        → aaaa_text octets ≡ groups_text (segments_of octets) }
{}

impl TextData for AAAA {
    ghost of_items = { λ items _. aaaa_of items };

    /// One item, the address in groups (RFC 4291, 2.2).
    #[tactic(auto, unfolding(crate::specs::AAAA::aaaa_of))]
    fn from_items(
        _alloc: Global,
        items: &[&str],
        _origin: Option<&Name>,
    ) -> Result<AAAA, ItemFault> {
        let [address] = items else {
            return Err(ItemFault::Bad);
        };
        Ok(AAAA::new(ipv6_item(address)?))
    }
}

impl RecordData for AAAA {
    ghost as_rdata = { kinds.AAAA };

    ghost of_rdata = { aaaa_in };

    ghost borrows_back = { λ _. refl };

    ghost keeps_word = { λ _ _ _ _. (λ h. h, λ h. h) };

    ghost keeps_len = { λ _. refl };

    ghost keeps_written = { λ _. refl };

    ghost keeps_text = { λ _. refl };

    ghost keeps_equality = { λ _ _. refl };

    fn try_borrow(rdata: &RData) -> Option<&AAAA> {
        match rdata {
            RData::AAAA(rdata) => Some(rdata),
            _ => None,
        }
    }

    fn into_rdata(self) -> RData {
        RData::AAAA(self)
    }

    fn record_type(&self) -> RecordType {
        RecordType::AAAA
    }

    fn is_update(&self) -> bool {
        false
    }
}
