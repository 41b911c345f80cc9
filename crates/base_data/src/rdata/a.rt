//! Addresses of four bytes.

ghost use Rattle.std.specs.Prelude.{◌≡◌, Some, refl, length};
ghost use Rattle.std.specs.Net.Addr.{ipv4_octets};
ghost use Rattle.std.specs.Net.Text.{ipv4_text};
ghost use Rattle.base.specs.Words.{Bytes};
ghost use Rattle.base.specs.writing.SaysParts.{Says-bytes};
ghost use Rattle.base.specs.writing.Written.{just};
ghost use Rattle.base_data.specs.A.{a_at, a_of};
ghost use Rattle.base_data.specs.Kinds.{a_in};
ghost use Rattle.base_data.specs.declared.rdata.RData.TheVariants as kinds;

use crate::rdata::RData;
use crate::rdata::fields::{ItemFault, ipv4_item};
use crate::rdata::items::TextData;
use crate::record_data::RecordData;
use base::{
    BinDecodable, BinDecoder, BinEncodable, BinEncoder, DecodeError, Name, ProtoError, RecordType,
};
use std::alloc::Global;
use std::fmt;
use std::net::Ipv4Addr;

/// An address of a host: four bytes (RFC 1035, 3.4.1).
#[derive(Clone, Copy, Debug, PartialEq, Eq)]
pub struct A {
    /// The bytes of the address, in the order of the wire.
    pub octets: [u8; 4],
}

impl A {
    /// The data of this address.
    pub fn new(address: Ipv4Addr) -> A
        ensures { result.octets ≡ ipv4_octets address }
    {
        A {
            octets: address.octets(),
        }
    }

    /// The address.
    pub fn address(&self) -> Ipv4Addr
        ensures { ipv4_octets result ≡ self.now.octets }
    {
        Ipv4Addr::from_octets(self.octets)
    }
}

impl fmt::Display for A {
    ghost output = { λ a. Some (ipv4_text a.octets) };

    /// Four decimal numbers with dots between them (RFC 1035, 3.4.1).
    fn fmt<W: fmt::Write>(&self, f: &mut fmt::Formatter<W>) -> fmt::Result {
        write!(f, "{}", self.address())
    }
}

impl BinEncodable for A {
    ghost word = { λ a. Bytes a.octets };

    ghost plain_len = { λ a. length a.octets };

    ghost written = { λ a. just a.octets };

    ghost fits = { λ _. Unit {0} };

    ghost says = { λ a. Says-bytes a.octets };

    /// Writes the four bytes (RFC 1035, 3.4.1).
    ///
    /// # Errors
    ///
    /// `MaxBufferSizeExceeded` where a byte would pass the limit; `Memory` if memory runs out.
    fn emit(&self, encoder: &mut BinEncoder<'_>) -> Result<(), ProtoError> {
        encoder.emit_slice(&self.octets)
    }
}

impl BinDecodable for A {
    ghost read_at = { a_at };

    /// Reads four bytes.
    ///
    /// # Errors
    ///
    /// `InsufficientBytes` where fewer are left.
    fn read(decoder: &mut BinDecoder<'_>) -> Result<A, DecodeError> {
        Ok(A {
            octets: decoder.read_array()?,
        })
    }
}

impl TextData for A {
    ghost of_items = { λ items _. a_of items };

    /// One item, the address in dotted decimal (RFC 1035, 3.4.1).
    #[tactic(auto, unfolding(crate::specs::A::a_of))]
    fn from_items(_alloc: Global, items: &[&str], _origin: Option<&Name>) -> Result<A, ItemFault> {
        let [address] = items else {
            return Err(ItemFault::Bad);
        };
        Ok(A::new(ipv4_item(address)?))
    }
}

impl RecordData for A {
    ghost as_rdata = { kinds.A };

    ghost of_rdata = { a_in };

    ghost borrows_back = { λ _. refl };

    ghost keeps_word = { λ _ _ _ _. (λ h. h, λ h. h) };

    ghost keeps_len = { λ _. refl };

    ghost keeps_written = { λ _. refl };

    ghost keeps_text = { λ _. refl };

    ghost keeps_equality = { λ _ _. refl };

    fn try_borrow(rdata: &RData) -> Option<&A> {
        match rdata {
            RData::A(rdata) => Some(rdata),
            _ => None,
        }
    }

    fn into_rdata(self) -> RData {
        RData::A(self)
    }

    fn record_type(&self) -> RecordType {
        RecordType::A
    }

    fn is_update(&self) -> bool {
        false
    }
}
