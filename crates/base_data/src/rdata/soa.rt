//! The SOA of a zone.

ghost use Rattle.std.specs.Prelude.{◌≡◌, Some, refl};
ghost use Rattle.base_data.specs.SOA.{SOAFits, SOAWord, plain_soa, soa_at, soa_kind, soa_numbers, soa_of, soa_places, soa_text};
ghost use Rattle.base_data.specs.Kinds.{soa_in};
ghost use Rattle.base_data.specs.declared.rdata.RData.TheVariants as kinds;

use crate::rdata::RData;
use crate::rdata::fields::{ItemFault, name_item, ttl_item, u32_item};
use crate::rdata::items::TextData;
use crate::record_data::RecordData;
use base::{
    BinDecodable, BinDecoder, BinEncodable, BinEncoder, DecodeError, Name, ProtoError, RecordType,
};
use std::alloc::{AllocError, Global};
use std::fmt;

/// The SOA of a zone (RFC 1035, 3.3.13).
#[derive(Debug, Drop, PartialEq, Eq)]
pub struct SOA {
    /// The zone's primary server (MNAME).
    pub mname: Name,
    /// The mailbox of the person responsible for the zone (RNAME).
    pub rname: Name,
    /// The version of the zone.
    pub serial: u32,
    /// Seconds until the zone is asked for again.
    pub refresh: u32,
    /// Seconds until a refresh that failed is tried again.
    pub retry: u32,
    /// Seconds after which the zone is no longer held.
    pub expire: u32,
    /// For how many seconds at most a negative answer may be kept (RFC 2308, 4).
    pub minimum: u32,
}

impl SOA {
    /// The data of these fields.
    pub fn new(
        mname: Name,
        rname: Name,
        serial: u32,
        refresh: u32,
        retry: u32,
        expire: u32,
        minimum: u32,
    ) -> SOA
        ensures { result
            ≡ record {
              mname = mname;
              rname = rname;
              serial = serial;
              refresh = refresh;
              retry = retry;
              expire = expire;
              minimum = minimum;
            } }
    {
        SOA {
            mname,
            rname,
            serial,
            refresh,
            retry,
            expire,
            minimum,
        }
    }

    /// The zone's primary server (MNAME).
    pub fn mname(&self) -> &Name
        ensures { result.now ≡ self.now.mname }
    {
        &self.mname
    }

    /// The mailbox of the person responsible for the zone (RNAME).
    pub fn rname(&self) -> &Name
        ensures { result.now ≡ self.now.rname }
    {
        &self.rname
    }

    /// The version of the zone.
    pub fn serial(&self) -> u32
        ensures { result ≡ self.now.serial }
    {
        self.serial
    }

    /// Seconds until the zone is asked for again.
    pub fn refresh(&self) -> u32
        ensures { result ≡ self.now.refresh }
    {
        self.refresh
    }

    /// Seconds until a refresh that failed is tried again.
    pub fn retry(&self) -> u32
        ensures { result ≡ self.now.retry }
    {
        self.retry
    }

    /// Seconds after which the zone is no longer held.
    pub fn expire(&self) -> u32
        ensures { result ≡ self.now.expire }
    {
        self.expire
    }

    /// For how many seconds at most a negative answer may be kept (RFC 2308, 4).
    pub fn minimum(&self) -> u32
        ensures { result ≡ self.now.minimum }
    {
        self.minimum
    }
}

impl Clone for SOA {
    ghost is_clone = { λ a b. b ≡ a };

    fn clone(&self) -> Result<SOA, AllocError> {
        Ok(SOA {
            mname: self.mname.clone()?,
            rname: self.rname.clone()?,
            serial: self.serial,
            refresh: self.refresh,
            retry: self.retry,
            expire: self.expire,
            minimum: self.minimum,
        })
    }
}

impl BinDecodable for SOA {
    ghost read_at = { soa_at };

    ghost names_at = { soa_places };

    /// Reads the fields one after another, names with their pointers followed (RFC 1035, 3.3.13 and 4.1.4).
    ///
    /// # Errors
    ///
    /// The first fault, `InsufficientBytes` or `BadName`; `Memory` if memory runs out.
    #[tactic(auto, unfolding(crate::specs::SOA::soa_at))]
    fn read(decoder: &mut BinDecoder<'_>) -> Result<SOA, DecodeError> {
        Ok(SOA {
            mname: Name::read(decoder)?,
            rname: Name::read(decoder)?,
            serial: decoder.read_u32()?,
            refresh: decoder.read_u32()?,
            retry: decoder.read_u32()?,
            expire: decoder.read_u32()?,
            minimum: decoder.read_u32()?,
        })
    }
}

impl BinEncodable for SOA {
    ghost word = { SOAWord };

    ghost plain_len = { plain_soa };

    ghost written = { λ x. (soa_kind x).written };

    ghost fits = { λ x. (soa_kind x).kept };

    ghost says = { λ x. (soa_kind x).says };

    /// Writes the fields one after another, names with compression (RFC 1035, 3.3.13 and 4.1.4).
    ///
    /// # Errors
    ///
    /// `MaxBufferSizeExceeded` where a byte would pass the limit; `Memory` if memory runs out.
    #[tactic(auto, using(base::proofs::writing::LawLemmas::writing))]
    fn emit(&self, encoder: &mut BinEncoder<'_>) -> Result<(), ProtoError> {
        self.mname.emit(encoder)?;
        self.rname.emit(encoder)?;
        encoder.emit_slice(&self.number_octets())
    }
}

impl SOA {
    /// The version and the times as they are written, the highest byte of each first.
    pub(crate) fn number_octets(&self) -> [u8; 20]
        ensures bytes { result ≡ soa_numbers self.now }
        // Each of the numbers is below 2^32.
        ensures fits { SOAFits self.now }
    {
        let &SOA {
            serial,
            refresh,
            retry,
            expire,
            minimum,
            ..
        } = self;
        let [a, b, c, d] = serial.to_be_bytes();
        let [e, f, g, h] = refresh.to_be_bytes();
        let [i, j, k, l] = retry.to_be_bytes();
        let [m, n, o, p] = expire.to_be_bytes();
        let [q, r, s, t] = minimum.to_be_bytes();
        [a, b, c, d, e, f, g, h, i, j, k, l, m, n, o, p, q, r, s, t]
    }
}

impl fmt::Display for SOA {
    ghost output = { λ x. Some (soa_text x) };

    /// The fields as in zone files, with a space between each two (RFC 1035, 5.1).
    fn fmt<W: fmt::Write>(&self, f: &mut fmt::Formatter<W>) -> fmt::Result {
        write!(
            f,
            "{} {} {} {} {} {} {}",
            self.mname, self.rname, self.serial, self.refresh, self.retry, self.expire, self.minimum
        )
    }
}

impl TextData for SOA {
    ghost of_items = { soa_of };

    /// Seven items: the two names, the serial in decimal, and four times, in seconds or with units (RFC 1035, 3.3.13
    /// and 5.1).
    #[tactic(auto, unfolding(crate::specs::SOA::soa_of))]
    fn from_items(alloc: Global, items: &[&str], origin: Option<&Name>) -> Result<SOA, ItemFault> {
        let [mname, rname, serial, refresh, retry, expire, minimum] = items else {
            return Err(ItemFault::Bad);
        };
        Ok(SOA {
            mname: name_item(alloc, mname, origin)?,
            rname: name_item(alloc, rname, origin)?,
            serial: u32_item(serial)?,
            refresh: ttl_item(refresh)?,
            retry: ttl_item(retry)?,
            expire: ttl_item(expire)?,
            minimum: ttl_item(minimum)?,
        })
    }
}

impl RecordData for SOA {
    ghost as_rdata = { kinds.SOA };

    ghost of_rdata = { soa_in };

    ghost borrows_back = { λ _. refl };

    ghost keeps_word = { λ _ _ _ _. (λ h. h, λ h. h) };

    ghost keeps_len = { λ _. refl };

    ghost keeps_written = { λ _. refl };

    ghost keeps_text = { λ _. refl };

    ghost keeps_equality = { λ _ _. refl };

    fn try_borrow(rdata: &RData) -> Option<&SOA> {
        match rdata {
            RData::SOA(rdata) => Some(rdata),
            _ => None,
        }
    }

    fn into_rdata(self) -> RData {
        RData::SOA(self)
    }

    fn record_type(&self) -> RecordType {
        RecordType::SOA
    }

    fn is_update(&self) -> bool {
        false
    }
}
