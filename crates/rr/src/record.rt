//! Records of any data (RFC 1035, 3.2.1).

ghost use Rattle.std.specs.Prelude.{◌≡◌, Option, option_map, false};
ghost use Rattle.base_data.specs.Kinds.{type_of_data};
ghost use Rattle.base_data.specs.declared.rdata.RData.TheVariants as kinds;
ghost use Rattle.rr.specs.Record.{decremented, holding, with_data};
ghost use Rattle.rr.specs.RecordRef.{seen};

mod compare;
mod display;
mod fits_wire;
pub mod laws;
mod reading;
mod writing;

pub use crate::record_ref::RecordRef;
use base::{DNSClass, Name, RecordType};
use base_data::{RData, RecordData};
use std::alloc::AllocError;

/// A record: data of a name (RFC 1035, 3.2.1). `Record` alone is the record of any data.
#[derive(Debug, Drop)]
pub struct Record<R: RecordData = RData> {
    /// The owner: the name that has the data.
    pub name: Name,
    /// CLASS.
    pub dns_class: DNSClass,
    /// TTL: for how many seconds the record may be kept.
    pub ttl: u32,
    /// RDATA, with its type.
    pub rdata: R,
    /// The top bit of the class field: older records of the name may be dropped (RFC 6762, 10.2).
    pub mdns_cache_flush: bool,
}

impl Record<RData> {
    /// The record of empty data of a type, in the class IN, as updates have it (RFC 2136, 2.4). Takes no memory.
    pub fn update0(name: Name, ttl: u32, record_type: RecordType) -> Record<RData>
        ensures { result
            ≡ record {
              name = name;
              dns_class = DNSClass.IN;
              ttl = ttl;
              rdata = kinds.Update0 record_type;
              mdns_cache_flush = false;
            } }
    {
        Record::from_rdata(name, ttl, RData::Update0(record_type))
    }

    /// The record borrowed as one whose data is of the kind `T`, if it is.
    pub fn try_borrow<'a, T: RecordData>(&'a self) -> Option<RecordRef<'a, T>>
        ensures { option_map seen result
            ≡ option_map (λ rdata. holding rdata self.now) (T.of_rdata self.now.rdata) }
    {
        RecordRef::try_from(self).ok()
    }
}

impl<R: RecordData> Record<R> {
    /// The record of this data, in the class IN. Takes no memory.
    pub fn from_rdata(name: Name, ttl: u32, rdata: R) -> Record<R>
        ensures { result
            ≡ record {
              name = name;
              dns_class = DNSClass.IN;
              ttl = ttl;
              rdata = rdata;
              mdns_cache_flush = false;
            } }
    {
        Record {
            name,
            dns_class: DNSClass::IN,
            ttl,
            rdata,
            mdns_cache_flush: false,
        }
    }

    /// The same record, its data as that of any record. Takes no memory.
    pub fn into_record_of_rdata(self) -> Record<RData>
        ensures { result ≡ with_data R.as_rdata self }
    {
        Record {
            name: self.name,
            dns_class: self.dns_class,
            ttl: self.ttl,
            rdata: self.rdata.into_rdata(),
            mdns_cache_flush: self.mdns_cache_flush,
        }
    }

    /// The record with what the closure makes of its data, or none where the closure makes none. The other fields
    /// stay.
    pub fn map<N: RecordData, F: FnOnce(R) -> Option<N>>(self, make: F) -> Option<Record<N>>
        requires { F.pre make self.rdata }
        ensures { (made : Option N) × F.post make self.rdata made
            × (result ≡ option_map (λ rdata. holding rdata self) made) }
    {
        let rdata = make(self.rdata)?;
        Some(Record {
            name: self.name,
            dns_class: self.dns_class,
            ttl: self.ttl,
            rdata,
            mdns_cache_flush: self.mdns_cache_flush,
        })
    }

    /// Takes seconds off the TTL, down to 0. The other fields stay.
    pub fn decrement_ttl(&mut self, offset: u32) -> &mut Record<R>
        // The reference that is answered is `self` itself.
        ensures same { result.ghost_name ≡ self.entry.ghost_name }
        ensures value { result.now ≡ decremented offset self.old }
    {
        self.ttl = self.ttl.saturating_sub(offset);
        self
    }

    /// The type of the data.
    pub fn record_type(&self) -> RecordType
        ensures { result ≡ type_of_data (R.as_rdata self.now.rdata) }
    {
        self.rdata.record_type()
    }
}

impl<R: RecordData> Clone for Record<R> {
    ghost is_clone = { λ a b. R.is_clone a.rdata b.rdata × (b ≡ record a { rdata = b.rdata }) };

    /// The same record, with a copy of its data.
    ///
    /// # Errors
    ///
    /// If memory runs out.
    fn clone(&self) -> Result<Record<R>, AllocError> {
        Ok(Record {
            name: self.name.clone()?,
            dns_class: self.dns_class,
            ttl: self.ttl,
            rdata: self.rdata.clone()?,
            mdns_cache_flush: self.mdns_cache_flush,
        })
    }
}
