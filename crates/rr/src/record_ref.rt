//! Records whose data is known to be of a kind, borrowed.

ghost use Rattle.std.specs.Prelude.{◌≡◌, Some, None, option_map, IfOk, MatchResult};
ghost use Rattle.base.specs.writing.Wire.{IsMemory};
ghost use Rattle.base_data.specs.Kinds.{type_of_data};
ghost use Rattle.rr.specs.Record.{holding};
ghost use Rattle.rr.specs.RecordRef.{seen};

use crate::record::Record;
use base::{DNSClass, Name, ProtoError, RecordType};
use base_data::{RData, RecordData};
use std::alloc::AllocError;

/// A record whose data is of the kind `R`, borrowed from a record of any data.
#[derive(Drop)]
pub struct RecordRef<'a, R: RecordData> {
    name: &'a Name,
    dns_class: DNSClass,
    ttl: u32,
    rdata: &'a R,
    mdns_cache_flush: bool,
}

impl<'a, R: RecordData> RecordRef<'a, R> {
    /// The record itself, with a copy of its name and data.
    ///
    /// # Errors
    ///
    /// `Memory` if memory runs out.
    pub fn to_owned(&self) -> Result<Record<R>, ProtoError>
        ensures ok { IfOk result (λ r. R.is_clone (seen self.now).rdata r.rdata
            × (r ≡ holding r.rdata (seen self.now))) }
        // A refusal is `Memory`.
        ensures memory { IsMemory result }
    {
        Ok(Record {
            name: self.name.clone()?,
            dns_class: self.dns_class,
            ttl: self.ttl,
            rdata: self.rdata.clone()?,
            mdns_cache_flush: self.mdns_cache_flush,
        })
    }

    /// The owner.
    pub fn name(&self) -> &'a Name
        ensures { result.now ≡ (seen self.now).name }
    {
        self.name
    }

    /// The type of the data.
    pub fn record_type(&self) -> RecordType
        ensures { result ≡ type_of_data (R.as_rdata (seen self.now).rdata) }
    {
        self.rdata.record_type()
    }

    /// CLASS.
    pub fn dns_class(&self) -> DNSClass
        ensures { result ≡ (seen self.now).dns_class }
    {
        self.dns_class
    }

    /// TTL.
    pub fn ttl(&self) -> u32
        ensures { result ≡ (seen self.now).ttl }
    {
        self.ttl
    }

    /// The data.
    pub fn data(&self) -> &'a R
        ensures { result.now ≡ (seen self.now).rdata }
    {
        self.rdata
    }

    /// The top bit of the class field: older records of the name may be dropped (RFC 6762, 10.2).
    pub fn mdns_cache_flush(&self) -> bool
        ensures { result ≡ (seen self.now).mdns_cache_flush }
    {
        self.mdns_cache_flush
    }
}

impl<'a, R: RecordData> Clone for RecordRef<'a, R> {
    ghost is_clone = { λ a b. b ≡ a };

    ghost is_infallible = { λ _. Unit {0} };

    fn clone(&self) -> Result<RecordRef<'a, R>, AllocError> {
        Ok(*self)
    }
}

impl<'a, R: RecordData> Copy for RecordRef<'a, R> {}

impl<'a, R: RecordData> TryFrom<&'a Record<RData>> for RecordRef<'a, R> {
    type Error = &'a Record<RData>;

    ghost try_from_gives = { λ entry result. MatchResult result
        (λ r. option_map (λ rdata. holding rdata entry.now) (R.of_rdata entry.now.rdata)
        ≡ Some (seen r))
        (λ same. (same ≡ entry) × (R.of_rdata entry.now.rdata ≡ None)) };

    /// The record, borrowed, if its data is of the kind. Else the record itself is the error.
    fn try_from(entry: &'a Record<RData>) -> Result<RecordRef<'a, R>, &'a Record<RData>> {
        match R::try_borrow(&entry.rdata) {
            Some(rdata) => Ok(RecordRef {
                name: &entry.name,
                dns_class: entry.dns_class,
                ttl: entry.ttl,
                rdata,
                mdns_cache_flush: entry.mdns_cache_flush,
            }),
            None => Err(entry),
        }
    }
}
