//! The records that are answered of what a zone has: of the owner that was asked for, with the least TTL of their set
//! (RFC 2181, 5.2).

ghost use Rattle.authority.specs.Answer.{as_negative, end_like as the_end, capped_ttl as the_capped_ttl};
ghost use Rattle.authority.specs.Found.{alias_of, answered};
ghost use Rattle.authority.specs.Lookup.{least_ttl as the_least, shown};
ghost use Rattle.op_use.specs.NamedChanges.{datum_of};
ghost use Rattle.std.specs.List.{flat_map};
ghost use Rattle.std.specs.Prelude.{IfOk, IsOkUnless, OnOk, [], false, map, ◌++◌, ◌∷◌, ◌≡◌};

use base::{DNSClass, Name, ProtoError};
use base_data::{CNAME, RData};
use rr::{Record, RecordSet};
use std::alloc::{AllocError, Global};

/// The least TTL of the records that have a place in an answer (RFC 2181, 5.2); 0 where none has.
pub(crate) fn least_ttl(records: &[Record]) -> u32
    ensures { result ≡ the_least (shown (map datum_of records.now)) }
{
    let mut least: Option<u32> = None;
    for record in records {
        if record.rdata.is_update() {
            continue;
        }
        least = match least {
            Some(ttl) => Some(ttl.min(record.ttl)),
            None => Some(record.ttl),
        };
    }
    least.unwrap_or(0)
}

/// A record of this owner, class and TTL.
pub(crate) fn record_of(
    owner: &Name,
    class: DNSClass,
    ttl: u32,
    rdata: &RData,
) -> Result<Record, AllocError>
    ensures { IfOk result (λ r. r
        ≡ record {
          name = owner.now;
          dns_class = class;
          ttl = ttl;
          rdata = rdata.now;
          mdns_cache_flush = false;
        }) }
{
    Ok(Record {
        name: owner.clone()?,
        dns_class: class,
        ttl,
        rdata: rdata.clone()?,
        mdns_cache_flush: false,
    })
}

/// Adds the records that are answered of a set.
pub(crate) fn add_answered(
    records: &mut Vec<Record>,
    owner: &Name,
    class: DNSClass,
    set: &RecordSet,
) -> Result<(), AllocError>
    ensures { OnOk result
        (records.new.items ≡ records.old.items ++ answered class owner.now set.now) }
{
    let entries = set.as_slice();
    let ttl = least_ttl(entries);
    for entry in entries {
        if entry.rdata.is_update() {
            continue;
        }
        let answer = record_of(owner, class, ttl, &entry.rdata)?;
        records.push(answer)?;
    }
    Ok(())
}

/// Adds the records that are answered of sets.
pub(crate) fn add_all(
    records: &mut Vec<Record>,
    owner: &Name,
    class: DNSClass,
    sets: &[&RecordSet],
) -> Result<(), AllocError>
    ensures { OnOk result (records.new.items
        ≡ records.old.items ++ flat_map (λ s. answered class owner.now s.now) sets.now) }
{
    for set in sets {
        add_answered(records, owner, class, set)?;
    }
    Ok(())
}

/// Adds the record of the alias that stands first in a set and leads to this name.
pub(crate) fn add_alias(
    records: &mut Vec<Record>,
    owner: &Name,
    class: DNSClass,
    set: &RecordSet,
    target: &Name,
) -> Result<(), AllocError>
    ensures { OnOk result (records.new.items
        ≡ records.old.items ++ alias_of class owner.now set.now target.now ∷ []) }
{
    let alias = Record {
        name: owner.clone()?,
        dns_class: class,
        ttl: least_ttl(set.as_slice()),
        rdata: RData::CNAME(CNAME::new(target.clone()?)),
        mdns_cache_flush: false,
    };
    Ok(records.push(alias)?)
}

/// The TTL of data in a negative answer: that of an SOA is no more than its MINIMUM (RFC 2308, 3 and 5).
fn capped_ttl(rdata: &RData, ttl: u32) -> u32
    ensures { result ≡ the_capped_ttl rdata.now ttl }
{
    match rdata {
        RData::SOA(soa) => ttl.min(soa.minimum()),
        _ => ttl,
    }
}

/// The records with the TTLs of a negative answer.
fn with_capped_ttls(mut records: Vec<Record>) -> Vec<Record>
    ensures { result.items ≡ map as_negative records.items }
{
    for record in records.iter_mut() {
        record.ttl = capped_ttl(&record.rdata, record.ttl);
    }
    records
}

/// The records that a set gives for a negative answer (RFC 2308, 3).
pub(crate) fn negative_records(
    alloc: Global,
    owner: &Name,
    class: DNSClass,
    set: &RecordSet,
) -> Result<Vec<Record>, AllocError>
    ensures { IfOk result (λ v. v.items ≡ map as_negative (answered class owner.now set.now)) }
{
    let mut records = Vec::new(alloc);
    add_answered(&mut records, owner, class, set)?;
    Ok(with_capped_ttls(records))
}

/// The end of a name that has as many labels as another.
pub(crate) fn end_like(other: &Name, name: &Name) -> Result<Name, ProtoError>
    ensures value { IfOk result (λ n. n ≡ the_end other.now name.now) }
    ensures only { IsOkUnless result ProtoError.Memory }
{
    let mut end = name.clone()?;
    while other.label_count() < end.label_count() {
        end = end.base_name()?;
    }
    Ok(end)
}
