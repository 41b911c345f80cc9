//! Additional records: the addresses of the hosts that records name (RFC 1034, 4.3.2, 6).

ghost use Rattle.authority.specs.Answer.{addresses_of, extras, host_in as the_host, is_given as the_given, with_addresses};
ghost use Rattle.authority.specs.Lookup.{records};
ghost use Rattle.authority.specs.ZoneRef.{zone_of};
ghost use Rattle.base.specs.RrKey.{key_of};
ghost use Rattle.std.specs.Option.{option_copied};
ghost use Rattle.std.specs.Prelude.{IfOk, IsOkUnless, OnOk, ◌++◌, ◌≡◌};

use crate::found::{Found, lookup};
use crate::records::{add_all, add_answered};
use crate::sets::set_at;
use crate::zone_ref::ZoneRef;
use base::{Name, ProtoError, RecordType};
use base_data::RData;
use rr::Record;
use std::alloc::AllocError;

/// The host that data of a name server, a mail host or a service names (RFC 1035, 3.3.9 and 3.3.11; RFC 2782).
fn host_in(rdata: &RData) -> Option<&Name>
    ensures { option_copied result ≡ the_host rdata.now }
{
    match rdata {
        RData::NS(server) => Some(server.name()),
        RData::MX(mail) => Some(mail.exchange()),
        RData::SRV(service) => Some(service.target()),
        _ => None,
    }
}

/// Whether a record of a name and a type stands among others.
fn is_given(records: &[Record], name: &Name, record_type: RecordType) -> bool
    ensures { result ≡ the_given records.now name.now record_type }
{
    for record in records {
        if record.name == *name && record.record_type() == record_type {
            return true;
        }
    }
    false
}

/// Adds the records of a host and a type that the zone has below a cut.
fn add_glue(
    zone: &ZoneRef<'_>,
    host: &Name,
    record_type: RecordType,
    additionals: &mut Vec<Record>,
) -> Result<(), AllocError>
    ensures { OnOk result (additionals.new.items
        ≡ additionals.old.items
        ++ records (zone_of zone.now) host.now (key_of host.now record_type)) }
{
    match set_at(zone.sets, host, record_type)? {
        Some(set) => add_answered(additionals, host, zone.class, set),
        None => Ok(()),
    }
}

/// Adds the addresses of a type that a host has, as they are found; below a cut glue alone (RFC 1034, 4.3.2, 3b).
fn add_addresses(
    zone: &ZoneRef<'_>,
    is_referral: bool,
    host: &Name,
    record_type: RecordType,
    additionals: &mut Vec<Record>,
) -> Result<(), ProtoError>
    ensures added { OnOk result (additionals.new.items
        ≡ additionals.old.items ++ addresses_of (zone_of zone.now) is_referral record_type host.now) }
    ensures only { IsOkUnless result ProtoError.Memory }
{
    let added = match lookup(zone.alloc, zone.sets, zone.origin, host, record_type)? {
        Found::Cut(_) if is_referral => add_glue(zone, host, record_type, additionals),
        Found::Data(set) => add_answered(additionals, host, zone.class, set),
        Found::All(sets) => add_all(additionals, host, zone.class, &sets),
        _ => Ok(()),
    };
    Ok(added?)
}

/// Adds the addresses of a type that a host has, unless they stand there or among the answers or the authorities.
fn add_new(
    zone: &ZoneRef<'_>,
    is_referral: bool,
    answers: &[Record],
    records: &[Record],
    host: &Name,
    record_type: RecordType,
    additionals: &mut Vec<Record>,
) -> Result<(), ProtoError>
    ensures added { OnOk result (additionals.new.items
        ≡ with_addresses (zone_of zone.now) is_referral (answers.now ++ records.now) record_type
        additionals.old.items host.now) }
    ensures only { IsOkUnless result ProtoError.Memory }
{
    if is_given(answers, host, record_type)
        || is_given(records, host, record_type)
        || is_given(additionals, host, record_type)
    {
        return Ok(());
    }
    add_addresses(zone, is_referral, host, record_type, additionals)
}

/// The addresses of the hosts that records name, each set once, and none that stands among these records or the answers
/// before them. Those below a cut are glue, which a referral alone has (RFC 9471).
pub(crate) fn additionals(
    zone: &ZoneRef<'_>,
    is_referral: bool,
    answers: &[Record],
    records: &[Record],
) -> Result<Vec<Record>, ProtoError>
    ensures added { IfOk result (λ v. v.items
        ≡ extras (zone_of zone.now) is_referral (answers.now ++ records.now) records.now) }
    ensures only { IsOkUnless result ProtoError.Memory }
{
    let mut additionals = Vec::new(zone.alloc);
    for record in records {
        let Some(host) = host_in(&record.rdata) else {
            continue;
        };
        let v4 = RecordType::A;
        add_new(
            zone,
            is_referral,
            answers,
            records,
            host,
            v4,
            &mut additionals,
        )?;
        let v6 = RecordType::AAAA;
        add_new(
            zone,
            is_referral,
            answers,
            records,
            host,
            v6,
            &mut additionals,
        )?;
    }
    Ok(additionals)
}
