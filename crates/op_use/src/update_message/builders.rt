//! Builders of updates, and of the question for a transfer (RFC 2136, 2; RFC 1995; RFC 5936).

ghost use Rattle.std.specs.Prelude.{◌≡◌, IfOk, IsOkUnless, map, true};
ghost use Rattle.base.specs.names.NameOrder.{is_zone_of};
ghost use Rattle.base.specs.declared.dns_class.DNSClass.TheVariants as classes;
ghost use Rattle.base_data.specs.Kinds.{type_of_data};
ghost use Rattle.op.specs.Edns.{new_edns};
ghost use Rattle.op.specs.Fits.{Fits};
ghost use Rattle.op.specs.Message.{message_value};
ghost use Rattle.op_use.specs.SoundSet.{IsSendable, IsSendableKey, IsSendableOwner, IsSendableSoa};
ghost use Rattle.op_use.specs.UpdateMeaning.{AppendsToSet, CreatesSet, DeletesData, DeletesName, DeletesSet, SwapsSets};
ghost use Rattle.op_use.specs.UpdateMessage.{append as append_sections, compare_and_swap as swap_sections, create as create_sections};
ghost use Rattle.op_use.specs.UpdateMessage.{delete_all as delete_all_sections, delete_by_rdata as delete_data_sections, delete_rrset as delete_set_sections, empty_record as empty_entry};
ghost use Rattle.op_use.specs.UpdateMessage.{untimed_in, sections, transfer_message, update_message, without_ttl};

use base::{DNSClass, Name, ProtoError, RecordType};
use base_data::{RData, SOA};
use op::{DEFAULT_MAX_PAYLOAD_LEN, Edns, Message, MessageType, OpCode, Query};
use rr::{Record, RecordSet, RecordSetParts};
use std::alloc::Global;

/// The update that creates a set: its prerequisite is that the zone has no set of that owner and type (RFC 2136,
/// 2.4.3), its updates are the set's records (2.5.1). With `use_edns` it takes answers of up to 1232 bytes.
///
/// The origin is the zone's, and the set's owner lies in that zone.
///
/// # Errors
///
/// If memory runs out.
pub fn create(
    alloc: Global,
    id: u16,
    rrset: RecordSet,
    origin: Name,
    use_edns: bool,
) -> Result<Message, ProtoError>
    requires within { is_zone_of origin rrset.name ≡ true }
    ensures built { IfOk result (λ m. message_value m
        ≡ update_message id use_edns (create_sections rrset origin)) }
    // Where the set can be sent in an update, the message can stand on the wire.
    ensures fits { IfOk result (λ m. IsSendable origin rrset → Fits (message_value m)) }
    // What a server reads from uncut bytes merges the set into a zone that meets the premises, or
    // is answered YXRRSet where the zone has a set of that owner and type.
    ensures means { IfOk result (λ m. CreatesSet rrset origin (message_value m)) }
    ensures only { IsOkUnless result ProtoError.Memory }
{
    let parts = rrset.into_parts();
    let absent = empty_record(parts.name, parts.record_type, DNSClass::NONE);
    let prerequisites = vec![in alloc; absent]?;
    update(
        alloc,
        id,
        origin,
        parts.dns_class,
        prerequisites,
        parts.records,
        use_edns,
    )
}

/// The update that adds the records of a set to a zone; with `must_exist` its prerequisite is that the zone has a set
/// of that owner and type (RFC 2136, 2.4.1 and 2.5.1). With `use_edns` it takes answers of up to 1232 bytes.
///
/// The origin is the zone's, and the set's owner lies in that zone.
///
/// # Errors
///
/// If memory runs out.
pub fn append(
    alloc: Global,
    id: u16,
    rrset: RecordSet,
    origin: Name,
    must_exist: bool,
    use_edns: bool,
) -> Result<Message, ProtoError>
    requires within { is_zone_of origin rrset.name ≡ true }
    ensures built { IfOk result (λ m. message_value m
        ≡ update_message id use_edns (append_sections rrset origin must_exist)) }
    // Where the set can be sent in an update, the message can stand on the wire.
    ensures fits { IfOk result (λ m. IsSendable origin rrset → Fits (message_value m)) }
    // What a server reads from uncut bytes merges the set into a zone that meets the premises, or
    // is answered NXRRSet where it must exist and the zone has none of that owner and type.
    ensures means { IfOk result (λ m. AppendsToSet rrset origin must_exist (message_value m)) }
    ensures only { IsOkUnless result ProtoError.Memory }
{
    let parts = rrset.into_parts();
    let mut prerequisites = Vec::new(alloc);
    if must_exist {
        let owner = parts.name.clone()?;
        prerequisites.push(empty_record(owner, parts.record_type, DNSClass::ANY))?;
    }
    update(
        alloc,
        id,
        origin,
        parts.dns_class,
        prerequisites,
        parts.records,
        use_edns,
    )
}

/// The update that puts a set in the place of another: its prerequisites are the data of the current set (RFC 2136,
/// 2.4.2), and its updates take them out (2.5.4) and add the records of the new set (2.5.1). An empty current set asks
/// for nothing. With `use_edns` it takes answers of up to 1232 bytes.
///
/// The origin is the zone's, and both owners lie in that zone.
///
/// # Errors
///
/// If memory runs out.
pub fn compare_and_swap(
    alloc: Global,
    id: u16,
    current: RecordSet,
    new: RecordSet,
    origin: Name,
    use_edns: bool,
) -> Result<Message, ProtoError>
    requires within { is_zone_of origin current.name ≡ true }
    requires new_within { is_zone_of origin new.name ≡ true }
    ensures built { IfOk result (λ m. message_value m
        ≡ update_message id use_edns (swap_sections current new origin)) }
    // Where both sets can be sent in an update, the message can stand on the wire.
    ensures fits { IfOk result (λ m. IsSendable origin current → IsSendable origin new
        → Fits (message_value m)) }
    // What a server reads from uncut bytes puts the new set in the place of the current one in a
    // zone that meets the premises, or is answered NXRRSet where the zone has other data there.
    ensures means { IfOk result (λ m. SwapsSets current new origin (message_value m)) }
    ensures only { IsOkUnless result ProtoError.Memory }
{
    let mut updates = with_class_none(current.clone()?.into_parts().records);
    let mut parts = new.into_parts();
    updates.append(&mut parts.records)?;
    let prerequisites = with_zero_ttl(current.into_parts().records);
    update(
        alloc,
        id,
        origin,
        parts.dns_class,
        prerequisites,
        updates,
        use_edns,
    )
}

/// The update that takes the data of a set out of a zone (RFC 2136, 2.5.4). With `use_edns` it takes answers of up to
/// 1232 bytes.
///
/// The origin is the zone's, and the set's owner lies in that zone.
///
/// # Errors
///
/// If memory runs out.
pub fn delete_by_rdata(
    alloc: Global,
    id: u16,
    rrset: RecordSet,
    origin: Name,
    use_edns: bool,
) -> Result<Message, ProtoError>
    requires within { is_zone_of origin rrset.name ≡ true }
    ensures built { IfOk result (λ m. message_value m
        ≡ update_message id use_edns (delete_data_sections rrset origin)) }
    // Where the set can be sent in an update, the message can stand on the wire.
    ensures fits { IfOk result (λ m. IsSendable origin rrset → Fits (message_value m)) }
    // What a server reads from uncut bytes takes data equal to the set's out of a zone that meets
    // the premises.
    ensures means { IfOk result (λ m. DeletesData rrset origin (message_value m)) }
    ensures only { IsOkUnless result ProtoError.Memory }
{
    let parts = rrset.into_parts();
    let updates = with_class_none(parts.records);
    update(
        alloc,
        id,
        origin,
        parts.dns_class,
        Vec::new(alloc),
        updates,
        use_edns,
    )
}

/// The update that takes the set of a record's owner and type out of a zone of the record's class (RFC 2136, 2.5.2): it
/// has the record with class ANY, TTL 0 and no data, and with its cache-flush bit. With `use_edns` it takes answers of
/// up to 1232 bytes.
///
/// The origin is the zone's, and the record's owner lies in that zone.
///
/// # Errors
///
/// If memory runs out.
pub fn delete_rrset(
    alloc: Global,
    id: u16,
    mut entry: Record,
    origin: Name,
    use_edns: bool,
) -> Result<Message, ProtoError>
    requires within { is_zone_of origin entry.name ≡ true }
    ensures built { IfOk result (λ m. message_value m
        ≡ update_message id use_edns (delete_set_sections entry origin)) }
    // Where owner, type and class can be sent in an update, the message can stand on the wire.
    ensures fits { IfOk result
        (λ m. IsSendableKey origin entry.name (type_of_data entry.rdata) entry.dns_class
        → Fits (message_value m)) }
    // What a server reads from uncut bytes takes the set of that owner and type out of a zone that
    // meets the premises.
    ensures means { IfOk result (λ m. DeletesSet entry origin (message_value m)) }
    ensures only { IsOkUnless result ProtoError.Memory }
{
    let dns_class = entry.dns_class;
    entry.rdata = RData::Update0(entry.record_type());
    entry.dns_class = DNSClass::ANY;
    entry.ttl = 0;
    let updates = vec![in alloc; entry]?;
    update(
        alloc,
        id,
        origin,
        dns_class,
        Vec::new(alloc),
        updates,
        use_edns,
    )
}

/// The update that takes all sets of an owner out of a zone of a class; at the origin SOA and NS stay (RFC 2136, 2.5.3
/// and 3.4.2.3). With `use_edns` it takes answers of up to 1232 bytes.
///
/// The origin is the zone's, and the owner lies in that zone.
///
/// # Errors
///
/// If memory runs out.
pub fn delete_all(
    alloc: Global,
    id: u16,
    name: Name,
    origin: Name,
    dns_class: DNSClass,
    use_edns: bool,
) -> Result<Message, ProtoError>
    requires within { is_zone_of origin name ≡ true }
    ensures built { IfOk result (λ m. message_value m
        ≡ update_message id use_edns (delete_all_sections name origin dns_class)) }
    // Where owner and class can be sent in an update, the message can stand on the wire.
    ensures fits { IfOk result (λ m. IsSendableOwner origin name dns_class
        → Fits (message_value m)) }
    // What a server reads from uncut bytes takes all sets of the owner out of a zone that meets the
    // premises; at the origin SOA and NS stay.
    ensures means { IfOk result (λ m. DeletesName name origin dns_class (message_value m)) }
    ensures only { IsOkUnless result ProtoError.Memory }
{
    let gone = empty_record(name, RecordType::ANY, DNSClass::ANY);
    let updates = vec![in alloc; gone]?;
    update(
        alloc,
        id,
        origin,
        dns_class,
        Vec::new(alloc),
        updates,
        use_edns,
    )
}

/// The question for a zone: for all of it (RFC 5936, 2.1), or, with an SOA, for what changed since (RFC 1995, 3); the
/// SOA stands among the authorities then, under the origin. It takes answers of up to 1232 bytes.
///
/// # Errors
///
/// If memory runs out.
pub fn zone_transfer(
    alloc: Global,
    id: u16,
    origin: Name,
    last_soa: Option<SOA>,
) -> Result<Message, ProtoError>
    ensures built { IfOk result (λ m. message_value m ≡ transfer_message id origin last_soa) }
    // Where the names are absolute, the message can stand on the wire.
    ensures fits { IfOk result (λ m. origin.absolute ≡ true → IsSendableSoa last_soa
        → Fits (message_value m)) }
    ensures only { IsOkUnless result ProtoError.Memory }
{
    let mut query_type = RecordType::AXFR;
    let mut authorities = Vec::new(alloc);
    if let Some(soa) = last_soa {
        query_type = RecordType::IXFR;
        authorities.push(Record::from_rdata(origin.clone()?, 0, RData::SOA(soa)))?;
    }
    let queries = vec![in alloc; Query::query(origin, query_type)]?;
    let mut message = Message::query(alloc, id);
    message.queries = queries;
    message.authorities = authorities;
    message.set_edns(large_answers(alloc));
    Ok(message)
}

/// The update of a zone by its prerequisites and updates (RFC 2136, 2.3 to 2.5).
fn update(
    alloc: Global,
    id: u16,
    origin: Name,
    dns_class: DNSClass,
    prerequisites: Vec<Record>,
    updates: Vec<Record>,
    use_edns: bool,
) -> Result<Message, ProtoError>
    ensures built { IfOk result (λ m. message_value m
        ≡ update_message id use_edns
        (sections origin dns_class prerequisites.items updates.items)) }
    ensures only { IsOkUnless result ProtoError.Memory }
{
    let mut zone = Query::query(origin, RecordType::SOA);
    zone.set_query_class(dns_class);
    let zones = vec![in alloc; zone]?;
    let mut message = Message::new(alloc, id, MessageType::Query, OpCode::Update);
    message.queries = zones;
    message.answers = prerequisites;
    message.authorities = updates;
    if use_edns {
        message.set_edns(large_answers(alloc));
    }
    Ok(message)
}

/// EDNS that takes answers of up to 1232 bytes (RFC 6891, 6.2.5).
fn large_answers(alloc: Global) -> Edns
    ensures { result ≡ record new_edns { max_payload = 1232 } }
{
    let mut edns = Edns::new(alloc);
    edns.set_max_payload(DEFAULT_MAX_PAYLOAD_LEN);
    edns
}

/// The record without data of an owner, a type and a class (RFC 2136, 2.4).
fn empty_record(name: Name, record_type: RecordType, dns_class: DNSClass) -> Record
    ensures { result ≡ empty_entry name record_type dns_class }
{
    let mut empty = Record::update0(name, 0, record_type);
    empty.dns_class = dns_class;
    empty
}

/// The records in the class NONE, with TTL 0: they ask that their data goes (RFC 2136, 2.5.4).
fn with_class_none(mut records: Vec<Record>) -> Vec<Record>
    ensures { result.items ≡ map (untimed_in classes.NONE) records.items }
{
    for record in records.iter_mut() {
        record.dns_class = DNSClass::NONE;
        record.ttl = 0;
    }
    records
}

/// The records with TTL 0: they ask that their data is there (RFC 2136, 2.4.2).
fn with_zero_ttl(mut records: Vec<Record>) -> Vec<Record>
    ensures { result.items ≡ map without_ttl records.items }
{
    for record in records.iter_mut() {
        record.ttl = 0;
    }
    records
}
