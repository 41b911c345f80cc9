//! Reads the records of a section (RFC 1035, 4.1.3).

ghost use Rattle.std.specs.Prelude.{[], ◌≡◌, OnOk, Option, false};
ghost use Rattle.base.specs.reading.Tracks.{Tracks};
ghost use Rattle.base.specs.reading.Reading.{Reads};
ghost use Rattle.base_data.specs.Kinds.{type_of_data};
ghost use Rattle.base_data.specs.RData.{is_signature_data};
ghost use Rattle.rr.specs.Record.{is_opt_type};
ghost use Rattle.op.specs.Places.{records_places};
ghost use Rattle.op.specs.Section.{edns_of, empty_section, fault_in_section, is_additional_type, is_opt, options_in, section_at, section_value, section_with};

use crate::edns::{Edns, opt_edns};
use crate::op_code::OpCode;
use base::{BinDecodable, BinDecoder, DecodeError, Name, RecordType};
use base_data::{OPT, RData, TSIG};
use rr::Record;
use std::alloc::{AllocError, Global};

/// How many bytes the shortest record has (RFC 1035, 3.2.1).
const SHORTEST: usize = 11;

/// Reads a section of `count` records, each of which is tested before the next one is read: the ordinary ones in their
/// order, what an OPT record says, and the signature, after which no record stands. There is nothing in the three yet.
///
/// # Errors
///
/// The first fault; `Memory` if memory runs out. What was read before stays.
#[inline(always)]
pub(super) fn read_section(
    records: &mut Vec<Record>,
    edns: &mut Option<Edns>,
    signature: &mut Option<Box<Record<TSIG>>>,
    decoder: &mut BinDecoder<'_>,
    count: usize,
    is_additional: bool,
    op_code: OpCode,
) -> Result<(), DecodeError>
    requires { section_value records.old.items edns.old signature.old ≡ empty_section }
    ensures read { Reads (λ _. section_value records.new.items edns.new signature.new)
        decoder.old decoder.new result
        (section_at is_additional op_code count decoder.old.bytes decoder.old.index) }
    // As of every read, see `BinDecodable::read`: of the names of the records.
    ensures tracks { Tracks (λ _. records_places count decoder.old.bytes decoder.old.index)
        decoder.old decoder.new result }
{
    if count == 0 {
        return Ok(());
    }
    read_each(
        decoder.allocator(),
        records,
        edns,
        signature,
        decoder,
        count,
        is_additional,
        op_code,
    )
}

/// Reads these records. It stands by itself so that a section without records, as most messages have some, costs
/// no call.
#[inline(never)]
fn read_each(
    alloc: Global,
    records: &mut Vec<Record>,
    edns: &mut Option<Edns>,
    signature: &mut Option<Box<Record<TSIG>>>,
    decoder: &mut BinDecoder<'_>,
    count: usize,
    is_additional: bool,
    op_code: OpCode,
) -> Result<(), DecodeError>
    requires empty { section_value records.old.items edns.old signature.old ≡ empty_section }
    ensures read { Reads (λ _. section_value records.new.items edns.new signature.new)
        decoder.old decoder.new result
        (section_at is_additional op_code count decoder.old.bytes decoder.old.index) }
    // As of every read, see `BinDecodable::read`: of the names of the records.
    ensures tracks { Tracks (λ _. records_places count decoder.old.bytes decoder.old.index)
        decoder.old decoder.new result }
{
    // a count that is too high makes no more room than the bytes left could fill
    if count > 2 {
        records.reserve(count.min(decoder.len() / SHORTEST))?;
    }
    for _ in 0..count {
        // the record stays where it was read until it is among the others, since moving it is slow
        let mut next = Record::update0(Name::root(alloc), 0, RecordType::ZERO);
        let (record_type, _) = next.read_in_place(decoder)?;
        if let Some(fault) = fault_of(edns, signature, &next, record_type, is_additional, op_code) {
            return Err(fault);
        }
        if is_edns(record_type) {
            *edns = Some(take_edns(alloc, next));
        } else if records.len() < records.capacity() && !is_signature(&next.rdata) {
            records.push_reserved(next);
        } else {
            add(records, signature, alloc, next)?;
        }
    }
    Ok(())
}

/// The first test that the next record, of this type, fails, given the EDNS and the signature that were read before.
fn fault_of(
    edns: &Option<Edns>,
    signature: &Option<Box<Record<TSIG>>>,
    next: &Record,
    record_type: RecordType,
    is_additional: bool,
    op_code: OpCode,
) -> Option<DecodeError>
    requires type_is { type_of_data next.now.rdata ≡ record_type }
    ensures { result
        ≡ fault_in_section is_additional op_code (section_value [] edns.now signature.now)
        next.now }
{
    // Most records pass at once.
    if signature.is_none() && !next.rdata.is_update() && !stands_among_additionals(record_type) {
        return None;
    }
    if next.rdata.is_update() && op_code != OpCode::Update && !is_edns(record_type) {
        return Some(DecodeError::InvalidEmptyRecord);
    }
    if signature.is_some() {
        return Some(DecodeError::RecordAfterSig);
    }
    if !is_additional && stands_among_additionals(record_type) {
        return Some(DecodeError::RecordNotInAdditionalSection(record_type));
    }
    if edns.is_some() && is_edns(record_type) {
        return Some(DecodeError::DuplicateEdns);
    }
    None
}

/// What an OPT record says, its options too.
fn take_edns(alloc: Global, next: Record) -> Edns
    ensures { result ≡ edns_of next }
{
    let Record {
        dns_class,
        ttl,
        rdata,
        ..
    } = next;
    opt_edns(dns_class, ttl, take_options(alloc, rdata))
}

/// Adds a record that was tested, and is no OPT record: a signature by itself, another record after the others. It
/// stands by itself so that a record for which there is room is copied whole.
///
/// # Errors
///
/// If memory runs out.
#[inline(never)]
fn add(
    records: &mut Vec<Record>,
    signature: &mut Option<Box<Record<TSIG>>>,
    alloc: Global,
    next: Record,
) -> Result<(), AllocError>
    requires other { is_opt next ≡ false }
    // Whatever EDNS there is, the section has that record in addition.
    ensures { (edns : Option Edns) → OnOk result (section_value records.new.items edns signature.new
        ≡ section_with (section_value records.old.items edns signature.old) next) }
{
    let Record {
        name,
        dns_class,
        ttl,
        rdata,
        mdns_cache_flush,
    } = next;
    match rdata {
        RData::TSIG(rdata) => {
            let signed = Record {
                name,
                dns_class,
                ttl,
                rdata,
                mdns_cache_flush,
            };
            *signature = Some(Box::new(alloc, signed)?);
            Ok(())
        }
        rdata => {
            records.push(Record {
                name,
                dns_class,
                ttl,
                rdata,
                mdns_cache_flush,
            })?;
            Ok(())
        }
    }
}

/// Whether this is the type of EDNS records.
fn is_edns(record_type: RecordType) -> bool
    ensures { result ≡ is_opt_type record_type }
{
    matches!(record_type, RecordType::OPT)
}

/// Whether data is a transaction signature.
fn is_signature(rdata: &RData) -> bool
    ensures { result ≡ is_signature_data rdata.now }
{
    matches!(rdata, RData::TSIG(_))
}

/// Whether records of this type stand among additionals alone (RFC 2931, 3.1; RFC 6891, 6.1.1; RFC 8945, 5.1).
fn stands_among_additionals(record_type: RecordType) -> bool
    ensures { result ≡ is_additional_type record_type }
{
    matches!(
        record_type,
        RecordType::OPT | RecordType::SIG | RecordType::TSIG
    )
}

/// The options of an OPT record's data; empty data has none.
fn take_options(alloc: Global, rdata: RData) -> OPT
    ensures { result ≡ options_in rdata }
{
    match rdata {
        RData::OPT(options) => options,
        _other => OPT::new(Vec::new(alloc)),
    }
}
