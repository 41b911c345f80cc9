//! Names and data in wire form, and their texts (RFC 1035, 3.1, 3.3 and 5.1).

ghost use Rattle.std.specs.Prelude.{◌≡◌, [], IfOk, Ok};
ghost use Rattle.base.specs.declared.error.proto_error.ProtoError.TheVariants as refusals;
ghost use Rattle.base_data.specs.Kinds.{data_written};
ghost use Rattle.base_data.specs.SOA.{soa_numbers};
ghost use Rattle.base_data.specs.declared.rdata.RData.TheVariants as kinds;
ghost use Rattle.tasks.specs.Asked.{Makes};
ghost use Rattle.tasks.specs.WireForm.{counted, data_named, data_octets, data_wire, name_octets, name_wire, only_data, wire_text};

use crate::refusal::Refusal;
use crate::update::sets::one_set;
use crate::zone::{characters_of, zone_name_of};
use base::{BinDecoder, BinEncodable, BinEncoder, Name, ProtoError, RecordType};
use base_data::{RData, SOA};
use rr::Record;
use std::alloc::{AllocError, Global};

/// The wire form of a name, 255 bytes at most; one without a dot at its end is taken as absolute too.
///
/// # Errors
///
/// 26 for a name without bytes, 24 for one that isn't UTF-8, and 23 for a text that is no name.
pub fn name_wire(alloc: Global, text: &[u8]) -> Result<Vec<u8>, Refusal>
    ensures { Makes (λ bytes. bytes.items) (name_wire text.now) result }
{
    let name = zone_name_of(alloc, text)?;
    Ok(name_octets(alloc, &name)?)
}

/// The wire form of the data of a type that a text is, its names without compression.
///
/// # Errors
///
/// 24 for a text that isn't UTF-8, and the number of what the parser refuses; 27 for a text that goes on with other
/// records, and 32 for data of more than 65,535 bytes.
pub fn data_wire(alloc: Global, record_type: u16, text: &[u8]) -> Result<Vec<u8>, Refusal>
    ensures { Makes (λ bytes. bytes.items) (data_wire record_type text.now) result }
{
    let rdata = data_named(alloc, RecordType::from(record_type), text)?;
    data_octets(alloc, &rdata)
}

/// The data of a type that a text is.
fn data_named(alloc: Global, record_type: RecordType, text: &[u8]) -> Result<RData, Refusal>
    ensures { Makes (λ d. d) (data_named record_type text.now) result }
{
    let text = characters_of(text)?;
    let line = format!(in alloc; ". 0 {record_type} {text}")?;
    let set = one_set(alloc, &Name::root(alloc), line.as_bytes())?;
    only_data(set.as_slice())
}

/// The data of the record, if there is exactly one.
fn only_data(records: &[Record]) -> Result<RData, Refusal>
    ensures { Makes (λ d. d) (only_data records.now) result }
{
    match records {
        [record] => Ok(record.rdata.clone()?),
        _ => Err(Refusal::NOT_ONE_SET),
    }
}

/// The wire form of data, its names without compression.
fn data_octets(alloc: Global, rdata: &RData) -> Result<Vec<u8>, Refusal>
    ensures { Makes (λ bytes. bytes.items) (data_octets rdata.now) result }
{
    match rdata {
        RData::SOA(soa) => Ok(soa_octets(alloc, soa)?),
        _ => written(alloc, rdata),
    }
}

/// The wire form of an SOA, its names without compression.
fn soa_octets(alloc: Global, soa: &SOA) -> Result<Vec<u8>, AllocError>
    ensures { IfOk result (λ bytes. data_octets (kinds.SOA soa.now) ≡ Ok bytes.items) }
{
    let mut bytes = name_octets(alloc, &soa.mname)?;
    let mut rest = name_octets(alloc, &soa.rname)?;
    rest.append(&mut soa_numbers(alloc, soa)?)?;
    bytes.append(&mut rest)?;
    Ok(bytes)
}

/// A name without compression.
fn name_octets(alloc: Global, name: &Name) -> Result<Vec<u8>, AllocError>
    ensures { IfOk result (λ bytes. bytes.items ≡ name_octets name.now) }
{
    let mut bytes = Vec::from_slice(alloc, name.as_wire())?;
    bytes.push(0)?;
    Ok(bytes)
}

/// The version and the times of an SOA.
fn soa_numbers(alloc: Global, soa: &SOA) -> Result<Vec<u8>, AllocError>
    ensures { IfOk result (λ bytes. bytes.items ≡ soa_numbers soa.now) }
{
    let mut bytes = Vec::from_slice(alloc, &soa.serial.to_be_bytes())?;
    bytes.extend_from_slice(&soa.refresh.to_be_bytes())?;
    bytes.extend_from_slice(&soa.retry.to_be_bytes())?;
    bytes.extend_from_slice(&soa.expire.to_be_bytes())?;
    bytes.extend_from_slice(&soa.minimum.to_be_bytes())?;
    Ok(bytes)
}

/// What is written of data first, as many bytes as RDLENGTH can count.
fn written(alloc: Global, rdata: &RData) -> Result<Vec<u8>, Refusal>
    ensures { Makes (λ bytes. bytes.items) (counted (data_written rdata.now 0 []).bytes) result }
{
    let mut bytes = Vec::new(alloc);
    {
        let mut encoder = BinEncoder::new(&mut bytes);
        if let Err(e) = rdata.emit(&mut encoder) {
            return Err(unwritten(e));
        }
    }
    Ok(bytes)
}

/// Why data isn't written: it is too long, or memory ran out.
fn unwritten(e: ProtoError) -> Refusal
    ensures long { e ≡ refusals.MaxBufferSizeExceeded → result.number ≡ 32 }
    ensures memory { e ≡ refusals.Memory → result.number ≡ 3 }
{
    match e {
        ProtoError::MaxBufferSizeExceeded => Refusal::TOO_LONG,
        e => Refusal::from(e),
    }
}

/// The text of the data of a type that bytes are.
///
/// # Errors
///
/// 8 for bytes that are no data of the type, and 32 for more than 65,535.
pub fn wire_text(alloc: Global, record_type: u16, octets: &[u8]) -> Result<Vec<u8>, Refusal>
    ensures { Makes (λ text. text.items) (wire_text record_type octets.now) result }
{
    let Ok(len) = u16::try_from(octets.len()) else {
        return Err(Refusal::TOO_LONG);
    };
    let mut decoder = BinDecoder::new(alloc, octets);
    let rdata = RData::read(&mut decoder, RecordType::from(record_type), len)?;
    Ok(rdata.to_string(alloc)?.into_bytes())
}
