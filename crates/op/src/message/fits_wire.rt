//! Whether the wire carries a message.

ghost use Rattle.base.specs.declared.limits.TheConstants.{MIN_PAYLOAD};
ghost use Rattle.std.specs.Option.{option_copied};
ghost use Rattle.std.specs.Prelude.{◌≡◌, ◌<◌, ◌↔◌, All, IsTrue};
ghost use Rattle.base.specs.DNSClass.{class_number, class_of};
ghost use Rattle.op.specs.EdnsSays.{EdnsKept};
ghost use Rattle.op.specs.Fits.{Fits, FitsEdns, FitsIn, as_list, opt_records, signature_record, signature_records, stands_elsewhere, with_high_bits};
ghost use Rattle.op.specs.Message.{message_value};
ghost use Rattle.op.specs.MessageKept.{MessageKept};
ghost use Rattle.op.specs.OpCode.{op_number, op_value};
ghost use Rattle.op.specs.Query.{FitsQuery};
ghost use Rattle.op.specs.QuerySays.{QueryKept};
ghost use Rattle.op.specs.Section.{HasNeededData};
ghost use Rattle.rr.specs.Record.{FitsRecord};
ghost use Rattle.rr.specs.RecordSays.{KeptRecord};

use crate::edns::Edns;
use crate::message::Message;
use crate::op_code::OpCode;
use crate::query::Query;
use crate::response_code::ResponseCode;
use base::limits::MIN_PAYLOAD;
use base::{DNSClass, RecordType};
use base_data::{RData, TSIG};
use rr::Record;

/// The class numbers from this one on have the top bit of the class field (RFC 6762, 5.4 and 10.2).
const TOP_BIT: u16 = 0x8000;

/// The header has four bits for the opcode (RFC 1035, 4.1.1).
const OP_CODES: u8 = 16;

impl Message {
    /// Whether the message can stand on the wire and is read there as it was, but for the high bits of its code without
    /// EDNS: what is written of such a message is a cut of it (RFC 1035, 4.1; RFC 6891, 6.1; RFC 8945, 5.1). Takes no
    /// memory.
    pub fn fits_wire(&self) -> bool
        ensures fits { IsTrue result ↔ Fits (message_value self.now) }
        // And what its types keep of it, as the law `what_is_written_is_a_cut` asks.
        ensures kept { IsTrue result → MessageKept (message_value self.now) }
    {
        let _id = self.metadata.id;
        let op_code = self.metadata.op_code;
        if !op_code_fits(op_code) || !queries_fit(&self.queries) {
            return false;
        }
        if !records_fit(&self.answers, op_code, false)
            || !records_fit(&self.authorities, op_code, false)
            || !records_fit(&self.additionals, op_code, true)
        {
            return false;
        }
        edns_fits(self.edns.as_ref()) && signature_fits(self.signature())
    }
}

/// Whether the opcode is that of its number, in four bits.
fn op_code_fits(op_code: OpCode) -> bool
    ensures { IsTrue result ↔ ((op_number op_code < 16)
        × (op_value (op_number op_code) ≡ op_code)) }
{
    let number = u8::from(op_code);
    number < OP_CODES && OpCode::from_u8(number) == op_code
}

/// Whether each question fits.
fn queries_fit(queries: &[Query]) -> bool
    ensures fits { IsTrue result ↔ All FitsQuery queries.now }
    ensures kept { IsTrue result → All QueryKept queries.now }
{
    for query in queries {
        if !query_fits(query) {
            return false;
        }
    }
    true
}

/// Whether a question fits: its name is absolute, type and class are those of their numbers, and the class leaves the
/// top bit free.
fn query_fits(query: &Query) -> bool
    ensures fits { IsTrue result ↔ FitsQuery query.now }
    ensures kept { IsTrue result → QueryKept query.now }
{
    if !query.name.is_fqdn() {
        return false;
    }
    if RecordType::from(u16::from(query.query_type)) != query.query_type {
        return false;
    }
    // these tell what its types keep
    query.name.as_wire();
    query.query_class.to_field(query.mdns_unicast_response);
    class_fits(query.query_class)
}

/// Whether a class is that of its number, and leaves the top bit of its field free.
fn class_fits(class: DNSClass) -> bool
    ensures { IsTrue result ↔ ((class_of (class_number class) ≡ class)
        × (class_number class < 32768)) }
{
    let number = u16::from(class);
    number < TOP_BIT && DNSClass::from(number) == class
}

/// Whether each record fits among the additionals, or in another section.
fn records_fit(records: &[Record], op_code: OpCode, among_additionals: bool) -> bool
    ensures fits { IsTrue result ↔ All (FitsIn among_additionals op_code) records.now }
    ensures kept { IsTrue result → All KeptRecord records.now }
{
    for entry in records {
        if !record_fits(entry, op_code, among_additionals) {
            return false;
        }
    }
    true
}

/// Whether a record fits among the additionals, or in another section.
fn record_fits(entry: &Record, op_code: OpCode, among_additionals: bool) -> bool
    ensures fits { IsTrue result ↔ FitsIn among_additionals op_code entry.now }
    ensures kept { IsTrue result → KeptRecord entry.now }
{
    if stands_elsewhere(entry, among_additionals) || !is_given(entry, op_code) {
        return false;
    }
    entry.fits();
    entry.fits_wire()
}

/// Whether a record stands elsewhere than among the additionals, as EDNS and the signature do, or than in another
/// section (RFC 2931, 3.1; RFC 6891, 6.1.1; RFC 8945, 5.1).
fn stands_elsewhere(entry: &Record, among_additionals: bool) -> bool
    ensures { result ≡ stands_elsewhere among_additionals entry.now }
{
    if among_additionals {
        matches!(entry.record_type(), RecordType::OPT) || matches!(entry.rdata, RData::TSIG(_))
    } else {
        matches!(
            entry.record_type(),
            RecordType::OPT | RecordType::SIG | RecordType::TSIG
        )
    }
}

/// Whether a record has data, or may be empty (RFC 2136, 2.4).
fn is_given(entry: &Record, op_code: OpCode) -> bool
    ensures { IsTrue result ↔ HasNeededData op_code entry.now }
{
    !entry.rdata.is_update()
        || matches!(op_code, OpCode::Update)
        || matches!(entry.record_type(), RecordType::OPT)
}

/// Whether EDNS fits: its payload size is 512 at least, and its flags have no 16th bit.
fn edns_value_fits(edns: &Edns) -> bool
    ensures fits { IsTrue result ↔ FitsEdns edns.now }
    // Whatever the code of the message, whose high bits its record has.
    ensures kept { IsTrue result → (code : ResponseCode) → EdnsKept (with_high_bits code edns.now) }
{
    // these tell what its types keep
    let _version = edns.version;
    u16::from(edns.flags);
    u16::from(DNSClass::for_opt(edns.max_payload));
    edns.options.fits();
    edns.max_payload >= MIN_PAYLOAD && edns.flags.z < TOP_BIT
}

/// Whether EDNS fits, if there is any.
fn edns_fits(edns: Option<&Edns>) -> bool
    ensures fits { IsTrue result ↔ All FitsEdns (as_list (option_copied edns.entry)) }
    ensures kept { IsTrue result → (code : ResponseCode)
        → All KeptRecord (opt_records code (option_copied edns.entry)) }
{
    match edns {
        Some(edns) => edns_value_fits(edns),
        None => true,
    }
}

/// Whether the record of a signature fits, if there is one.
fn signature_fits(signature: Option<&Record<TSIG>>) -> bool
    ensures fits { IsTrue result ↔ All (λ r. FitsRecord (signature_record r))
        (as_list (option_copied signature.entry)) }
    ensures kept { All KeptRecord (signature_records (option_copied signature.entry)) }
{
    match signature {
        Some(signature) => {
            // these tell what its types keep
            signature.rdata.bytes();
            signature.name.as_wire();
            signature.dns_class.to_field(signature.mdns_cache_flush);
            let _ttl = signature.ttl;
            signature.name.is_fqdn() && class_fits(signature.dns_class)
        }
        None => true,
    }
}
