//! Writes EDNS as an OPT record (RFC 6891, 6.1.2 and 6.1.3).

ghost use Rattle.std.specs.Prelude.{◌≡◌, ◌+◌, ◌*◌, ◌^◌, ◌<◌, [], ◌∷◌, ◌++◌, MatchResult, OnOk};
ghost use Rattle.base.specs.writing.Laws.{Keeps};
ghost use Rattle.base.specs.RecordType.{type_number};
ghost use Rattle.base.specs.writing.Wire.{state_of};
ghost use Rattle.base.specs.writing.Written.{Exactly};
ghost use Rattle.rr.specs.Record.{fields_of};
ghost use Rattle.base.specs.declared.error.proto_error.ProtoError.TheVariants as refusals;
ghost use Rattle.op.specs.EdnsRecord.{EdnsWord, edns_record, edns_written, plain_edns};
ghost use Rattle.op.specs.EdnsSays.{EdnsKept, edns_says};

use super::Edns;
use base::{BinEncodable, BinEncoder, DNSClass, Name, ProtoError, RecordType, emit_sized};
use base_data::RData;
use rr::Record;

impl TryFrom<&Edns> for Record {
    type Error = ProtoError;

    ghost try_from_gives = { λ edns result. MatchResult result (λ opt. opt ≡ edns_record edns.now)
        (λ e. e ≡ refusals.Memory) };

    /// The OPT record: its owner is the root, its class the payload size, and its TTL the high code, the version and
    /// the flags (RFC 6891, 6.1.2 and 6.1.3). Without options its data is empty data of type OPT.
    ///
    /// # Errors
    ///
    /// If memory runs out.
    fn try_from(edns: &Edns) -> Result<Record, ProtoError> {
        let alloc = edns.options.allocator();
        let rdata = if edns.options.as_ref().is_empty() {
            RData::Update0(RecordType::OPT)
        } else {
            RData::OPT(edns.options.clone()?)
        };
        Ok(Record {
            name: Name::root(alloc),
            dns_class: DNSClass::for_opt(edns.max_payload),
            ttl: ttl_of(edns.rcode_high, edns.version, u16::from(edns.flags)),
            rdata,
            mdns_cache_flush: false,
        })
    }
}

impl BinEncodable for Edns {
    ghost word = { EdnsWord };

    ghost plain_len = { plain_edns };

    ghost written = { edns_written };

    ghost fits = { EdnsKept };

    ghost says = { edns_says };

    /// Writes the OPT record: a zero byte for the root, the type, the payload size, the high code, the version and the
    /// flags, and the options after the number of their bytes (RFC 6891, 6.1.2 and 6.1.3).
    ///
    /// # Errors
    ///
    /// `MaxBufferSizeExceeded` where a byte would pass the limit; `Memory` if memory runs out.
    fn emit(&self, encoder: &mut BinEncoder<'_>) -> Result<(), ProtoError> {
        emit_raised(self, self.rcode_high, encoder)
    }
}

/// EDNS with other high bits of the response code than its own, as a message writes it. It is lent, and not copied.
#[derive(Drop)]
pub(crate) struct RaisedEdns<'a> {
    pub(crate) edns: &'a Edns,
    pub(crate) rcode_high: u8,
}

impl<'a> BinEncodable for RaisedEdns<'a> {
    ghost word = { λ r. EdnsWord (record r.edns.now { rcode_high = r.rcode_high }) };

    ghost plain_len = { λ r. plain_edns (record r.edns.now { rcode_high = r.rcode_high }) };

    ghost written = { λ r. edns_written (record r.edns.now { rcode_high = r.rcode_high }) };

    ghost fits = { λ r. EdnsKept (record r.edns.now { rcode_high = r.rcode_high }) };

    ghost says = { λ r. edns_says (record r.edns.now { rcode_high = r.rcode_high }) };

    /// Writes the OPT record, as that of EDNS with these high bits.
    ///
    /// # Errors
    ///
    /// `MaxBufferSizeExceeded` where a byte would pass the limit; `Memory` if memory runs out.
    fn emit(&self, encoder: &mut BinEncoder<'_>) -> Result<(), ProtoError> {
        emit_raised(self.edns, self.rcode_high, encoder)
    }
}

/// Writes the OPT record of EDNS with these high bits of the response code.
#[tactic(auto, using(base::proofs::writing::LawLemmas::writing))]
fn emit_raised(edns: &Edns, rcode_high: u8, encoder: &mut BinEncoder<'_>) -> Result<(), ProtoError>
    // Whatever the answer, what stood before stays, and no byte is written past the limit.
    ensures keeps { Keeps (state_of encoder.old) (state_of encoder.new) }
    // After `Ok`, the numbers of the OPT record and of its options are in range.
    ensures fits { OnOk result (EdnsKept (record edns.now { rcode_high = rcode_high })) }
    // After `Ok` exactly this OPT record was written; refused for the limit only where it would
    // pass it.
    ensures exact { Exactly (edns_written (record edns.now { rcode_high = rcode_high }))
        (state_of encoder.old) (state_of encoder.new) result }
{
    let payload = u16::from(DNSClass::for_opt(edns.max_payload));
    let ttl = ttl_of(rcode_high, edns.version, u16::from(edns.flags));
    emit_sized(&front(payload, ttl), &edns.options, encoder)
}

/// The high code, the version and the flags, from the highest byte on.
fn ttl_of(rcode_high: u8, version: u8, flags: u16) -> u32
    ensures { result ≡ 16777216 * rcode_high + (65536 * version + flags) }
{
    0x100_0000 * u32::from(rcode_high) + (0x1_0000 * u32::from(version) + u32::from(flags))
}

/// The name of the root, the type, the payload size and a TTL, the highest byte of each first, and room for RDLENGTH.
fn front(payload: u16, ttl: u32) -> [u8; 11]
    ensures bytes { result
        ≡ 0 ∷ (fields_of (type_number RecordType.OPT) payload ttl ++ 0 ∷ 0 ∷ []) }
    // The payload size is below 2^16, and the TTL is below 2^32.
    ensures fits { (payload < 2 ^ 16) × (ttl < 2 ^ 32) }
{
    let mut bytes = [0; 11];
    bytes[1..3].copy_from_slice(&u16::from(RecordType::OPT).to_be_bytes());
    bytes[3..5].copy_from_slice(&payload.to_be_bytes());
    bytes[5..9].copy_from_slice(&ttl.to_be_bytes());
    bytes
}
