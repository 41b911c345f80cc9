//! Writes records.

ghost use Rattle.std.specs.Prelude.{◌≡◌, [], ◌∷◌, ◌++◌};
ghost use Rattle.rr.specs.Record.{RecordWord, fields_of, plain_record, record_written, with_data};
ghost use Rattle.rr.specs.RecordSays.{FieldsFit, RecordKept, any_says, record_says};

use crate::record::Record;
use base::{BinEncodable, BinEncoder, ProtoError, emit_sized};
use base_data::RecordData;

impl<R: RecordData> BinEncodable for Record<R> {
    ghost word = { λ r. RecordWord (with_data R.as_rdata r) };

    ghost plain_len = { λ r. plain_record (with_data R.as_rdata r) };

    ghost owner = { λ r. r.name.labels };

    ghost written = { λ r. record_written (with_data R.as_rdata r) };

    ghost fits = { λ r. RecordKept (with_data R.as_rdata r) (R.fits r.rdata) };

    ghost says = { λ r. record_says (with_data R.as_rdata r)
        (any_says (R.as_rdata r.rdata) (R.written r.rdata) (R.keeps_written r.rdata)
        (λ B i e. (R.keeps_word r.rdata B i e).1) (R.keeps_len r.rdata) (R.says r.rdata)) };

    /// Writes name, type, class with the cache-flush bit, TTL, and the data after the number of its bytes (RFC 1035,
    /// 4.1.3; RFC 6762, 10.2).
    ///
    /// # Errors
    ///
    /// `MaxBufferSizeExceeded` where a byte would pass the limit; `Memory` if memory runs out.
    #[tactic(auto, using(base::proofs::writing::LawLemmas::writing))]
    fn emit(&self, encoder: &mut BinEncoder<'_>) -> Result<(), ProtoError> {
        self.name.emit(encoder)?;
        let class = self.dns_class.to_field(self.mdns_cache_flush);
        let fields = fields(u16::from(self.record_type()), class, self.ttl);
        emit_sized(&fields, &self.rdata, encoder)
    }
}

/// Type, class and TTL, the highest byte of each first, and room for RDLENGTH.
fn fields(record_type: u16, class: u16, ttl: u32) -> [u8; 10]
    ensures bytes { result ≡ fields_of record_type class ttl ++ 0 ∷ 0 ∷ [] }
    // Type and class are below 2^16, and the TTL is below 2^32.
    ensures fits { FieldsFit record_type class ttl }
{
    let mut bytes = [0; 10];
    bytes[..2].copy_from_slice(&record_type.to_be_bytes());
    bytes[2..4].copy_from_slice(&class.to_be_bytes());
    bytes[4..8].copy_from_slice(&ttl.to_be_bytes());
    bytes
}
