//! Reads records.

ghost use Rattle.std.specs.Prelude.{◌≡◌, ◌+◌, ◌<◌, length, IfErr, IfOk, Ok, OnOk, [], true};
ghost use Rattle.std.specs.Int.{w16, w32};
ghost use Rattle.base.specs.reading.Names.{name_at};
ghost use Rattle.base.specs.reading.Reading.{Reads};
ghost use Rattle.base.specs.reading.Tracks.{Tracks};
ghost use Rattle.base.specs.Words.{IsNumberAt};
ghost use Rattle.base_data.specs.Kinds.{data_places, type_of_data};
ghost use Rattle.base_data.specs.RData.{is_empty_data};
ghost use Rattle.rr.specs.Record.{body_at, class_value, flush_value, is_opt_type, record_at, record_places};

use crate::record::Record;
use base::{BinDecodable, BinDecoder, DNSClass, DecodeError, Name, RecordType};
use base_data::RData;
use std::mem;

impl BinDecodable for Record<RData> {
    ghost read_at = { record_at };

    ghost names_at = { record_places };

    /// Reads a record at the decoder's place, and moves after it. Class and cache-flush bit of an OPT record are its
    /// payload size, of 512 at least, and false.
    ///
    /// # Errors
    ///
    /// The first fault: of the name; `InsufficientBytes` where the end cuts the type; `EdnsNameNotRoot` for an OPT
    /// record of another owner than the root; `InsufficientBytes` where the end cuts class, TTL or length;
    /// `IncorrectRDataLengthRead` where fewer bytes are left than the length says; `BadData` for data that its type
    /// doesn't read. `Memory` if memory runs out.
    fn read(decoder: &mut BinDecoder<'_>) -> Result<Record<RData>, DecodeError> {
        let mut record = Record::update0(Name::root(decoder.allocator()), 0, RecordType::ZERO);
        record.read_in_place(decoder)?;
        Ok(record)
    }
}

impl Record<RData> {
    /// Reads a record at the decoder's place as `read` does, but in the place of an empty record of the root, since it
    /// is faster not to move what was read. Answers its type, and the place after its owner, where the type stands.
    ///
    /// # Errors
    ///
    /// Those of `read`. What is left in the place then is no record of the message.
    #[tactic(auto, unfolding(crate::specs::Record::record_at))]
    pub fn read_in_place(
        &mut self,
        decoder: &mut BinDecoder<'_>,
    ) -> Result<(RecordType, usize), DecodeError>
        requires root { self.old.name.labels ≡ [] }
        requires empty { is_empty_data self.old.rdata ≡ true }
        ensures read { Reads (λ _. self.new) decoder.old decoder.new result
            (record_at decoder.old.bytes decoder.old.index) }
        ensures type_is { IfOk result (λ r. type_of_data self.new.rdata ≡ r.0) }
        ensures owner { IfOk result (λ r. name_at decoder.old.bytes decoder.old.index
            ≡ Ok (self.new.name, r.1)) }
        // As of every read, see `BinDecodable::read`: of the names of the record.
        ensures tracks { Tracks (λ _. record_places decoder.old.bytes decoder.old.index)
            decoder.old decoder.new result }
    {
        self.name.read_in_place(decoder)?;
        let type_place = decoder.index();
        let record_type = RecordType::read(decoder)?;
        if is_opt(record_type) && !self.name.is_root() {
            let root = Name::root(decoder.allocator());
            return Err(DecodeError::EdnsNameNotRoot(mem::replace(&mut self.name, root)));
        }
        self.read_body(decoder, record_type)?;
        Ok((record_type, type_place))
    }

    /// Reads what comes after the type of a record, which has its name.
    #[tactic(auto, unfolding(crate::specs::Record::body_at))]
    fn read_body(
        &mut self,
        decoder: &mut BinDecoder<'_>,
        record_type: RecordType,
    ) -> Result<(), DecodeError>
        requires empty { is_empty_data self.old.rdata ≡ true }
        ensures read { Reads (λ _. self.new) decoder.old decoder.new result
            (body_at self.old.name record_type decoder.old.bytes decoder.old.index) }
        ensures type_is { IfOk result (λ _. type_of_data self.new.rdata ≡ record_type) }
        ensures owner { self.new.name ≡ self.old.name }
        // As of every read, see `BinDecodable::read`: of the names of the data.
        ensures tracks { Tracks
            (λ _. data_places self.new.rdata decoder.old.bytes (decoder.old.index + 8))
            decoder.old decoder.new result }
    {
        let Fields { class, ttl, len } = read_fields(decoder)?;
        let (dns_class, mdns_cache_flush) = class_of_field(record_type, class);
        let left = decoder.len();
        if left < usize::from(len) {
            return Err(DecodeError::IncorrectRDataLengthRead {
                read: left,
                len: usize::from(len),
            });
        }
        self.dns_class = dns_class;
        self.ttl = ttl;
        self.mdns_cache_flush = mdns_cache_flush;
        self.rdata.read_in_place(decoder, record_type, len)?;
        Ok(())
    }
}

/// Whether this is the type of EDNS records.
fn is_opt(record_type: RecordType) -> bool
    ensures { result ≡ is_opt_type record_type }
{
    matches!(record_type, RecordType::OPT)
}

/// The class and the cache-flush bit of a record of this type with this class field (RFC 6762, 10.2; RFC 6891,
/// 6.1.2).
fn class_of_field(record_type: RecordType, field: u16) -> (DNSClass, bool)
    ensures class { result.0 ≡ class_value record_type field }
    ensures flush { result.1 ≡ flush_value record_type field }
{
    if is_opt(record_type) {
        (DNSClass::for_opt(field), false)
    } else {
        DNSClass::from_field(field)
    }
}

/// What stands between the type of a record and its data.
#[derive(Clone, Copy, Drop)]
struct Fields {
    class: u16,
    ttl: u32,
    len: u16,
}

/// Reads class, TTL and length. They are read at once, since that is faster.
fn read_fields(decoder: &mut BinDecoder<'_>) -> Result<Fields, DecodeError>
    // Class, TTL and RDLENGTH stand at the place, one after another.
    ensures found { let B = decoder.old.bytes in let i = decoder.old.index in
        IfOk result (λ f. IsNumberAt w16 B i f.class × IsNumberAt w32 B (i + 2) f.ttl
        × IsNumberAt w16 B (i + 6) f.len) }
    // The decoder stands after these eight bytes.
    ensures after { OnOk result ((decoder.new.index ≡ decoder.old.index + 8)
        × (decoder.new.bytes ≡ decoder.old.bytes)) }
    // Refused only where fewer than eight bytes are left.
    ensures short { IfErr result (λ e. (e ≡ DecodeError.InsufficientBytes)
        × (length decoder.old.bytes < decoder.old.index + 8)) }
    // As of every read, see `BinDecodable::read`: no name is read.
    ensures tracks { Tracks (λ _. []) decoder.old decoder.new result }
{
    let [
        class_high,
        class_low,
        highest,
        high,
        low,
        lowest,
        len_high,
        len_low,
    ] = decoder.read_array::<8>()?;
    Ok(Fields {
        class: u16::from_be_bytes([class_high, class_low]),
        ttl: u32::from_be_bytes([highest, high, low, lowest]),
        len: u16::from_be_bytes([len_high, len_low]),
    })
}
