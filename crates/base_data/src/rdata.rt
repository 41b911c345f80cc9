//! The kinds of record data, each in a file of its own, and the data of any record: what goes through all kinds
//! stands here.

ghost use Rattle.std.specs.Prelude.{◌≡◌, ◌<◌, ◌≤◌, [], Some, length, true, option_copied, slice_get};
ghost use Rattle.base.specs.reading.Tracks.{Tracks};
ghost use Rattle.base_data.specs.InPlace.{ReadsInto};
ghost use Rattle.base_data.specs.Kinds.{DataWord, KeptData, canonical_data, data_names, data_places, data_says, data_text, data_written, kind_at, kind_rank, plain_data, type_of_data};
ghost use Rattle.base_data.specs.RData.{is_empty_data};

pub mod a;
pub mod aaaa;
pub mod aname;
mod canonical;
pub mod cname;
mod fields;
mod fits;
pub mod generic;
mod hex_text;
mod items;
pub mod laws;
mod letter_case;
pub mod mx;
pub mod ns;
pub mod null;
pub mod opt;
mod order;
pub mod ptr;
mod reading;
pub mod soa;
pub mod srv;
pub mod tsig;
pub mod txt;
pub mod words;

pub use a::A;
pub use aaaa::AAAA;
pub use aname::ANAME;
use base::{BinDecoder, BinEncodable, BinEncoder, DecodeError, Name, ProtoError, RecordType};
use canonical::CanonicalOctets;
pub use cname::CNAME;
pub use mx::MX;
pub use ns::NS;
pub use null::NULL;
pub use opt::{EdnsOption, OPT};
pub use ptr::PTR;
use reading::{DataError, read_as, read_carried, read_sized};
pub use soa::SOA;
pub use srv::SRV;
use std::alloc::AllocError;
use std::fmt;
pub use tsig::TSIG;
pub use txt::TXT;

/// The data of a record, by its type (RFC 1035, 3.3).
#[derive(Debug, Drop, PartialEq, Eq)]
pub enum RData {
    /// An address of four bytes.
    A(A),
    /// An address of sixteen bytes.
    AAAA(AAAA),
    /// A server of a zone.
    NS(NS),
    /// The canonical name of an alias.
    CNAME(CNAME),
    /// A name that is pointed to.
    PTR(PTR),
    /// The name whose addresses a name has too.
    ANAME(ANAME),
    /// A host that takes mail.
    MX(MX),
    /// The SOA of a zone.
    SOA(SOA),
    /// A host that has a service.
    SRV(SRV),
    /// Character strings.
    TXT(TXT),
    /// Bytes of type NULL.
    NULL(NULL),
    /// EDNS options.
    OPT(OPT),
    /// A transaction signature.
    TSIG(TSIG),
    /// No bytes, for a record of this type (RFC 2136, 2.4).
    Update0(RecordType),
    /// Bytes of a type that has no kind of its own (RFC 3597, 3).
    Unknown {
        /// The type.
        code: RecordType,
        /// The bytes.
        rdata: NULL,
    },
}

impl RData {
    /// The type of the data (RFC 1035, 3.2.2).
    pub fn record_type(&self) -> RecordType
        ensures { result ≡ type_of_data self.now }
    {
        match self {
            RData::A(_) => RecordType::A,
            RData::AAAA(_) => RecordType::AAAA,
            RData::NS(_) => RecordType::NS,
            RData::CNAME(_) => RecordType::CNAME,
            RData::PTR(_) => RecordType::PTR,
            RData::ANAME(_) => RecordType::ANAME,
            RData::MX(_) => RecordType::MX,
            RData::SOA(_) => RecordType::SOA,
            RData::SRV(_) => RecordType::SRV,
            RData::TXT(_) => RecordType::TXT,
            RData::NULL(_) => RecordType::NULL,
            RData::OPT(_) => RecordType::OPT,
            RData::TSIG(_) => RecordType::TSIG,
            RData::Update0(record_type) => *record_type,
            RData::Unknown { code, .. } => *code,
        }
    }

    /// Whether the data is empty, as updates have it (RFC 2136, 2.4).
    pub fn is_update(&self) -> bool
        ensures { result ≡ is_empty_data self.now }
    {
        matches!(self, RData::Update0(_))
    }

    /// Reads the data of a type that begins at the decoder's place, and has a byte at least, in the place of empty
    /// data. Where it ends is not looked at.
    #[tactic(auto, unfolding(crate::specs::Kinds::kind_at))]
    fn read_kind(
        &mut self,
        decoder: &mut BinDecoder<'_>,
        record_type: RecordType,
        len: u16,
    ) -> Result<(), DataError>
        requires some { 0 < len }
        requires empty { is_empty_data self.old ≡ true }
        ensures read { ReadsInto decoder.old decoder.new self.new result
            (kind_at record_type len decoder.old.bytes decoder.old.index) }
        // As of every read, see `BinDecodable::read`: of the names of the data.
        ensures tracks { Tracks (λ _. data_places self.new decoder.old.bytes decoder.old.index)
            decoder.old decoder.new result }
    {
        match record_type {
            RecordType::A => read_as::<A>(self, decoder),
            RecordType::AAAA => read_as::<AAAA>(self, decoder),
            RecordType::NS => read_as::<NS>(self, decoder),
            RecordType::CNAME => read_as::<CNAME>(self, decoder),
            RecordType::PTR => read_as::<PTR>(self, decoder),
            RecordType::ANAME => read_as::<ANAME>(self, decoder),
            RecordType::MX => read_as::<MX>(self, decoder),
            RecordType::SOA => read_as::<SOA>(self, decoder),
            RecordType::SRV => read_as::<SRV>(self, decoder),
            RecordType::TXT => read_sized::<TXT>(self, decoder, len),
            RecordType::NULL => read_sized::<NULL>(self, decoder, len),
            RecordType::OPT => read_sized::<OPT>(self, decoder, len),
            RecordType::TSIG => read_sized::<TSIG>(self, decoder, len),
            RecordType::ZERO => Err(DataError::BadData),
            code => read_carried(self, decoder, code, len),
        }
    }

    /// The bytes of the canonical form (RFC 4034, 6.2).
    fn canonical_octets(&self) -> CanonicalOctets<'_>
        ensures { result ≡ canonical_data self.now }
    {
        match self {
            RData::A(rdata) => CanonicalOctets::of_bytes(&rdata.octets),
            RData::AAAA(rdata) => CanonicalOctets::of_bytes(&rdata.octets),
            RData::NS(rdata) => CanonicalOctets::of_name(&[], &rdata.name),
            RData::CNAME(rdata) => CanonicalOctets::of_name(&[], &rdata.name),
            RData::PTR(rdata) => CanonicalOctets::of_name(&[], &rdata.name),
            RData::ANAME(rdata) => CanonicalOctets::of_name(&[], &rdata.name),
            RData::MX(rdata) => {
                CanonicalOctets::of_name(&rdata.preference.to_be_bytes(), &rdata.exchange)
            }
            RData::SOA(rdata) => {
                CanonicalOctets::of_names(&rdata.mname, &rdata.rname, &rdata.number_octets())
            }
            RData::SRV(rdata) => { CanonicalOctets::of_name(&rdata.number_octets(), &rdata.target) }
            RData::TXT(rdata) => CanonicalOctets::of_bytes(rdata.as_wire()),
            RData::NULL(rdata) => CanonicalOctets::of_bytes(rdata.bytes()),
            RData::OPT(rdata) => CanonicalOctets::of_options(rdata.as_ref()),
            RData::TSIG(rdata) => CanonicalOctets::of_bytes(rdata.bytes()),
            RData::Update0(_) => CanonicalOctets::of_bytes(&[]),
            RData::Unknown { rdata, .. } => CanonicalOctets::of_bytes(rdata.bytes()),
        }
    }

    /// The names in the data, from the left: two at most.
    fn names(&self) -> (Option<&Name>, Option<&Name>)
        ensures count { length (data_names self.now) ≤ 2 }
        ensures first { option_copied result.0 ≡ slice_get (data_names self.now) 0 }
        ensures second { option_copied result.1 ≡ slice_get (data_names self.now) 1 }
    {
        match self {
            RData::NS(rdata) => (Some(&rdata.name), None),
            RData::CNAME(rdata) => (Some(&rdata.name), None),
            RData::PTR(rdata) => (Some(&rdata.name), None),
            RData::ANAME(rdata) => (Some(&rdata.name), None),
            RData::MX(rdata) => (Some(&rdata.exchange), None),
            RData::SOA(rdata) => (Some(&rdata.mname), Some(&rdata.rname)),
            RData::SRV(rdata) => (Some(&rdata.target), None),
            RData::A(_)
            | RData::AAAA(_)
            | RData::TXT(_)
            | RData::NULL(_)
            | RData::OPT(_)
            | RData::TSIG(_)
            | RData::Update0(_)
            | RData::Unknown { .. } => (None, None),
        }
    }

    /// The place of the kind in the order of kinds, that of the variants.
    fn kind_rank(&self) -> u8
        ensures { result ≡ kind_rank self.now }
    {
        match self {
            RData::A(_) => 0,
            RData::AAAA(_) => 1,
            RData::NS(_) => 2,
            RData::CNAME(_) => 3,
            RData::PTR(_) => 4,
            RData::ANAME(_) => 5,
            RData::MX(_) => 6,
            RData::SOA(_) => 7,
            RData::SRV(_) => 8,
            RData::TXT(_) => 9,
            RData::NULL(_) => 10,
            RData::OPT(_) => 11,
            RData::TSIG(_) => 12,
            RData::Update0(_) => 13,
            RData::Unknown { .. } => 14,
        }
    }
}

impl Clone for RData {
    ghost is_clone = { λ a b. b ≡ a };

    fn clone(&self) -> Result<RData, AllocError> {
        Ok(match self {
            RData::A(rdata) => RData::A(*rdata),
            RData::AAAA(rdata) => RData::AAAA(*rdata),
            RData::NS(rdata) => RData::NS(rdata.clone()?),
            RData::CNAME(rdata) => RData::CNAME(rdata.clone()?),
            RData::PTR(rdata) => RData::PTR(rdata.clone()?),
            RData::ANAME(rdata) => RData::ANAME(rdata.clone()?),
            RData::MX(rdata) => RData::MX(rdata.clone()?),
            RData::SOA(rdata) => RData::SOA(rdata.clone()?),
            RData::SRV(rdata) => RData::SRV(rdata.clone()?),
            RData::TXT(rdata) => RData::TXT(rdata.clone()?),
            RData::NULL(rdata) => RData::NULL(rdata.clone()?),
            RData::OPT(rdata) => RData::OPT(rdata.clone()?),
            RData::TSIG(rdata) => RData::TSIG(rdata.clone()?),
            RData::Update0(record_type) => RData::Update0(*record_type),
            RData::Unknown { code, rdata } => RData::Unknown {
                code: *code,
                rdata: rdata.clone()?,
            },
        })
    }
}

impl BinEncodable for RData {
    ghost word = { DataWord };

    ghost plain_len = { plain_data };

    ghost written = { data_written };

    ghost fits = { KeptData };

    ghost says = { data_says };

    /// Writes the data as its kind is written, names of NS, CNAME, PTR, MX and SOA with compression and all other data
    /// without it, and nothing for empty data (RFC 1035, 3.3; RFC 3597, 4).
    ///
    /// # Errors
    ///
    /// `MaxBufferSizeExceeded` where a byte would pass the limit; `Memory` if memory runs out.
    #[tactic(auto, using(base::proofs::writing::LawLemmas::writing))]
    fn emit(&self, encoder: &mut BinEncoder<'_>) -> Result<(), ProtoError> {
        match self {
            RData::A(rdata) => rdata.emit(encoder),
            RData::AAAA(rdata) => rdata.emit(encoder),
            RData::NS(rdata) => rdata.emit(encoder),
            RData::CNAME(rdata) => rdata.emit(encoder),
            RData::PTR(rdata) => rdata.emit(encoder),
            RData::ANAME(rdata) => rdata.emit(encoder),
            RData::MX(rdata) => rdata.emit(encoder),
            RData::SOA(rdata) => rdata.emit(encoder),
            RData::SRV(rdata) => rdata.emit(encoder),
            RData::TXT(rdata) => rdata.emit(encoder),
            RData::NULL(rdata) => rdata.emit(encoder),
            RData::OPT(rdata) => rdata.emit(encoder),
            RData::TSIG(rdata) => rdata.emit(encoder),
            RData::Update0(_) => Ok(()),
            RData::Unknown { rdata, .. } => rdata.emit(encoder),
        }
    }
}

impl fmt::Display for RData {
    ghost output = { λ r. Some (data_text r) };

    /// The text of its kind; `\# 0` for empty data (RFC 3597, 5).
    fn fmt<W: fmt::Write>(&self, f: &mut fmt::Formatter<W>) -> fmt::Result {
        match self {
            RData::A(rdata) => fmt::Display::fmt(rdata, f),
            RData::AAAA(rdata) => fmt::Display::fmt(rdata, f),
            RData::NS(rdata) => fmt::Display::fmt(rdata, f),
            RData::CNAME(rdata) => fmt::Display::fmt(rdata, f),
            RData::PTR(rdata) => fmt::Display::fmt(rdata, f),
            RData::ANAME(rdata) => fmt::Display::fmt(rdata, f),
            RData::MX(rdata) => fmt::Display::fmt(rdata, f),
            RData::SOA(rdata) => fmt::Display::fmt(rdata, f),
            RData::SRV(rdata) => fmt::Display::fmt(rdata, f),
            RData::TXT(rdata) => fmt::Display::fmt(rdata, f),
            RData::NULL(rdata) => fmt::Display::fmt(rdata, f),
            RData::OPT(rdata) => fmt::Display::fmt(rdata, f),
            RData::TSIG(rdata) => fmt::Display::fmt(rdata, f),
            RData::Update0(_) => f.write_str("\\# 0"),
            RData::Unknown { rdata, .. } => fmt::Display::fmt(rdata, f),
        }
    }
}
