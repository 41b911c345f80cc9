//! Reads data by type and length.

ghost use Rattle.std.specs.Prelude.{◌≡◌, ◌<◌, [], true};
ghost use Rattle.base.specs.reading.Reading.{Reads, bytes_at};
ghost use Rattle.base.specs.reading.Tracks.{Tracks};
ghost use Rattle.base_data.specs.Kinds.{as_any, data_places};
ghost use Rattle.base_data.specs.InPlace.{ReadsInto, data_fault, reason_of};
ghost use Rattle.base_data.specs.RData.{is_empty_data, rdata_at};
ghost use Rattle.base_data.specs.declared.rdata.RData.TheVariants as kinds;

use crate::rdata::{NULL, RData};
use crate::record_data::RecordData;
use base::{BinDecodable, BinDecoder, DecodeError, RecordType};
use std::mem;

impl RData {
    /// Reads the data of a type, of `len` bytes (RFC 1035, 3.2.1): data of length 0 is `Update0`, and data of a type
    /// that has no kind of its own is `Unknown`. Pointers of names are followed.
    ///
    /// # Errors
    ///
    /// `BadData` where the bytes are no data of the type, where the data doesn't fill its length exactly, and for data
    /// of type 0 that has a byte; `Memory` if memory runs out.
    pub fn read(
        decoder: &mut BinDecoder<'_>,
        record_type: RecordType,
        len: u16,
    ) -> Result<RData, DecodeError>
        ensures read { Reads (λ x. x) decoder.old decoder.new result
            (rdata_at record_type len decoder.old.bytes decoder.old.index) }
        // As of every read, see `BinDecodable::read`: of the names of the data.
        ensures tracks { Tracks (λ d. data_places d decoder.old.bytes decoder.old.index) decoder.old
            decoder.new result }
    {
        let mut rdata = RData::Update0(record_type);
        rdata.read_in_place(decoder, record_type, len)?;
        Ok(rdata)
    }

    /// Reads data as `read` does, but in the place of empty data, since it is faster not to move what was read.
    ///
    /// # Errors
    ///
    /// Those of `read`.
    #[tactic(auto, unfolding(crate::specs::RData::rdata_at))]
    pub fn read_in_place(
        &mut self,
        decoder: &mut BinDecoder<'_>,
        record_type: RecordType,
        len: u16,
    ) -> Result<(), DecodeError>
        requires empty { is_empty_data self.old ≡ true }
        ensures read { Reads (λ _. self.new) decoder.old decoder.new result
            (rdata_at record_type len decoder.old.bytes decoder.old.index) }
        // As of every read, see `BinDecodable::read`: of the names of the data.
        ensures tracks { Tracks (λ _. data_places self.new decoder.old.bytes decoder.old.index)
            decoder.old decoder.new result }
    {
        let end = decoder.index() + usize::from(len);
        if len == 0 {
            *self = RData::Update0(record_type);
            return Ok(());
        }
        if let Err(reason) = self.read_kind(decoder, record_type, len) {
            return Err(reason.fault(record_type));
        }
        if decoder.index() == end {
            Ok(())
        } else {
            Err(DecodeError::BadData(record_type))
        }
    }

    /// Puts data into the place of empty data. That takes no memory and is let go of as it is, since a test of what it
    /// is would cost time.
    fn fill(&mut self, rdata: RData)
        requires empty { is_empty_data self.old ≡ true }
        ensures { self.new ≡ rdata }
    {
        mem::forget(mem::replace(self, rdata));
    }
}

/// Why data wasn't read. It is small, since a refusal takes room in each call that might give it.
#[derive(Clone, Copy, Drop)]
pub(crate) enum DataError {
    /// Memory ran out.
    Memory,
    /// The bytes are no data of the type, or the data doesn't fill its length exactly.
    BadData,
}

impl DataError {
    /// The fault of data of a type.
    fn fault(self, record_type: RecordType) -> DecodeError
        ensures { result ≡ data_fault record_type self }
    {
        match self {
            DataError::Memory => DecodeError::Memory,
            DataError::BadData => DecodeError::BadData(record_type),
        }
    }
}

impl From<DecodeError> for DataError {
    ghost from_gives = { λ fault e. e ≡ reason_of fault };

    fn from(fault: DecodeError) -> DataError {
        match fault {
            DecodeError::Memory => DataError::Memory,
            _ => DataError::BadData,
        }
    }
}

/// Data whose end is told by its length alone.
pub(crate) trait SizedData: RecordData {
    ghost use Rattle.std.specs.Prelude.{◌<◌, ℕ, List, []};
    ghost use Rattle.base.specs.reading.Reading.{Read, Reads};
    ghost use Rattle.base.specs.reading.Tracks.{Tracks};

    ghost sized_at: { ℕ → List ℕ → ℕ → Read Self };

    /// Reads the data of `len` bytes, one at least, and moves after it.
    ///
    /// # Errors
    ///
    /// The first fault; `Memory` if memory runs out. A decoder that refused isn't used again.
    fn read(decoder: &mut BinDecoder<'_>, len: u16) -> Result<Self, DecodeError>
        requires { 0 < len }
        ensures read { Reads (λ x. x) decoder.old decoder.new result
            (sized_at len decoder.old.bytes decoder.old.index) }
        // As of every read, see `BinDecodable::read`: the data has no names.
        ensures tracks { Tracks (λ _. []) decoder.old decoder.new result };
}

/// Reads the data of a kind that ends by itself, in the place of empty data. No reader of a kind is inlined, which is
/// faster: inlined, what is read is put together of pieces that are as small as some kind needs.
#[inline(never)]
pub(crate) fn read_as<R: BinDecodable + RecordData>(
    place: &mut RData,
    decoder: &mut BinDecoder<'_>,
) -> Result<(), DataError>
    requires empty { is_empty_data place.old ≡ true }
    ensures read { ReadsInto decoder.old decoder.new place.new result
        (as_any R.as_rdata (R.read_at decoder.old.bytes decoder.old.index)) }
    // As of every read, see `BinDecodable::read`: of the names of the data.
    ensures tracks { Tracks (λ _. R.names_at decoder.old.bytes decoder.old.index) decoder.old
        decoder.new result }
{
    place.fill(R::read(decoder)?.into_rdata());
    Ok(())
}

/// Reads the data of a kind whose end is told by its length, in the place of empty data.
#[inline(never)]
pub(crate) fn read_sized<R: SizedData>(
    place: &mut RData,
    decoder: &mut BinDecoder<'_>,
    len: u16,
) -> Result<(), DataError>
    requires some { 0 < len }
    requires empty { is_empty_data place.old ≡ true }
    ensures read { ReadsInto decoder.old decoder.new place.new result
        (as_any R.as_rdata (R.sized_at len decoder.old.bytes decoder.old.index)) }
    // As of every read, see `BinDecodable::read`: the data has no names.
    ensures tracks { Tracks (λ _. []) decoder.old decoder.new result }
{
    place.fill(R::read(decoder, len)?.into_rdata());
    Ok(())
}

/// Reads the bytes of a type that has no kind of its own, in the place of empty data (RFC 3597, 3).
#[inline(never)]
pub(crate) fn read_carried(
    place: &mut RData,
    decoder: &mut BinDecoder<'_>,
    code: RecordType,
    len: u16,
) -> Result<(), DataError>
    requires some { 0 < len }
    requires empty { is_empty_data place.old ≡ true }
    ensures read { ReadsInto decoder.old decoder.new place.new result
        (as_any (kinds.Unknown code) (bytes_at len decoder.old.bytes decoder.old.index)) }
    // As of every read, see `BinDecodable::read`: the data has no names.
    ensures tracks { Tracks (λ _. []) decoder.old decoder.new result }
{
    let rdata = NULL::read(decoder, len)?;
    place.fill(RData::Unknown { code, rdata });
    Ok(())
}
