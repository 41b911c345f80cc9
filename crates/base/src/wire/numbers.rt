//! Types and classes, each a number of two bytes (RFC 1035, 3.2.1 and 4.1.2).

ghost use Rattle.std.specs.Prelude.{◌<◌, ◌^◌, Ok};
ghost use Rattle.std.specs.Int.{w16, to_be_bytes};
ghost use Rattle.base.specs.DNSClass.{class_number, class_of};
ghost use Rattle.base.specs.reading.Reading.{number_at, ◌>>=◌};
ghost use Rattle.base.specs.RecordType.{type_number, type_of};
ghost use Rattle.base.specs.writing.SaysParts.{Says-number};
ghost use Rattle.base.specs.Words.{Number};
ghost use Rattle.base.specs.writing.Written.{just};

use crate::dns_class::DNSClass;
use crate::error::{DecodeError, ProtoError};
use crate::record_type::RecordType;
use crate::wire::decodable::BinDecodable;
use crate::wire::decoder::BinDecoder;
use crate::wire::encodable::BinEncodable;
use crate::wire::encoder::BinEncoder;

impl BinEncodable for RecordType {
    ghost word = { λ t. Number w16 (type_number t) };

    ghost plain_len = { λ _. 2 };

    ghost written = { λ t. just (to_be_bytes w16 (type_number t)) };

    ghost fits = { λ t. type_number t < 2 ^ 16 };

    ghost says = { λ t. Says-number (type_number t) };

    #[inline(always)]
    fn emit(&self, encoder: &mut BinEncoder<'_>) -> Result<(), ProtoError> {
        u16::from(*self).emit(encoder)
    }
}

impl BinDecodable for RecordType {
    ghost read_at = { λ bytes i. number_at w16 bytes i >>= λ r. Ok (type_of r.0, r.1) };

    /// Reads a type at the decoder's place, and moves after it.
    ///
    /// # Errors
    ///
    /// `InsufficientBytes` where less than two bytes are left.
    #[inline(always)]
    fn read(decoder: &mut BinDecoder<'_>) -> Result<RecordType, DecodeError> {
        Ok(RecordType::from(decoder.read_u16()?))
    }
}

impl BinEncodable for DNSClass {
    ghost word = { λ c. Number w16 (class_number c) };

    ghost plain_len = { λ _. 2 };

    ghost written = { λ c. just (to_be_bytes w16 (class_number c)) };

    ghost fits = { λ c. class_number c < 2 ^ 16 };

    ghost says = { λ c. Says-number (class_number c) };

    fn emit(&self, encoder: &mut BinEncoder<'_>) -> Result<(), ProtoError> {
        u16::from(*self).emit(encoder)
    }
}

impl BinDecodable for DNSClass {
    ghost read_at = { λ bytes i. number_at w16 bytes i >>= λ r. Ok (class_of r.0, r.1) };

    /// Reads a class at the decoder's place, and moves after it; never `OPT`.
    ///
    /// # Errors
    ///
    /// `InsufficientBytes` where less than two bytes are left.
    fn read(decoder: &mut BinDecoder<'_>) -> Result<DNSClass, DecodeError> {
        Ok(DNSClass::from(decoder.read_u16()?))
    }
}
