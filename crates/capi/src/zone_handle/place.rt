//! The place of a zone transfer, as a caller in C keeps it from message to message.

ghost use Rattle.authority.specs.declared.transferring.TransferPlace.TheVariants as places;
ghost use Rattle.base.specs.RecordType.{type_number};
ghost use Rattle.tasks.specs.Asked.{Makes};
ghost use Rattle.capi.specs.KeptPlace.{key_kept, place_kept, type_by};
ghost use Rattle.std.specs.Prelude.{Ok, ◌≡◌};

use crate::walk::whole::put_name;
use authority::TransferPlace;
use base::{BinDecodable, BinDecoder, DecodeError, LowerName, Name, RecordType, RrKey};
use std::alloc::{AllocError, Global};
use tasks::refusal::Refusal;

/// Where the next message of a transfer begins, `struct fuzsbanel_transfer_place` of C: zero bytes are the start. Its
/// fields are the library's.
#[repr(C)]
#[derive(Clone, Copy, Drop)]
pub struct KeptPlace {
    /// The number of a record in its set.
    pub index: usize,
    /// The number of the set's type.
    pub record_type: u16,
    /// 0 at the first SOA, 1 at a record, 2 at the last SOA, 3 after that.
    pub kind: u8,
    /// Whether the type is `Unknown`: 0 or 1.
    pub is_unknown: u8,
    /// Whether the owner is absolute: 0 or 1.
    pub is_absolute: u8,
    /// How many bytes the owner has in wire form.
    pub name_len: u8,
    /// The owner in wire form.
    pub name: [u8; 255],
}

impl KeptPlace {
    /// A place as a caller keeps it.
    pub fn of(place: &TransferPlace) -> KeptPlace
        ensures { place_kept result ≡ Ok place.now }
    {
        match place {
            TransferPlace::Start => KeptPlace::of_kind(0),
            TransferPlace::Records(key, index) => KeptPlace::of_record(key, *index),
            TransferPlace::LastSoa => KeptPlace::of_kind(2),
            TransferPlace::End => KeptPlace::of_kind(3),
        }
    }

    /// A place that is told by its kind alone.
    fn of_kind(kind: u8) -> KeptPlace
        ensures { result.kind ≡ kind }
    {
        KeptPlace {
            index: 0,
            record_type: 0,
            kind,
            is_unknown: 0,
            is_absolute: 0,
            name_len: 0,
            name: [0; 255],
        }
    }

    /// The place at a record of the set under a key.
    fn of_record(key: &RrKey, index: usize) -> KeptPlace
        ensures { place_kept result ≡ Ok (places.Records key.now index) }
    {
        let owner = key.name.as_name();
        let wire_len = owner.as_wire().len() + 1;
        let mut name = [0; 255];
        let name_len = put_name(owner, &mut name[..wire_len]);
        KeptPlace {
            index,
            record_type: u16::from(key.record_type),
            kind: 1,
            is_unknown: unknown_flag(key.record_type),
            is_absolute: u8::from(owner.is_fqdn()),
            name_len,
            name,
        }
    }

    /// The place that is kept.
    ///
    /// # Errors
    ///
    /// 36 for bytes that no place is kept as.
    pub fn place(&self, alloc: Global) -> Result<TransferPlace, Refusal>
        ensures { Makes (λ place. place) (place_kept self.now) result }
    {
        match self.kind {
            0 => Ok(TransferPlace::Start),
            1 => Ok(TransferPlace::Records(self.key(alloc)?, self.index)),
            2 => Ok(TransferPlace::LastSoa),
            3 => Ok(TransferPlace::End),
            _ => Err(Refusal::NO_PLACE),
        }
    }

    /// The key that is kept.
    fn key(&self, alloc: Global) -> Result<RrKey, Refusal>
        ensures { Makes (λ key. key) (key_kept self.now) result }
    {
        let wire = &self.name[..usize::from(self.name_len)];
        match Name::read(&mut BinDecoder::new(alloc, wire)) {
            Ok(mut owner) => {
                owner.set_fqdn(self.is_absolute != 0);
                let owner = LowerName::new(alloc, &owner)?;
                Ok(RrKey::new(owner, self.record_type()))
            }
            Err(DecodeError::Memory) => Err(AllocError.into()),
            Err(_) => Err(Refusal::NO_PLACE),
        }
    }

    /// The type that is kept.
    fn record_type(&self) -> RecordType
        ensures { result ≡ type_by self.now.is_unknown self.now.record_type }
    {
        if self.is_unknown == 0 {
            RecordType::from(self.record_type)
        } else {
            RecordType::Unknown(self.record_type)
        }
    }
}

/// Whether a type is `Unknown`, which its number doesn't say: 0 or 1.
fn unknown_flag(record_type: RecordType) -> u8
    ensures { type_by result (type_number record_type) ≡ record_type }
{
    match record_type {
        RecordType::Unknown(_) => 1,
        _ => 0,
    }
}
