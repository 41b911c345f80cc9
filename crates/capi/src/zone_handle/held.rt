//! What a handle holds.

ghost use Rattle.base.specs.RrKey.{key_of};
ghost use Rattle.base.specs.declared.dns_class.DNSClass.TheVariants as classes;
ghost use Rattle.base.specs.declared.record_type.RecordType.TheVariants as types;
ghost use Rattle.op_use.specs.Applying.{IsZoneMap};
ghost use Rattle.std.proofs.Props.{props};
ghost use Rattle.std.specs.Prelude.{◌≡◌};

use base::{Name, RrKey};
use rr::RecordSet;
use std::alloc::Global;
use std::collections::BTreeMap;

/// A zone of the class IN, such as updates may be applied to.
#[derive(Drop)]
pub struct HeldZone {
    /// The origin.
    pub origin: Name,
    /// The sets, by owner and type.
    pub sets: BTreeMap<RrKey, RecordSet, Global>,
    /// The key of the SOA, which is made at the opening, so that raising the serial takes no memory.
    pub soa: RrKey,
    ghost soa_is: { soa ≡ key_of origin types.SOA } by { Prim.hlevel props },
    ghost kept: { IsZoneMap classes.IN sets } by { Prim.hlevel props },
}
