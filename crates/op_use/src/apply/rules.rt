//! What classes and types ask of an update (RFC 2136, 2.4, 2.5 and 3.4.2).

ghost use Rattle.base.specs.names.NameOrder.{same_name};
ghost use Rattle.op_use.specs.MapUpdates.{use_value};
ghost use Rattle.op_use.specs.Server.{is_meta as is_meta_type, use_of as the_use};
ghost use Rattle.op_use.specs.SoundSet.{is_ordinary as is_ordinary_type};
ghost use Rattle.rr.specs.RecordSet.{is_ns, is_soa};
ghost use Rattle.std.specs.Prelude.{◌&&◌, ◌||◌, ◌≡◌};

use base::{DNSClass, Name, RecordType};

/// What a class asks for.
#[derive(Clone, Copy, Drop)]
pub(crate) enum Use {
    /// As a prerequisite, that something is there; as an update, that it goes.
    OfAny,
    /// As a prerequisite, that something isn't there; as an update, that a record goes.
    OfNone,
    /// As a prerequisite, that a set is this; as an update, that a record comes.
    OfZone,
    /// Nothing that is known.
    OfNothing,
}

/// What a class asks for in a zone of this class.
pub(crate) fn use_of(zone_class: DNSClass, class: DNSClass) -> Use
    ensures { use_value result ≡ the_use zone_class class }
{
    match class {
        DNSClass::ANY => Use::OfAny,
        DNSClass::NONE => Use::OfNone,
        other => {
            if other == zone_class {
                Use::OfZone
            } else {
                Use::OfNothing
            }
        }
    }
}

/// Whether a set stays where all of its owner goes: SOA and NS at the origin (RFC 2136, 3.4.2.3).
pub(crate) fn is_guarded(origin: &Name, owner: &Name, record_type: RecordType) -> bool
    ensures { result ≡ (same_name owner.now origin.now
        && (is_soa record_type || is_ns record_type)) }
{
    *owner == *origin && (record_type == RecordType::SOA || record_type == RecordType::NS)
}

/// Whether updates treat a type like most.
pub(crate) fn is_ordinary(record_type: RecordType) -> bool
    ensures { result ≡ is_ordinary_type record_type }
{
    let number = u16::from(record_type);
    !(number == 0
        || number == 2
        || number == 5
        || number == 6
        || number == 11
        || number == 24
        || number == 41
        || (128 <= number && number <= 255))
}

/// Whether this is a query or meta type.
pub(crate) fn is_meta(record_type: RecordType) -> bool
    ensures { result ≡ is_meta_type record_type }
{
    let number = u16::from(record_type);
    128 <= number && number <= 255
}
