//! The first step: whether an update is of types that are supported.

ghost use Rattle.op.specs.Message.{message_value};
ghost use Rattle.op_use.specs.Applying.{is_all_supported, is_supported as is_supported_record, is_supported_prerequisite};
ghost use Rattle.op_use.specs.SoundSet.{is_supported_type};
ghost use Rattle.op_use.specs.Server.{sections_of};
ghost use Rattle.std.specs.Prelude.{◌≡◌};

use crate::apply::rules::is_ordinary;
use base::{DNSClass, RecordType};
use op::Message;
use rr::Record;

/// Whether all records of an update are of types that are supported.
pub(crate) fn is_supported(message: &Message) -> bool
    ensures { result ≡ is_all_supported (sections_of (message_value message.now)) }
{
    for prerequisite in message.answers.as_slice() {
        if !is_supported_prerequisite(prerequisite) {
            return false;
        }
    }
    for update in message.authorities.as_slice() {
        if !is_supported_update(update) {
            return false;
        }
    }
    true
}

/// Whether a prerequisite is of a type that is supported. In the class NONE, ANY asks that the owner has no set
/// (RFC 2136, 2.4.5).
fn is_supported_prerequisite(entry: &Record) -> bool
    ensures { result ≡ is_supported_prerequisite entry.now }
{
    is_supported_update(entry)
        || (entry.record_type() == RecordType::ANY && matches!(entry.dns_class, DNSClass::NONE))
}

/// Whether an update is of a type that is supported: an ordinary one, NS, CNAME, or ANY in the class ANY.
fn is_supported_update(entry: &Record) -> bool
    ensures { result ≡ is_supported_record entry.now }
{
    is_supported_type(entry.record_type())
        || (entry.record_type() == RecordType::ANY && matches!(entry.dns_class, DNSClass::ANY))
}

/// Whether updates of records of a type are supported: of an ordinary one, NS or CNAME. ANY stands for types, and SOA is
/// changed by no update here (RFC 2136, 3.4.2.2).
pub fn is_supported_type(record_type: RecordType) -> bool
    ensures { result ≡ is_supported_type record_type }
{
    is_ordinary(record_type) || record_type == RecordType::NS || record_type == RecordType::CNAME
}
