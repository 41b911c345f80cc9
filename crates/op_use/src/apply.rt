//! Updates applied to the record sets of a zone (RFC 2136, 3).

ghost use Rattle.op_use.specs.Outcome.{IsAnswer};
ghost use Rattle.std.specs.Prelude.{◌≡◌, IfOk, IsOkUnless, OnErr};
ghost use Rattle.op.specs.Message.{message_value};
ghost use Rattle.op_use.specs.Applying.{HasSameSets, IsApplied, IsChangeTold, IsZoneMap};
ghost use Rattle.op_use.specs.HeldZone.{zone_held};
ghost use Rattle.op_use.specs.Server.{fault as fault_of, sections_of};

mod changes;
mod changing_zone;
mod current_set;
pub mod laws;
mod outcome;
mod prerequisites;
mod prescan;
mod rules;
mod supported;
mod updates;
mod zone;
mod zone_section;

use base::{DNSClass, Name, ProtoError, RrKey};
use op::{Message, ResponseCode};
use outcome::Outcome;
use rr::RecordSet;
use std::alloc::{AllocError, Global};
use std::collections::BTreeMap;
use supported::is_supported;
pub use supported::is_supported_type;
use zone::Zone;

/// Applies an update to the sets of a zone of this origin and class: answers the server's code (RFC 2136, 2.2), and the
/// sets then.
///
/// A message with a record of a type that isn't supported is answered NotImp, before anything else is looked at:
/// supported are the ordinary types, NS, CNAME, and ANY where it stands for all types of an owner. With any code but
/// NoError the sets are the same. A record that is added is the message's, also where it replaces one of equal data. A
/// set that changes has the TTL of the last of its records; one whose records are the same in the end stays as it was,
/// in every field. Opcode and message type aren't looked at.
///
/// Each set that is handed in has records, no two of them of equal data, has this class, and stands under its own key;
/// this holds of the answered sets too. Those that are handed in stay as they are.
///
/// # Errors
///
/// If memory runs out.
pub fn apply_update(
    alloc: Global,
    sets: &BTreeMap<RrKey, RecordSet>,
    origin: &Name,
    class: DNSClass,
    message: &Message,
) -> Result<(ResponseCode, BTreeMap<RrKey, RecordSet>), ProtoError>
    requires { IsZoneMap class sets.now }
    // The code and the zone are those that a server makes (RFC 2136, 3); the new map may be updated
    // again; and the records of each set, their order and their spelling are told too.
    ensures applied { IfOk result
        (λ r. IsApplied origin.now class (sections_of (message_value message.now)) sets.now r.0
        r.1) }
    ensures only { IsOkUnless result ProtoError.Memory }
{
    let mut sets = sets.clone()?;
    let code = update_in_place(alloc, &mut sets, origin, class, message)?;
    Ok((code, sets))
}

/// Applies an update to the sets of a zone of this origin and class where they are: answers the server's code, and the
/// sets become those that `apply_update` answers.
///
/// With any code but NoError, and where memory runs out, each set stays in every field as it was. What the update
/// doesn't name isn't copied or looked at: of the owners that it names the keys are, and of their sets those that
/// change.
///
/// # Errors
///
/// If memory runs out.
pub fn update_in_place(
    alloc: Global,
    sets: &mut BTreeMap<RrKey, RecordSet>,
    origin: &Name,
    class: DNSClass,
    message: &Message,
) -> Result<ResponseCode, ProtoError>
    requires { IsZoneMap class sets.old }
    // The code and the sets are those that a server makes of the zone (RFC 2136, 3).
    ensures applied { IfOk result
        (λ code. IsApplied origin.now class (sections_of (message_value message.now)) sets.old
        code sets.new) }
    ensures refused { OnErr result (HasSameSets sets.old sets.new) }
    ensures only { IsOkUnless result ProtoError.Memory }
{
    Ok(apply_in_place(alloc, sets, origin, class, message)?.code)
}

/// What came of an update.
#[derive(Clone, Copy, Debug, Drop, PartialEq, Eq)]
pub struct Applied {
    /// The server's code (RFC 2136, 2.2).
    pub code: ResponseCode,
    /// Whether some set is another than before, in some field. A server raises the zone's serial then (RFC 2136, 3.6).
    pub is_changed: bool,
}

/// Does as `update_in_place` does, and tells beside the code whether that changed anything: with NoError an update may
/// leave each set as it was, as one that adds what is there.
///
/// # Errors
///
/// If memory runs out.
pub fn apply_in_place(
    alloc: Global,
    sets: &mut BTreeMap<RrKey, RecordSet>,
    origin: &Name,
    class: DNSClass,
    message: &Message,
) -> Result<Applied, ProtoError>
    requires { IsZoneMap class sets.old }
    // The code and the sets are those that a server makes of the zone (RFC 2136, 3).
    ensures applied { IfOk result
        (λ a. IsApplied origin.now class (sections_of (message_value message.now)) sets.old
        a.code sets.new) }
    ensures told { IfOk result (λ a. IsChangeTold a.is_changed sets.old sets.new) }
    ensures refused { OnErr result (HasSameSets sets.old sets.new) }
    ensures only { IsOkUnless result ProtoError.Memory }
{
    let answer = find_answer(sets, origin, class, message)?;
    match answer {
        Answer::Refused(code) => Ok(Applied {
            code,
            is_changed: false,
        }),
        Answer::Done(outcome) => {
            let is_changed = outcome.has_any();
            outcome.install(alloc, sets)?;
            Ok(Applied {
                code: ResponseCode::NoError,
                is_changed,
            })
        }
    }
}

/// What comes of an update.
#[derive(Drop)]
enum Answer {
    /// Nothing changes.
    Refused(ResponseCode),
    /// The sets are changed so.
    Done(Outcome),
}

/// What comes of an update of a zone, which stays as it is so far.
fn find_answer(
    sets: &BTreeMap<RrKey, RecordSet>,
    origin: &Name,
    class: DNSClass,
    message: &Message,
) -> Result<Answer, AllocError>
    requires { IsZoneMap class sets.now }
    ensures { IfOk result
        (λ a. IsAnswer origin.now class (sections_of (message_value message.now)) sets.now a) }
{
    let zone = Zone {
        origin,
        class,
        sets,
    };
    if !is_supported(message) {
        return Ok(Answer::Refused(ResponseCode::NotImp));
    }
    if let Some(code) = fault(&zone, message)? {
        return Ok(Answer::Refused(code));
    }
    let outcome = zone.outcome(&message.authorities)?;
    Ok(Answer::Done(outcome))
}

/// The code that an update is refused with, if it is: by its zone section, its prerequisites or the prescan, in this
/// order. The first test that fails is answered at once.
fn fault(zone: &Zone, message: &Message) -> Result<Option<ResponseCode>, AllocError>
    ensures { IfOk result (λ f. f
        ≡ fault_of (zone_held zone.now) (sections_of (message_value message.now))) }
{
    if let Some(code) = zone.zone_fault(&message.queries) {
        return Ok(Some(code));
    }
    if let Some(code) = zone.prerequisites_fault(&message.answers)? {
        return Ok(Some(code));
    }
    Ok(zone.prescan_fault(&message.authorities))
}
