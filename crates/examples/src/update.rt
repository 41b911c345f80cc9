//! Creates a record set in the zone of a text, by an update that is sent and received.

ghost use Rattle.base.specs.declared.limits.TheConstants.{MAX_MESSAGE};
ghost use Rattle.std.specs.Prelude.{◌≡◌, ◌⊎◌, Err, IfErr, IfOk, true};
ghost use Rattle.base.specs.names.NameOrder.{is_zone_of};
ghost use Rattle.base.specs.declared.error.proto_error.ProtoError.TheVariants as refusals;
ghost use Rattle.op.specs.Cut.{IsWritten};
ghost use Rattle.op.specs.Message.{message_value};
ghost use Rattle.op.specs.MessageWritten.{message_answer, message_bytes};
ghost use Rattle.op_use.specs.SoundSet.{IsSendable};
ghost use Rattle.examples.specs.Callers.{IsCreated, IsNoZone, IsNotReceived, IsReceived, IsUnsent, IsZoneOfText, creating};

use crate::refusal::Refusal;
use base::{DNSClass, Name, ProtoError, RrKey};
use op::{Message, ResponseCode};
use op_use::apply::laws::built_updates_apply_as_named;
use op_use::apply_update;
use op_use::update_message::create;
use parsed_zone::are_sets_in;
use rr::RecordSet;
use std::alloc::Global;
use std::collections::BTreeMap;
use txt::Parser;

/// The zone of a text, of the class IN, after the update that creates a set in it, with the server's code: the set is
/// merged into the zone, or, where there is one of its owner and type, the zone is as it was and the code YXRRSet (RFC
/// 2136, 3).
///
/// The set's owner lies in the zone of the origin.
///
/// # Errors
///
/// `Parse` for a text that is no zone's; `Class` for a zone of another class; `Input` for an update that doesn't fit a
/// message; `Memory` if memory runs out.
pub fn create_in(
    alloc: Global,
    origin: &Name,
    text: &str,
    set: RecordSet,
) -> Result<(ResponseCode, BTreeMap<RrKey, RecordSet>), Refusal>
    requires { is_zone_of origin.now set.name ≡ true }
    // What a server makes of the update; and what that is for a set that can be sent, of an
    // ordinary type and of class IN, whose owner has no CNAME there.
    ensures created { IfOk result (λ r. IsCreated origin.now text.now set r.0 r.1) }
    ensures refused { IfErr result
        (λ e. IsUnsent origin.now set e ⊎ IsNoZone origin.now text.now e) }
{
    built_updates_apply_as_named();
    let bytes = update_bytes(alloc, origin, set)?;
    let update = whole_message(alloc, &bytes)?;
    let sets = zone_of_text(alloc, origin, text)?;
    Ok(apply_update(alloc, &sets, origin, DNSClass::IN, &update)?)
}

/// The bytes of the update that creates a set.
fn update_bytes(alloc: Global, origin: &Name, set: RecordSet) -> Result<Vec<u8>, ProtoError>
    requires { is_zone_of origin.now set.name ≡ true }
    // Where the set can be sent, the bytes are a cut of that message, and are read as that cut.
    ensures written { IfOk result
        (λ bytes. IsSendable origin.now set
        → IsWritten (creating origin.now set) MAX_MESSAGE bytes.items) }
    // The bytes are exactly those of the definition `message_bytes`.
    ensures exact { IfOk result
        (λ bytes. bytes.items ≡ message_bytes MAX_MESSAGE (creating origin.now set)) }
    ensures refused { IfErr result (λ e. (e ≡ refusals.Memory)
        ⊎ (message_answer MAX_MESSAGE (creating origin.now set) ≡ Err e)) }
{
    let update = create(alloc, 1, set, origin.clone()?, false)?;
    update.to_vec()
}

/// The message that bytes begin with, if it was not cut.
fn whole_message(alloc: Global, bytes: &[u8]) -> Result<Message, Refusal>
    // A message begins the bytes, and its TC bit isn't set.
    ensures whole { IfOk result (λ m. IsReceived bytes.now (message_value m)) }
    ensures refused { IfErr result (λ e. IsNotReceived bytes.now e) }
{
    let message = Message::from_vec(alloc, bytes)?;
    if message.metadata.truncation {
        return Err(Refusal::Input);
    }
    Ok(message)
}

/// The sets of a zone of the class IN.
fn zone_of_text(
    alloc: Global,
    origin: &Name,
    text: &str,
) -> Result<BTreeMap<RrKey, RecordSet>, Refusal>
    ensures zone { IfOk result (λ sets. IsZoneOfText origin.now text.now sets) }
    ensures refused { IfErr result (λ e. IsNoZone origin.now text.now e) }
{
    let includes = BTreeMap::new(alloc);
    let (_, sets) = Parser::new(alloc, text, &includes, Some(origin.clone()?)).parse()?;
    if !are_sets_in(&sets) {
        return Err(Refusal::Class);
    }
    Ok(sets)
}
