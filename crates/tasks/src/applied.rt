//! Updates applied to zone text (RFC 2136, 3).

ghost use Rattle.std.specs.BTreeMap.{IsOrdered};
ghost use Rattle.std.specs.List.{list_any};
ghost use Rattle.std.specs.Prelude.{IfOk, ◌≡◌};
ghost use Rattle.base.specs.RrKey.{key_cmp};
ghost use Rattle.base.specs.declared.rr_key.RrKey.{RrKey as Key};
ghost use Rattle.op.specs.Message.{message_value};
ghost use Rattle.op_use.specs.Server.{sections_of};
ghost use Rattle.rr.specs.RecordSet.{SetValue};
ghost use Rattle.txt.specs.ZoneSets.{AreKeyed};
ghost use Rattle.tasks.specs.Applied.{IsApplied, are_anames, update_and_zone};
ghost use Rattle.tasks.specs.Asked.{Makes, MakesBy};

use crate::fits::fits_wire;
use crate::message::message_of;
use crate::refusal::Refusal;
use crate::zone::zone_asked;
use base::{Name, RecordType, RrKey};
use op::Message;
use parsed_zone::{sets_after, update_lines};
use rr::RecordSet;
use std::alloc::Global;
use std::collections::BTreeMap;

/// What a server of the zone of an origin makes of an update and the zone's text: the name of its code on a line, and the
/// zone then (RFC 2136, 3). With any code but NoError the zone is as it was.
///
/// # Errors
///
/// The number of the update's first fault; those of `zone_asked`; 31 for a record that can't stand on the wire, 25 for a
/// set or a record of another class than IN, and 33 for an update that leaves an owner with two ANAME records.
pub fn apply(alloc: Global, update: &[u8], origin: &[u8], text: &[u8]) -> Result<Vec<u8>, Refusal>
    ensures { MakesBy (IsApplied update.now origin.now text.now) result }
{
    let (message, zone, sets) = update_and_zone(alloc, update, origin, text)?;
    if !fits_wire(&sets) {
        return Err(Refusal::NOT_ON_WIRE);
    }
    let (code, changed) = sets_after(alloc, &message, &zone, sets)?;
    if has_two_anames(&changed) {
        return Err(Refusal::TWO_ANAMES);
    }
    Ok(update_lines(alloc, code, &zone, changed)?.into_bytes())
}

/// Whether an owner has two ANAME records, or more.
pub fn has_two_anames(sets: &BTreeMap<RrKey, RecordSet>) -> bool
    ensures found { result ≡ list_any
        (λ (e : Key × SetValue). are_anames e.0 e.1.records) sets.now.entries }
    // The sets stand in the order of their keys, each once.
    ensures ordered { IsOrdered key_cmp sets.now }
{
    for (key, set) in sets {
        if key.record_type == RecordType::ANAME && set.records_count() > 1 {
            return true;
        }
    }
    false
}

/// The update, and the zone of the origin with the sets of the text.
fn update_and_zone(
    alloc: Global,
    update: &[u8],
    origin: &[u8],
    text: &[u8],
) -> Result<(Message, Name, BTreeMap<RrKey, RecordSet>), Refusal>
    ensures made { Makes (λ x. (sections_of (message_value x.0), (x.1, x.2.entries)))
        (update_and_zone update.now origin.now text.now) result }
    // Each set stands under the key of its owner and type, has a record and is tidy.
    ensures kept { IfOk result (λ x. AreKeyed x.2.entries) }
{
    let message = message_of(alloc, update)?;
    let (zone, sets) = zone_asked(alloc, origin, text, &[], &[])?;
    Ok((message, zone, sets))
}
