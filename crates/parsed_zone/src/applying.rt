//! What an update makes of a zone, as text (RFC 2136, 3).

ghost use Rattle.std.specs.BTreeMap.{IsOrdered};
ghost use Rattle.std.specs.Prelude.{◌≡◌, ◌⊎◌, IfErr, IfOk, false, true};
ghost use Rattle.std.specs.String.{string_bytes};
ghost use Rattle.base.specs.RrKey.{key_cmp};
ghost use Rattle.op.specs.Message.{message_value};
ghost use Rattle.op_use.specs.Applying.{IsApplied};
ghost use Rattle.op_use.specs.Server.{sections_of};
ghost use Rattle.parsed_zone.specs.Applied.{lines_after, update_lines};
ghost use Rattle.parsed_zone.specs.Classes.{are_sets_in};
ghost use Rattle.parsed_zone.specs.Faults.{MakesOrRefuses};
ghost use Rattle.parsed_zone.specs.ParsedZone.{MayBeUpdated};

use crate::classes::are_sets_in;
use crate::refusal::ZoneRefusal;
use crate::zone_text::zone_lines;
use base::{DNSClass, Name, RrKey};
use op::{Message, ResponseCode};
use op_use::update_in_place;
use rr::RecordSet;
use std::alloc::{AllocError, Global};
use std::collections::BTreeMap;

/// The code that a server answers an update with, and the sets of the zone then (RFC 2136, 3). With any code but NoError
/// they are the same.
///
/// The sets are such as `zone_of_bytes` or an earlier update made them.
///
/// # Errors
///
/// `Class` for a set or a record of another class than IN, and `Memory`.
pub fn sets_after(
    alloc: Global,
    message: &Message,
    name: &Name,
    sets: BTreeMap<RrKey, RecordSet>,
) -> Result<(ResponseCode, BTreeMap<RrKey, RecordSet>), ZoneRefusal>
    requires { MayBeUpdated sets }
    ensures applied { IfOk result (λ r. IsApplied name.now DNSClass.IN
        (sections_of (message_value message.now)) sets r.0 r.1) }
    ensures all { IfOk result (λ _. are_sets_in sets.entries ≡ true) }
    ensures refused { IfErr result (λ e. (e ≡ ZoneRefusal.Memory)
        ⊎ ((e ≡ ZoneRefusal.Class) × (are_sets_in sets.entries ≡ false))) }
{
    if !are_sets_in(&sets) {
        return Err(ZoneRefusal::Class);
    }
    let mut sets = sets;
    match update_in_place(alloc, &mut sets, name, DNSClass::IN, message) {
        Ok(code) => Ok((code, sets)),
        // An update is refused for memory alone.
        Err(_) => Err(ZoneRefusal::Memory),
    }
}

/// The name of the code that a server answers an update with, on a line, and the lines of the zone then (RFC 2136, 3).
/// With any code but NoError the zone is as it was.
///
/// The sets are such as `zone_of_bytes` or an earlier update made them.
///
/// # Errors
///
/// Those of `sets_after`.
pub fn lines_after(
    alloc: Global,
    message: &Message,
    name: &Name,
    sets: BTreeMap<RrKey, RecordSet>,
) -> Result<String, ZoneRefusal>
    requires { MayBeUpdated sets }
    ensures { MakesOrRefuses string_bytes
        (lines_after (sections_of (message_value message.now)) (name.now, sets.entries))
        result }
{
    let (code, changed) = sets_after(alloc, message, name, sets)?;
    Ok(update_lines(alloc, code, name, changed)?)
}

/// The name of a code on a line, and the lines of a zone.
///
/// # Errors
///
/// If memory runs out.
pub fn update_lines(
    alloc: Global,
    code: ResponseCode,
    name: &Name,
    sets: BTreeMap<RrKey, RecordSet>,
) -> Result<String, AllocError>
    ensures lines { IfOk result (λ lines. string_bytes lines
        ≡ update_lines code (name.now, sets.entries)) }
    // The sets that were handed in stand in the order of their keys, each once.
    ensures ordered { IfOk result (λ _. IsOrdered key_cmp sets) }
{
    let word = code.name().unwrap_or("");
    let mut lines = format!(in alloc; "{word}\n")?;
    lines.push_str(&zone_lines(alloc, name, sets)?)?;
    Ok(lines)
}
