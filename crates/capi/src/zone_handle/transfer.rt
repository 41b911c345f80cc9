//! Zone transfers of a zone that a caller holds, message by message (RFC 5936, 2.2).

ghost use Rattle.std.specs.Prelude.{◌≡◌};
ghost use Rattle.capi.specs.Holding.{zone_held, zone_in};
ghost use Rattle.capi.specs.ZoneTransfer.{IsMoved, IsServing, Serves, ServesHeld, served_made};

use super::handle::ZoneHandle;
use super::held::HeldZone;
use super::holding::Holding;
use super::place::KeptPlace;
use super::{put, take};
use crate::answer::give;
use authority::transfer;
use base::{DNSClass, ProtoError};
use std::alloc::Global;
use tasks::message::message_of;
use tasks::refusal::Refusal;

/// Writes the next message of a zone transfer into the caller's buffer, and moves the place after it; 0 bytes where
/// nothing is sent, at the transfer's end or to a response, and the place stays. A place begins as zero bytes, and is
/// the library's from then on. A query for no transfer of this zone is answered by one message with a code alone.
///
/// # Errors
///
/// 34 for a closed handle, the number of the query's first fault, 36 for a place that no call left, and 32 for a record
/// that no message of 65,535 bytes holds. Where it refuses, or the buffer has no room, the place stays.
#[unsafe(no_mangle)]
pub extern "C" fn fuzsbanel_zone_serve_transfer(
    alloc: Global,
    handle: &mut ZoneHandle,
    query: &[u8],
    place: &mut KeptPlace,
    out: &mut [u8],
    needed: &mut usize,
) -> i64
    ensures zone { handle.new.zone ≡ handle.old.zone }
    ensures served { IsServing (zone_held handle.old.zone) query.now place.old place.new
        out.old out.new needed.new result }
{
    match take(alloc, handle) {
        Some(holding) => {
            let sent = next_held(alloc, &holding, query, place);
            put(handle, holding);
            go_on(sent, place, out, needed)
        }
        None => go_on(Err(Refusal::CLOSED), place, out, needed),
    }
}

/// The same of the zone that a handle holds.
fn next_held(
    alloc: Global,
    holding: &Holding,
    query: &[u8],
    kept: &KeptPlace,
) -> Result<(Vec<u8>, KeptPlace), Refusal>
    ensures { ServesHeld (zone_in holding.now) query.now kept.now result }
{
    match holding.zone() {
        Some(zone) => next_message(alloc, zone, query, kept),
        None => Err(Refusal::CLOSED),
    }
}

/// The bytes of the next message, and the place after it; no bytes, and the same place, where nothing is sent.
fn next_message(
    alloc: Global,
    zone: &HeldZone,
    query: &[u8],
    kept: &KeptPlace,
) -> Result<(Vec<u8>, KeptPlace), Refusal>
    ensures { Serves zone.now query.now kept.now result }
{
    let query = message_of(alloc, query)?;
    let place = kept.place(alloc)?;
    match transfer(
        alloc,
        &zone.sets,
        &zone.origin,
        DNSClass::IN,
        &query,
        &place,
    ) {
        Ok(Some((message, next))) => Ok((message.to_vec()?, KeptPlace::of(&next))),
        Ok(None) => Ok((Vec::new(alloc), *kept)),
        Err(ProtoError::MaxBufferSizeExceeded) => Err(Refusal::TOO_LONG),
        Err(e) => Err(e.into()),
    }
}

/// Gives the bytes, and moves the place, if the caller's buffer has room.
fn go_on(
    served: Result<(Vec<u8>, KeptPlace), Refusal>,
    kept: &mut KeptPlace,
    out: &mut [u8],
    needed: &mut usize,
) -> i64
    ensures { IsMoved (served_made served) kept.old kept.new out.old out.new needed.new result }
{
    match served {
        Ok((bytes, next)) => {
            let answer = give(Ok(bytes), out, needed);
            if answer >= 0 {
                *kept = next;
            }
            answer
        }
        Err(refusal) => give(Err(refusal), out, needed),
    }
}
