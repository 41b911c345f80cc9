//! A zone that a caller holds from call to call: opened from text, updated where it is, written as text, closed.
//!
//! A handle begins as closed, its bytes all zero. One call at a time uses it, and it is moved, never copied: its fields
//! are the library's. Of a closed handle every call answers 34, but the one that opens it and the one that closes it.

ghost use Rattle.std.specs.List.{list_any};
ghost use Rattle.std.specs.Option.{option_map};
ghost use Rattle.std.specs.Prelude.{◌≡◌, ◌≢◌, None, Some, false, neg_ℤ, pos};
ghost use Rattle.tasks.specs.Asked.{Makes, MakesBy};
ghost use Rattle.capi.specs.Answer.{IsAnswered, IsAnsweredBy};
ghost use Rattle.capi.specs.Holding.{EndsAlone, IsAlone, zone_held, zone_in};
ghost use Rattle.capi.specs.ZoneCheck.{IsToldOf, zone_fault};
ghost use Rattle.capi.specs.ZoneHandle.{answer_asked, answer_of, carrier, IsHeldText, IsOpenAt, IsOpened, IsRaisedIn, IsRaisingHeld, IsSharing, IsTextOf, IsUpdated, IsUpdating, Opens};

pub mod handle;
mod held;
mod holding;
mod loose;
pub mod place;
pub mod transfer;

use crate::answer::{NO_MEMORY, give, number, refusal_code};
use crate::zone_check::{FaultFound, fuzsbanel_zone_check};
use authority::{Carrier, respond};
use base::{DNSClass, RecordType, RrKey};
use handle::ZoneHandle;
use held::HeldZone;
use holding::Holding;
use loose::Loose;
use op_use::{apply_in_place, raise_serial};
use parsed_zone::{are_sets_in, zone_lines};
use std::alloc::{AllocError, Global};
use std::mem;
use tasks::applied::has_two_anames;
use tasks::fits::fits_wire;
use tasks::included::Included;
use tasks::message::message_of;
use tasks::refusal::Refusal;
use tasks::zone::zone_asked;

/// Opens a handle at the zone of an origin, whose records are those of a text, and answers 0. What the handle held
/// before is freed. The text is read as `fuzsbanel_apply` reads one: an `$ORIGIN` of it is that of names, and never of
/// the zone. The texts that it may include are handed in as `fuzsbanel_zone_check` takes them. What that tells of a text,
/// the place and the words of its fault, is told of one that is refused.
///
/// # Errors
///
/// 26 for an origin without bytes, and those of `fuzsbanel_zone`; 25 for a set or a record of another class than IN. The
/// handle then holds what it held.
#[unsafe(no_mangle)]
pub extern "C" fn fuzsbanel_zone_open(
    alloc: Global,
    origin: &[u8],
    text: &[u8],
    included: &[Included],
    included_bytes: &[u8],
    handle: &mut ZoneHandle,
    name: &mut [u8],
    words: &mut [u8],
    found: &mut FaultFound,
) -> i64
    ensures opened { IsOpened origin.now text.now included.now included_bytes.now handle.old.zone
        handle.new.zone result }
    ensures told { IsToldOf (zone_fault origin.now text.now included.now included_bytes.now)
        name.old name.new words.old words.new found.new result }
{
    *found = FaultFound::NONE;
    let refusal = match zone_of(alloc, origin, text, included, included_bytes) {
        Ok(zone) => return open_at(alloc, handle, Holding::Own(zone)),
        Err(refusal) => refusal,
    };
    if !origin.is_empty() {
        let checked = fuzsbanel_zone_check(
            alloc,
            origin,
            text,
            included,
            included_bytes,
            name,
            words,
            found,
        );
        if checked == NO_MEMORY {
            return NO_MEMORY;
        }
    }
    number(Err(refusal))
}

/// Applies an update to the zone, where it is, and answers the server's code (RFC 2136, 2.2 and 3): 0 for NoError, and
/// the zone is changed. With any other code, and where the call is refused, each set stays as it was. An update costs
/// what it names, and no more for a larger zone; where other handles share the zone it is copied first, and those keep it as
/// it was. The SOA's serial stays as it is. With `is_changed` the zone is another than before: a server raises the serial
/// then (RFC 2136, 3.6), and not for an update that leaves each set as it was.
///
/// # Errors
///
/// 34 for a closed handle, and the number of the update's first fault.
#[unsafe(no_mangle)]
pub extern "C" fn fuzsbanel_zone_update(
    alloc: Global,
    handle: &mut ZoneHandle,
    update: &[u8],
    is_changed: &mut bool,
) -> i64
    ensures updating { IsUpdating update.now (zone_held handle.old.zone) (zone_held handle.new.zone)
        is_changed.new result }
    ensures alone { EndsAlone handle.old.zone handle.new.zone result }
{
    *is_changed = false;
    match take(alloc, handle) {
        Some(mut holding) => {
            let code = update_held(alloc, &mut holding, update, is_changed);
            put(handle, holding);
            code
        }
        None => number(Err(Refusal::CLOSED)),
    }
}

/// Raises the serial of the zone's SOA by one, modulo 2^32, as a server does after an update (RFC 1982, 3.1; RFC 2136,
/// 3.6), and answers the new serial. All else of the zone stays as it was. Takes no memory, so 3 is never answered, unless
/// other handles share the zone, of which it is copied first.
///
/// # Errors
///
/// 34 for a closed handle, and 35 for a zone that has not exactly one record of SOA data as its SOA. The zone stays then.
#[unsafe(no_mangle)]
pub extern "C" fn fuzsbanel_zone_raise_serial(alloc: Global, handle: &mut ZoneHandle) -> i64
    ensures raising { IsRaisingHeld handle.old.zone handle.new.zone result }
    // Of a handle that holds its zone alone it is never refused for memory.
    ensures memory { IsAlone handle.old.zone → result ≢ neg_ℤ (pos 3) }
    ensures alone { EndsAlone handle.old.zone handle.new.zone result }
{
    match take(alloc, handle) {
        Some(mut holding) => {
            let serial = raise_held(alloc, &mut holding);
            put(handle, holding);
            serial
        }
        None => refusal_code(Refusal::CLOSED),
    }
}

/// Writes the zone into the caller's buffer as text: its origin, and each record on a line of its own, as `fuzsbanel_zone`
/// writes them. A handle that is opened at this text, with this origin, holds the same records.
///
/// # Errors
///
/// 34 for a closed handle, and 33 where updates left an owner with two ANAME records, of which zone text has the last
/// alone.
#[unsafe(no_mangle)]
pub extern "C" fn fuzsbanel_zone_text(
    alloc: Global,
    handle: &mut ZoneHandle,
    out: &mut [u8],
    needed: &mut usize,
) -> i64
    ensures zone { handle.new.zone ≡ handle.old.zone }
    ensures text { IsAnsweredBy (IsHeldText (zone_held handle.old.zone)) out.old out.new needed.new
        result }
{
    match take(alloc, handle) {
        Some(holding) => {
            let made = held_text(alloc, &holding);
            put(handle, holding);
            give(made, out, needed)
        }
        None => give(Err(Refusal::CLOSED), out, needed),
    }
}

/// Writes the bytes that an authoritative server of the zone sends for those that it received into the caller's buffer: 0
/// bytes where nothing is sent, as for a response. A datagram has at most as many bytes as `most` and the query's EDNS say,
/// and 512 at least; a stream carries 65,535, and `most` isn't looked at.
///
/// # Errors
///
/// 34 for a closed handle.
#[unsafe(no_mangle)]
pub extern "C" fn fuzsbanel_zone_answer(
    alloc: Global,
    handle: &mut ZoneHandle,
    received: &[u8],
    most: u16,
    by_stream: bool,
    out: &mut [u8],
    needed: &mut usize,
) -> i64
    ensures zone { handle.new.zone ≡ handle.old.zone }
    ensures answer { IsAnswered
        (answer_asked (zone_held handle.old.zone) (carrier most by_stream) received.now)
        out.old out.new needed.new result }
{
    match take(alloc, handle) {
        Some(holding) => {
            let sent = answer_asked(alloc, &holding, received, carrier(most, by_stream));
            put(handle, holding);
            give(sent, out, needed)
        }
        None => give(Err(Refusal::CLOSED), out, needed),
    }
}

/// Opens another handle at the zone that a handle holds, and answers 0: both hold it then, and no record is copied. What the
/// other held before is freed. A handle that is updated has a zone of its own from then on, and the other keeps this one.
///
/// # Errors
///
/// 34 for a closed handle. The other then holds what it held.
#[unsafe(no_mangle)]
pub extern "C" fn fuzsbanel_zone_share(
    alloc: Global,
    handle: &mut ZoneHandle,
    other: &mut ZoneHandle,
) -> i64
    ensures zone { zone_held handle.new.zone ≡ zone_held handle.old.zone }
    ensures other { IsSharing (zone_held handle.old.zone) (zone_held other.old.zone)
        (zone_held other.new.zone) result }
{
    match take(alloc, handle) {
        Some(mut holding) => {
            let shared = holding.share(alloc);
            put(handle, holding);
            match shared {
                Ok(shared) => open_at(alloc, other, Holding::Shared(shared)),
                Err(refusal) => refusal_code(refusal),
            }
        }
        None => refusal_code(Refusal::CLOSED),
    }
}

/// Closes a handle, and frees what it held. Of a closed handle nothing is done.
#[unsafe(no_mangle)]
pub extern "C" fn fuzsbanel_zone_close(alloc: Global, handle: &mut ZoneHandle)
    ensures { handle.new.zone ≡ None }
{
    free(alloc, mem::replace(handle, ZoneHandle::closed()));
}

/// Applies an update to the zone that a handle holds, and answers its code, or minus the number of a refusal.
fn update_held(alloc: Global, holding: &mut Holding, update: &[u8], is_changed: &mut bool) -> i64
    requires { is_changed.old ≡ false }
    ensures updating { IsUpdating update.now (zone_in holding.old) (zone_in holding.new)
        is_changed.new result }
    ensures alone { EndsAlone (Some holding.old) (Some holding.new) result }
{
    if let Err(e) = holding.make_own() {
        return refusal_code(e.into());
    }
    match holding {
        Holding::Own(zone) => update_zone(alloc, zone, update, is_changed),
        Holding::Shared(_) | Holding::Empty => refusal_code(Refusal::CLOSED),
    }
}

/// Raises the serial of the zone that a handle holds, and answers it, or minus the number of a refusal.
fn raise_held(alloc: Global, holding: &mut Holding) -> i64
    ensures raising { IsRaisingHeld (Some holding.old) (Some holding.new) result }
    ensures alone { EndsAlone (Some holding.old) (Some holding.new) result }
{
    if let Err(e) = holding.make_own() {
        return refusal_code(e.into());
    }
    match holding {
        Holding::Own(zone) => raise_serial_of(alloc, zone),
        Holding::Shared(_) | Holding::Empty => refusal_code(Refusal::CLOSED),
    }
}

/// The zone of an origin, with the sets of a text, which may include these.
fn zone_of(
    alloc: Global,
    origin: &[u8],
    text: &[u8],
    included: &[Included],
    included_bytes: &[u8],
) -> Result<HeldZone, Refusal>
    ensures { Opens origin.now text.now included.now included_bytes.now result }
{
    let (origin, sets) = zone_asked(alloc, origin, text, included, included_bytes)?;
    if !fits_wire(&sets) {
        return Err(Refusal::NOT_ON_WIRE);
    }
    if !are_sets_in(&sets) {
        return Err(Refusal::CLASS);
    }
    let soa = RrKey::of(&origin, RecordType::SOA)?;
    Ok(HeldZone { origin, sets, soa })
}

/// Applies an update to a zone, and answers its code, or minus the number of a refusal.
fn update_zone(alloc: Global, zone: &mut HeldZone, update: &[u8], is_changed: &mut bool) -> i64
    requires { is_changed.old ≡ false }
    ensures { IsUpdated update.now zone.old zone.new is_changed.new result }
{
    let message = match message_of(alloc, update) {
        Ok(message) => message,
        Err(refusal) => return number(Err(refusal)),
    };
    match apply_in_place(alloc, &mut zone.sets, &zone.origin, DNSClass::IN, &message) {
        Ok(applied) => {
            *is_changed = applied.is_changed;
            i64::from(u16::from(applied.code))
        }
        Err(e) => number(Err(Refusal::from(e))),
    }
}

/// Raises the serial of a zone's SOA, and answers it, or minus the number of a refusal.
fn raise_serial_of(alloc: Global, zone: &mut HeldZone) -> i64
    ensures { IsRaisedIn zone.old zone.new result }
{
    match raise_serial(alloc, &mut zone.sets, &zone.soa) {
        Some(serial) => i64::from(serial),
        None => refusal_code(Refusal::NO_SOA),
    }
}

/// What carries an answer.
pub fn carrier(most: u16, by_stream: bool) -> Carrier
    ensures { result ≡ carrier most by_stream }
{
    if by_stream {
        Carrier::Stream
    } else {
        Carrier::Datagram(most)
    }
}

/// The bytes that are sent by the zone that a handle holds for those that came, none where nothing is.
fn answer_asked(
    alloc: Global,
    holding: &Holding,
    received: &[u8],
    carrier: Carrier,
) -> Result<Vec<u8>, Refusal>
    ensures { Makes (λ sent. sent.items)
        (answer_asked (zone_in holding.now) carrier received.now) result }
{
    match holding.zone() {
        Some(zone) => answer_of(alloc, zone, received, carrier),
        None => Err(Refusal::CLOSED),
    }
}

/// The bytes that are sent for those that came, none where nothing is.
fn answer_of(
    alloc: Global,
    zone: &HeldZone,
    received: &[u8],
    carrier: Carrier,
) -> Result<Vec<u8>, Refusal>
    ensures { Makes (λ sent. sent.items) (answer_of zone.now carrier received.now) result }
{
    let sent = respond(
        alloc,
        &zone.sets,
        &zone.origin,
        DNSClass::IN,
        received,
        carrier,
    )?;
    Ok(sent.unwrap_or(Vec::new(alloc)))
}

/// The text of the zone that a handle holds.
fn held_text(alloc: Global, holding: &Holding) -> Result<Vec<u8>, Refusal>
    ensures { MakesBy (IsHeldText (zone_in holding.now)) result }
{
    match holding.zone() {
        Some(zone) => text_of(alloc, zone),
        None => Err(Refusal::CLOSED),
    }
}

/// The text of a zone.
fn text_of(alloc: Global, zone: &HeldZone) -> Result<Vec<u8>, Refusal>
    ensures { MakesBy (IsTextOf zone.now) result }
{
    if !fits_wire(&zone.sets) {
        return Err(Refusal::NOT_ON_WIRE);
    }
    if has_two_anames(&zone.sets) {
        return Err(Refusal::TWO_ANAMES);
    }
    Ok(zone_lines(alloc, &zone.origin, zone.sets.clone()?)?.into_bytes())
}

/// Has a handle hold this, and answers 0; or 3, and it holds what it held. What it held before is freed.
fn open_at(alloc: Global, handle: &mut ZoneHandle, holding: Holding) -> i64
    ensures { IsOpenAt holding handle.old.zone handle.new.zone result }
{
    match Box::new(alloc, holding) {
        Ok(boxed) => {
            let new = ZoneHandle::of(Loose::of(boxed));
            free(alloc, mem::replace(handle, new));
            0
        }
        Err(e) => refusal_code(AllocError::from(e).into()),
    }
}

/// Takes what a handle holds out of it, which is then closed.
fn take(alloc: Global, handle: &mut ZoneHandle) -> Option<Box<Holding, Global>>
    ensures zone { option_map (λ holding. holding.value) result ≡ handle.old.zone }
    ensures closed { (handle.new.is_open ≡ false) × (handle.new.zone ≡ None) }
{
    let (is_open, was) = mem::replace(handle, ZoneHandle::closed()).look();
    if is_open {
        return Some(was.into_zone(alloc).into_box());
    }
    was.end();
    None
}

/// Puts what was taken into a closed handle.
fn put(handle: &mut ZoneHandle, holding: Box<Holding, Global>)
    requires { handle.old.is_open ≡ false }
    ensures { handle.new.zone ≡ Some holding.value }
{
    mem::replace(handle, ZoneHandle::of(Loose::of(holding))).end();
}

/// Frees what a handle held.
pub fn free(alloc: Global, handle: ZoneHandle) {
    let (is_open, was) = handle.look();
    if is_open {
        drop(was.into_zone(alloc).into_box());
    } else {
        was.end();
    }
}
