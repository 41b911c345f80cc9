//! Messages that ask a server to update a zone, for all of it, or for what changed (RFC 2136, 2; RFC 5936; RFC 1995).
//!
//! The origin is the text of the zone's name, and a set the zone text of its records: one set of the class IN, whose owner
//! lies in the zone, of a type that updates can change. Each message is written whole or not at all, and with `use_edns`
//! takes answers of up to 1232 bytes.

ghost use Rattle.tasks.specs.Update.{IsSent, transfer_asked};
ghost use Rattle.tasks.specs.declared.update.built.Change.TheVariants as changes;
ghost use Rattle.capi.specs.Answer.{IsAnsweredBy};
ghost use Rattle.capi.specs.Update.{IsUpdateAnswered};

use crate::answer::give;
use std::alloc::Global;
use tasks::update::built::{Change, transfer, update};

/// Writes the update that creates a set into the caller's buffer: its prerequisite is that the zone has no set of that
/// owner and type (RFC 2136, 2.4.3 and 2.5.1).
///
/// # Errors
///
/// 26 for an origin without bytes; 24 for a text that isn't UTF-8, and the number of what the parser refuses; 25 for a
/// record of another class than IN, 27 for a text that isn't one set, 28 for an owner outside the zone, 29 for a type that
/// no update here is of; 31 for data with a relative name, and 32 for a message of more than 65,535 bytes.
#[unsafe(no_mangle)]
pub extern "C" fn fuzsbanel_create(
    alloc: Global,
    id: u16,
    origin: &[u8],
    set: &[u8],
    use_edns: bool,
    out: &mut [u8],
    needed: &mut usize,
) -> i64
    ensures { IsUpdateAnswered id use_edns origin.now (changes.Create set.entry)
        out.old out.new needed.new result }
{
    let change = Change::Create(set);
    give_update(alloc, id, origin, change, use_edns, out, needed)
}

/// Writes the update that adds the records of a set into the caller's buffer; with `must_exist` its prerequisite is
/// that the zone has a set of that owner and type (RFC 2136, 2.4.1 and 2.5.1).
///
/// # Errors
///
/// Those of `fuzsbanel_create`.
#[unsafe(no_mangle)]
pub extern "C" fn fuzsbanel_append(
    alloc: Global,
    id: u16,
    origin: &[u8],
    set: &[u8],
    must_exist: bool,
    use_edns: bool,
    out: &mut [u8],
    needed: &mut usize,
) -> i64
    ensures { IsUpdateAnswered id use_edns origin.now (changes.Append set.entry must_exist)
        out.old out.new needed.new result }
{
    let change = Change::Append(set, must_exist);
    give_update(alloc, id, origin, change, use_edns, out, needed)
}

/// Writes the update that puts a set in the place of another into the caller's buffer: its prerequisite is the data of
/// the current one (RFC 2136, 2.4.2, 2.5.4 and 2.5.1).
///
/// # Errors
///
/// Those of `fuzsbanel_create`, of the current set before the new one.
#[unsafe(no_mangle)]
pub extern "C" fn fuzsbanel_compare_and_swap(
    alloc: Global,
    id: u16,
    origin: &[u8],
    current: &[u8],
    next: &[u8],
    use_edns: bool,
    out: &mut [u8],
    needed: &mut usize,
) -> i64
    ensures { IsUpdateAnswered id use_edns origin.now (changes.CompareAndSwap current.entry next.entry)
        out.old out.new needed.new result }
{
    let change = Change::CompareAndSwap(current, next);
    give_update(alloc, id, origin, change, use_edns, out, needed)
}

/// Writes the update that takes the data of a set out of the zone into the caller's buffer (RFC 2136, 2.5.4).
///
/// # Errors
///
/// Those of `fuzsbanel_create`.
#[unsafe(no_mangle)]
pub extern "C" fn fuzsbanel_delete_by_rdata(
    alloc: Global,
    id: u16,
    origin: &[u8],
    set: &[u8],
    use_edns: bool,
    out: &mut [u8],
    needed: &mut usize,
) -> i64
    ensures { IsUpdateAnswered id use_edns origin.now (changes.DeleteByRdata set.entry)
        out.old out.new needed.new result }
{
    let change = Change::DeleteByRdata(set);
    give_update(alloc, id, origin, change, use_edns, out, needed)
}

/// Writes the update that takes the set of an owner and a type out of the zone into the caller's buffer (RFC 2136,
/// 2.5.2). The owner is the text of a name, which ends in the origin where it is relative.
///
/// # Errors
///
/// 26 for an origin without bytes; 24 for a text that isn't UTF-8, 23 for one that is no name; 28 for an owner outside the
/// zone, and 29 for a type that no update here is of.
#[unsafe(no_mangle)]
pub extern "C" fn fuzsbanel_delete_rrset(
    alloc: Global,
    id: u16,
    origin: &[u8],
    owner: &[u8],
    record_type: u16,
    use_edns: bool,
    out: &mut [u8],
    needed: &mut usize,
) -> i64
    ensures { IsUpdateAnswered id use_edns origin.now (changes.DeleteRrset owner.entry record_type)
        out.old out.new needed.new result }
{
    let change = Change::DeleteRrset(owner, record_type);
    give_update(alloc, id, origin, change, use_edns, out, needed)
}

/// Writes the update that takes all sets of an owner out of the zone into the caller's buffer; at the origin SOA and NS
/// stay (RFC 2136, 2.5.3 and 3.4.2.3). The owner is as `fuzsbanel_delete_rrset` has it.
///
/// # Errors
///
/// Those of `fuzsbanel_delete_rrset`.
#[unsafe(no_mangle)]
pub extern "C" fn fuzsbanel_delete_all(
    alloc: Global,
    id: u16,
    origin: &[u8],
    owner: &[u8],
    use_edns: bool,
    out: &mut [u8],
    needed: &mut usize,
) -> i64
    ensures { IsUpdateAnswered id use_edns origin.now (changes.DeleteAll owner.entry)
        out.old out.new needed.new result }
{
    let change = Change::DeleteAll(owner);
    give_update(alloc, id, origin, change, use_edns, out, needed)
}

/// Writes the question for all of a zone into the caller's buffer (RFC 5936, 2.1), or for what changed since an SOA
/// (RFC 1995, 3). It takes answers of up to 1232 bytes. The SOA is zone text of one record at the origin; an empty text
/// asks for all.
///
/// # Errors
///
/// Those of `fuzsbanel_create`, but 30 for a record that isn't an SOA of the origin, of whatever type it is.
#[unsafe(no_mangle)]
pub extern "C" fn fuzsbanel_zone_transfer(
    alloc: Global,
    id: u16,
    origin: &[u8],
    last_soa: &[u8],
    out: &mut [u8],
    needed: &mut usize,
) -> i64
    ensures { IsAnsweredBy (IsSent (transfer_asked id origin.now last_soa.now))
        out.old out.new needed.new result }
{
    give(transfer(alloc, id, origin, last_soa), out, needed)
}

/// Writes the update of a zone that a change asks for into the caller's buffer.
fn give_update(
    alloc: Global,
    id: u16,
    origin: &[u8],
    change: Change,
    use_edns: bool,
    out: &mut [u8],
    needed: &mut usize,
) -> i64
    ensures { IsUpdateAnswered id use_edns origin.now change.entry
        out.old out.new needed.new result }
{
    give(update(alloc, id, origin, change, use_edns), out, needed)
}
