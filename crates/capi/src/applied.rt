//! Updates applied to zone text (RFC 2136, 3).

ghost use Rattle.tasks.specs.Applied.{IsApplied};
ghost use Rattle.capi.specs.Answer.{IsAnsweredBy};

use crate::answer::give;
use std::alloc::Global;
use tasks::applied::apply;

/// Writes what a server of the zone of an origin makes of an update and the zone's text into the caller's buffer: the
/// name of its code on a line, and the zone then, as `fuzsbanel_zone` writes it (RFC 2136, 3). With any code but NoError
/// the zone is as it was. An `$ORIGIN` of the text is that of names, and never of the zone. The text is read as
/// `fuzsbanel_zone` reads one, so what is written after the first line can be the text of the next call.
///
/// # Errors
///
/// The number of the update's first fault; then 26 for an origin without bytes, those of `fuzsbanel_zone`, 25 for a set
/// or a record of another class than IN, and 33 for an update that leaves an owner with two ANAME records, of which zone
/// text has the last alone.
#[unsafe(no_mangle)]
pub extern "C" fn fuzsbanel_apply(
    alloc: Global,
    update: &[u8],
    origin: &[u8],
    text: &[u8],
    out: &mut [u8],
    needed: &mut usize,
) -> i64
    ensures { IsAnsweredBy (IsApplied update.now origin.now text.now)
        out.old out.new needed.new result }
{
    give(apply(alloc, update, origin, text), out, needed)
}
