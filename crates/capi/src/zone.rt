//! Zone text (RFC 1035, 5.1).

ghost use Rattle.tasks.specs.ZoneText.{IsCanonical};
ghost use Rattle.capi.specs.Answer.{IsAnsweredBy};

use crate::answer::give;
use std::alloc::Global;
use tasks::zone::canonical_text;

/// Writes the zone of a text into the caller's buffer, as zone text: the origin, and each record on a line of its own,
/// in the order of owners and types (RFC 1035, 5.1). The origin is the text of a name, or empty for none. No text is
/// there to be included. In a text types may also stand as `TYPE` and their number, and data of any type in the generic
/// form (RFC 3597, 5). All names of records are written absolute, so what is written can be read again.
///
/// # Errors
///
/// 24 for an origin or a text that isn't UTF-8, and the number of what the parser refuses; 31 for a record that can't
/// stand on the wire, as one with a relative name in its data.
#[unsafe(no_mangle)]
pub extern "C" fn fuzsbanel_zone(
    alloc: Global,
    origin: &[u8],
    text: &[u8],
    out: &mut [u8],
    needed: &mut usize,
) -> i64
    ensures { IsAnsweredBy (IsCanonical origin.now text.now) out.old out.new needed.new result }
{
    give(canonical_text(alloc, origin, text), out, needed)
}
