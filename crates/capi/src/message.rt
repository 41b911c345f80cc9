//! Messages (RFC 1035, 4.1).

ghost use Rattle.std.specs.Prelude.{◌<◌, ◌≤◌, length, take};
ghost use Rattle.tasks.specs.Message.{IsCutOf, cut_of, end_of, text_of};
ghost use Rattle.capi.specs.Answer.{IsAnswered, IsNumbered};

use crate::answer::{give, number};
use std::alloc::Global;
use tasks::message::{cut, end, text};

/// How many bytes the message takes that the bytes begin with (RFC 1035, 4.1). What comes after it isn't looked at.
///
/// # Errors
///
/// The number of the first fault, where no message begins them.
#[unsafe(no_mangle)]
pub extern "C" fn fuzsbanel_check(alloc: Global, message: &[u8]) -> i64
    ensures { IsNumbered (end_of message.now) result }
{
    number(end(alloc, message))
}

/// Writes the message that the bytes begin with into the caller's buffer again, in at most `limit` bytes: what doesn't
/// fit is left out, and TC says so (RFC 1035, 4.1; RFC 2181, 9).
///
/// # Errors
///
/// The number of the first fault; 1 for a limit without room for the header, 2 for one without room for the questions.
#[unsafe(no_mangle)]
pub extern "C" fn fuzsbanel_cut(
    alloc: Global,
    message: &[u8],
    limit: u16,
    out: &mut [u8],
    needed: &mut usize,
) -> i64
    // The bytes or the refusal are those of the definition `cut_of`, unless memory runs out.
    ensures exact { IsAnswered (cut_of message.now limit) out.old out.new needed.new result }
    // Bytes that the caller's buffer has room for are a cut of the message, and are read as that.
    ensures cut { 0 < needed.new → needed.new ≤ length out.old
        → IsCutOf message.now limit (take needed.new out.new) }
{
    give(cut(alloc, message, limit), out, needed)
}

/// Writes the text of the message that the bytes begin with into the caller's buffer.
///
/// # Errors
///
/// The number of the first fault.
#[unsafe(no_mangle)]
pub extern "C" fn fuzsbanel_text(
    alloc: Global,
    message: &[u8],
    out: &mut [u8],
    needed: &mut usize,
) -> i64
    ensures { IsAnswered (text_of message.now) out.old out.new needed.new result }
{
    give(text(alloc, message), out, needed)
}
