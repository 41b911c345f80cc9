//! Messages walked in the caller's buffer: nothing is copied, and places count from the buffer's first byte (RFC 1035,
//! 4.1).

ghost use Rattle.std.specs.Prelude.{◌<◌, ◌^◌, IfOk};
ghost use Rattle.tasks.specs.Walk.{Finds, data_text_at, found_option, found_query, found_record, name_text_at, told};
ghost use Rattle.capi.specs.Answer.{IsAnswered};
ghost use Rattle.capi.specs.Walk.{IsFilled, IsFound};

pub mod whole;

use crate::answer::{give, number};
use base::DecodeError;
use std::alloc::Global;
use tasks::refusal::Refusal;
use tasks::walk::{
    OptionFound, QueryFound, RecordFound, data_text, name_text, option_at, query_at, record_at,
};

/// Finds the question at a place, and answers the place after it (RFC 1035, 4.1.2). The first one stands at 12.
///
/// # Errors
///
/// The number of the first fault: 4 for a place or a question that passes the end, 5 for a name that is none. What was
/// found before stays.
#[unsafe(no_mangle)]
pub extern "C" fn fuzsbanel_query(
    alloc: Global,
    message: &[u8],
    place: usize,
    found: &mut QueryFound,
) -> i64
    ensures { IsFound (found_query message.now place) found.old found.new result }
{
    fill(query_at(alloc, message, place), found)
}

/// Finds the record at a place, and answers the place after it (RFC 1035, 4.1.3). Its data is read, as far as its type
/// is known, and not copied.
///
/// # Errors
///
/// The number of the first fault: 4 to 8. What was found before stays.
#[unsafe(no_mangle)]
pub extern "C" fn fuzsbanel_record(
    alloc: Global,
    message: &[u8],
    place: usize,
    found: &mut RecordFound,
) -> i64
    ensures { IsFound (found_record message.now place) found.old found.new result }
{
    fill(record_at(alloc, message, place), found)
}

/// Finds the EDNS option at a place, and answers the place after it (RFC 6891, 6.1.2). The first one stands where the
/// data of the OPT record does, and the bytes end where that data ends.
///
/// # Errors
///
/// 4 for an option that passes the end. What was found before stays.
#[unsafe(no_mangle)]
pub extern "C" fn fuzsbanel_option(
    alloc: Global,
    bytes: &[u8],
    place: usize,
    found: &mut OptionFound,
) -> i64
    ensures { IsFilled (found_option bytes.now place) found.old found.new result }
{
    fill(option_at(alloc, bytes, place), found)
}

/// Writes the text of the name at a place into the caller's buffer (RFC 1035, 5.1).
///
/// # Errors
///
/// The number of the first fault: 4 or 5.
#[unsafe(no_mangle)]
pub extern "C" fn fuzsbanel_name(
    alloc: Global,
    message: &[u8],
    place: usize,
    out: &mut [u8],
    needed: &mut usize,
) -> i64
    ensures { IsAnswered (name_text_at message.now place) out.old out.new needed.new result }
{
    give(name_text(alloc, message, place), out, needed)
}

/// Writes the text of the data of the record at a place into the caller's buffer, as `fuzsbanel_text` prints it.
///
/// # Errors
///
/// The number of the first fault: 4 to 8.
#[unsafe(no_mangle)]
pub extern "C" fn fuzsbanel_data_text(
    alloc: Global,
    message: &[u8],
    place: usize,
    out: &mut [u8],
    needed: &mut usize,
) -> i64
    ensures { IsAnswered (data_text_at message.now place) out.old out.new needed.new result }
{
    give(data_text(alloc, message, place), out, needed)
}

/// Fills in what was found, and answers the place after it; or else answers why nothing was.
fn fill<T: Drop>(made: Result<(T, usize), DecodeError>, found: &mut T) -> i64
    requires { IfOk made (λ r. r.1 < 2 ^ 63) }
    ensures exact { IsFilled (told made) found.old found.new result }
    ensures found { (asked : _) → Finds asked made
        → IsFound (told asked) found.old found.new result }
{
    match made {
        Ok((it, end)) => {
            *found = it;
            number(Ok(end))
        }
        Err(e) => number(Err(Refusal::from(e))),
    }
}
