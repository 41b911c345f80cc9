//! The header of a message (RFC 1035, 4.1.1).

ghost use Rattle.tasks.specs.Header.{first_header};
ghost use Rattle.capi.specs.Header.{IsHeaderFilled};

use crate::answer::number;
use std::alloc::Global;
use tasks::header::{HeaderNumbers, numbers, read};

/// Fills in the fields of the header that the bytes begin with, and answers its length, 12 (RFC 1035, 4.1.1). What
/// comes after it isn't looked at.
///
/// # Errors
///
/// 4 for fewer than twelve bytes; the fields stay.
#[unsafe(no_mangle)]
pub extern "C" fn fuzsbanel_header(alloc: Global, message: &[u8], header: &mut HeaderNumbers) -> i64
    ensures { IsHeaderFilled (first_header message.now) header.old header.new result }
{
    match read(alloc, message) {
        Ok(found) => {
            *header = numbers(&found);
            number(Ok(12))
        }
        Err(refusal) => number(Err(refusal)),
    }
}
