//! What a response says (RFC 1035, 4.1; RFC 2308, 5).

ghost use Rattle.tasks.specs.Response.{found_response};
ghost use Rattle.capi.specs.Walk.{IsFound};

use crate::answer::number;
use std::alloc::Global;
use tasks::response::{ResponseFacts, facts};

/// Fills in what the response says that the bytes begin with, and answers 1 where it answers some question, and else 0.
///
/// # Errors
///
/// The number of the first fault, and 16 for a query. What was found before stays.
#[unsafe(no_mangle)]
pub extern "C" fn fuzsbanel_response(
    alloc: Global,
    message: &[u8],
    found: &mut ResponseFacts,
) -> i64
    ensures { IsFound (found_response message.now) found.old found.new result }
{
    match facts(alloc, message) {
        Ok((facts, answers)) => {
            *found = facts;
            number(Ok(answers))
        }
        Err(refusal) => number(Err(refusal)),
    }
}
