//! Responses to queries (RFC 1035, 4.1; RFC 6895, 2; RFC 6891, 6.1.1).

ghost use Rattle.tasks.specs.Reply.{IsBuilt, reply_asked};
ghost use Rattle.capi.specs.Answer.{IsAnsweredBy};
ghost use Rattle.capi.specs.ZoneHandle.{carrier};

use crate::answer::give;
use crate::zone_handle::carrier;
use std::alloc::Global;
use tasks::reply::{Says, reply_bytes};

/// Writes the response to a query into the caller's buffer: it has the query's id, operation, RD and CD, its questions,
/// and EDNS with its DO where it has EDNS (RFC 6895, 2; RFC 6891, 6.1.1; RFC 3225, 3). The records of its sections are
/// those of three zone texts, read as `fuzsbanel_zone` reads one, but with the root as their origin: in each section those
/// of aliases stand first, and all in the order of owners and types. It is cut as `fuzsbanel_zone_answer` cuts an answer,
/// but for its additional records, which are left out as others are.
///
/// # Errors
///
/// The query's first fault, and 38 for a response; 31 for a code of more than four bits where there is no EDNS, or of more
/// than twelve; those of `fuzsbanel_zone`; 2 for questions without room.
#[unsafe(no_mangle)]
pub extern "C" fn fuzsbanel_build_response(
    alloc: Global,
    query: &[u8],
    code: u16,
    authoritative: bool,
    recursion_available: bool,
    answers: &[u8],
    authorities: &[u8],
    additionals: &[u8],
    most: u16,
    by_stream: bool,
    out: &mut [u8],
    needed: &mut usize,
) -> i64
    ensures { IsAnsweredBy (IsBuilt (reply_asked query.now
        (record {
          code = code;
          authoritative = authoritative;
          recursion_available = recursion_available;
        })
        (carrier most by_stream) answers.now authorities.now additionals.now))
        out.old out.new needed.new result }
{
    let says = Says {
        code,
        authoritative,
        recursion_available,
    };
    give(
        reply_bytes(
            alloc,
            query,
            says,
            carrier(most, by_stream),
            answers,
            authorities,
            additionals,
        ),
        out,
        needed,
    )
}
