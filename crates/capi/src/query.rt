//! Queries (RFC 1035, 4.1.1 and 4.1.2), and NOTIFY (RFC 1996).

ghost use Rattle.tasks.specs.Query.{notify_sent, query_sent};
ghost use Rattle.capi.specs.Answer.{IsAnswered};

use crate::answer::give;
use std::alloc::Global;
use tasks::query::{Question, notify_bytes, query_bytes};

/// Writes a query with one question into the caller's buffer (RFC 1035, 4.1.1 and 4.1.2). A name without a dot at its end
/// is taken as absolute too. Where a payload is named the query has EDNS, which says that answers of so many bytes are
/// taken, and of 512 at least (RFC 6891, 6.2.3).
///
/// # Errors
///
/// 26 for a name without bytes, 24 for one that isn't UTF-8, and 23 for a text that is no name.
#[unsafe(no_mangle)]
pub extern "C" fn fuzsbanel_build_query(
    alloc: Global,
    id: u16,
    name: &[u8],
    record_type: u16,
    dns_class: u16,
    recursion: bool,
    payload: u16,
    out: &mut [u8],
    needed: &mut usize,
) -> i64
    ensures { IsAnswered (query_sent name.now
        (record {
          id = id;
          record_type = record_type;
          dns_class = dns_class;
          recursion = recursion;
          payload = payload;
        })) out.old out.new needed.new result }
{
    let question = Question {
        id,
        record_type,
        dns_class,
        recursion,
        payload,
    };
    give(query_bytes(alloc, name, question), out, needed)
}

/// Writes a NOTIFY into the caller's buffer, by which a server tells a secondary that a zone's SOA may have changed (RFC 1996,
/// 3): AA is set, and the question is that SOA, of the class IN. The secondary sends it back as a response with its id.
///
/// # Errors
///
/// 26 for an origin without bytes, 24 for one that isn't UTF-8, and 23 for a text that is no name.
#[unsafe(no_mangle)]
pub extern "C" fn fuzsbanel_build_notify(
    alloc: Global,
    id: u16,
    origin: &[u8],
    out: &mut [u8],
    needed: &mut usize,
) -> i64
    ensures { IsAnswered (notify_sent id origin.now) out.old out.new needed.new result }
{
    give(notify_bytes(alloc, id, origin), out, needed)
}
