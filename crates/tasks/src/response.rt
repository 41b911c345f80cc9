//! What a response says (RFC 1035, 4.1; RFC 2308, 5).

ghost use Rattle.std.specs.Prelude.{◌≡◌, ◌≤◌, IfOk};
ghost use Rattle.tasks.specs.Asked.{Makes};
ghost use Rattle.tasks.specs.Response.{facts_of, found_response, response_of};

use crate::refusal::Refusal;
use op_use::DnsResponse;
use std::alloc::Global;

/// What a response says.
#[repr(C)]
#[derive(Clone, Copy, Drop)]
pub struct ResponseFacts {
    /// For how many seconds the absence of an answer may be kept, 0 where it may not (RFC 2308, 5).
    pub negative_ttl: u32,
    /// How many bytes its sender takes, 512 at least (RFC 6891, 6.2.3).
    pub max_payload: u16,
    /// Whether an SOA says for how long.
    pub has_negative_ttl: bool,
}

/// What the response says that the bytes begin with, and 1 where it answers some question, else 0.
///
/// # Errors
///
/// The number of the first fault, and 16 for a query.
pub fn facts(alloc: Global, bytes: &[u8]) -> Result<(ResponseFacts, usize), Refusal>
    ensures made { Makes (λ found. found) (found_response bytes.now) result }
    ensures small { IfOk result (λ found. found.1 ≤ 1) }
{
    let response = response_of(alloc, bytes)?;
    Ok(facts_of(&response))
}

/// The response that the bytes begin with.
fn response_of(alloc: Global, bytes: &[u8]) -> Result<DnsResponse, Refusal>
    ensures { Makes (λ response. response.message) (response_of bytes.now) result }
{
    Ok(DnsResponse::from_buffer(alloc, Vec::from_slice(alloc, bytes)?)?)
}

/// What a response says, and 1 where it answers some question.
fn facts_of(response: &DnsResponse) -> (ResponseFacts, usize)
    ensures value { result ≡ facts_of response.now.message }
    ensures small { result.1 ≤ 1 }
{
    let ttl = response.negative_ttl();
    let facts = ResponseFacts {
        negative_ttl: ttl.unwrap_or(0),
        max_payload: response.message().max_payload(),
        has_negative_ttl: ttl.is_some(),
    };
    (facts, usize::from(response.contains_answer()))
}
