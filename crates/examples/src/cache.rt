//! Keeps what a response says for as long as it may be kept.

ghost use Rattle.std.specs.Prelude.{◌≡◌, IfErr, IfOk, map};
ghost use Rattle.op_use.specs.DnsResponse.{IsRefusedResponse};
ghost use Rattle.rr.specs.Record.{decremented};
ghost use Rattle.examples.specs.Callers.{IsCached};

use base::ProtoError;
use op_use::DnsResponse;
use rr::Record;
use std::alloc::Global;

/// What a cache has of a response.
#[derive(Debug, Drop)]
pub struct CacheEntry {
    /// The answers.
    pub answers: Vec<Record>,
    /// For how many seconds more the absence of an answer may be kept, if it may be (RFC 2308, 5).
    pub negative_ttl: Option<u32>,
}

/// What a cache has of a response that was received `seconds` seconds ago: TTLs are run down, to 0 (RFC 1035, 3.2.1).
///
/// # Errors
///
/// `Decode` where no message begins what was received; `NotAResponse` for a query; `Memory` if memory runs out.
pub fn cache_entry(alloc: Global, received: Vec<u8>, seconds: u32) -> Result<CacheEntry, ProtoError>
    // The entry has the response's answers and negative TTL, with `seconds` seconds off.
    ensures kept { IfOk result (λ entry. IsCached received.items seconds entry) }
    ensures refused { IfErr result (λ e. IsRefusedResponse received.items e) }
{
    let response = DnsResponse::from_buffer(alloc, received)?;
    let negative_ttl = response
        .negative_ttl()
        .map(|ttl| ttl.saturating_sub(seconds));
    let answers = run_down(response.into_message().answers, seconds);
    Ok(CacheEntry {
        answers,
        negative_ttl,
    })
}

/// The records with `seconds` seconds off their TTLs.
fn run_down(mut records: Vec<Record>, seconds: u32) -> Vec<Record>
    ensures { result.items ≡ map (decremented seconds) records.items }
{
    for entry in records.iter_mut() {
        age(entry, seconds);
    }
    records
}

/// Takes `seconds` seconds off the TTL of a record.
fn age(entry: &mut Record, seconds: u32)
    ensures { entry.new ≡ decremented seconds entry.old }
{
    entry.decrement_ttl(seconds);
}
