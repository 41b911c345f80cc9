//! The library for callers in C, Rust and Python: `include/fuzsbanel.h` declares these calls.
//!
//! Each call answers a length, or minus the number of a refusal (docs/REFUSALS.md), or -100 where the caller's buffer
//! has no room. A `Global` takes no bytes: C passes nothing for it.
#![tactic(auto)]

mod answer;
mod applied;
mod header;
mod message;
mod mnemonic;
mod query;
mod reply;
mod response;
#[cfg(test)]
mod tests;
mod update;
mod walk;
mod wire_form;
mod zone;
mod zone_check;
mod zone_handle;
