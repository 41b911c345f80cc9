//! Callers of these crates, as docs/CALLING.md quotes them.
#![tactic(auto)]

pub mod answer;
pub mod cache;
pub mod refusal;
pub mod update;
pub mod zone;
