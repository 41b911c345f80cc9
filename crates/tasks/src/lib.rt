//! What each call from C makes, as calls of slices and numbers that answer `Result<_, Refusal>`.
#![tactic(auto)]

pub mod applied;
pub mod fits;
pub mod header;
pub mod included;
pub mod message;
pub mod mnemonic;
pub mod query;
pub mod refusal;
pub mod reply;
pub mod response;
pub mod update;
pub mod walk;
pub mod wire_form;
pub mod zone;
pub mod zone_check;
