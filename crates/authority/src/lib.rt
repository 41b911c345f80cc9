//! What an authoritative server answers from a zone (RFC 1034, 4.3.2).
#![tactic(auto)]

mod additionals;
pub mod answer;
mod filling;
pub mod found;
pub mod laws;
mod records;
pub mod replies;
mod room;
pub mod sending;
mod sets;
pub mod transferring;
mod zone_ref;

pub use answer::{Answer, MAX_ALIASES, answer_question};
pub use found::{Found, lookup};
pub use replies::reply;
pub use sending::{Carrier, respond};
pub use transferring::{TransferPlace, transfer};
