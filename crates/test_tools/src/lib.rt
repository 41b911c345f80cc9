//! What the tests of several crates ask and make.
#![tactic(auto)]

pub mod bytes;
pub mod forms;
pub mod hashes;
pub mod names;
pub mod texts;
