//! A zone that is parsed from bytes, written as text, and updated.
#![tactic(auto)]

pub mod applying;
pub mod classes;
pub mod laws;
pub mod refusal;
pub mod zone_text;

pub use applying::{lines_after, sets_after, update_lines};
pub use classes::are_sets_in;
pub use refusal::ZoneRefusal;
pub use zone_text::{
    generic_zone_of_bytes, sets_lines, zone_lines, zone_of_bytes, zone_sets, zone_with_texts,
};
