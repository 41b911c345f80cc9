//! Zone text: the layer of hickory-proto's `serialize::txt` that reads whole zones (RFC 1035, 5).
#![tactic(auto)]

pub mod zone;

pub use zone::Parser;
pub use zone::fault::{FaultPlace, Inclusion, ZoneFault};
pub use zone::sets::ZoneSets;
