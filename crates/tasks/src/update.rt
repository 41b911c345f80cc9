//! Messages that ask a server to update a zone, for all of it, or for what changed (RFC 2136, 2; RFC 5936; RFC 1995).

pub mod built;
pub(crate) mod sets;
