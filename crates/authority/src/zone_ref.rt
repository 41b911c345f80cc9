//! The zone that is answered from, as it is lent.

use base::{DNSClass, Name, RrKey};
use rr::RecordSet;
use std::alloc::Global;
use std::collections::BTreeMap;

/// A zone: its origin, its class, and its sets under their keys; and where an answer takes its memory from.
#[derive(Clone, Copy, Drop)]
pub(crate) struct ZoneRef<'z> {
    pub(crate) alloc: Global,
    pub(crate) sets: &'z BTreeMap<RrKey, RecordSet>,
    pub(crate) origin: &'z Name,
    pub(crate) class: DNSClass,
}
