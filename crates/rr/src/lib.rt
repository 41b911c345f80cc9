//! Records (RFC 1035, 3.2), and sets of them (RFC 2181, 5).
#![tactic(auto)]

pub mod record;
pub mod record_ref;
pub mod rr_set;

pub use record::Record;
pub use record_ref::RecordRef;
pub use rr_set::{ChangingSet, DataIndex, RecordSet, RecordSetParts, RrsetRecords, data_key};
