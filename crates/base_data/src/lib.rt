//! The data of records: every kind, how it is read, written, compared and printed (RFC 1035, 3.3).
#![tactic(auto)]

pub mod rdata;
pub mod record_data;

pub use rdata::generic::parse_type;
pub use rdata::{
    A, AAAA, ANAME, CNAME, EdnsOption, MX, NS, NULL, OPT, PTR, RData, SOA, SRV, TSIG, TXT,
};
pub use record_data::RecordData;
