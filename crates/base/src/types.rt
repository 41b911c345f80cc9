//! Record types and classes (RFC 1035, 3.2).

pub use crate::dns_class::DNSClass;
pub use crate::record_type::RecordType;
