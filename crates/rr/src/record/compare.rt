//! Compares records.

ghost use Rattle.std.specs.Prelude.{◌≡◌};
ghost use Rattle.std.specs.Cmp.{partial_equiv_from_equiv};
ghost use Rattle.rr.specs.RecordOrder.{record_cmp, same_record};
ghost use Rattle.rr.specs.RecordOrderLaws.{same_record-equiv};

use crate::record::Record;
use base_data::{RData, RecordData};
use std::cmp::Ordering;

impl<R: RecordData> PartialEq for Record<R> {
    ghost eq = { same_record R.eq };

    ghost laws = { partial_equiv_from_equiv (same_record-equiv R.Eq.laws) };

    /// The same name, letters in either case, the same class and equal data. TTL and cache-flush bit are not looked
    /// at.
    fn eq(&self, other: &Record<R>) -> bool {
        self.name == other.name && self.dns_class == other.dns_class && self.rdata == other.rdata
    }
}

impl<R: RecordData> Eq for Record<R> {
    ghost laws = { same_record-equiv R.Eq.laws };
}

impl Record<RData> {
    /// Orders records by name, type, class, TTL and data in turn: the first that is not equal decides.
    pub fn canonical_cmp(&self, other: &Record<RData>) -> Ordering
        ensures { result ≡ record_cmp self.now other.now }
    {
        self.name
            .cmp(&other.name)
            .then_with(|| self.record_type().cmp(&other.record_type()))
            .then_with(|| self.dns_class.cmp(&other.dns_class))
            .then_with(|| self.ttl.cmp(&other.ttl))
            .then_with(|| self.rdata.canonical_cmp(&other.rdata))
    }
}
