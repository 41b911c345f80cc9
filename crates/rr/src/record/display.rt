//! Prints records.

ghost use Rattle.std.specs.Prelude.{Some};
ghost use Rattle.rr.specs.Record.{record_text, with_data};

use crate::record::Record;
use base_data::RecordData;
use std::fmt;

impl<R: RecordData> fmt::Display for Record<R> {
    ghost output = { λ r. Some (record_text (with_data R.as_rdata r)) };

    /// `name ttl class type data`, as in zone files (RFC 1035, 5.1).
    fn fmt<W: fmt::Write>(&self, f: &mut fmt::Formatter<W>) -> fmt::Result {
        write!(
            f,
            "{} {} {} {} {}",
            self.name,
            self.ttl,
            self.dns_class,
            self.record_type(),
            self.rdata
        )
    }
}
