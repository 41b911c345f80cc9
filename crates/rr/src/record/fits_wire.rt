//! What is true of all records, and whether the wire carries one.

ghost use Rattle.std.specs.Prelude.{◌≡◌, ◌<◌, ◌↔◌, IsTrue, false};
ghost use Rattle.base.specs.DNSClass.{class_number, class_of, opt_class};
ghost use Rattle.rr.specs.Record.{FitsRecord};
ghost use Rattle.rr.specs.RecordSays.{KeptRecord};

use crate::record::Record;
use base::{DNSClass, RecordType};
use base_data::RData;

/// The class numbers from this one on have the top bit of the class field (RFC 6762, 10.2).
const TOP_BIT: u16 = 0x8000;

impl Record<RData> {
    /// Tells a caller what is true of all records: type, class and TTL have the bits of their fields, the owner has
    /// labels of 1 to 63 bytes and takes 255 at most (RFC 1035, 2.3.4 and 3.2.1), and what `RData::fits` tells of data.
    pub fn fits(&self)
        ensures { KeptRecord self.now }
    {
        self.name.as_wire();
        u16::from(self.record_type());
        self.dns_class.to_field(self.mdns_cache_flush);
        let _ttl = self.ttl;
        self.rdata.fits();
    }

    /// Whether the record can stand on the wire and is read there as it was: its owner is absolute, its data is
    /// readable, type and class are those of their numbers, and the class leaves its top bit free (RFC 1035, 3.2.1; RFC
    /// 6762, 10.2). The owner of an OPT record is the root, and its class a payload size of 512 at least (RFC 6891,
    /// 6.1.2).
    pub fn fits_wire(&self) -> bool
        ensures { IsTrue result ↔ FitsRecord self.now }
    {
        let record_type = self.record_type();
        if !self.name.is_fqdn()
            || !self.rdata.is_readable()
            || RecordType::from(u16::from(record_type)) != record_type
        {
            return false;
        }
        if record_type == RecordType::OPT {
            self.name.is_root() && self.has_payload_size()
        } else {
            self.has_class()
        }
    }

    /// Whether the class is that of its number, and leaves the top bit free.
    fn has_class(&self) -> bool
        ensures { IsTrue result ↔ ((class_of (class_number self.now.dns_class)
            ≡ self.now.dns_class) × (class_number self.now.dns_class < 32768)) }
    {
        let number = u16::from(self.dns_class);
        number < TOP_BIT && DNSClass::from(number) == self.dns_class
    }

    /// Whether the class is a payload size of 512 at least, without the bit beside it.
    fn has_payload_size(&self) -> bool
        ensures { IsTrue result ↔ ((opt_class (class_number self.now.dns_class)
            ≡ self.now.dns_class) × (self.now.mdns_cache_flush ≡ false)) }
    {
        !self.mdns_cache_flush && DNSClass::for_opt(u16::from(self.dns_class)) == self.dns_class
    }
}
