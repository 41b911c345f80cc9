//! The fourth step: a look at the updates before the first is carried out (RFC 2136, 3.4.1).

ghost use Rattle.op_use.specs.HeldZone.{zone_held};
ghost use Rattle.op_use.specs.Server.{first_fault, prescan_fault};
ghost use Rattle.std.specs.Prelude.{◌≡◌};

use crate::apply::rules::{Use, is_meta, use_of};
use crate::apply::zone::Zone;
use base::RecordType;
use op::ResponseCode;
use rr::Record;

impl<'a> Zone<'a> {
    /// The first that is wrong with the updates.
    pub(crate) fn prescan_fault(&self, entries: &[Record]) -> Option<ResponseCode>
        ensures { result ≡ first_fault (prescan_fault (zone_held self.now)) entries.now }
    {
        for entry in entries {
            if !self.origin.zone_of(&entry.name) {
                return Some(ResponseCode::NotZone);
            }
            let record_type = entry.record_type();
            let is_right = match use_of(self.class, entry.dns_class) {
                Use::OfZone => !is_meta(record_type),
                Use::OfAny => {
                    entry.ttl == 0
                        && entry.rdata.is_update()
                        && (!is_meta(record_type) || record_type == RecordType::ANY)
                }
                Use::OfNone => entry.ttl == 0 && !is_meta(record_type),
                Use::OfNothing => false,
            };
            if !is_right {
                return Some(ResponseCode::FormErr);
            }
        }
        None
    }
}
