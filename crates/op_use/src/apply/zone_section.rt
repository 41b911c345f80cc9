//! The second step: the zone section of an update (RFC 2136, 3.1).

ghost use Rattle.op_use.specs.HeldZone.{zone_held};
ghost use Rattle.op_use.specs.Server.{zone_fault};
ghost use Rattle.std.specs.Prelude.{◌≡◌};

use crate::apply::zone::Zone;
use base::RecordType;
use op::{Query, ResponseCode};

impl<'a> Zone<'a> {
    /// What is wrong with the zone section.
    pub(crate) fn zone_fault(&self, queries: &[Query]) -> Option<ResponseCode>
        ensures { result ≡ zone_fault (zone_held self.now) queries.now }
    {
        let [query] = queries else {
            return Some(ResponseCode::FormErr);
        };
        if query.query_type() != RecordType::SOA {
            return Some(ResponseCode::FormErr);
        }
        if *query.name() == *self.origin && query.query_class() == self.class {
            None
        } else {
            Some(ResponseCode::NotAuth)
        }
    }
}
