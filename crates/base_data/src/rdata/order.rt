//! The order of the data of any record (RFC 4034, 6.2 and 6.3).

ghost use Rattle.std.specs.Prelude.{◌≡◌, option_copied};
ghost use Rattle.std.specs.Option.{option_cmp};
ghost use Rattle.base_data.specs.DataOrder.{data_cmp, flag_cmp, flags_cmp};
ghost use Rattle.base_data.specs.Kinds.{name_flags};

use crate::rdata::RData;
use base::Name;
use std::cmp::Ordering;

impl RData {
    /// The order of data: by the bytes of the canonical form, what is a beginning before what it begins (RFC 4034,
    /// 6.3); then by type; then by kind, in the order of the variants; then relative names first, from the left.
    pub fn canonical_cmp(&self, other: &RData) -> Ordering
        ensures { result ≡ data_cmp self.now other.now }
    {
        self.cmp_octets(other)
            .then_with(|| self.record_type().cmp(&other.record_type()))
            .then_with(|| self.kind_rank().cmp(&other.kind_rank()))
            .then_with(|| self.cmp_flags(other))
    }

    /// The order of the flags of names, from the left, relative first.
    fn cmp_flags(&self, other: &RData) -> Ordering
        ensures { result ≡ flags_cmp (name_flags self.now) (name_flags other.now) }
    {
        let (first, second) = self.names();
        let (other_first, other_second) = other.names();
        cmp_flag(first, other_first).then(cmp_flag(second, other_second))
    }
}

/// The order of the flags of two names, relative first; a name that is missing comes before both.
fn cmp_flag(a: Option<&Name>, b: Option<&Name>) -> Ordering
    ensures { result ≡ option_cmp flag_cmp (option_copied a.entry) (option_copied b.entry) }
{
    a.map(Name::is_fqdn).cmp(&b.map(Name::is_fqdn))
}
