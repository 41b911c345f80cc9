//! Comparing data in the letter case of its names too.

ghost use Rattle.std.specs.Prelude.{IsTrue, option_copied, ◌↔◌, ◌≡◌};

use crate::rdata::RData;
use base::Name;

impl RData {
    /// Whether the data is the same in every field, its names in their letter case too.
    pub fn eq_case(&self, other: &RData) -> bool
        ensures { IsTrue result ↔ (self.now ≡ other.now) }
    {
        let (first, second) = self.names();
        let (other_first, other_second) = other.names();
        self == other && is_same_name(first, other_first) && is_same_name(second, other_second)
    }
}

/// Whether both are names, the same in their letter case too, or neither is one.
fn is_same_name(a: Option<&Name>, b: Option<&Name>) -> bool
    ensures { IsTrue result ↔ (option_copied a.entry ≡ option_copied b.entry) }
{
    match (a, b) {
        (Some(a), Some(b)) => a.eq_case(b),
        (None, None) => true,
        _ => false,
    }
}
