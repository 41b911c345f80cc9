//! Checks zone text.

ghost use Rattle.txt.specs.Zone.{no_texts, zone_of};
ghost use Rattle.examples.specs.Callers.{CountsSets};

use base::Name;
use std::alloc::Global;
use std::collections::BTreeMap;
use txt::Parser;

/// How many record sets the zone of a text has, that includes no other text (RFC 1035, 5.1; RFC 2181, 5).
///
/// # Errors
///
/// The number of what the parser refuses.
pub fn check(alloc: Global, origin: Option<Name>, text: &str) -> Result<usize, u8>
    ensures { CountsSets (zone_of no_texts origin text.now) result }
{
    let includes = BTreeMap::new(alloc);
    match Parser::new(alloc, text, &includes, origin).parse() {
        Ok((_origin, sets)) => Ok(sets.len()),
        Err(e) => Err(e.number()),
    }
}
