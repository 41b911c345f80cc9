//! Counts what zone texts have.
#![tactic(auto)]

ghost use Rattle.std.specs.Prelude.{IfOk};
ghost use Rattle.txt.specs.Zone.{no_texts, zone_of};
ghost use Rattle.zones.specs.Counts.{HasSets};

use base::{Name, ParseError};
use std::alloc::Global;
use std::collections::BTreeMap;
use txt::Parser;

/// How many record sets the zone of a text has that includes no other (RFC 1035, 5.1; RFC 2181, 5).
///
/// # Errors
///
/// What the parser refuses.
pub fn sets(alloc: Global, origin: Option<Name>, text: &str) -> Result<usize, ParseError>
    ensures count { IfOk result (λ n. HasSets (zone_of no_texts origin text.now) n) }
{
    let includes = BTreeMap::new(alloc);
    match Parser::new(alloc, text, &includes, origin).parse() {
        Ok((_origin, sets)) => Ok(sets.len()),
        Err(e) => Err(e),
    }
}
