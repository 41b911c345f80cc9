//! Zone text (RFC 1035, 5.1).

ghost use Rattle.std.specs.Prelude.{IfOk};
ghost use Rattle.txt.specs.ZoneSets.{AreKeyed};
ghost use Rattle.tasks.specs.Asked.{Makes, MakesBy};
ghost use Rattle.tasks.specs.ZoneText.{IsCanonical, characters, name_of_text, origin_of_text, zone_name_of, zone_asked, zone_of_text, zone_under};

use crate::fits::fits_wire;
use crate::included::{Included, included_texts};
use crate::refusal::Refusal;
use base::{Name, RrKey};
use parsed_zone::{generic_zone_of_bytes, zone_lines};
use rr::RecordSet;
use std::alloc::Global;
use std::collections::BTreeMap;
use std::str;
use txt::Parser;

/// The zone of a text, as text: its origin, and each record on a line of its own.
///
/// # Errors
///
/// Those of `zone_of`, and 31 for a record that can't stand on the wire.
pub fn canonical_text(alloc: Global, origin: &[u8], text: &[u8]) -> Result<Vec<u8>, Refusal>
    ensures { MakesBy (IsCanonical origin.now text.now) result }
{
    let (name, sets) = zone_of(alloc, origin, text)?;
    if !fits_wire(&sets) {
        return Err(Refusal::NOT_ON_WIRE);
    }
    Ok(zone_lines(alloc, &name, sets)?.into_bytes())
}

/// The origin at the end of a zone's text, and its sets.
///
/// # Errors
///
/// 24 for an origin or a text that isn't UTF-8, and the number of what the parser refuses.
pub fn zone_of(
    alloc: Global,
    origin: &[u8],
    text: &[u8],
) -> Result<(Name, BTreeMap<RrKey, RecordSet>), Refusal>
    ensures zone { Makes (λ r. (r.0, r.1.entries)) (zone_of_text origin.now text.now) result }
    // Each set stands under the key of its owner and type, has a record and is tidy.
    ensures kept { IfOk result (λ r. AreKeyed r.1.entries) }
{
    let origin = origin_of(alloc, origin)?;
    zone_under(alloc, origin, text)
}

/// The zone of a text under an origin, if there is one.
///
/// # Errors
///
/// 24 for a text that isn't UTF-8, and the number of what the parser refuses.
pub fn zone_under(
    alloc: Global,
    origin: Option<Name>,
    text: &[u8],
) -> Result<(Name, BTreeMap<RrKey, RecordSet>), Refusal>
    ensures zone { Makes (λ r. (r.0, r.1.entries)) (zone_under origin text.now) result }
    // Each set stands under the key of its owner and type, has a record and is tidy.
    ensures kept { IfOk result (λ r. AreKeyed r.1.entries) }
{
    Ok(generic_zone_of_bytes(alloc, origin, text)?)
}

/// The origin that a text names, if it isn't empty.
///
/// # Errors
///
/// Those of `name_of`.
pub fn origin_of(alloc: Global, text: &[u8]) -> Result<Option<Name>, Refusal>
    ensures { Makes (λ origin. origin) (origin_of_text text.now) result }
{
    if text.is_empty() {
        return Ok(None);
    }
    Ok(Some(name_of(alloc, text)?))
}

/// The name of a text (RFC 1035, 5.1).
///
/// # Errors
///
/// 24 for a text that isn't UTF-8, 23 for one that names nothing.
pub fn name_of(alloc: Global, text: &[u8]) -> Result<Name, Refusal>
    ensures { Makes (λ name. name) (name_of_text text.now) result }
{
    let text = characters_of(text)?;
    Ok(Name::parse(alloc, text, None)?)
}

/// The name of a zone, as of an absolute name.
///
/// # Errors
///
/// 26 for no bytes, and those of `name_of`.
pub fn zone_name_of(alloc: Global, text: &[u8]) -> Result<Name, Refusal>
    ensures { Makes (λ name. name) (zone_name_of text.now) result }
{
    if text.is_empty() {
        return Err(Refusal::NO_ORIGIN);
    }
    let mut name = name_of(alloc, text)?;
    name.set_fqdn(true);
    Ok(name)
}

/// The zone of the origin that a text names, with the sets of another text, which may include these: an `$ORIGIN` of it
/// is of names alone.
///
/// # Errors
///
/// Those of `zone_name_of`; 24 for a text that isn't UTF-8, and the number of what the parser refuses.
pub fn zone_asked(
    alloc: Global,
    origin: &[u8],
    text: &[u8],
    included: &[Included],
    included_bytes: &[u8],
) -> Result<(Name, BTreeMap<RrKey, RecordSet>), Refusal>
    ensures made { Makes (λ r. (r.0, r.1.entries))
        (zone_asked origin.now text.now included.now included_bytes.now) result }
    // Each set stands under the key of its owner and type, has a record and is tidy.
    ensures kept { IfOk result (λ r. AreKeyed r.1.entries) }
{
    let zone = zone_name_of(alloc, origin)?;
    let text = characters_of(text)?;
    let texts = included_texts(alloc, included, included_bytes)?;
    let origin = Some(zone.clone()?);
    let (_origin, sets) = Parser::new(alloc, text, &texts, origin).parse_generic()?;
    Ok((zone, sets))
}

/// The characters of a text.
///
/// # Errors
///
/// 24 for a text that isn't UTF-8.
pub fn characters_of(text: &[u8]) -> Result<&str, Refusal>
    ensures { Makes (λ text. text.now) (characters text.now) result }
{
    match str::from_utf8(text) {
        Ok(text) => Ok(text),
        Err(_) => Err(Refusal::NOT_UTF8),
    }
}
