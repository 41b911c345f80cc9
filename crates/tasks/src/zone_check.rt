//! Where zone text is refused, and for what (RFC 1035, 5.1).

ghost use Rattle.std.specs.Prelude.{◌≡◌, IfErr, IfOk, Result, Some, [], map, option_map};
ghost use Rattle.std.specs.String.{string_bytes};
ghost use Rattle.base.specs.names.Labels.{NameValue};
ghost use Rattle.txt.specs.Faults.{FailsAt, inclusion_value};
ghost use Rattle.txt.specs.Zone.{PlacedFault};
ghost use Rattle.txt.specs.ZoneSets.{ZoneSets};
ghost use Rattle.tasks.specs.Asked.{Makes};
ghost use Rattle.tasks.specs.ZoneCheck.{fault_told, last_name, told_value, zone_checked};

use crate::included::{Included, included_texts};
use crate::refusal::Refusal;
use crate::zone::{characters_of, origin_of};
use std::alloc::{AllocError, Global};
use txt::{FaultPlace, Inclusion, Parser, ZoneFault};

/// A fault of zone text, as callers are told it.
#[derive(Drop)]
pub struct Told {
    /// What the text is refused for.
    pub refusal: Refusal,
    /// The name of the included text that it stands in; empty of the text that was handed in.
    pub name: String,
    /// The line, from 1.
    pub line: usize,
    /// The column, from 1, in bytes.
    pub column: usize,
    /// The words that say what it is.
    pub words: String,
}

/// The fault of a text, if it has one.
///
/// # Errors
///
/// 24 for an origin, a name or a text that isn't UTF-8, and 23 for an origin that is no name.
pub fn check(
    alloc: Global,
    origin: &[u8],
    text: &[u8],
    included: &[Included],
    included_bytes: &[u8],
) -> Result<Option<Told>, Refusal>
    ensures { Makes (λ told. option_map told_value told)
        (zone_checked origin.now text.now included.now included_bytes.now) result }
{
    let origin = origin_of(alloc, origin)?;
    let text = characters_of(text)?;
    let texts = included_texts(alloc, included, included_bytes)?;
    match Parser::new(alloc, text, &texts, origin).parse_generic_or_fault() {
        Ok(_zone) => Ok(None),
        Err(fault) => Ok(Some(tell(alloc, fault)?)),
    }
}

/// A fault of zone text, as callers are told it.
///
/// # Errors
///
/// 3 if memory runs out, or ran out before.
fn tell(alloc: Global, fault: ZoneFault) -> Result<Told, Refusal>
    ensures told { IfOk result (λ told. (made : Result (NameValue × ZoneSets) PlacedFault)
        → FailsAt fault made → fault_told made ≡ Some (told_value told)) }
    ensures memory { IfErr result (λ refusal. refusal.number ≡ 3) }
{
    let ZoneFault { error, place } = fault;
    let Some(place) = place else {
        return Err(Refusal::from(AllocError));
    };
    let words = format!(in alloc; "{error}")?;
    let FaultPlace {
        inclusions,
        line,
        column,
    } = place;
    Ok(Told {
        refusal: Refusal::from(error),
        name: last_name(alloc, inclusions),
        line,
        column,
        words,
    })
}

/// The name of the text that was opened last; empty where none was.
fn last_name(alloc: Global, mut inclusions: Vec<Inclusion>) -> String
    ensures { string_bytes result ≡ last_name [] (map inclusion_value inclusions.items) }
{
    match inclusions.pop() {
        Some(inclusion) => inclusion.name,
        None => String::new(alloc),
    }
}
