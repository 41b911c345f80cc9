//! A zone as text (RFC 1035, 5.1).

ghost use Rattle.std.specs.BTreeMap.{IsOrdered};
ghost use Rattle.std.specs.Prelude.{◌≡◌, ◌++◌, IfOk, OnOk};
ghost use Rattle.std.specs.String.{string_bytes};
ghost use Rattle.base.specs.RrKey.{key_cmp};
ghost use Rattle.op.specs.MessageText.{line, record_lines};
ghost use Rattle.txt.specs.Parser.{texts_in};
ghost use Rattle.txt.specs.ZoneSets.{AreKeyed};
ghost use Rattle.parsed_zone.specs.Faults.{MakesOrRefuses};
ghost use Rattle.parsed_zone.specs.ZoneText.{generic_zone_of_bytes, origin_line, set_lines, zone_lines, zone_of_bytes};
ghost use Rattle.txt.specs.Zone.{no_texts};

use crate::refusal::ZoneRefusal;
use base::{Name, RrKey};
use rr::{Record, RecordSet};
use std::alloc::{AllocError, Global};
use std::collections::BTreeMap;
use std::str;
use txt::{Parser, ZoneSets};

/// The zone of the text that bytes are, under an origin, if there is one. No text is there to be included.
///
/// # Errors
///
/// `NotUtf8`, `Parse` for what the parser refuses, and `Memory`.
pub fn zone_of_bytes(
    alloc: Global,
    origin: Option<Name>,
    bytes: &[u8],
) -> Result<(Name, BTreeMap<RrKey, RecordSet>), ZoneRefusal>
    ensures zone { MakesOrRefuses (λ r. (r.0, r.1.entries))
        (zone_of_bytes no_texts origin bytes.now) result }
    // Each set stands under the key of its owner and type, has a record and is tidy.
    ensures kept { IfOk result (λ r. AreKeyed r.1.entries) }
{
    let none = BTreeMap::new(alloc);
    zone_with_texts(alloc, origin, &none, bytes)
}

/// The same with texts that may be included by their names.
///
/// # Errors
///
/// Those of `zone_of_bytes`.
pub fn zone_with_texts(
    alloc: Global,
    origin: Option<Name>,
    includes: &BTreeMap<String, String>,
    bytes: &[u8],
) -> Result<(Name, BTreeMap<RrKey, RecordSet>), ZoneRefusal>
    ensures zone { MakesOrRefuses (λ r. (r.0, r.1.entries))
        (zone_of_bytes (texts_in includes.now) origin bytes.now) result }
    // Each set stands under the key of its owner and type, has a record and is tidy.
    ensures kept { IfOk result (λ r. AreKeyed r.1.entries) }
{
    let (name, sets) = zone_sets(alloc, origin, includes, bytes)?;
    Ok((name, sets.into_map()?))
}

/// The same with the sets as the parser has them, which spares their map.
///
/// # Errors
///
/// Those of `zone_of_bytes`.
pub fn zone_sets(
    alloc: Global,
    origin: Option<Name>,
    includes: &BTreeMap<String, String>,
    bytes: &[u8],
) -> Result<(Name, ZoneSets), ZoneRefusal>
    ensures { MakesOrRefuses (λ r. r)
        (zone_of_bytes (texts_in includes.now) origin bytes.now) result }
{
    let Ok(text) = str::from_utf8(bytes) else {
        return Err(ZoneRefusal::NotUtf8);
    };
    Ok(Parser::new(alloc, text, includes, origin).parse_sets()?)
}

/// The zone of the text that bytes are, under an origin, if there is one, where types and data may also stand in the
/// generic form (RFC 3597, 5). No text is there to be included.
///
/// # Errors
///
/// Those of `zone_of_bytes`.
pub fn generic_zone_of_bytes(
    alloc: Global,
    origin: Option<Name>,
    bytes: &[u8],
) -> Result<(Name, BTreeMap<RrKey, RecordSet>), ZoneRefusal>
    ensures zone { MakesOrRefuses (λ r. (r.0, r.1.entries))
        (generic_zone_of_bytes origin bytes.now) result }
    // Each set stands under the key of its owner and type, has a record and is tidy.
    ensures kept { IfOk result (λ r. AreKeyed r.1.entries) }
{
    let Ok(text) = str::from_utf8(bytes) else {
        return Err(ZoneRefusal::NotUtf8);
    };
    let none = BTreeMap::new(alloc);
    Ok(Parser::new(alloc, text, &none, origin).parse_generic()?)
}

/// The origin and the records of a zone, a line each, in the order of owners and types.
///
/// # Errors
///
/// If memory runs out.
pub fn zone_lines(
    alloc: Global,
    name: &Name,
    sets: BTreeMap<RrKey, RecordSet>,
) -> Result<String, AllocError>
    ensures lines { IfOk result (λ lines. string_bytes lines
        ≡ zone_lines (name.now, sets.entries)) }
    // The sets that were handed in stand in the order of their keys, each once.
    ensures ordered { IfOk result (λ _. IsOrdered key_cmp sets) }
{
    let mut lines = origin_line(alloc, name)?;
    for (_key, set) in sets {
        add_records(set.into_parts().records, &mut lines)?;
    }
    Ok(lines)
}

/// The same of sets as the parser has them.
///
/// # Errors
///
/// If memory runs out.
pub fn sets_lines(alloc: Global, name: &Name, sets: ZoneSets) -> Result<String, AllocError>
    ensures { IfOk result (λ lines. string_bytes lines ≡ zone_lines (name.now, sets)) }
{
    let mut lines = origin_line(alloc, name)?;
    for block in sets.into_blocks()? {
        add_sets(block, &mut lines)?;
    }
    Ok(lines)
}

/// The line of an origin (RFC 1035, 5.1).
fn origin_line(alloc: Global, name: &Name) -> Result<String, AllocError>
    ensures { IfOk result (λ line. string_bytes line ≡ origin_line name.now) }
{
    format!(in alloc; "$ORIGIN {name}\n")
}

/// Adds the records of sets, a line each.
fn add_sets(sets: Vec<(RrKey, RecordSet)>, lines: &mut String) -> Result<(), AllocError>
    ensures { OnOk result (string_bytes lines.new
        ≡ string_bytes lines.old ++ set_lines sets.items) }
{
    for (_key, set) in sets {
        add_records(set.into_parts().records, lines)?;
    }
    Ok(())
}

/// Adds the records, a line each.
fn add_records(records: Vec<Record>, lines: &mut String) -> Result<(), AllocError>
    ensures { OnOk result (string_bytes lines.new
        ≡ string_bytes lines.old ++ record_lines records.items) }
{
    for entry in records {
        writeln!(lines, "{entry}")?;
    }
    Ok(())
}
