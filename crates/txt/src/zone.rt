//! Reads the zone of a text and of the texts that it includes (RFC 1035, 5.1).

ghost use Rattle.std.specs.Prelude.{IfOk, false, true, ◌≡◌};
ghost use Rattle.base.specs.texts.TextFaults.{Gives};
ghost use Rattle.txt.specs.Faults.{GivesPlaced};
ghost use Rattle.txt.specs.Zone.{generic_zone_of, placed_zone_by, zone_of};
ghost use Rattle.txt.specs.Parser.{named_texts, text_among};
ghost use Rattle.txt.specs.ZoneSets.{AreKeyed};

mod context;
mod entry;
pub mod fault;
mod keyed;
mod places;
mod prefix;
mod run;
pub mod sets;
mod texts;

use crate::zone::context::Context;
use crate::zone::fault::{FaultPlace, ZoneFault};
use crate::zone::places::position;
use crate::zone::sets::ZoneSets;
use crate::zone::texts::read_texts;
use base::{Name, ParseError, RrKey};
use rr::RecordSet;
use std::alloc::Global;
use std::collections::BTreeMap;
use std::marker::Model;

/// Reads the zone of a text (RFC 1035, 5.1).
///
/// Contracts see the text, the texts that it may include by their names, and the origin that was given.
#[derive(Drop)]
pub struct Parser<'a> {
    alloc: Global,
    text: &'a str,
    includes: &'a BTreeMap<String, String>,
    origin: Option<Name>,
}

impl<'a> Model for Parser<'a> {
    ghost use Rattle.txt.specs.Parser.{ParserValue, named_texts};

    ghost Value = { ParserValue };

    ghost view = { λ p.
        record { text = p.text.now; includes = named_texts p.includes.now; origin = p.origin } };
}

impl<'a> Parser<'a> {
    /// A parser of a text, with the texts that it may include by `$INCLUDE`, each under its name, and an origin,
    /// which `parse` makes absolute. Takes no memory.
    pub fn new(
        alloc: Global,
        text: &'a str,
        includes: &'a BTreeMap<String, String>,
        origin: Option<Name>,
    ) -> Parser<'a>
        ensures { result
            ≡ record { text = text.now; includes = named_texts includes.now; origin = origin } }
    {
        Parser {
            alloc,
            text,
            includes,
            origin,
        }
    }

    /// The origin at the end of the text, and its record sets by owner and type: the zone that its entries define.
    ///
    /// An entry is the end of a line; `$ORIGIN` or `$TTL` and an item; `$INCLUDE`, the name of a text and the end of
    /// the line; or an owner (a name, `@` for the origin, or a blank for the last owner), any TTLs and classes, and
    /// then the end of the line, or a type and the items of its data up to the end of the line or of the text. A record
    /// has the TTL that its line states, else the one of `$TTL`, else the last that a line stated; its owner is made
    /// absolute. An included text begins with what is in force, and at its end the includer's origin comes back, and
    /// all else is carried on. At most 257 texts are open at once. A record of a new owner and type makes a set, and
    /// another goes into its set as `RecordSet::insert` has it, with the serial 0.
    ///
    /// # Errors
    ///
    /// The first entry that has a fault decides, and within it the order from left to right: `UnexpectedToken` and
    /// `Lexer` where such a token stands; `BadName`, `BadTtl` and `UnknownRecordType` for an item that is none;
    /// `Message` for a name after the name of an included text, at that name; at the end of an entry,
    /// `UnsupportedRecordType` and `BadData` for the items of data, `Message` where no owner or no TTL is in force, for
    /// a second SOA of an owner and for too many open texts, and `IncludeNotFound` for a text that was not handed in;
    /// at the very end, `Message` where no origin is in force. `Memory` if memory runs out, at any time.
    pub fn parse(self) -> Result<(Name, BTreeMap<RrKey, RecordSet>), ParseError>
        // The zone or the fault is that of the definition `zone_of`, unless memory runs out.
        ensures zone { Gives (λ r. (r.0, r.1.entries)) result
            (zone_of (text_among self.entry.includes) self.entry.origin self.entry.text) }
        // Each set stands under the key of its owner and type, has a record and is tidy.
        ensures kept { IfOk result (λ r. AreKeyed r.1.entries) }
    {
        let (origin, sets) = self.parse_sets()?;
        Ok((origin, sets.into_map()?))
    }

    /// The same with the sets as the parser has them, which spares their map.
    ///
    /// # Errors
    ///
    /// Those of `parse`.
    pub fn parse_sets(self) -> Result<(Name, ZoneSets), ParseError>
        ensures { Gives (λ r. r) result
            (zone_of (text_among self.entry.includes) self.entry.origin self.entry.text) }
    {
        self.read_sets(false).map_err(|fault| fault.error)
    }

    /// The zone that the entries define where types and data may also stand in the generic form (RFC 3597, 5): a type
    /// as `TYPE` and its number (`parse_type`), and data of any type after `\#` (`RData::from_any_items`).
    ///
    /// # Errors
    ///
    /// Those of `parse`.
    pub fn parse_generic(self) -> Result<(Name, BTreeMap<RrKey, RecordSet>), ParseError>
        // The zone or the fault is that of the definition `generic_zone_of`, unless memory runs out.
        ensures zone { Gives (λ r. (r.0, r.1.entries)) result
            (generic_zone_of (text_among self.entry.includes) self.entry.origin self.entry.text) }
        // Each set stands under the key of its owner and type, has a record and is tidy.
        ensures kept { IfOk result (λ r. AreKeyed r.1.entries) }
    {
        let (origin, sets) = self.read_sets(true).map_err(|fault| fault.error)?;
        Ok((origin, sets.into_map()?))
    }

    /// The zone as `parse` has it, or its fault with the place where it stands: what a zone checker prints.
    ///
    /// The fault stands at the first token that makes it. Where a token has no place in its entry, that is the token.
    /// Else it is the name or TTL of an `$ORIGIN`, `$TTL` or `$INCLUDE`, the name after an `$INCLUDE`'s, the owner
    /// where that is no name, and for what else a record is refused for, its type. For an included text the place is in
    /// that text, with the `$INCLUDE`s that lead there. That no origin is in force stands at the end of the text that
    /// was handed in.
    ///
    /// # Errors
    ///
    /// Those of `parse`, each with its place; `Memory` has none.
    pub fn parse_or_fault(self) -> Result<(Name, BTreeMap<RrKey, RecordSet>), ZoneFault>
        // The zone or the fault with its place is that of the definition, unless memory runs out.
        ensures zone { GivesPlaced (λ r. (r.0, r.1.entries)) result
            (placed_zone_by false (text_among self.entry.includes) self.entry.origin
            self.entry.text) }
        // Each set stands under the key of its owner and type, has a record and is tidy.
        ensures kept { IfOk result (λ r. AreKeyed r.1.entries) }
    {
        let (origin, sets) = self.read_sets(false)?;
        Ok((origin, sets.into_map()?))
    }

    /// The same of `parse_generic`.
    ///
    /// # Errors
    ///
    /// Those of `parse_generic`, each with its place; `Memory` has none.
    pub fn parse_generic_or_fault(self) -> Result<(Name, BTreeMap<RrKey, RecordSet>), ZoneFault>
        // The zone or the fault with its place is that of the definition, unless memory runs out.
        ensures zone { GivesPlaced (λ r. (r.0, r.1.entries)) result
            (placed_zone_by true (text_among self.entry.includes) self.entry.origin
            self.entry.text) }
        // Each set stands under the key of its owner and type, has a record and is tidy.
        ensures kept { IfOk result (λ r. AreKeyed r.1.entries) }
    {
        let (origin, sets) = self.read_sets(true)?;
        Ok((origin, sets.into_map()?))
    }

    /// The origin and the sets, where the generic form may stand or may not.
    fn read_sets(self, generic: bool) -> Result<(Name, ZoneSets), ZoneFault>
        ensures { GivesPlaced (λ r. r) result
            (placed_zone_by generic (text_among self.entry.includes) self.entry.origin
            self.entry.text) }
    {
        let Parser {
            alloc,
            text,
            includes,
            origin,
        } = self;
        let mut context = Context::new(alloc, origin, generic);
        read_texts(alloc, text, includes, &mut context)?;
        let Some(zone) = context.answer() else {
            let (line, column) = position(text, 0);
            let place = FaultPlace {
                inclusions: Vec::new(alloc),
                line,
                column,
            };
            return Err(ZoneFault {
                error: ParseError::Message("$ORIGIN was not specified"),
                place: Some(place),
            });
        };
        Ok(zone)
    }
}
