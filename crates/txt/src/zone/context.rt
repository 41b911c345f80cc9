//! What is in force between the entries of a text, and what an entry makes of it.

ghost use Rattle.base.specs.texts.TextFaults.{Gives, says};
ghost use Rattle.base.specs.texts.Tokens.{texts};
ghost use Rattle.base_data.specs.declared.rdata.RData.{RData};
ghost use Rattle.std.specs.Option.{ok_or};
ghost use Rattle.std.specs.Prelude.{IfOk, Ok, OnOk, codes, false, map, ◌≡◌};
ghost use Rattle.std.specs.String.{string_bytes};
ghost use Rattle.txt.specs.Cutting.{body_value, entry_value, owner_value, settings_value, stop_value};
ghost use Rattle.txt.specs.Zone.{ZoneState, absolute, answered, apply, beginning, carried, data_in, owned, record_of, recorded, settled, spent, state_with, stopped, type_in};

use crate::zone::entry::{Body, Entry, Owner, Settings, Stop};
use crate::zone::sets::ZoneSets;
use base::{DNSClass, Name, ParseError, RecordType, parse_ttl};
use base_data::{RData, parse_type};
use rr::Record;
use std::alloc::{AllocError, Global};
use std::marker::Model;

/// What is in force between entries.
#[derive(Drop)]
pub(super) struct Context {
    alloc: Global,
    /// Whether types and data may stand in the generic form (RFC 3597, 5).
    generic: bool,
    origin: Option<Name>,
    owner: Option<Name>,
    dns_class: DNSClass,
    pending: Option<u32>,
    default_ttl: Option<u32>,
    last_ttl: Option<u32>,
    sets: ZoneSets,
}

impl Model for Context {
    ghost use Rattle.txt.specs.Zone.{ZoneState};

    ghost Value = { ZoneState };

    ghost view = { λ c.
        record {
          generic = c.generic;
          origin = c.origin;
          owner = c.owner;
          dns_class = c.dns_class;
          pending = c.pending;
          default_ttl = c.default_ttl;
          last_ttl = c.last_ttl;
          sets = c.sets;
        } };
}

impl Context {
    /// What is in force before the first entry; the origin is made absolute. Takes no memory.
    pub(super) fn new(alloc: Global, origin: Option<Name>, generic: bool) -> Context
        ensures { result ≡ beginning generic origin }
    {
        Context {
            alloc,
            generic,
            origin: origin.map(make_absolute),
            owner: None,
            dns_class: DNSClass::IN,
            pending: None,
            default_ttl: None,
            last_ttl: None,
            sets: ZoneSets::new(alloc),
        }
    }

    /// What an entry makes of it, if it opens no text.
    ///
    /// # Errors
    ///
    /// The fault of the entry; `Memory` if memory runs out.
    #[tactic(auto, unfolding(crate::specs::Zone::apply))]
    pub(super) fn apply(&mut self, entry: Entry<'_>) -> Result<(), ParseError>
        ensures { Gives (λ _. self.new) result (apply self.old (entry_value entry.entry)) }
    {
        match entry {
            Entry::Nothing => Ok(()),
            Entry::Origin(text) => {
                self.origin = Some(Name::parse(self.alloc, text, None)?);
                Ok(())
            }
            Entry::Ttl(text) => {
                let Ok(ttl) = parse_ttl(text) else {
                    return Err(ParseError::BadTtl);
                };
                self.default_ttl = Some(ttl);
                Ok(())
            }
            Entry::Include(_) => Ok(()),
            Entry::IncludeUnder => Err(ParseError::Message(
                "Domain name for $INCLUDE is not supported",
            )),
            Entry::Line(owner, settings, body) => {
                self.set_owner(owner)?;
                self.settle(settings);
                self.carry_out(body)
            }
            Entry::Faulty(other) => Err(other.fault(self.alloc)),
        }
    }

    /// The owner of a line: a name, the origin, or the last owner.
    fn set_owner(&mut self, owner: Owner<'_>) -> Result<(), ParseError>
        ensures { Gives (λ _. self.new) result (owned self.old (owner_value owner.entry)) }
    {
        match owner {
            Owner::Named(text) => {
                let name = Name::parse(self.alloc, text, self.origin.as_ref())?;
                self.owner = Some(name);
            }
            Owner::Origin => self.owner = self.copy_origin()?,
            Owner::Same => {}
        }
        Ok(())
    }

    /// What a line states is in force.
    fn settle(&mut self, settings: Settings)
        ensures { self.new ≡ settled self.old (settings_value settings) }
    {
        self.pending = settings.ttl.or(self.pending);
        self.dns_class = settings.dns_class.unwrap_or(self.dns_class);
    }

    /// What stands after the settings of a line: nothing, or a record.
    fn carry_out(&mut self, body: Body<'_>) -> Result<(), ParseError>
        ensures { Gives (λ _. self.new) result (carried self.old (body_value body.entry)) }
    {
        match body {
            Body::Untyped(stop) => end_at(self.alloc, &stop),
            Body::Typed(word, items, stop) => {
                let record_type = self.type_of_text(word)?;
                end_at(self.alloc, &stop)?;
                let rdata = self.data_of(record_type, &items)?;
                self.add_record(rdata)
            }
        }
    }

    /// The type that a text in upper case names.
    fn type_of_text(&self, raised: String) -> Result<RecordType, ParseError>
        ensures { Gives (λ t. t) result (type_in self.now (string_bytes raised)) }
    {
        if self.generic {
            return parse_type(raised);
        }
        match RecordType::from_text(raised.as_str()) {
            Some(record_type) => Ok(record_type),
            None => Err(ParseError::UnknownRecordType(raised)),
        }
    }

    /// The data of a type that items name, under the origin.
    fn data_of(&self, record_type: RecordType, items: &[&str]) -> Result<RData, ParseError>
        ensures { Gives (λ d. d) result
            (data_in self.now record_type (map (λ item. item.now) items.now)) }
    {
        let origin = self.origin.as_ref();
        if self.generic {
            return RData::from_any_items(self.alloc, record_type, items, origin);
        }
        RData::from_items(self.alloc, record_type, items, origin)
    }

    /// Makes a record of data, with what is in force.
    fn add_record(&mut self, rdata: RData) -> Result<(), ParseError>
        ensures { Gives (λ _. self.new) result (recorded self.old rdata) }
    {
        let (name, ttl) = self.owner_and_ttl()?;
        let entry = Record {
            name,
            dns_class: self.dns_class,
            ttl,
            rdata,
            mdns_cache_flush: false,
        };
        self.add(entry)?;
        self.use_up_ttl();
        Ok(())
    }

    /// The owner of a record, made absolute, and its TTL: the pending one, else the default, else the last.
    fn owner_and_ttl(&self) -> Result<(Name, u32), ParseError>
        // With these and the class in force, data makes its record.
        ensures { (rdata : RData) → Gives
            (λ p. record {
              name = p.0;
              dns_class = self.now.dns_class;
              ttl = p.1;
              rdata = rdata;
              mdns_cache_flush = false;
            }) result (record_of self.now rdata) }
    {
        let Some(owner) = &self.owner else {
            return Err(ParseError::Message("record name not specified"));
        };
        let name = make_absolute(owner.clone()?);
        let Some(ttl) = self.pending.or(self.default_ttl.or(self.last_ttl)) else {
            return Err(ParseError::Message("record ttl not specified"));
        };
        Ok((name, ttl))
    }

    /// Puts a record into the sets.
    fn add(&mut self, entry: Record) -> Result<(), ParseError>
        ensures { Gives (λ _. self.new) result (state_with self.old entry) }
    {
        self.sets.add(entry)
    }

    /// The pending TTL becomes the last, and is used up.
    fn use_up_ttl(&mut self)
        ensures { self.new ≡ spent self.old }
    {
        if self.pending.is_some() {
            self.last_ttl = self.pending;
            self.pending = None;
        }
    }

    /// The origin and the sets of records; `None` where there is no origin.
    pub(super) fn answer(self) -> Option<(Name, ZoneSets)>
        ensures { answered self ≡ ok_or result (says (codes "$ORIGIN was not specified")) }
    {
        let Context { origin, sets, .. } = self;
        Some((origin?, sets))
    }

    /// The origin, copied.
    pub(super) fn copy_origin(&self) -> Result<Option<Name>, AllocError>
        ensures { OnOk result (result ≡ Ok self.now.origin) }
    {
        match &self.origin {
            Some(origin) => Ok(Some(origin.clone()?)),
            None => Ok(None),
        }
    }

    /// Sets the origin.
    pub(super) fn set_origin(&mut self, origin: Option<Name>)
        ensures { self.new ≡ record self.old { origin = origin } }
    {
        self.origin = origin;
    }
}

/// Makes a name absolute.
fn make_absolute(mut name: Name) -> Name
    ensures { result ≡ absolute name }
{
    name.set_fqdn(true);
    name
}

/// The fault that an entry ends with, if it ends with one.
fn end_at(alloc: Global, stop: &Stop<'_>) -> Result<(), ParseError>
    ensures { (s : ZoneState) → Gives (λ _. s) result (stopped s (stop_value stop.now)) }
{
    match stop {
        Stop::Whole => Ok(()),
        Stop::Refused(other) => Err(other.fault(alloc)),
    }
}
