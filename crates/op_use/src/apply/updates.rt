//! The last step: the updates of a message, one after the other (RFC 2136, 3.4.2).

ghost use Rattle.op_use.specs.HeldZone.{zone_held};
ghost use Rattle.op_use.specs.MapUpdates.{IsUpdated};
ghost use Rattle.op_use.specs.Outcome.{each};
ghost use Rattle.op_use.specs.Server.{OfAny, OfZone, is_needed as is_needed_in, use_of as the_use};
ghost use Rattle.std.specs.Prelude.{IfOk, OnOk, [], ◌∷◌, ◌≡◌};

use crate::apply::changing_zone::ChangingZone;
use crate::apply::rules::{Use, is_guarded, use_of};
use crate::apply::zone::{has_type, record_key};
use base::{RecordType, RrKey};
use rr::Record;
use std::alloc::AllocError;

impl<'a> ChangingZone<'a> {
    /// Carries out the updates in their order, each as its class asks.
    pub(crate) fn update(&mut self, entries: &[&Record]) -> Result<(), AllocError>
        ensures { OnOk result (IsUpdated (each entries.now) self.old self.new) }
    {
        for entry in entries {
            match use_of(self.class, entry.dns_class) {
                Use::OfAny => self.delete(entry)?,
                Use::OfNone => {
                    // No SOA goes, and not the last name server of the zone (RFC 2136, 3.4.2.4).
                    if !self.is_needed(entry)? {
                        self.take_data(entry)?;
                    }
                }
                Use::OfZone => self.add(entry)?,
                Use::OfNothing => {}
            }
        }
        Ok(())
    }

    /// Adds a record: a CNAME where no other types are, another where no CNAME is (RFC 2136, 3.4.2.2).
    fn add(&mut self, entry: &Record) -> Result<(), AllocError>
        requires { the_use self.old.class entry.now.dns_class ≡ OfZone }
        ensures { OnOk result (IsUpdated (entry.now ∷ []) self.old self.new) }
    {
        if entry.record_type() == RecordType::CNAME {
            if has_type(&self.sets, &entry.name, true)? {
                return Ok(());
            }
            // The owner has one CNAME at most.
            let key = record_key(entry)?;
            self.remove(&key);
            return self.add_record(key, entry);
        }
        let cname = RrKey::of(&entry.name, RecordType::CNAME)?;
        if self.sets.contains_key(&cname) {
            return Ok(());
        }
        let key = record_key(entry)?;
        self.add_record(key, entry)
    }

    /// Takes a set out, or all of an owner; at the origin SOA and NS stay (RFC 2136, 3.4.2.3).
    fn delete(&mut self, entry: &Record) -> Result<(), AllocError>
        requires { the_use self.old.class entry.now.dns_class ≡ OfAny }
        ensures { OnOk result (IsUpdated (entry.now ∷ []) self.old self.new) }
    {
        if entry.record_type() == RecordType::ANY {
            self.remove_owner(&entry.name)?;
            return Ok(());
        }
        if is_guarded(self.origin, &entry.name, entry.record_type()) {
            return Ok(());
        }
        let key = record_key(entry)?;
        self.remove(&key);
        Ok(())
    }

    /// Whether a record stays: an SOA, and the last name server of the zone.
    fn is_needed(&self, entry: &Record) -> Result<bool, AllocError>
        ensures { IfOk result (λ b. b ≡ is_needed_in (zone_held self.now) entry.now) }
    {
        if entry.record_type() == RecordType::SOA {
            return Ok(true);
        }
        if !is_guarded(self.origin, &entry.name, entry.record_type()) {
            return Ok(false);
        }
        let key = record_key(entry)?;
        Ok(self.count(&key) <= 1)
    }
}
