//! How a handle holds its zone: alone, or with other handles.

ghost use Rattle.capi.specs.Holding.{Shares, is_shared, zone_in};
ghost use Rattle.capi.specs.ZoneHandle.{parts_in, parts_of};
ghost use Rattle.std.specs.Option.{option_copied};
ghost use Rattle.std.specs.Prelude.{◌≡◌, IfOk, OnErr, OnOk, false, true};

use crate::zone_handle::held::HeldZone;
use std::alloc::{AllocError, Global};
use std::mem;
use std::sync::Arc;
use tasks::refusal::Refusal;

/// How a handle holds its zone.
#[derive(Drop)]
pub enum Holding {
    /// No other handle holds it.
    Own(HeldZone),
    /// Other handles may hold it too.
    Shared(Arc<HeldZone, Global>),
    /// There is none, as while it goes from one to the other.
    Empty,
}

impl Holding {
    /// The zone.
    pub fn zone(&self) -> Option<&HeldZone>
        ensures { option_copied result ≡ zone_in self.now }
    {
        match self {
            Holding::Own(zone) => Some(zone),
            Holding::Shared(zone) => Some(&**zone),
            Holding::Empty => None,
        }
    }

    /// Has the zone held alone, so that it may be changed. One that other handles hold is copied, and they keep it.
    ///
    /// # Errors
    ///
    /// If memory runs out for the copy; the zone is held as it was.
    pub fn make_own(&mut self) -> Result<(), AllocError>
        ensures own { OnOk result
            ((is_shared self.new ≡ false) × (parts_in self.new ≡ parts_in self.old)) }
        ensures refused { OnErr result
            ((is_shared self.old ≡ true) × (zone_in self.new ≡ zone_in self.old)) }
    {
        match mem::replace(self, Holding::Empty) {
            Holding::Own(zone) => *self = Holding::Own(zone),
            Holding::Shared(shared) => match Arc::try_unwrap(shared) {
                Ok(zone) => *self = Holding::Own(zone),
                Err(shared) => {
                    let copied = copy(&shared);
                    *self = Holding::Shared(shared);
                    *self = Holding::Own(copied?);
                }
            },
            Holding::Empty => {}
        }
        Ok(())
    }

    /// The zone, for another handle to hold too.
    ///
    /// # Errors
    ///
    /// 34 where there is none.
    pub fn share(&mut self, alloc: Global) -> Result<Arc<HeldZone, Global>, Refusal>
        ensures kept { zone_in self.new ≡ zone_in self.old }
        ensures shared { Shares (zone_in self.old) result }
    {
        let shared = match mem::replace(self, Holding::Empty) {
            Holding::Shared(shared) => shared,
            Holding::Own(zone) => match Arc::new(alloc, zone) {
                Ok(shared) => shared,
                Err(refused) => {
                    *self = Holding::Own(refused.value);
                    return Err(AllocError.into());
                }
            },
            Holding::Empty => return Err(Refusal::CLOSED),
        };
        let other = Arc::try_clone(&shared);
        *self = Holding::Shared(shared);
        Ok(other?)
    }
}

/// A copy of a zone.
fn copy(zone: &HeldZone) -> Result<HeldZone, AllocError>
    ensures { IfOk result (λ copied. parts_of copied ≡ parts_of zone.now) }
{
    Ok(HeldZone {
        origin: zone.origin.clone()?,
        sets: zone.sets.clone()?,
        soa: zone.soa.clone()?,
    })
}
