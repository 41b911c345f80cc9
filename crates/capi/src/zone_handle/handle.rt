//! The handle itself.

ghost use Rattle.std.specs.Prelude.{◌≡◌, Option, Some, None, true, false};
ghost use Rattle.capi.specs.Held.{held, zone_code};
ghost use Rattle.capi.specs.declared.zone_handle.holding.Holding.{Holding as Held};

use crate::zone_handle::holding::Holding;
use crate::zone_handle::loose::Loose;
use std::alloc::Global;
use std::marker::Model;
use std::ptr;

/// A handle to a zone, `struct fuzsbanel_zone_handle` of C: open, or closed. Its fields are the library's.
#[repr(C)]
pub struct ZoneHandle {
    at: *mut u8,
    is_open: bool,
    // How an open handle holds its zone; none of a closed one.
    ghost zone: { Option Held } by { zone_code },
}

impl Model for ZoneHandle {
    ghost also_owns = { λ h. held h.is_open h.at h.zone };
}

impl ZoneHandle {
    /// A closed handle.
    pub fn closed() -> ZoneHandle
        ensures { (result.is_open ≡ false) × (result.zone ≡ None) }
    {
        ZoneHandle {
            at: ptr::null_mut(),
            is_open: false,
        }
    }

    /// An open handle to a zone.
    pub fn of(zone: Loose<Holding, Global>) -> ZoneHandle
        ensures { result.zone ≡ Some zone.value }
    {
        let Loose { at, alloc: _ } = zone;
        ZoneHandle {
            at: at as *mut u8,
            is_open: true,
        }
    }

    /// The zone of an open handle.
    pub fn into_zone(self, alloc: Global) -> Loose<Holding, Global>
        requires { self.is_open ≡ true }
        ensures { Some result.value ≡ self.zone }
    {
        let ZoneHandle { at, is_open: _ } = self;
        Loose {
            at: at as *mut Holding,
            alloc,
        }
    }

    /// The handle, and whether it is open.
    pub fn look(self) -> (bool, ZoneHandle)
        ensures { (result.0 ≡ self.is_open) × (result.1 ≡ self) }
    {
        let ZoneHandle { at, is_open } = self;
        (is_open, ZoneHandle { at, is_open })
    }

    /// The end of a closed handle.
    pub fn end(self)
        requires { self.is_open ≡ false }
        ensures { self.zone ≡ None }
    {
        let ZoneHandle { at: _, is_open: _ } = self;
    }
}
