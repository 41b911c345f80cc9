//! A zone that several handles hold.

use super::open;
use crate::update::fuzsbanel_create;
use crate::zone_handle::handle::ZoneHandle;
use crate::zone_handle::{
    free, fuzsbanel_zone_close, fuzsbanel_zone_raise_serial, fuzsbanel_zone_share,
    fuzsbanel_zone_text, fuzsbanel_zone_update,
};
use std::alloc::Global;

const ORIGIN: &[u8] = b"example.";

const ZONE: &[u8] = b"@ 60 SOA ns ns 1 2 3 4 5\nns 60 A 192.0.2.1\n";

const WWW: &[u8] = b"www 300 A 192.0.2.2\n";

/// The text of the zone, with this serial, and then.
const FIRST: &[u8] = b"$ORIGIN example.\nexample. 60 IN SOA ns.example. ns.example. 1 2 3 4 5\n\
ns.example. 60 IN A 192.0.2.1\n";

const UPDATED: &[u8] = b"$ORIGIN example.\nexample. 60 IN SOA ns.example. ns.example. 2 2 3 4 5\n\
ns.example. 60 IN A 192.0.2.1\nwww.example. 300 IN A 192.0.2.2\n";

/// Whether this is the text of a handle.
fn has_text(alloc: Global, handle: &mut ZoneHandle, text: &[u8]) -> bool {
    let mut out = [7; 256];
    let mut needed = 0;
    let len = fuzsbanel_zone_text(alloc, handle, &mut out, &mut needed);
    len == text.len() as i64 && needed == text.len() && out.starts_with(text)
}

/// What a handle answers to an update that adds an address, if it says that it changed anything, and then to raising the
/// serial.
fn updated(alloc: Global, handle: &mut ZoneHandle) -> (i64, i64) {
    let mut out = [0; 128];
    let mut needed = 0;
    let len = fuzsbanel_create(alloc, 1, ORIGIN, WWW, false, &mut out, &mut needed);
    if len < 0 || len > 128 {
        return (len, 0);
    }
    let mut is_changed = false;
    let code = fuzsbanel_zone_update(alloc, handle, &out[..len as usize], &mut is_changed);
    if !is_changed {
        return (-1, 0);
    }
    (code, fuzsbanel_zone_raise_serial(alloc, handle))
}

#[test]
fn handles_share_a_zone(rt: HostRuntime) {
    let alloc = rt.alloc();
    let mut handle = ZoneHandle::closed();
    let mut other = ZoneHandle::closed();
    let closed = fuzsbanel_zone_share(alloc, &mut handle, &mut other);
    let opened = open(alloc, ORIGIN, ZONE, &mut handle);
    assert!(rt; closed == -34 && opened == 0);
    // the second time the other is open
    let first = fuzsbanel_zone_share(alloc, &mut handle, &mut other);
    let again = fuzsbanel_zone_share(alloc, &mut handle, &mut other);
    let are_same = has_text(alloc, &mut handle, FIRST) && has_text(alloc, &mut other, FIRST);
    assert!(rt; first == 0 && again == 0 && are_same);
    // the other keeps the old zone, and what each does then is its own
    let changed = updated(alloc, &mut handle);
    let is_kept = has_text(alloc, &mut other, FIRST);
    assert!(rt; changed.0 == 0 && changed.1 == 2 && is_kept);
    assert!(rt; has_text(alloc, &mut handle, UPDATED));
    let raised = fuzsbanel_zone_raise_serial(alloc, &mut other);
    fuzsbanel_zone_close(alloc, &mut handle);
    let refused = fuzsbanel_zone_share(alloc, &mut handle, &mut other);
    assert!(rt; raised == 2 && refused == -34);
    let changed = updated(alloc, &mut other);
    assert!(rt; changed.0 == 0 && changed.1 == 3);
    fuzsbanel_zone_close(alloc, &mut other);
    free(alloc, handle);
    free(alloc, other);
}

#[test]
fn a_serial_is_raised_in_a_copy(rt: HostRuntime) {
    let alloc = rt.alloc();
    let mut handle = ZoneHandle::closed();
    let mut other = ZoneHandle::closed();
    let opened = open(alloc, ORIGIN, ZONE, &mut handle);
    let shared = fuzsbanel_zone_share(alloc, &mut handle, &mut other);
    let raised = fuzsbanel_zone_raise_serial(alloc, &mut handle);
    let is_kept = has_text(alloc, &mut other, FIRST);
    fuzsbanel_zone_close(alloc, &mut handle);
    fuzsbanel_zone_close(alloc, &mut other);
    free(alloc, handle);
    free(alloc, other);
    assert!(rt; opened == 0 && shared == 0 && raised == 2 && is_kept);
}
