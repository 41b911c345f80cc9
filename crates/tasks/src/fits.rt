//! Whether zone text that is written can be read again.

ghost use Rattle.std.specs.Prelude.{◌↔◌, All, IsTrue};
ghost use Rattle.rr.specs.Record.{FitsRecord};
ghost use Rattle.tasks.specs.ZoneText.{FitsWire};

use base::RrKey;
use rr::{Record, RecordSet};
use std::collections::BTreeMap;

/// Whether each record of sets can stand on the wire: then its text has absolute names alone.
pub fn fits_wire(sets: &BTreeMap<RrKey, RecordSet>) -> bool
    ensures { IsTrue result ↔ FitsWire sets.now.entries }
{
    for set in sets.values() {
        if !records_fit(set.as_slice()) {
            return false;
        }
    }
    true
}

/// Whether each record can.
fn records_fit(records: &[Record]) -> bool
    ensures { IsTrue result ↔ All FitsRecord records.now }
{
    for entry in records {
        if !entry.fits_wire() {
            return false;
        }
    }
    true
}
