//! Suffixes of names that were written.

ghost use Rattle.std.specs.Prelude.{◌≡◌, ◌↔◌, IfOk, IsTrue};
ghost use Rattle.base.specs.names.Labels.{IsLabelRun, wire_of, labels_of, IsWire};
ghost use Rattle.base.specs.writing.State.{front_number};

use crate::labels::Labels;
use std::alloc::{AllocError, Global};
use std::marker::Model;

/// A suffix of a name that was written, and the offset at which it is spelled.
#[derive(Drop)]
pub struct Suffix {
    /// The labels, each with its length before it.
    labels: Labels,
    offset: u16,
}

/// A number of the first eight bytes, by which most labels are told from others; of the first four where there are
/// fewer than eight, and of all where there are fewer than four.
pub(crate) fn front_number(wire: &[u8]) -> u32
    ensures { result ≡ front_number wire.now }
{
    match wire {
        [a, b, c, d, e, f, g, h, ..] => {
            let first = u32::from_le_bytes([*a, *b, *c, *d]);
            first.wrapping_add(u32::from_le_bytes([*e, *f, *g, *h]))
        }
        [a, b, c, d, ..] => u32::from_le_bytes([*a, *b, *c, *d]),
        [a, b, c] => u32::from_le_bytes([*a, *b, *c, 0]),
        [a, b] => u32::from_le_bytes([*a, *b, 0, 0]),
        _ => 0,
    }
}

impl Model for Suffix {
    ghost use Rattle.std.specs.Prelude.{◌≡◌};
    ghost use Rattle.base.specs.writing.State.{Stored};
    ghost use Rattle.base.specs.names.Labels.{labels_of, IsWire};

    ghost Value = { Stored };

    ghost view = { λ s. record { labels = labels_of s.labels.items; offset = s.offset } };

    ghost invariant = { λ s. IsWire s.labels.items };
}

impl Suffix {
    /// The suffix of these labels, each with its length before it, at an offset.
    pub(crate) fn new(alloc: Global, wire: &[u8], offset: u16) -> Result<Suffix, AllocError>
        requires wire { IsWire wire.now }
        ensures { IfOk result (λ suffix. suffix
            ≡ record { labels = labels_of wire.now; offset = offset }) }
    {
        Ok(Suffix {
            labels: Labels::from_slice(alloc, wire, false)?,
            offset,
        })
    }

    /// The offset.
    pub(crate) fn offset(&self) -> u16
        ensures { result ≡ self.now.offset }
    {
        self.offset
    }

    /// The labels, each with its length before it.
    pub(crate) fn as_wire(&self) -> &[u8]
        ensures value { result.now ≡ wire_of self.now.labels }
        ensures wire { IsWire result.now }
    {
        self.labels.as_slice()
    }
}
