//! The suffixes that were written, and where (RFC 1035, 4.1.4).

ghost use Rattle.base.specs.declared.limits.TheConstants.{POINTER_LIMIT};
ghost use Rattle.std.specs.Prelude.{◌≡◌, ◌<◌, ◌≤◌, ◌≢◌, length, All, OnOk, OnErr, IfSome};
ghost use Rattle.base.specs.names.Labels.{labels_of, IsWire};
ghost use Rattle.base.specs.writing.Compression.{longest_found, size_before};
ghost use Rattle.base.specs.writing.State.{stored};
ghost use Rattle.base.specs.writing.Wire.{state_of};

use crate::limits::POINTER_LIMIT;
use crate::wire::encoder::BinEncoder;
use std::alloc::AllocError;

impl<'a> BinEncoder<'a> {
    /// How many bytes of these labels, each with its length before it, stand before the longest suffix of them that is
    /// stored, and where that is spelled: all bytes, and nowhere, where none is stored. Letters are compared as they are.
    pub(crate) fn find_longest(&self, wire: &[u8]) -> (usize, Option<u16>)
        requires { IsWire wire.now }
        ensures kept { result.0
            ≡ size_before (state_of self.now).suffixes (labels_of wire.now) }
        ensures found { result.1
            ≡ longest_found (state_of self.now).suffixes (labels_of wire.now) }
        ensures inside { result.0 ≤ length wire.now }
        // A pointer can name the offset.
        ensures near { IfSome result.1 (λ offset. offset < POINTER_LIMIT) }
    {
        let mut kept = 0;
        while kept < wire.len() {
            if let Some(offset) = self.suffixes.find(&wire[kept..]) {
                return (kept, Some(offset));
            }
            kept += 1 + usize::from(wire[kept]);
        }
        (kept, None)
    }

    /// Stores the suffix of these labels, each with its length before it, that was written at a place after all stored
    /// ones, unless the place is too far for a pointer. It isn't stored yet.
    ///
    /// # Errors
    ///
    /// If memory runs out, with nothing stored.
    pub(crate) fn store(&mut self, wire: &[u8], at: usize) -> Result<(), AllocError>
        requires wire { IsWire wire.now }
        // The suffix begins within the bytes that were written.
        requires stands { at < length (state_of self.old).bytes }
        requires absent { All (λ t. t.labels ≢ labels_of wire.now) (state_of self.old).suffixes }
        // It begins after all stored suffixes.
        requires later { All (λ t. t.offset < at) (state_of self.old).suffixes }
        ensures ok { OnOk result (state_of self.new
            ≡ stored (labels_of wire.now) at (state_of self.old)) }
        ensures err { OnErr result (state_of self.new ≡ state_of self.old) }
    {
        if at >= POINTER_LIMIT {
            return Ok(());
        }
        self.suffixes.store(wire, at as u16)
    }
}
