//! Labels inside the value of a name.

ghost use Rattle.base.specs.declared.limits.TheConstants.{INLINE_LABELS};
ghost use Rattle.std.specs.Prelude.{◌≡◌, ◌≤◌, ◌+◌, ◌++◌, [], length, take};
ghost use Rattle.base.specs.names.StoredLabels.{lower_labels};

use crate::limits::INLINE_LABELS;
use std::alloc::Global;
use std::marker::Model;

/// How many bytes are copied at once.
const PIECE: usize = 16;

/// How many of a shorter list are.
const SHORT_PIECE: usize = 8;

/// How many of a shorter one yet are.
const LEAST_PIECE: usize = 4;

/// Up to 29 bytes of labels, and whether the name is absolute. With the number of bytes and a tag before them they are
/// 32 bytes. What stands after the labels has no meaning.
#[derive(Drop)]
pub(crate) struct InlineLabels {
    alloc: Global,
    is_fqdn: bool,
    len: u8,
    bytes: [u8; INLINE_LABELS],
}

impl Model for InlineLabels {
    ghost use Rattle.base.specs.declared.limits.TheConstants.{INLINE_LABELS};
    ghost use Rattle.std.specs.Prelude.{◌≤◌, take};
    ghost use Rattle.base.specs.names.StoredLabels.{StoredLabels};

    ghost Value = { StoredLabels };

    ghost view = { λ r. record { items = take r.len r.bytes; is_fqdn = r.is_fqdn } };

    ghost invariant = { λ r. r.len ≤ INLINE_LABELS };
}

impl InlineLabels {
    /// No bytes.
    pub(crate) fn none(alloc: Global, is_fqdn: bool) -> InlineLabels
        ensures { result ≡ record { items = []; is_fqdn = is_fqdn } }
    {
        InlineLabels {
            alloc,
            is_fqdn,
            len: 0,
            bytes: [0; INLINE_LABELS],
        }
    }

    /// These bytes.
    pub(crate) fn from_slice(alloc: Global, slice: &[u8], is_fqdn: bool) -> InlineLabels
        requires { length slice.now ≤ INLINE_LABELS }
        ensures { result ≡ record { items = slice.now; is_fqdn = is_fqdn } }
    {
        let mut bytes = [0; INLINE_LABELS];
        copy_few(&mut bytes[..slice.len()], slice);
        InlineLabels {
            alloc,
            is_fqdn,
            len: slice.len() as u8,
            bytes,
        }
    }

    /// Puts the first `used` of these bytes, and others after them, in the place of those that there are.
    #[inline(always)]
    pub(crate) fn set(&mut self, slice: &[u8], used: usize, others: &[u8])
        requires there { used ≤ length slice.now }
        requires few { used + length others.now ≤ INLINE_LABELS }
        ensures { self.new ≡ record self.old { items = take used slice.now ++ others.now } }
    {
        let len = used + others.len();
        copy_front(&mut self.bytes, slice, used);
        copy_few(&mut self.bytes[used..len], others);
        self.len = len as u8;
    }

    /// The same again.
    pub(crate) fn copy(&self) -> InlineLabels
        ensures { result ≡ self.now }
    {
        InlineLabels {
            alloc: self.alloc,
            is_fqdn: self.is_fqdn,
            len: self.len,
            bytes: self.bytes,
        }
    }

    /// The allocator that names of more bytes take their memory from.
    pub(crate) fn allocator(&self) -> Global {
        self.alloc
    }

    /// The bytes.
    pub(crate) fn as_slice(&self) -> &[u8]
        ensures { result.now ≡ self.now.items }
    {
        &self.bytes[..usize::from(self.len)]
    }

    /// Puts the ASCII letters in lower case, and what stands after the labels too: a fixed number takes less time. It
    /// isn't copied into its callers, since there the bytes would be taken apart.
    #[inline(never)]
    pub(crate) fn make_ascii_lowercase(&mut self)
        ensures { self.new ≡ lower_labels self.old }
    {
        self.bytes.make_ascii_lowercase();
    }

    /// Whether the name is absolute.
    pub(crate) fn is_fqdn(&self) -> bool
        ensures { result ≡ self.now.is_fqdn }
    {
        self.is_fqdn
    }

    /// Makes the name absolute, or relative.
    pub(crate) fn set_fqdn(&mut self, is_fqdn: bool)
        ensures { self.new ≡ record self.old { is_fqdn = is_fqdn } }
    {
        self.is_fqdn = is_fqdn;
    }
}

/// Copies the first `used` bytes of a slice, and as many more as have room, since a fixed number is copied faster.
#[inline(always)]
fn copy_front(room: &mut [u8; INLINE_LABELS], slice: &[u8], used: usize)
    requires there { used ≤ length slice.now }
    requires few { used ≤ INLINE_LABELS }
    ensures { take used room.new ≡ take used slice.now }
{
    if slice.len() >= INLINE_LABELS {
        copy_ends::<PIECE>(room, &slice[..INLINE_LABELS]);
    } else {
        room[..used].copy_from_slice(&slice[..used]);
    }
}

/// Copies a slice into a place of its length.
#[inline(always)]
pub(crate) fn copy_few(place: &mut [u8], slice: &[u8])
    requires few { length slice.now ≤ INLINE_LABELS }
    requires fits { length place.old ≡ length slice.now }
    ensures { place.new ≡ slice.now }
{
    if slice.len() >= PIECE {
        copy_ends::<PIECE>(place, slice);
    } else if slice.len() >= SHORT_PIECE {
        copy_ends::<SHORT_PIECE>(place, slice);
    } else if slice.len() >= LEAST_PIECE {
        copy_ends::<LEAST_PIECE>(place, slice);
    } else if !slice.is_empty() {
        place.copy_from_slice(slice);
    }
}

/// Copies a slice into a place of its length: its first piece and its last one, which may overlap. A fixed number of
/// bytes is copied faster than any other.
#[inline(always)]
fn copy_ends<const N: usize>(place: &mut [u8], slice: &[u8])
    requires fits { length place.old ≡ length slice.now }
    // The slice is no shorter than a piece.
    requires long { N ≤ length slice.now }
    // Two pieces cover it.
    requires short { length slice.now ≤ N + N }
    ensures { place.new ≡ slice.now }
{
    if let Some(front) = slice.first_chunk::<N>() {
        if let Some(room) = place.first_chunk_mut::<N>() {
            *room = *front;
        }
    }
    if let Some(end) = slice.last_chunk::<N>() {
        if let Some(room) = place.last_chunk_mut::<N>() {
            *room = *end;
        }
    }
}
