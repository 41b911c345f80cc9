//! Limits of names, data and messages (RFC 1035, 2.3.4, 3.2.1, 3.3, 4.1.4 and 4.2).

/// The bytes of the longest name (RFC 1035, 2.3.4).
pub const MAX_NAME: usize = 255;

/// The bytes of its labels, each with its length before it: all but the final zero byte.
pub const MAX_LABELS: usize = 254;

/// The bytes of the longest label (RFC 1035, 2.3.4).
pub const MAX_LABEL: usize = 63;

/// The bytes of labels, each with its length before it, up to which they stand inside a name.
pub const INLINE_LABELS: usize = 29;

/// The bytes of the longest character string (RFC 1035, 3.3).
pub const MAX_STRING: usize = 255;

/// The bytes of the longest data of a record or of an option (RFC 1035, 3.2.1; RFC 6891, 6.1.2).
pub const MAX_DATA: usize = 65535;

/// The least first byte of a pointer: its top bits are 11 (RFC 1035, 4.1.4).
pub const POINTER_BITS: u8 = 192;

/// The first place of a message that no pointer leads to: one has 14 bits for it (RFC 1035, 4.1.4).
pub const POINTER_LIMIT: usize = 16384;

/// The bytes that whoever sends a message takes in an answer at least (RFC 1035, 4.2.1; RFC 6891, 6.2.3).
pub const MIN_PAYLOAD: u16 = 512;

/// The bytes of the longest message (RFC 1035, 4.2.2).
pub const MAX_MESSAGE: u16 = 65535;
