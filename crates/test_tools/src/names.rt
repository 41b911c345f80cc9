//! Names that an encoder can't tell apart at once.

/// How many bytes each of them has.
pub const ALIKE: usize = 49;

/// How many there are.
pub const KINDS: u8 = 32;

/// How many places there are where one of two halves of four bytes differs from the other.
const PLACES: u8 = 5;

/// A name of one label of 47 letters, another for each number below `KINDS`. Of each eight bytes after the first, one half
/// is `aaaa` and the other `bbbb`, so that a sum of both is the same for all.
pub fn alike(number: u8) -> [u8; ALIKE] {
    let mut name = [b'a'; ALIKE];
    name[0] = 47;
    name[ALIKE - 1] = 0;
    for place in 0..PLACES {
        let half = usize::from((number >> place) % 2);
        let start = 8 + 8 * usize::from(place) + 4 * half;
        name[start..start + 4].fill(b'b');
    }
    name
}
