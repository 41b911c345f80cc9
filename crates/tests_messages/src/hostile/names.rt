//! Names that are as long as they may be, or a byte longer, and chains of pointers.

use super::fault;
use op::Message;
use std::alloc::{AllocError, Global};

/// Headers of a message of one question and of two.
const ONE: &[u8] = b"\0\x01\0\0\0\x01\0\0\0\0\0\0";

const TWO: &[u8] = b"\0\x01\0\0\0\x02\0\0\0\0\0\0";

/// Labels of 61, 62 and 63 bytes.
const A61: &[u8] = b"\x3Daaaaaaaaaaaaaaaaaaaaaaaaaaaaaaaaaaaaaaaaaaaaaaaaaaaaaaaaaaaaa";

const A62: &[u8] = b"\x3Eaaaaaaaaaaaaaaaaaaaaaaaaaaaaaaaaaaaaaaaaaaaaaaaaaaaaaaaaaaaaaa";

const A63: &[u8] = b"\x3Faaaaaaaaaaaaaaaaaaaaaaaaaaaaaaaaaaaaaaaaaaaaaaaaaaaaaaaaaaaaaaa";

/// The rest of a question after its labels: the root or a pointer to the first question, and what is asked.
const ROOT: &[u8] = b"\0\0\x01\0\x01";

const AT_12: &[u8] = b"\xC0\x0C\0\x01\0\x01";

/// The pieces of messages with names of 255 bytes and of 256, in one question and with the last label in a second one, and
/// the number of the refusal. `CHAINS` has those with each label in a question of its own.
const LONG: &[(&'static [&'static [u8]], u8)] = &[
    (&[ONE, A63, A63, A63, A61, ROOT], 0),
    (&[ONE, A63, A63, A63, A62, ROOT], 5),
    (&[TWO, A63, A63, A63, ROOT, A61, AT_12], 0),
    (&[TWO, A63, A63, A63, ROOT, A62, AT_12], 5),
];

/// The number of the refusal of a message of these pieces, 3 where memory runs out.
fn refusal_of(alloc: Global, pieces: &[&[u8]]) -> u8 {
    match pieces.concat(alloc) {
        Ok(wire) => fault(alloc, &wire).0,
        Err(_) => 3,
    }
}

#[test]
fn names_have_at_most_255_bytes(rt: HostRuntime) {
    for (i, &(pieces, number)) in LONG.iter().enumerate() {
        assert!(rt; refusal_of(rt.alloc(), pieces) == number, "row {i}");
    }
}

/// A pointer to a place.
fn pointer_to(place: usize) -> [u8; 2] {
    (u16::try_from(place).unwrap_or(0) | 0xC000).to_be_bytes()
}

/// Pointers, the first to this place and each other to the one before it, and after each these bytes.
pub(super) fn push_pointers(
    wire: &mut Vec<u8>,
    first: usize,
    count: u16,
    after: &[u8],
) -> Result<(), AllocError> {
    let mut before = first;
    for _ in 0..count {
        let here = wire.len();
        wire.extend_from_slice(&pointer_to(before))?;
        wire.extend_from_slice(after)?;
        before = here;
    }
    Ok(())
}

/// An answer whose data is the root and `hops` pointers, each to what stands before it, and an address under a pointer
/// to the last of them. The root is at 23.
fn chain(alloc: Global, hops: u16) -> Result<Vec<u8>, AllocError> {
    let mut wire = Vec::from_slice(alloc, &[0, 1, 0, 0, 0, 0, 0, 2, 0, 0, 0, 0])?;
    let [high, low] = hops.saturating_mul(2).saturating_add(1).to_be_bytes();
    wire.extend_from_slice(&[0, 0, 10, 0, 1, 0, 0, 0, 0, high, low, 0])?;
    push_pointers(&mut wire, 23, hops.saturating_add(1), &[])?;
    wire.extend_from_slice(&[0, 1, 0, 1, 0, 0, 0, 0, 0, 4, 127, 0, 0, 1])?;
    Ok(wire)
}

/// Whether the address at the end of a chain is the root's.
fn ends_at_the_root(alloc: Global, hops: u16) -> bool {
    let wire = match chain(alloc, hops) {
        Ok(wire) => wire,
        Err(_) => return false,
    };
    let read = Message::from_vec(alloc, &wire);
    drop(wire);
    let ends = match &read {
        Ok(message) => message.answers.len() == 2 && message.answers[1].name.is_root(),
        Err(_) => false,
    };
    drop(read);
    ends
}

#[test]
fn chains_of_pointers_end(rt: HostRuntime) {
    for &hops in &[0, 1, 100, 8180] {
        assert!(rt; ends_at_the_root(rt.alloc(), hops), "{hops}");
    }
}

/// Questions for names of one label more each, before a pointer to the name before, and after them each again by a
/// pointer to it alone. The first name stands at 12, the second one at 19, and each other 8 bytes after the one before.
fn steps(alloc: Global, names: u8) -> Result<Vec<u8>, AllocError> {
    let count = names.saturating_mul(2);
    let mut wire = Vec::from_slice(alloc, &[0, 1, 0, 0, 0, count, 0, 0, 0, 0, 0, 0])?;
    wire.extend_from_slice(b"\x01a\0\0\0\0\x01")?;
    let mut before = 12;
    for i in 1..names {
        let [high, low] = pointer_to(before);
        before = wire.len();
        wire.extend_from_slice(&[1, b'a', high, low, 0, i, 0, 1])?;
    }
    for i in 0..names {
        let [high, low] = pointer_to((11 + 8 * usize::from(i)).max(12));
        wire.extend_from_slice(&[high, low, 0, i, 0, 1])?;
    }
    Ok(wire)
}

/// Whether each name has a label more than its question's type says.
fn are_read(alloc: Global, names: u8) -> bool {
    let wire = match steps(alloc, names) {
        Ok(wire) => wire,
        Err(_) => return false,
    };
    let read = Message::from_vec(alloc, &wire);
    drop(wire);
    let mut count: usize = 0;
    if let Ok(message) = &read {
        for query in &message.queries {
            let labels = query.name.as_wire().len() / 2;
            if labels == 1 + usize::from(u16::from(query.query_type)) {
                count = count.saturating_add(1);
            }
        }
    }
    drop(read);
    count == 2 * usize::from(names)
}

#[test]
fn names_at_many_targets_are_read_again(rt: HostRuntime) {
    for &names in &[1, 2, 12, 16, 17, 18, 60] {
        assert!(rt; are_read(rt.alloc(), names), "{names}");
    }
}
