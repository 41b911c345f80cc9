//! How many pointers are followed.

use super::names::push_pointers;
use base::BinDecoder;
use op::Message;
use std::alloc::{AllocError, Global};
use test_tools::bytes::decode;

/// Stands for a message that is refused.
const REFUSED: usize = 100_000;

/// Messages in hexadecimal, with how many pointers are followed in reading them.
const ROWS: &[(usize, &'static str)] = &[
    (0, "0110 0000 0000 0000 0000 0000"),
    (
        1,
        "1000 8180 0001 0001 0000 0000 03777777 076578616D706C65 03636F6D 00 0001 0001 C00C 0001 0001 00000002 0004 5DB8D70E",
    ),
    (
        1,
        "0009 8180 0001 0001 0000 0000 076578616D706C65 00 000F 0001 C00C 000F 0001 0000012C 0009 000A 046D61696C C00C",
    ),
    // two pointers to one target, and one through it to another
    (
        2,
        "0007 0100 0004 0000 0000 0000 0161 0162 00 0001 0001 0163 C00E 0001 0001 C015 0001 0001 C015 0001 0001",
    ),
    // target 4 is kept, but the piece begun at 0 points forward to it
    (
        REFUSED,
        "C004 0000 0002 0000 0000 0000 C004 0001 0001 C000 0001 0001",
    ),
];

/// Whether all questions of a message ask for the root.
fn asks_for_roots(message: &Message) -> bool {
    for query in &message.queries {
        if !query.name().is_root() {
            return false;
        }
    }
    true
}

/// How many pointers are followed in reading a message, and whether its questions are all for the root.
fn jumps_of(alloc: Global, bytes: &[u8]) -> (usize, bool) {
    let mut decoder = BinDecoder::new(alloc, bytes);
    let read = Message::read(&mut decoder);
    let jumps = match &read {
        Ok(message) => (decoder.jumps(), asks_for_roots(message)),
        Err(_) => (REFUSED, false),
    };
    drop(read);
    jumps
}

/// How many pointers are followed in reading the message that a text spells, where it spells bytes.
fn jumps_of_text(alloc: Global, text: &str) -> Option<usize> {
    match decode(alloc, text) {
        Ok(bytes) => Some(jumps_of(alloc, &bytes).0),
        Err(_) => None,
    }
}

#[test]
fn each_target_is_read_once(rt: HostRuntime) {
    for &(jumps, text) in ROWS {
        assert!(rt; jumps_of_text(rt.alloc(), text) == Some(jumps), "{text}");
    }
}

/// A thousand questions, the first named by the root, and each other by a pointer to the question before it.
#[test]
fn a_chain_of_pointers_is_read_once(rt: HostRuntime) -> Result<(), AllocError> {
    let front = b"\x00\x07\x01\x00\x03\xE8\0\0\0\0\0\0\0\0\x01\0\x01";
    let mut bytes = Vec::from_slice(rt.alloc(), front)?;
    push_pointers(&mut bytes, 12, 999, b"\0\x01\0\x01")?;
    let jumps = jumps_of(rt.alloc(), &bytes);
    drop(bytes);
    assert!(rt; jumps == (999, true));
    Ok(())
}
