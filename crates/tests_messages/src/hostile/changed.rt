//! Hostile and well made messages, cut at every length and with every byte changed.

use super::rows::ROWS;
use op::Message;
use std::alloc::Global;
use test_tools::bytes::decode;

/// What each byte becomes in turn: the shortest and the longest label, the reserved bits, a pointer, and all bits.
const BYTES: &[u8] = &[0x00, 0x3F, 0x40, 0xC0, 0xFF];

/// Whether the bytes are read as this message, or as a cut where that may be.
fn are_read_as(alloc: Global, wire: &[u8], message: &Message, may_be_cut: bool) -> bool {
    let read = Message::from_vec(alloc, wire);
    let right = match &read {
        Ok(read) => (may_be_cut && read.metadata.truncation) || *read == *message,
        Err(_) => false,
    };
    drop(read);
    right
}

/// Whether a message is written under a limit, and read again as itself, or as a cut where that may be.
fn is_read_again(alloc: Global, message: &Message, limit: u16, may_be_cut: bool) -> bool {
    let written = message.to_vec_within(limit);
    let right = match &written {
        Ok(wire) => are_read_as(alloc, wire, message, may_be_cut),
        Err(_) => false,
    };
    drop(written);
    right
}

/// Whether a message is read again as itself, and under 512 bytes as itself or as a cut.
fn comes_back(alloc: Global, message: &Message) -> bool {
    is_read_again(alloc, message, 65535, false) && is_read_again(alloc, message, 512, true)
}

/// Whether a buffer is refused, but not because memory ran out, or what is read of it comes back.
fn is_answered(alloc: Global, wire: &[u8]) -> bool {
    let read = Message::from_vec(alloc, wire);
    let answered = match &read {
        Ok(message) => comes_back(alloc, message),
        Err(fault) => fault.number() != 3,
    };
    drop(read);
    answered
}

/// Whether a buffer is answered, and so is each front of it, and it with each byte changed in turn.
fn changes_are_answered(alloc: Global, wire: &mut Vec<u8>) -> bool {
    let mut right = is_answered(alloc, wire);
    for place in 0..wire.len() {
        if place < wire.len() {
            right = is_answered(alloc, &wire[..place]) && right;
            let old = wire[place];
            for &byte in BYTES {
                wire[place] = byte;
                right = is_answered(alloc, wire) && right;
            }
            wire[place] = old;
        }
    }
    right
}

/// The same of the bytes that a text spells.
pub(super) fn all_are_answered(alloc: Global, text: &str) -> bool {
    match decode(alloc, text) {
        Ok(mut wire) => changes_are_answered(alloc, &mut wire),
        Err(_) => false,
    }
}

#[test]
fn messages_are_answered_however_changed(rt: HostRuntime) {
    for &text in ROWS {
        assert!(rt; all_are_answered(rt.alloc(), text), "{text}");
    }
}
