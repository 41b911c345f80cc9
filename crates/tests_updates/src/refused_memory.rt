//! What is sent, each allocation of which `scripts/refused_memory` refuses in turn.

use crate::updates::builders::{LONG_SENT, SENT, Sent, build};
use crate::updates::in_place::are_several_made;
use crate::updates::{EXAMPLE, LONG_ZONE};
use op::Message;
use std::alloc::Global;
use std::test::Fail;

/// Whether the message is written as these bytes, and they are read as the message.
fn is_sent_as(alloc: Global, message: &Message, wire: &[u8]) -> Result<bool, Fail> {
    let bytes = message.to_vec()?;
    let read = Message::from_vec(alloc, wire)?;
    let is_read = read == *message;
    drop(read);
    Ok(is_read && bytes.as_slice() == wire)
}

/// Whether what is sent of a zone is built as such a message.
fn is_built_as(alloc: Global, zone: &str, sent: Sent, wire: &[u8]) -> Result<bool, Fail> {
    let message = build(alloc, zone, sent)?;
    let is_sent = is_sent_as(alloc, &message, wire);
    drop(message);
    is_sent
}

#[test]
fn updates_and_questions_for_transfers_are_built(rt: HostRuntime) -> Result<(), Fail> {
    for &(sent, len, wire) in SENT {
        assert!(rt;
            is_built_as(rt.alloc(), EXAMPLE, sent, wire)? && wire.len() == len,
            "{len}"
        );
    }
    Ok(())
}

#[test]
fn the_same_is_built_of_a_zone_whose_name_takes_memory(rt: HostRuntime) -> Result<(), Fail> {
    for &(sent, len, wire) in LONG_SENT {
        assert!(rt;
            is_built_as(rt.alloc(), LONG_ZONE, sent, wire)? && wire.len() == len,
            "{len}"
        );
    }
    Ok(())
}

#[test]
fn updates_in_place_are_made_whole_or_not_at_all(rt: HostRuntime) -> Result<(), Fail> {
    assert!(rt; are_several_made(rt.alloc())?);
    Ok(())
}
