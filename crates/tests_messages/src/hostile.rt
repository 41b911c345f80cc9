//! Messages that mean harm (RFC 9267): each is answered, and what is read is written and read again.

mod changed;
mod fronts;
mod jumps;
mod messages;
mod names;
mod rows;

use base::DecodeError;
use changed::all_are_answered;
use messages::{TABLES, messages_of};
use op::Message;
use std::alloc::Global;
use test_tools::bytes::decode;

/// The number of the refusal of a buffer, 0 where it is read, and what it names: how many bytes are left and the length
/// of the data, or the type of the data.
pub(crate) fn fault(alloc: Global, wire: &[u8]) -> (u8, usize, usize) {
    let read = Message::from_vec(alloc, wire);
    let fault = match &read {
        Ok(_) => (0, 0, 0),
        Err(DecodeError::IncorrectRDataLengthRead { read, len }) => (7, *read, *len),
        Err(DecodeError::BadData(named)) => (8, usize::from(u16::from(*named)), 0),
        Err(e) => (e.number(), 0, 0),
    };
    drop(read);
    fault
}

/// The same of the bytes that a text spells; of no number that is a refusal's if it spells none.
pub(crate) fn fault_of_text(alloc: Global, text: &str) -> (u8, usize, usize) {
    match decode(alloc, text) {
        Ok(wire) => fault(alloc, &wire),
        Err(_) => (u8::MAX, 0, 0),
    }
}

#[test]
fn hostile_messages_are_judged_and_answered_however_changed(rt: HostRuntime) {
    for &table in TABLES {
        for &(what, number, text) in messages_of(table) {
            assert!(rt; fault_of_text(rt.alloc(), text).0 == number, "{what}");
            assert!(rt; all_are_answered(rt.alloc(), text), "{what}");
        }
    }
}
