//! Responses, and what they say; messages with an address.

use base::ProtoError;
use op::Message;
use op_use::{DnsResponse, SerialMessage};
use std::alloc::{AllocError, Global};
use std::net::{Ipv4Addr, SocketAddr, SocketAddrV4};
use std::test::Fail;
use test_tools::forms::are_bytes;

/// The response that is made of the message that bytes begin with.
fn of_message(alloc: Global, wire: &[u8]) -> Result<DnsResponse, ProtoError> {
    DnsResponse::from_message(alloc, Message::from_vec(alloc, wire)?)
}

/// The response that is read of bytes.
fn of_bytes(alloc: Global, wire: &[u8]) -> Result<DnsResponse, ProtoError> {
    DnsResponse::from_buffer(alloc, Vec::from_slice(alloc, wire)?)
}

/// Whether a response answers its question, and for how long the absence of an answer may be kept.
fn says(response: DnsResponse) -> (bool, Option<u32>) {
    let said = (response.contains_answer(), response.negative_ttl());
    drop(response);
    said
}

/// The bytes of responses, whether each answers its question, and for how long the absence of an
/// answer may be kept.
const SAID: &[(&'static [u8], (bool, Option<u32>))] = &[
    // an SOA answers for names within its zone: TTL 88640, minimum 5
    (
        b"\x00\x01\x80\x00\x00\x01\x00\x00\x00\x01\x00\x00\x02AN\x07EXAMPLE\x00\x00\x06\x00\x01\
          \x07EXAMPLE\x00\x00\x06\x00\x01\x00\x01\x5A\x40\x00\x16\x00\x00\
          \x00\x00\x00\x01\x00\x00\x00\x02\x00\x00\x00\x03\x00\x00\x00\x04\x00\x00\x00\x05",
        (true, Some(5)),
    ),
    // names of answers are compared in any case
    (
        b"\x00\x01\x80\x00\x00\x01\x00\x00\x00\x01\x00\x00\x01b\x00\x00\x01\x00\x01\
          \x01B\x00\x00\x01\x00\x01\x00\x00\x00\x3C\x00\x04\xC0\x00\x02\x01",
        (true, None),
    ),
    (
        b"\x00\x01\x80\x00\x00\x01\x00\x00\x00\x01\x00\x00\x01b\x00\x00\x01\x00\x01\
          \x01c\x00\x00\x01\x00\x01\x00\x00\x00\x3C\x00\x04\xC0\x00\x02\x01",
        (false, None),
    ),
    // the first SOA says how long: TTLs 10 and 1, minima 20 and 1
    (
        b"\x00\x01\x80\x00\x00\x01\x00\x00\x00\x02\x00\x00\x01b\x00\x00\x01\x00\x01\
          \x01a\x00\x00\x06\x00\x01\x00\x00\x00\x0A\x00\x16\x00\x00\
          \x00\x00\x00\x01\x00\x00\x00\x02\x00\x00\x00\x03\x00\x00\x00\x04\x00\x00\x00\x14\
          \x01a\x00\x00\x06\x00\x01\x00\x00\x00\x01\x00\x16\x00\x00\
          \x00\x00\x00\x01\x00\x00\x00\x02\x00\x00\x00\x03\x00\x00\x00\x04\x00\x00\x00\x01",
        (false, Some(10)),
    ),
    // any answer answers a question of a type: the MX of another name
    (
        b"\x00\x01\x80\x00\x00\x01\x00\x01\x00\x00\x00\x00\x01b\x00\x00\x01\x00\x01\
          \x01c\x00\x00\x0F\x00\x01\x00\x00\x00\x3C\x00\x03\x00\x0A\x00",
        (true, None),
    ),
];

#[test]
fn responses_say_whether_they_answer_and_for_how_long(rt: HostRuntime) -> Result<(), Fail> {
    for &(wire, wanted) in SAID {
        assert!(rt; says(of_message(rt.alloc(), wire)?) == wanted, "{wire:?}");
    }
    Ok(())
}

/// The number of the refusal, 0 for a response.
fn refusal(made: Result<DnsResponse, ProtoError>) -> u8 {
    match made {
        Ok(response) => {
            drop(response);
            0
        }
        Err(e) => {
            let number = e.number();
            drop(e);
            number
        }
    }
}

#[test]
fn a_query_is_no_response(rt: HostRuntime) -> Result<(), Fail> {
    let alloc = rt.alloc();
    let made = refusal(DnsResponse::from_message(alloc, Message::query(alloc, 1)));
    let read = refusal(of_bytes(alloc, &[0, 1, 0, 0, 0, 0, 0, 0, 0, 0, 0, 0]));
    let cut = refusal(of_bytes(alloc, &[0, 1, 0x80]));
    assert!(rt; (made, read, cut) == (16, 16, 4));
    Ok(())
}

/// The bytes of a response with a question.
const RESPONSE: &[u8] =
    b"\x00\x01\x80\x00\x00\x01\x00\x00\x00\x00\x00\x00\x01b\x00\x00\x01\x00\x01";

/// The same with a byte after it.
const LONGER: &[u8] =
    b"\x00\x01\x80\x00\x00\x01\x00\x00\x00\x00\x00\x00\x01b\x00\x00\x01\x00\x01\xFF";

/// Whether a copy of a response has these bytes, and the same message where that is taken out.
fn is_copied(response: &DnsResponse, wire: &[u8]) -> bool {
    match response.clone() {
        Ok(copy) => {
            let has_bytes = copy.as_buffer() == wire;
            let message = Message::from(copy);
            let is_same = message == *response.message();
            drop(message);
            has_bytes && is_same
        }
        Err(_) => false,
    }
}

/// Whether a response has one question, and these bytes, also where its message is changed then.
fn keeps_bytes(mut response: DnsResponse, wire: &[u8]) -> bool {
    let is_read = response.message().queries.len() == 1 && response.as_buffer() == wire;
    response.message_mut().metadata.id = 2;
    let (message, bytes) = response.into_parts();
    let is_changed = message.metadata.id == 2;
    drop(message);
    let is_kept = are_bytes(Ok(bytes), wire);
    is_read && is_changed && is_kept
}

/// Whether a response that is read of these bytes has and keeps them, and so does its copy, and one
/// that is made of their message has the bytes of the message alone.
fn has_bytes(alloc: Global, wire: &[u8]) -> Result<bool, ProtoError> {
    let made = of_message(alloc, wire)?;
    let is_written = are_bytes(Ok(made.into_buffer()), RESPONSE);
    let response = of_bytes(alloc, wire)?;
    let is_copied = is_copied(&response, wire);
    let is_kept = keeps_bytes(response, wire);
    Ok(is_written && is_copied && is_kept)
}

#[test]
fn a_response_has_the_bytes_that_it_was_read_from(rt: HostRuntime) -> Result<(), Fail> {
    for &wire in &[RESPONSE, LONGER] {
        assert!(rt; has_bytes(rt.alloc(), wire)?, "{wire:?}");
    }
    Ok(())
}

/// The id of the message that the bytes begin with, 0 where there is none.
fn id(serial: &SerialMessage) -> u16 {
    match serial.to_message() {
        Ok(message) => {
            let id = message.metadata.id;
            drop(message);
            id
        }
        Err(_) => 0,
    }
}

/// Whether the bytes are those of the response, with this address.
fn has_parts(serial: &SerialMessage, addr: SocketAddr) -> bool {
    id(serial) == 1 && serial.bytes() == RESPONSE && serial.addr() == addr
}

/// Whether the bytes of the response and an address are lent, taken apart and put together again, in
/// each way.
fn goes_round(alloc: Global, addr: SocketAddr) -> Result<bool, AllocError> {
    let made = SerialMessage::new(Vec::from_slice(alloc, RESPONSE)?, addr);
    let is_made = has_parts(&made, addr);
    let again = SerialMessage::from(<(Vec<u8>, SocketAddr)>::from(made));
    let is_again = has_parts(&again, addr);
    let (bytes, kept) = again.into_parts();
    let joined = SerialMessage::from_parts(bytes, kept);
    let is_joined = has_parts(&joined, addr);
    drop(joined);
    Ok(is_made && is_again && is_joined)
}

#[test]
fn bytes_and_an_address_go_round(rt: HostRuntime) -> Result<(), Fail> {
    for &(last, port) in &[(1, 53), (9, 5353)] {
        let addr = SocketAddr::V4(SocketAddrV4::new(Ipv4Addr::new(192, 0, 2, last), port));
        assert!(rt; goes_round(rt.alloc(), addr)?, "{port}");
    }
    Ok(())
}
