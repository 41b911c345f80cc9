//! Calls on the parts of a message: truncating, stripping, iterating, the signature, and what EDNS says of payloads.

use crate::messages::built::{Kind, Part, build};
use crate::messages::values::address;
use base::{DNSClass, Name, RecordType};
use op::{Edns, Message, MessageType, OpCode};
use rr::Record;
use std::alloc::Global;
use std::test::Fail;
use test_tools::bytes::decode;
use test_tools::forms::are_bytes;

/// A response with a question, an answer, an additional record, EDNS with an option, and a signature.
pub(crate) const SIGNED: &str = "000780000001000100000003\
    01610000010001\
    c00c001000010000003c0029\
    2878787878787878787878787878787878787878787878787878787878787878787878787878787878\
    c00c000100010000003c0004c0000201\
    00002904d0000000000018fde900140000000000000000000000000000000000000000\
    0000fa00ff000000000001aa";

/// The message that a text spells in hexadecimal.
pub(crate) fn message_of(alloc: Global, text: &str) -> Result<Message, Fail> {
    let bytes = decode(alloc, text)?;
    let message = Message::from_vec(alloc, &bytes);
    drop(bytes);
    Ok(message?)
}

/// How many answers and additional records are left of the message that a text spells.
fn count_left(alloc: Global, text: &str, flag: bool) -> Result<(usize, usize), Fail> {
    let message = message_of(alloc, text)?.maybe_strip_dnssec_records(flag);
    let counts = (message.answers.len(), message.additionals.len());
    drop(message);
    Ok(counts)
}

/// Responses of A and RRSIG, and of NSEC, to a question for A and to one for RRSIG, whether DO is set, and what is left.
const STRIPPED: &[(&'static str, bool, (usize, usize))] = &[
    (
        "0001 8000 0001 0002 0000 0001 0161 00 0001 0001 C00C 0001 0001 0000003C 0004 C0000201\
         C00C 002E 0001 0000003C 0001 00 C00C 002F 0001 0000003C 0001 00",
        false,
        (1, 0),
    ),
    (
        "0001 8000 0001 0002 0000 0001 0161 00 0001 0001 C00C 0001 0001 0000003C 0004 C0000201\
         C00C 002E 0001 0000003C 0001 00 C00C 002F 0001 0000003C 0001 00",
        true,
        (2, 1),
    ),
    (
        "0001 8000 0001 0002 0000 0001 0161 00 002E 0001 C00C 0001 0001 0000003C 0004 C0000201\
         C00C 002E 0001 0000003C 0001 00 C00C 002F 0001 0000003C 0001 00",
        false,
        (2, 0),
    ),
];

#[test]
fn records_of_dnssec_are_stripped_unless_asked_for(rt: HostRuntime) -> Result<(), Fail> {
    for &(text, flag, left) in STRIPPED {
        assert!(rt;
            count_left(rt.alloc(), text, flag)? == left,
            "{flag} {text}"
        );
    }
    Ok(())
}

#[test]
fn each_record_of_a_section_is_given_once(rt: HostRuntime) -> Result<(), Fail> {
    let mut message = message_of(rt.alloc(), SIGNED)?;
    let all = message.all_sections().count();
    let taken = message.take_all_sections().count();
    let rest = message.all_sections().count();
    drop(message);
    assert!(rt; (all, taken, rest) == (2, 2, 0));
    Ok(())
}

/// EDNS made of an OPT record by hand has its payload; a message with it has a payload of 512, and writes that.
#[test]
fn a_small_payload_is_taken_as_512(rt: HostRuntime) -> Result<(), Fail> {
    let mut by_hand = Record::update0(Name::root(rt.alloc()), 0, RecordType::OPT);
    by_hand.dns_class = DNSClass::Unknown(100);
    let edns = Edns::try_from(&by_hand);
    drop(by_hand);
    let edns = edns?;
    let own = edns.max_payload();
    let mut message = Message::response(rt.alloc(), 1, OpCode::Query);
    message.set_edns(edns);
    let taken = message.max_payload();
    let bytes = message.to_vec();
    drop(message);
    let wire =
        b"\x00\x01\x80\x00\x00\x00\x00\x00\x00\x00\x00\x01\x00\x00\x29\x02\x00\x00\x00\x00\x00\x00\x00";
    assert!(rt; (own, taken, are_bytes(bytes, wire)) == (100, 512, true));
    Ok(())
}

#[test]
fn a_record_of_an_address_is_no_edns(rt: HostRuntime) -> Result<(), Fail> {
    let record = address(rt.alloc(), "a.", 60)?;
    let edns = Edns::try_from(&record);
    drop(record);
    let number = match &edns {
        Ok(_) => 0,
        Err(e) => e.number(),
    };
    drop(edns);
    assert!(rt; number == 9);
    Ok(())
}

#[test]
fn a_message_without_edns_takes_512_bytes(rt: HostRuntime) -> Result<(), Fail> {
    let parts = [Part::Ask("a.", RecordType::A)];
    let message = build(rt.alloc(), Kind::Query(1), &parts)?;
    let said = (message.max_payload(), message.version());
    let response = message.into_response();
    let message_type = response.metadata.message_type;
    drop(response);
    assert!(rt; said == (512, 0) && message_type == MessageType::Response);
    Ok(())
}

/// Whether the signature of a message is lent.
fn is_signed(message: &Message) -> bool {
    match message.signature() {
        Some(signature) => signature.name.is_root() && signature.dns_class == DNSClass::ANY,
        None => false,
    }
}

/// Whether the signature is taken out of a message.
fn is_taken(message: &mut Message) -> bool {
    match message.take_signature() {
        Some(signature) => {
            let is_taken = signature.name.is_root() && signature.dns_class == DNSClass::ANY;
            drop(signature);
            is_taken
        }
        None => false,
    }
}

#[test]
fn a_signature_is_taken_once(rt: HostRuntime) -> Result<(), Fail> {
    let mut message = build(rt.alloc(), Kind::Response(7), &[Part::Signature])?;
    let before = (is_signed(&message), is_taken(&mut message));
    let after = (is_signed(&message), is_taken(&mut message));
    drop(message);
    assert!(rt; (before, after) == ((true, true), (false, false)));
    Ok(())
}
