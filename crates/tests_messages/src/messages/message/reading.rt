use base::{BinDecodable, BinDecoder, DecodeError, RecordType};
use op::{Edns, Message, OpCode, Query};
use std::alloc::Global;
use test_tools::forms::is_copied;

/// A response to a question for an address.
const WWW: [u8; 49] = [
    0x10, 0x00, 0x81, 0x80, 0x00, 0x01, 0x00, 0x01, 0x00, 0x00, 0x00, 0x00, 0x03, 0x77, 0x77, 0x77,
    0x07, 0x65, 0x78, 0x61, 0x6D, 0x70, 0x6C, 0x65, 0x03, 0x63, 0x6F, 0x6D, 0x00, 0x00, 0x01, 0x00,
    0x01, 0xC0, 0x0C, 0x00, 0x01, 0x00, 0x01, 0x00, 0x00, 0x00, 0x02, 0x00, 0x04, 0x5D, 0xB8, 0xD7,
    0x0E,
];

/// A response of an owner that has memory of its own: a question, an address, a name server, an address, an OPT record
/// with an option, and a signature.
const LONG: &[u8] =
    b"\x10\x00\x81\x80\x00\x01\x00\x01\x00\x01\x00\x03\x1Da-name-with-memory-of-its-own\x00\x00\x01\x00\x01\
      \xC0\x0C\x00\x01\x00\x01\x00\x00\x00\x02\x00\x04\x5D\xB8\xD7\x0E\
      \xC0\x0C\x00\x02\x00\x01\x00\x00\x00\x02\x00\x02\xC0\x0C\
      \xC0\x0C\x00\x01\x00\x01\x00\x00\x00\x02\x00\x04\x5D\xB8\xD7\x0E\
      \x00\x00\x29\x02\x00\x00\x00\x00\x00\x00\x05\x00\x03\x00\x01\x04\
      \x00\x00\xFA\x00\xFF\x00\x00\x00\x00\x00\x01\xAA";

/// An OPT record and an address; and a signature.
const OPT_AND_A: [u8; 26] = [
    0x00, 0x00, 0x29, 0x02, 0x00, 0x00, 0x00, 0x00, 0x00, 0x00, 0x00, 0x00, 0x00, 0x01, 0x00, 0x01,
    0x00, 0x00, 0x00, 0x00, 0x00, 0x04, 0x7F, 0x00, 0x00, 0x01,
];

const SIGN: [u8; 12] = [
    0x00, 0x00, 0xFA, 0x00, 0xFF, 0x00, 0x00, 0x00, 0x00, 0x00, 0x01, 0xAA,
];

/// Whether the bytes begin with this question alone, and it ends there.
fn is_asked(alloc: Global, bytes: &[u8], queries: &Vec<Query>, end: usize) -> bool {
    let mut decoder = BinDecoder::new(alloc, bytes);
    let found = Message::read_queries(&mut decoder, 1);
    let same = match &found {
        Ok(found) => *found == *queries,
        Err(_) => false,
    };
    drop(found);
    same && decoder.index() == end
}

/// Whether these bytes, all of them, are a message of one answer that is equal to its copy, and whose question takes so
/// many bytes.
fn is_read_at_its_place(alloc: Global, wire: &[u8], len: usize) -> bool {
    let mut decoder = BinDecoder::new(alloc, wire);
    let read = Message::read(&mut decoder);
    let has_parts = match read {
        Ok(message) => {
            let question = wire.get(12..).unwrap_or(wire);
            let is_asked = is_asked(alloc, question, &message.queries, len);
            let has_answer = message.answers.len() == 1;
            is_copied(message) && is_asked && has_answer
        }
        Err(_) => false,
    };
    let end = decoder.index();
    drop(decoder);
    has_parts && end == wire.len()
}

#[test]
fn a_message_is_read_at_its_place(rt: HostRuntime) {
    assert!(rt; is_read_at_its_place(rt.alloc(), &WWW, 21));
    assert!(rt; is_read_at_its_place(rt.alloc(), LONG, 35));
}

/// Whether `count` records outside the additional section are refused, since one of this type is among them.
fn is_misplaced(alloc: Global, bytes: &[u8], count: usize, record_type: RecordType) -> bool {
    let mut decoder = BinDecoder::new(alloc, bytes);
    let refused = Message::read_records(&mut decoder, count, false, OpCode::Query);
    let is_misplaced = match &refused {
        Err(DecodeError::RecordNotInAdditionalSection(found)) => *found == record_type,
        _ => false,
    };
    drop(refused);
    is_misplaced
}

/// Whether this is EDNS that nobody has set.
fn is_new(alloc: Global, edns: &Option<Edns>) -> bool {
    let new = Some(Edns::new(alloc));
    let is_new = *edns == new;
    drop(new);
    is_new
}

/// What is read of `count` additional records: the other records, whether there is EDNS, and that nobody has set it,
/// and whether there is a signature.
fn additionals(alloc: Global, bytes: &[u8], count: usize) -> Option<(usize, bool, bool, bool)> {
    let mut decoder = BinDecoder::new(alloc, bytes);
    let found = Message::read_records(&mut decoder, count, true, OpCode::Query);
    let said = match &found {
        Ok((records, edns, signature)) => {
            let is_new = is_new(alloc, edns);
            Some((records.len(), edns.is_some(), is_new, signature.is_some()))
        }
        Err(_) => None,
    };
    drop(found);
    said
}

#[test]
fn edns_and_a_signature_stand_by_themselves_among_additionals(rt: HostRuntime) {
    let is_misplaced_edns = is_misplaced(rt.alloc(), &OPT_AND_A, 2, RecordType::OPT);
    assert!(rt; is_misplaced_edns && is_misplaced(rt.alloc(), &SIGN, 1, RecordType::TSIG));
    assert!(rt; additionals(rt.alloc(), &OPT_AND_A, 2) == Some((1, true, true, false)));
    assert!(rt; additionals(rt.alloc(), &SIGN, 1) == Some((0, false, false, true)));
}
