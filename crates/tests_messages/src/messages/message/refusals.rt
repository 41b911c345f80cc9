//! What refusals name: the type of data, how many questions had room, and the question that is no name.

use crate::hostile::fault_of_text;
use crate::messages::message::parts::message_of;
use base::{BinDecodable, BinDecoder, ProtoError};
use op::{Header, Message};
use std::alloc::Global;
use std::test::Fail;

/// Messages in hexadecimal that are refused for their data, with the number and what it names: the type of the data, or
/// how many bytes are left and the length of the data.
const BAD_DATA: &[((u8, usize, usize), &'static str)] = &[
    // a pointer that leaves its data, and data that its name doesn't fill
    (
        (8, MX, 0),
        "0009 8180 0001 0001 0000 0000 076578616D706C65 00 000F 0001 C00C 000F 0001 0000012C 0008 000A 046D61696C C00C",
    ),
    (
        (8, MX, 0),
        "0009 8180 0001 0001 0000 0000 076578616D706C65 00 000F 0001 C00C 000F 0001 0000012C 000A 000A 046D61696C C00C 00",
    ),
    // type 0 with data
    (
        (8, 0, 0),
        "A0A0 000D 0000 0001 0000 0000 00 0000 0001 00000001 0001 00",
    ),
    // data that the buffer ends in
    (
        (7, 9, 10),
        "0009 8180 0001 0001 0000 0000 076578616D706C65 00 000F 0001 C00C 000F 0001 0000012C 000A 000A 046D61696C C00C",
    ),
];

/// The number of that type.
const MX: usize = 15;

#[test]
fn bad_data_is_refused_as_what_it_is(rt: HostRuntime) {
    for &(fault, text) in BAD_DATA {
        assert!(rt; fault_of_text(rt.alloc(), text) == fault, "{text}");
    }
}

/// Two questions: the header has 12 bytes, the first question 9, and the second 8.
const QUESTIONS: &str = "0007 0100 0002 0000 0000 0000 0161 0162 00 0001 0001 0163 C00E 0001 0001";

/// Limits under which a question of the message has no room, and how many stand before it.
const WITHOUT_ROOM: &[(u16, usize)] = &[(28, 1), (21, 1), (20, 0), (12, 0)];

/// How many questions of the message are written under a limit, where one has no room.
fn count_written(alloc: Global, limit: u16) -> Result<Option<usize>, Fail> {
    let message = message_of(alloc, QUESTIONS)?;
    let written = message.to_vec_within(limit);
    drop(message);
    let count = match &written {
        Err(ProtoError::NotAllRecordsWritten { count }) => Some(*count),
        _ => None,
    };
    drop(written);
    Ok(count)
}

#[test]
fn questions_without_room_are_counted(rt: HostRuntime) -> Result<(), Fail> {
    for &(limit, questions) in WITHOUT_ROOM {
        assert!(rt;
            count_written(rt.alloc(), limit)? == Some(questions),
            "{limit}"
        );
    }
    Ok(())
}

/// The number of the refusal of the next question, 0 where it is read.
fn next_question(decoder: &mut BinDecoder<'_>) -> u8 {
    let read = Message::read_queries(decoder, 1);
    let number = match &read {
        Ok(_) => 0,
        Err(e) => e.number(),
    };
    drop(read);
    number
}

/// The first name is a pointer to byte 4; the second one leads to byte 0, where a pointer leads forward to byte 4.
#[test]
fn a_known_target_is_not_led_to_from_before(rt: HostRuntime) {
    let bytes = b"\xC0\x04\0\0\0\x02\0\0\0\0\0\0\xC0\x04\0\x01\0\x01\xC0\0\0\x01\0\x01";
    let mut decoder = BinDecoder::new(rt.alloc(), bytes);
    let header = Header::read(&mut decoder);
    let is_read = header.is_ok();
    drop(header);
    let first = next_question(&mut decoder);
    let second = next_question(&mut decoder);
    drop(decoder);
    assert!(rt; is_read && (first, second) == (0, 5));
}
