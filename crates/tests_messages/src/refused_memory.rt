use crate::messages::message::parts::{SIGNED, message_of};
use base::{BinDecodable, BinDecoder, BinEncodable, BinEncoder, Name, ProtoError, RecordType};
use base_data::{EdnsOption, OPT};
use op::{LowerQuery, Message, Query};
use std::alloc::Global;
use std::test::Fail;
use test_tools::bytes::decode;
use test_tools::names::{ALIKE, KINDS, alike};

/// Writes the message after two bytes, under a limit for all of it. Whether these stand, whatever comes of it.
fn leaves_what_stood(
    message: &Message,
    bytes: &mut Vec<u8>,
    limit: u16,
) -> Result<bool, ProtoError> {
    let mut encoder = BinEncoder::new(&mut *bytes);
    encoder.set_max_size(limit);
    encoder.emit_u16(0xABCD)?;
    let emitted = message.emit(&mut encoder);
    drop(encoder);
    if !bytes.starts_with(b"\xAB\xCD") {
        return Ok(false);
    }
    emitted?;
    Ok(true)
}

/// Whether that is so of the signed message under a limit, and what stands then is spelled by this text.
fn is_written_after(alloc: Global, limit: u16, text: &str) -> Result<bool, Fail> {
    let wanted = decode(alloc, text)?;
    let message = message_of(alloc, SIGNED)?;
    let mut bytes = Vec::new(alloc);
    let stood = leaves_what_stood(&message, &mut bytes, limit);
    drop(message);
    let same = *bytes == *wanted;
    drop(bytes);
    drop(wanted);
    Ok(stood? && same)
}

/// Limits, and what stands then: the whole message, a cut without EDNS, and a cut without answers.
const AFTER: &[(u16, &'static str)] = &[
    (
        137,
        "abcd 000780000001000100000003 01610000010001 c00e001000010000003c0029\
         2878787878787878787878787878787878787878787878787878787878787878787878787878787878\
         c00e000100010000003c0004c0000201\
         00002904d0000000000018fde900140000000000000000000000000000000000000000\
         0000fa00ff000000000001aa",
    ),
    (
        102,
        "abcd 000782000001000100000002 01610000010001 c00e001000010000003c0029\
         2878787878787878787878787878787878787878787878787878787878787878787878787878787878\
         c00e000100010000003c0004c0000201 0000fa00ff000000000001aa",
    ),
    (
        49,
        "abcd 000782000001000000000002 01610000010001 c00e000100010000003c0004c0000201\
         0000fa00ff000000000001aa",
    ),
];

#[test]
fn what_stood_before_a_message_stays(rt: HostRuntime) -> Result<(), Fail> {
    for &(limit, text) in AFTER {
        assert!(rt; is_written_after(rt.alloc(), limit, text)?, "{limit}");
    }
    Ok(())
}

/// Whether the message is written as the bytes that this text spells.
fn is_written(alloc: Global, message: &Message, text: &str) -> Result<bool, ProtoError> {
    let wanted = decode(alloc, text)?;
    let bytes = message.to_vec()?;
    Ok(*bytes == *wanted)
}

#[test]
fn a_message_is_written_whole(rt: HostRuntime) -> Result<(), Fail> {
    let message = message_of(rt.alloc(), SIGNED)?;
    let is_written = is_written(rt.alloc(), &message, SIGNED);
    drop(message);
    assert!(rt; is_written?);
    Ok(())
}

/// What is left of the signed message without its records and its signature.
const TRUNCATED: &str = "000782000001000000000001 01610000010001\
    00002904d0000000000018fde900140000000000000000000000000000000000000000";

#[test]
fn a_message_is_truncated(rt: HostRuntime) -> Result<(), Fail> {
    let message = message_of(rt.alloc(), SIGNED)?;
    let cut = message.truncate();
    drop(message);
    let cut = cut?;
    let is_written = is_written(rt.alloc(), &cut, TRUNCATED);
    drop(cut);
    assert!(rt; is_written?);
    Ok(())
}

#[test]
fn a_question_is_lowered(rt: HostRuntime) -> Result<(), Fail> {
    let name = Name::parse(
        rt.alloc(),
        "WWW.a-name-that-wants-memory.example.com.",
        None,
    )?;
    let question = LowerQuery::query(rt.alloc(), Query::query(name, RecordType::AAAA))?;
    let shown = question.name().to_string(rt.alloc());
    drop(question);
    let is_lowered = shown?.as_str() == "www.a-name-that-wants-memory.example.com.";
    assert!(rt; is_lowered);
    Ok(())
}

/// Puts an option of this code in; where that is refused the options have to be what they were.
fn puts_in(alloc: Global, options: &mut OPT, code: u16) -> Result<bool, ProtoError> {
    let before = options.clone()?;
    let put = options.insert(EdnsOption::new(code, Vec::new(alloc)));
    let is_changed = *options != before;
    drop(before);
    if put.is_ok() != is_changed {
        drop(put);
        return Ok(false);
    }
    put?;
    Ok(true)
}

/// Whether options are put in one after another.
fn options_are_put_in(alloc: Global, count: u16) -> Result<bool, ProtoError> {
    let mut options = OPT::new(Vec::new(alloc));
    for code in 0..count {
        if !puts_in(alloc, &mut options, code)? {
            return Ok(false);
        }
    }
    Ok(options.as_ref().len() == usize::from(count))
}

#[test]
fn options_are_put_in_turn(rt: HostRuntime) -> Result<(), Fail> {
    assert!(rt; options_are_put_in(rt.alloc(), 5)?);
    Ok(())
}

/// Writes each of the names that an encoder can't tell apart at once.
fn write_alike(alloc: Global, encoder: &mut BinEncoder<'_>) -> Result<(), ProtoError> {
    for number in 0..KINDS {
        let name = Name::read(&mut BinDecoder::new(alloc, &alike(number)))?;
        let emitted = name.emit(encoder);
        drop(name);
        emitted?;
    }
    Ok(())
}

/// How many bytes are written where each of them is written twice.
fn written_twice(alloc: Global) -> Result<usize, ProtoError> {
    let mut bytes = Vec::new(alloc);
    let mut encoder = BinEncoder::new(&mut bytes);
    write_alike(alloc, &mut encoder)?;
    write_alike(alloc, &mut encoder)?;
    Ok(encoder.len())
}

#[test]
fn names_alike_are_pointed_at(rt: HostRuntime) -> Result<(), Fail> {
    let len = written_twice(rt.alloc())?;
    assert!(rt; len == usize::from(KINDS) * (ALIKE + 2));
    Ok(())
}
