//! What encoders write and decoders read.

mod items;
mod names;
mod numbers;
mod reading;

use base::{
    BinDecodable, BinDecoder, BinEncodable, BinEncoder, DNSClass, DecodeError, Name, ProtoError,
    RecordType, emit_sized,
};
use std::alloc::Global;
use test_tools::names::alike;

/// The name that these bytes spell.
fn name_of(alloc: Global, bytes: &[u8]) -> Result<Name, DecodeError> {
    Name::read(&mut BinDecoder::new(alloc, bytes))
}

/// What an encoder is asked for.
#[derive(Clone, Copy)]
enum Step {
    /// Sets the limit to this number of bytes, from here on.
    Limit(u16),
    Byte(u8),
    U16(u16),
    U32(u32),
    Bytes(&'static [u8]),
    /// This number of zeros.
    Zeros(usize),
    /// The name that these bytes spell, and the same with no pointer.
    Name(&'static [u8]),
    Plain(&'static [u8]),
    /// That name after its length.
    SizedName(&'static [u8]),
    /// A number as a value, and after its length.
    Value(u16),
    SizedValue(u16),
    Type(RecordType),
    Class(DNSClass),
    /// This number of names of two letters, no two the same.
    Letters(u8),
    /// This number of names of 47 letters, no two the same, which an encoder can't tell apart at once.
    Alike(u8),
}

/// Writes a name.
fn emit_name(
    alloc: Global,
    step: Step,
    name: &[u8],
    encoder: &mut BinEncoder<'_>,
) -> Result<(), ProtoError> {
    let name = name_of(alloc, name)?;
    let emitted = match step {
        Step::Plain(_) => name.emit_plain(encoder),
        Step::SizedName(_) => emit_sized(&[0; 2], &name, encoder),
        _ => name.emit(encoder),
    };
    drop(name);
    emitted
}

/// Writes `count` zeros.
fn emit_zeros(alloc: Global, count: usize, encoder: &mut BinEncoder<'_>) -> Result<(), ProtoError> {
    let zeros = vec![in alloc; 0; count]?;
    let emitted = encoder.emit_slice(&zeros);
    drop(zeros);
    emitted
}

/// Writes `count` names of one label, whose two letters tell its number, from 0 on.
fn emit_letters(alloc: Global, count: u8, encoder: &mut BinEncoder<'_>) -> Result<(), ProtoError> {
    for number in 0..count {
        let name = [2, b'a' + number / 26, b'a' + number % 26, 0];
        emit_name(alloc, Step::Letters(number), &name, encoder)?;
    }
    Ok(())
}

/// Writes names that can't be told apart at once.
fn emit_alike(alloc: Global, count: u8, encoder: &mut BinEncoder<'_>) -> Result<(), ProtoError> {
    for number in 0..count {
        emit_name(alloc, Step::Alike(number), &alike(number), encoder)?;
    }
    Ok(())
}

/// Does a step.
fn take(alloc: Global, step: Step, encoder: &mut BinEncoder<'_>) -> Result<(), ProtoError> {
    match step {
        Step::Limit(limit) => {
            encoder.set_max_size(limit);
            Ok(())
        }
        Step::Byte(byte) => encoder.emit(byte),
        Step::U16(number) => encoder.emit_u16(number),
        Step::U32(number) => encoder.emit_u32(number),
        Step::Bytes(bytes) => encoder.emit_slice(bytes),
        Step::Zeros(count) => emit_zeros(alloc, count, encoder),
        Step::Name(name) | Step::Plain(name) | Step::SizedName(name) => {
            emit_name(alloc, step, name, encoder)
        }
        Step::Value(number) => number.emit(encoder),
        Step::SizedValue(number) => emit_sized(&[0; 2], &number, encoder),
        Step::Type(record_type) => record_type.emit(encoder),
        Step::Class(class) => class.emit(encoder),
        Step::Letters(count) => emit_letters(alloc, count, encoder),
        Step::Alike(count) => emit_alike(alloc, count, encoder),
    }
}

/// The number of the refusal; 0 for Ok.
fn refusal(answer: Result<(), ProtoError>) -> u8 {
    let number = match &answer {
        Ok(()) => 0,
        Err(e) => e.number(),
    };
    drop(answer);
    number
}

/// Whether each step is refused by its number, where 0 is none.
fn are_taken(alloc: Global, steps: &[(Step, u8)], encoder: &mut BinEncoder<'_>) -> bool {
    for &(step, number) in steps {
        if refusal(take(alloc, step, encoder)) != number {
            return false;
        }
    }
    true
}

/// Whether the steps are taken so by an encoder that begins with nothing over what stands, and leave these bytes from
/// a place on.
fn leave(
    alloc: Global,
    bytes: &mut Vec<u8>,
    steps: &[(Step, u8)],
    from: usize,
    wanted: &[u8],
) -> bool {
    let mut encoder = BinEncoder::new(bytes);
    let begins = encoder.is_empty();
    let are_taken = are_taken(alloc, steps, &mut encoder);
    let len = encoder.len();
    drop(encoder);
    begins && are_taken && len == bytes.len() && bytes.get(from..) == Some(wanted)
}

/// Steps with the numbers of their refusals, a place, and what stands there in the end: see `numbers` and `names`.
type Row = (&'static [(Step, u8)], usize, &'static [u8]);

const TABLES: &[&'static [Row]] = &[numbers::ROWS, names::ROWS, names::MORE_ROWS];

/// Each encoder writes over what the one before has left.
#[test]
fn rows_of_steps(rt: HostRuntime) {
    let mut bytes = Vec::new(rt.alloc());
    for (i, &rows) in TABLES.iter().enumerate() {
        for (j, &(steps, from, wanted)) in rows.iter().enumerate() {
            assert!(rt;
                leave(rt.alloc(), &mut bytes, steps, from, wanted),
                "table {i}, row {j}"
            );
        }
    }
    drop(bytes);
}
