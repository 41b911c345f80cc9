//! Items that are written one by one, and counted.

ghost use Rattle.std.specs.Prelude.{◌≡◌, Ok};

use super::Step::{self, Letters, Limit, Name as Named};
use super::are_taken;
use base::{BinDecoder, BinEncoder, DecodeError, EmitAndCount, Name, ProtoError, read_many};
use std::alloc::Global;

/// A part that answers a number and writes nothing.
#[derive(Drop)]
struct Careless {
    number: usize,
}

impl EmitAndCount for Careless {
    ghost use Rattle.std.specs.Prelude.{⊤};

    ghost can_emit = { λ _. ⊤ };

    ghost emits = { λ s a result t b. (result ≡ Ok s.number) × (b ≡ a) };

    fn emit(&mut self, _encoder: &mut BinEncoder<'_>) -> Result<usize, ProtoError> {
        Ok(self.number)
    }
}

/// How many items are written, and whether that is all of them; 100 for another refusal.
fn count_of(answer: Result<usize, ProtoError>) -> (usize, bool) {
    let count = match &answer {
        Ok(count) => (*count, true),
        Err(ProtoError::NotAllRecordsWritten { count }) => (*count, false),
        Err(_) => (100, false),
    };
    drop(answer);
    count
}

/// What a part answers.
fn emit_and_count<P: EmitAndCount>(part: &mut P, encoder: &mut BinEncoder<'_>) -> (usize, bool)
    requires { P.can_emit part.old }
{
    count_of(part.emit(encoder))
}

/// Writes parts that fit and one that is cut, and answers whether they count right.
fn parts_are_counted(encoder: &mut BinEncoder<'_>) -> bool {
    let careless = emit_and_count(&mut Careless { number: 7 }, encoder);
    let before = encoder.len();
    let whole = emit_and_count(&mut [1u16, 2, 3].iter(), encoder);
    encoder.set_max_size(9);
    let cut = emit_and_count(&mut [4u16, 5, 6].iter(), encoder);
    careless == (7, true) && before == 0 && whole == (3, true) && cut == (1, false)
}

#[test]
fn parts_count(rt: HostRuntime) {
    let mut bytes = Vec::new(rt.alloc());
    let mut encoder = BinEncoder::new(&mut bytes);
    let are_counted = parts_are_counted(&mut encoder);
    drop(encoder);
    let same = bytes.as_slice() == b"\x00\x01\x00\x02\x00\x03\x00\x04".as_slice();
    drop(bytes);
    assert!(rt; are_counted && same);
}

/// Whether two numbers fit and the third, which doesn't, is taken; and none are written of none, and none where no byte
/// fits.
fn two_fit(encoder: &mut BinEncoder<'_>) -> bool {
    let mut items = [1u16, 2, 3].iter();
    encoder.set_max_size(5);
    let two = count_of(encoder.emit_all(&mut items));
    let is_third_taken = items.len() == 0 && encoder.len() == 4;
    let none = count_of(encoder.emit_all(&mut [].iter() as &mut std::slice::Iter<'_, u16>));
    encoder.set_max_size(0);
    let without_room = count_of(encoder.emit_all(&mut [1u16, 2, 3].iter()));
    two == (2, false) && is_third_taken && none == (0, true) && without_room == (0, false)
}

#[test]
fn numbers_that_fit(rt: HostRuntime) {
    let mut bytes = Vec::new(rt.alloc());
    let mut encoder = BinEncoder::new(&mut bytes);
    let two_fit = two_fit(&mut encoder);
    drop(encoder);
    let same = bytes.as_slice() == b"\x00\x01\x00\x02".as_slice();
    drop(bytes);
    assert!(rt; two_fit && same);
}

/// `a.b.`, `c.b.` and `d.e.`.
const THREE_NAMES: &[u8] = b"\x01a\x01b\0\x01c\x01b\0\x01d\x01e\0";

/// Names that are written again.
const AGAIN: &[(Step, u8)] = &[
    (Limit(1000), 0),
    (Named(b"\x01d\x01e\0"), 0),
    (Named(b"\x01d\x01e\0"), 0),
    (Named(b"\x01c\x01b\0"), 0),
    (Named(b"\x01e\0"), 0),
];

/// Whether the first two of the names fit after `count` others, and the bytes of the third are taken back: the suffixes
/// that were stored with them are not pointed at when names are written again.
fn write_again(alloc: Global, count: u8, names: &[Name], encoder: &mut BinEncoder<'_>) -> bool {
    let start = usize::from(count) * 4;
    let letters = [(Letters(count), 0), (Limit(u16::from(count) * 4 + 12), 0)];
    let filled = are_taken(alloc, &letters, encoder);
    let two = count_of(encoder.emit_all(&mut names.iter()));
    let is_taken_back = encoder.len() == start + 9;
    filled && two == (2, false) && is_taken_back && are_taken(alloc, AGAIN, encoder)
}

/// Whether that is so, and what is written after the `count` others is what is wanted.
fn ends_with(alloc: Global, count: u8, names: &[Name], wanted: &[u8]) -> bool {
    let mut bytes = Vec::new(alloc);
    let mut encoder = BinEncoder::new(&mut bytes);
    let are_written = write_again(alloc, count, names, &mut encoder);
    drop(encoder);
    let same = are_written && bytes.get(usize::from(count) * 4..) == Some(wanted);
    drop(bytes);
    same
}

/// How many names stand before the three, and where `a.b.` begins.
const STARTS: &[(u8, u8)] = &[
    (0, 0),
    (20, 80),
    (21, 84),
    (22, 88),
    (23, 92),
    (24, 96),
    (40, 160),
];

#[test]
fn suffixes_go_with_their_bytes(rt: HostRuntime) -> Result<(), DecodeError> {
    let names = read_many::<Name>(&mut BinDecoder::new(rt.alloc(), THREE_NAMES), 3)?;
    for &(count, start) in STARTS {
        let wanted = [
            1,
            b'a',
            1,
            b'b',
            0,
            1,
            b'c',
            0xC0,
            start.wrapping_add(2),
            1,
            b'd',
            1,
            b'e',
            0,
            0xC0,
            start.wrapping_add(9),
            0xC0,
            start.wrapping_add(5),
            0xC0,
            start.wrapping_add(11),
        ];
        assert!(rt;
            ends_with(rt.alloc(), count, &names, &wanted),
            "after {count}"
        );
    }
    drop(names);
    Ok(())
}
