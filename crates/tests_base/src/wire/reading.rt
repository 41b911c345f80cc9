//! Numbers, types, classes and names that are read.

use super::Step::Name as Named;
use super::leave;
use crate::answers::{is_cut, is_this};
use crate::names::has_labels;
use base::{BinDecodable, BinDecoder, DNSClass, Name, RecordType, read_many};

#[test]
fn numbers_are_read_high_byte_first(rt: HostRuntime) {
    let mut decoder = BinDecoder::new(rt.alloc(), &[1, 2, 3, 4, 5, 6, 7, 8, 9]);
    let is_whole = decoder.len() == 9;
    let are_read = is_this(decoder.pop(), &1)
        && is_this(decoder.read_u16(), &0x0203)
        && is_this(decoder.read_u32(), &0x0405_0607)
        && decoder.index() == 7
        && is_this(u16::read(&mut decoder), &0x0809);
    let is_empty = decoder.is_empty();
    let is_cut = is_cut(decoder.pop());
    assert!(rt; is_whole && are_read && is_empty && is_cut);
}

#[test]
fn a_number_that_the_end_cuts_is_refused(rt: HostRuntime) {
    let one = is_cut(BinDecoder::new(rt.alloc(), &[]).pop());
    let two = is_cut(BinDecoder::new(rt.alloc(), &[1]).read_u16());
    let four = is_cut(BinDecoder::new(rt.alloc(), &[1, 2, 3]).read_u32());
    assert!(rt; one && two && four);
}

#[test]
fn types_and_classes_of_numbers(rt: HostRuntime) {
    let bytes = b"\x00\x0F\xFF\x19\x03\xE8\x00\x01\x04\xD0";
    let mut decoder = BinDecoder::new(rt.alloc(), bytes.as_slice());
    let are_types = is_this(RecordType::read(&mut decoder), &RecordType::MX)
        && is_this(RecordType::read(&mut decoder), &RecordType::ANAME)
        && is_this(RecordType::read(&mut decoder), &RecordType::Unknown(1000));
    let are_classes = is_this(DNSClass::read(&mut decoder), &DNSClass::IN)
        && is_this(DNSClass::read(&mut decoder), &DNSClass::Unknown(1232));
    let is_cut = is_cut(DNSClass::read(&mut decoder));
    assert!(rt; are_types && are_classes && is_cut);
}

/// Whether the numbers that are read next are these.
fn are_next(decoder: &mut BinDecoder<'_>, wanted: &[u16]) -> bool {
    let found = read_many::<u16>(decoder, wanted.len());
    let are_next = match &found {
        Ok(numbers) => numbers.as_slice() == wanted,
        Err(_) => false,
    };
    drop(found);
    are_next
}

#[test]
fn values_are_read_in_turn(rt: HostRuntime) {
    let buffer = [0, 1, 0, 2, 1, 0, 9];
    let mut decoder = BinDecoder::new(rt.alloc(), &buffer);
    let are_read = are_next(&mut decoder, &[]) && are_next(&mut decoder, &[1, 2, 256]);
    let end = decoder.index();
    let is_cut = is_cut(read_many::<u16>(&mut decoder, 1));
    assert!(rt; are_read && end == 6 && is_cut);
}

/// A name that has memory of its own, and one that ends in a pointer to it.
const LONG_NAMES: &[u8] = b"\x1Da-name-with-memory-of-its-own\0\x01b\xC0\x00";

#[test]
fn many_names_are_read(rt: HostRuntime) {
    let found = read_many::<Name>(&mut BinDecoder::new(rt.alloc(), LONG_NAMES), 2);
    let label = b"a-name-with-memory-of-its-own".as_slice();
    let are_read = match &found {
        Ok(names) => match names.as_slice() {
            [first, second] => has_labels(first, &[label]) && has_labels(second, &[b"b", label]),
            _ => false,
        },
        Err(_) => false,
    };
    drop(found);
    assert!(rt; are_read);
}

/// Two names that end alike.
const TWO_NAMES: &[u8] = b"\x01a\x01b\0\x01C\xC0\x02";

/// Whether the name that is read next is absolute and has these labels.
fn is_next(decoder: &mut BinDecoder<'_>, labels: &[&[u8]]) -> bool {
    let found = Name::read(decoder);
    let is_next = match &found {
        Ok(name) => name.is_fqdn() && has_labels(name, labels),
        Err(_) => false,
    };
    drop(found);
    is_next
}

#[test]
fn names_are_read_as_they_were_written(rt: HostRuntime) {
    let mut bytes = Vec::new(rt.alloc());
    let names = [(Named(b"\x01a\x01b\0"), 0), (Named(b"\x01C\x01b\0"), 0)];
    let are_written = leave(rt.alloc(), &mut bytes, &names, 0, TWO_NAMES);
    drop(bytes);
    let mut decoder = BinDecoder::new(rt.alloc(), TWO_NAMES);
    let are_read = is_next(&mut decoder, &[b"a", b"b"]) && is_next(&mut decoder, &[b"C", b"b"]);
    assert!(rt; are_written && are_read && decoder.is_empty());
}
