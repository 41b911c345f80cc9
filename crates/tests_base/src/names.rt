//! Names on the wire.

mod text;

use base::{BinDecodable, BinDecoder, DecodeError, Name, ParseError};
use std::alloc::{AllocError, Global};
use test_tools::forms::has_text;

/// The name that a text spells.
pub(crate) fn name(alloc: Global, text: &str) -> Result<Name, ParseError> {
    Name::parse(alloc, text, None)
}

/// Reads the name at `at`, and answers the place after it too.
fn read_at(alloc: Global, bytes: &[u8], at: usize) -> Result<(Name, usize), DecodeError> {
    let mut decoder = BinDecoder::new(alloc, bytes);
    decoder.read_slice(at)?;
    let name = Name::read(&mut decoder)?;
    Ok((name, decoder.index()))
}

/// The number of the refusal, 0 where a name is read; then how many labels it has, and where it ends.
fn extent(alloc: Global, bytes: &[u8], at: usize) -> (u8, usize, usize) {
    let found = read_at(alloc, bytes, at);
    let extent = match &found {
        Ok((name, after)) => (0, name.label_count(), *after),
        Err(e) => (e.number(), 0, 0),
    };
    drop(found);
    extent
}

/// Whether a name has these labels and no more.
pub(crate) fn has_labels(name: &Name, labels: &[&[u8]]) -> bool {
    for (i, label) in labels.iter().enumerate() {
        if name.label(i) != Some(*label) {
            return false;
        }
    }
    name.label_count() == labels.len() && name.label(labels.len()) == None
}

/// What is wanted of bytes from a place on: a complete name of these labels, the root if there are none, up to this
/// end; or the number of the refusal.
type Wanted = Result<(&'static [&'static [u8]], usize), u8>;

/// Whether that is read at this place.
fn reads_as(alloc: Global, bytes: &[u8], at: usize, wanted: Wanted) -> bool {
    let found = read_at(alloc, bytes, at);
    let is_read = match (&found, wanted) {
        (Ok((name, after)), Ok((labels, end))) => {
            let is_complete = name.is_fqdn() && name.is_root() == labels.is_empty();
            *after == end && is_complete && has_labels(name, labels)
        }
        (Err(e), Err(number)) => e.number() == number,
        _ => false,
    };
    drop(found);
    is_read
}

/// A zero byte at 2; `com.` at 3, `example.com.` at 8, `www.example.com.` at 18.
const POINTERS: &[u8] = b"\x00\x01\x00\x03com\0\x07example\xC0\x03\x03www\xC0\x08\xC0\x12\xC0\x02";

/// A question whose name points into the header.
const OF_THE_HEADER: &[u8] = &[0, 0, 0, 0, 0, 1, 0, 0, 0, 0, 0, 0, 0xC0, 0x04, 0, 1, 0, 1];

/// Bytes, a place, and what is wanted there.
const ROWS: &[(&'static [u8], usize, Wanted)] = &[
    (
        b"\x03WWW\x07example\x03com\0\x01a",
        0,
        Ok((&[b"WWW", b"example", b"com"], 17)),
    ),
    (POINTERS, 18, Ok((&[b"www", b"example", b"com"], 24))),
    (POINTERS, 24, Ok((&[b"www", b"example", b"com"], 26))),
    (POINTERS, 26, Ok((&[], 28))),
    (OF_THE_HEADER, 12, Ok((&[], 14))),
    (b"\x01*\x03com\0", 0, Ok((&[b"*", b"com"], 7))),
    // nothing; inside a label; before the zero byte; inside a pointer
    (b"", 0, Err(4)),
    (b"\x03\x77\x77", 0, Err(4)),
    (b"\x01\x77", 0, Err(4)),
    (b"\x00\xC0", 1, Err(4)),
    // reserved top bits
    (b"\x40\x00", 0, Err(5)),
    (b"\x80\x00", 0, Err(5)),
    // pointers to themselves; forward; to their own piece; to one that goes forward
    (b"\xC0\x00", 0, Err(5)),
    (b"\xC0\x02\x00", 0, Err(5)),
    (b"\x01a\xC0\x00", 0, Err(5)),
    (b"\x00\xC0\x02\xC0\x01", 3, Err(5)),
    // after a header: a pointer to itself, reserved bits, a cut label
    (
        b"\0\0\0\0\0\x01\0\0\0\0\0\0\xC0\x0C\0\x01\0\x01",
        12,
        Err(5),
    ),
    (b"\0\0\0\0\0\x01\0\0\0\0\0\0\x40\0\x01\0\x01", 12, Err(5)),
    (b"\0\0\0\0\0\x01\0\0\0\0\0\0\x03\x77\x77", 12, Err(4)),
];

#[test]
fn names_on_the_wire(rt: HostRuntime) {
    for (i, &(bytes, at, wanted)) in ROWS.iter().enumerate() {
        assert!(rt; reads_as(rt.alloc(), bytes, at, wanted), "row {i}");
    }
}

/// Appends twelve zero bytes, labels of these lengths, of bytes `a`, and then these bytes.
fn fill(message: &mut Vec<u8>, lens: &[u8], end: &[u8]) -> Result<(), AllocError> {
    message.resize(12, 0)?;
    for len in lens {
        message.push(*len)?;
        message.resize(message.len().saturating_add(usize::from(*len)), b'a')?;
    }
    message.extend_from_slice(end)
}

/// What the name at `at` is in the first `left` bytes of such a message.
fn extent_of(
    alloc: Global,
    (lens, end): (&[u8], &[u8]),
    left: usize,
    at: usize,
) -> (u8, usize, usize) {
    let mut message = Vec::new(alloc);
    let is_filled = fill(&mut message, lens, end).is_ok();
    let found = extent(alloc, message.get(..left).unwrap_or(&message), at);
    drop(message);
    if is_filled { found } else { OUT_OF_MEMORY }
}

/// Where no memory is found for a message.
const OUT_OF_MEMORY: (u8, usize, usize) = (3, 0, 0);

/// A limit that cuts nothing off.
const WHOLE: usize = usize::MAX;

/// The lengths of the labels and what stands after them, how many bytes are left, a place, and the name there: the
/// number of its refusal, 0 for none, its labels and its end.
const LONG: &[(
    &'static [u8],
    &'static [u8],
    usize,
    usize,
    (u8, usize, usize),
)] = &[
    (&[63, 63, 63, 61], &[0], WHOLE, 12, (0, 4, 267)),
    (&[63, 63, 63, 62], &[0], WHOLE, 12, (5, 0, 0)),
    // where the buffer ends inside the last label, that comes first
    (&[63, 63, 63, 62], &[0], 266, 12, (4, 0, 0)),
    (&[63, 63, 63, 62], &[0], 267, 12, (5, 0, 0)),
    // after a name of three long labels, a label and a pointer to that name
    (&[63, 63, 63, 0, 61], &[0xC0, 0x0C], WHOLE, 12, (0, 3, 205)),
    (&[63, 63, 63, 0, 61], &[0xC0, 0x0C], WHOLE, 205, (0, 4, 269)),
    (&[63, 63, 63, 0, 62], &[0xC0, 0x0C], WHOLE, 12, (0, 3, 205)),
    (&[63, 63, 63, 0, 62], &[0xC0, 0x0C], WHOLE, 205, (5, 0, 0)),
];

#[test]
fn names_of_255_bytes_at_most(rt: HostRuntime) {
    for (i, &(lens, end, left, at, wanted)) in LONG.iter().enumerate() {
        assert!(rt;
            extent_of(rt.alloc(), (lens, end), left, at) == wanted,
            "row {i}"
        );
    }
}

#[test]
fn names_without_labels(rt: HostRuntime) {
    let mut name = Name::root(rt.alloc());
    let is_root = name.is_root() && has_labels(&name, &[]);
    name.set_fqdn(false);
    let is_relative = !name.is_fqdn() && !name.is_root();
    let is_empty = has_text(rt.alloc(), &name, "");
    drop(name);
    assert!(rt; is_root && is_relative && is_empty);
}

/// Whether the copy of a name that is made relative is relative, of these labels.
fn is_copied_relative(mut name: Name, labels: &[&[u8]]) -> bool {
    name.set_fqdn(false);
    let copied: Result<Name, AllocError> = name.clone();
    drop(name);
    let same = match &copied {
        Ok(copy) => !copy.is_fqdn() && has_labels(copy, labels),
        Err(_) => false,
    };
    drop(copied);
    same
}

/// Names and their labels: up to 29 bytes stand inside a name, and more in memory of their own.
const COPIED: &[(&'static [u8], &'static [&'static [u8]])] = &[
    (b"\x01*\x03com\0", &[b"*", b"com"]),
    (
        b"\x1Ca-name-that-stands-in-itself\0",
        &[b"a-name-that-stands-in-itself"],
    ),
    (
        b"\x1Da-name-with-memory-of-its-own\0",
        &[b"a-name-with-memory-of-its-own"],
    ),
];

#[test]
fn a_copy_has_the_flag_and_the_labels(rt: HostRuntime) -> Result<(), DecodeError> {
    for (i, &(bytes, labels)) in COPIED.iter().enumerate() {
        let (name, _) = read_at(rt.alloc(), bytes, 0)?;
        assert!(rt; is_copied_relative(name, labels), "row {i}");
    }
    Ok(())
}
