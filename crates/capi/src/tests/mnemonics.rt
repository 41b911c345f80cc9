//! Mnemonics and numbers: of types (RFC 1035, 3.2.2 and 3.2.3; RFC 3596, 2.1; RFC 8659, 4.1), of classes (RFC 1035, 3.2.4
//! and 3.2.5; RFC 2136, 2.4) and of response codes (RFC 6895, 2.3).

use crate::mnemonic::{
    fuzsbanel_class_number, fuzsbanel_class_text, fuzsbanel_code_number, fuzsbanel_code_text,
    fuzsbanel_type_number, fuzsbanel_type_text, fuzsbanel_version,
};
use std::alloc::Global;

/// What a mnemonic is of.
#[derive(Clone, Copy)]
enum Kind {
    Type,
    Class,
    Code,
}

/// Numbers, and the text of each.
const TEXTS: &[(Kind, u16, &'static [u8])] = &[
    (Kind::Type, 0, b"ZERO"),
    (Kind::Type, 1, b"A"),
    (Kind::Type, 28, b"AAAA"),
    (Kind::Type, 255, b"ANY"),
    (Kind::Type, 257, b"TYPE257"),
    (Kind::Type, 65535, b"TYPE65535"),
    (Kind::Class, 0, b"CLASS0"),
    (Kind::Class, 1, b"IN"),
    (Kind::Class, 4, b"HS"),
    (Kind::Class, 254, b"NONE"),
    (Kind::Class, 65535, b"CLASS65535"),
    (Kind::Code, 0, b"NoError"),
    (Kind::Code, 3, b"NXDomain"),
    (Kind::Code, 10, b"NotZone"),
    (Kind::Code, 11, b"11"),
    (Kind::Code, 16, b"BADSIG"),
    (Kind::Code, 23, b"BADCOOKIE"),
    (Kind::Code, 4095, b"4095"),
];

/// Other texts, and what each is answered.
const OTHERS: &[(Kind, &'static [u8], i64)] = &[
    (Kind::Type, b"aaaa", 28),
    (Kind::Type, b"type257", 257),
    (Kind::Type, b"TYPE1", 1),
    (Kind::Type, b"TYPE65536", -21),
    (Kind::Type, b"TYPE", -21),
    (Kind::Type, b"TYPE+1", -21),
    (Kind::Type, b"CAA", -21),
    (Kind::Type, b"1", -21),
    (Kind::Type, b"", -21),
    (Kind::Type, b"\xff", -24),
    (Kind::Class, b"in", 1),
    (Kind::Class, b"*", 255),
    (Kind::Class, b"class3", 3),
    (Kind::Class, b"CLASS65536", -37),
    (Kind::Class, b"CLASS+1", -37),
    (Kind::Class, b"INN", -37),
    (Kind::Class, b"", -37),
    (Kind::Class, b"\xff", -24),
    (Kind::Code, b"NXDOMAIN", 3),
    (Kind::Code, b"badvers", 16),
    (Kind::Code, b"007", 7),
    (Kind::Code, b"65536", -37),
    (Kind::Code, b"+7", -37),
    (Kind::Code, b"NXDomains", -37),
    (Kind::Code, b"", -37),
    (Kind::Code, b"\xff", -24),
];

#[test]
fn numbers_have_their_texts(rt: HostRuntime) {
    for &(kind, number, text) in TEXTS {
        let mut out = [7; 12];
        let mut needed = 99;
        let answer = written(rt.alloc(), kind, number, &mut out, &mut needed);
        assert!(rt; answer == text.len() as i64 && needed == text.len());
        assert!(rt; out.starts_with(text) && out[text.len()] == 7);
        assert!(rt; read(rt.alloc(), kind, text) == i64::from(number));
        // a buffer that is too small stays
        let mut small = [7; 12];
        let room = text.len() - 1;
        let answer = written(rt.alloc(), kind, number, &mut small[..room], &mut needed);
        assert!(rt; answer == -100 && needed == text.len() && small == [7; 12]);
    }
}

#[test]
fn texts_have_their_numbers(rt: HostRuntime) {
    for &(kind, text, answer) in OTHERS {
        assert!(rt; read(rt.alloc(), kind, text) == answer);
    }
}

#[test]
fn the_version_is_a_number(rt: HostRuntime) {
    assert!(rt; fuzsbanel_version() == 1_000);
}

/// The number of a text.
fn read(alloc: Global, kind: Kind, text: &[u8]) -> i64 {
    match kind {
        Kind::Type => fuzsbanel_type_number(alloc, text),
        Kind::Class => fuzsbanel_class_number(alloc, text),
        Kind::Code => fuzsbanel_code_number(alloc, text),
    }
}

/// What is answered where the text of a number is asked for.
fn written(alloc: Global, kind: Kind, number: u16, out: &mut [u8], needed: &mut usize) -> i64 {
    match kind {
        Kind::Type => fuzsbanel_type_text(alloc, number, out, needed),
        Kind::Class => fuzsbanel_class_text(alloc, number, out, needed),
        Kind::Code => fuzsbanel_code_text(alloc, number, out, needed),
    }
}
