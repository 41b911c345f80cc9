//! Names and data in wire form (RFC 1035, 3.1 and 3.3; RFC 3596, 2.2; RFC 2782; RFC 3597, 5), and their texts.

use crate::wire_form::{fuzsbanel_data_wire, fuzsbanel_name_wire, fuzsbanel_wire_text};
use std::alloc::AllocError;

/// Names, and their wire forms.
const NAMES: &[(&'static [u8], &'static [u8])] = &[
    (b"www.example", b"\x03www\x07example\0"),
    (b"WWW.example.", b"\x03WWW\x07example\0"),
    (b".", b"\0"),
    (b"a\\.b.c", b"\x03a.b\x01c\0"),
    (b"\\255", b"\x01\xff\0"),
];

/// Texts that are no names, and the refusals.
const NO_NAMES: &[(&'static [u8], i64)] = &[
    (b"", -26),
    (b"a..b", -23),
    (b"a b", -23),
    (b"@", -23),
    (b"\xff", -24),
];

#[test]
fn names_have_wire_forms(rt: HostRuntime) {
    for &(name, wire) in NAMES {
        let mut out = [7; 32];
        let mut needed = 99;
        let answer = fuzsbanel_name_wire(rt.alloc(), name, &mut out, &mut needed);
        assert!(rt; answer == wire.len() as i64 && needed == wire.len());
        assert!(rt; out.starts_with(wire) && out[wire.len()] == 7);
        let mut small = [7; 32];
        let room = &mut small[..wire.len() - 1];
        let answer = fuzsbanel_name_wire(rt.alloc(), name, room, &mut needed);
        assert!(rt; answer == -100 && needed == wire.len() && small == [7; 32]);
    }
    for &(name, number) in NO_NAMES {
        let mut out = [7; 32];
        let mut needed = 99;
        let answer = fuzsbanel_name_wire(rt.alloc(), name, &mut out, &mut needed);
        assert!(rt; answer == number && needed == 0 && out == [7; 32]);
    }
}

/// A type, the text of data, its wire form, and the text that is written of that.
const DATA: &[(u16, &'static [u8], &'static [u8], &'static [u8])] = &[
    (1, b"192.0.2.1", b"\xc0\0\x02\x01", b"192.0.2.1"),
    (
        28,
        b"2001:DB8::1",
        b"\x20\x01\x0d\xb8\0\0\0\0\0\0\0\0\0\0\0\x01",
        b"2001:db8::1",
    ),
    (2, b"ns.example", b"\x02ns\x07example\0", b"ns.example."),
    (
        15,
        b"10 mail.example.",
        b"\0\x0a\x04mail\x07example\0",
        b"10 mail.example.",
    ),
    // no name of an SOA is compressed
    (
        6,
        b"ns.example. m.example. 1 2h 3600 14d 300",
        b"\x02ns\x07example\0\x01m\x07example\0\
\0\0\0\x01\0\0\x1c\x20\0\0\x0e\x10\0\x12\x75\0\0\0\x01\x2c",
        b"ns.example. m.example. 1 7200 3600 1209600 300",
    ),
    (
        33,
        b"0 5 5060 sip.example.",
        b"\0\0\0\x05\x13\xc4\x03sip\x07example\0",
        b"0 5 5060 sip.example.",
    ),
    (16, b"\"a b\" c", b"\x03a b\x01c", b"\"a b\" \"c\""),
    (1, b"\\# 4 C0000201", b"\xc0\0\x02\x01", b"192.0.2.1"),
    (257, b"\\# 3 (00 05\n69) ; CAA", b"\0\x05i", b"\\# 3 000569"),
    (1, b"\\# 0", b"", b"\\# 0"),
];

#[test]
fn data_has_wire_forms(rt: HostRuntime) {
    for &(record_type, text, wire, shown) in DATA {
        let mut out = [7; 64];
        let mut needed = 99;
        let alloc = rt.alloc();
        let answer = fuzsbanel_data_wire(alloc, record_type, text, &mut out, &mut needed);
        assert!(rt; answer == wire.len() as i64 && needed == wire.len());
        assert!(rt; out.starts_with(wire) && out[wire.len()] == 7);
        let mut out = [7; 64];
        let answer = fuzsbanel_wire_text(alloc, record_type, wire, &mut out, &mut needed);
        assert!(rt; answer == shown.len() as i64 && needed == shown.len());
        assert!(rt; out.starts_with(shown) && out[shown.len()] == 7);
        let mut small = [7; 64];
        let room = &mut small[..shown.len() - 1];
        let answer = fuzsbanel_wire_text(alloc, record_type, wire, room, &mut needed);
        assert!(rt; answer == -100 && needed == shown.len() && small == [7; 64]);
    }
}

/// A type, a text that is no data of it, and the refusal.
const NO_DATA: &[(u16, &'static [u8], i64)] = &[
    (1, b"192.0.2.300", -23),
    (1, b"", -23),
    (1, b"192.0.2.1 192.0.2.2", -23),
    (16, b"\"a", -18),
    (1, b"192.0.2.1\n$INCLUDE a\n", -20),
    (43, b"1 2 3 00", -22),
    (1, b"\xff", -24),
    (1, b"192.0.2.1\n. 0 A 192.0.2.2", -27),
    (1, b"192.0.2.1\na 0 A 192.0.2.1", -27),
    (1, b"192.0.2.1\na 0 CH A 192.0.2.1", -25),
];

/// A type, bytes that are no data of it, and the refusal: too few, too many, a pointer to itself, type 0.
const NO_WIRE: &[(u16, &'static [u8], i64)] = &[
    (1, b"\xc0\0\x02", -8),
    (1, b"\xc0\0\x02\x01\0", -8),
    (15, b"\0\x0a\xc0\x02", -8),
    (0, b"a", -8),
];

#[test]
fn no_data_is_refused(rt: HostRuntime) {
    for &(record_type, text, number) in NO_DATA {
        let mut out = [7; 32];
        let mut needed = 99;
        let alloc = rt.alloc();
        let answer = fuzsbanel_data_wire(alloc, record_type, text, &mut out, &mut needed);
        assert!(rt; answer == number && needed == 0 && out == [7; 32]);
    }
    for &(record_type, octets, number) in NO_WIRE {
        let mut out = [7; 32];
        let mut needed = 99;
        let alloc = rt.alloc();
        let answer = fuzsbanel_wire_text(alloc, record_type, octets, &mut out, &mut needed);
        assert!(rt; answer == number && needed == 0 && out == [7; 32]);
    }
}

#[test]
fn long_data_is_refused(rt: HostRuntime) -> Result<(), AllocError> {
    // 256 bytes each: 255 of them are 65,280 bytes
    let string = ["0123456789abcdef"; 15].concat(rt.alloc())?;
    let mut text = String::new(rt.alloc());
    for _ in 0..255 {
        text.push_str("\"")?;
        text.push_str(string.as_str())?;
        text.push_str("0123456789abcde\" ")?;
    }
    let mut out = vec![in rt.alloc(); 7; 65536]?;
    let mut needed = 0;
    let alloc = rt.alloc();
    let most = fuzsbanel_data_wire(alloc, 16, text.as_bytes(), &mut out, &mut needed);
    text.push_str("\"")?;
    text.push_str(string.as_str())?;
    text.push_str("0123456789abcde\"")?;
    let more = fuzsbanel_data_wire(alloc, 16, text.as_bytes(), &mut out, &mut needed);
    let long = fuzsbanel_wire_text(alloc, 16, &out, &mut [], &mut needed);
    drop(out);
    drop(text);
    drop(string);
    assert!(rt; most == 65280 && more == -32 && long == -32);
    Ok(())
}
