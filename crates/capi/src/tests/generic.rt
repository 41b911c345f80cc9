//! Types and data in the generic form, by the examples of RFC 3597, 5, and zones that are written and read again.

use crate::applied::fuzsbanel_apply;
use crate::update::fuzsbanel_delete_rrset;
use crate::zone::fuzsbanel_zone;

const ORIGIN: &[u8] = b"example.";

/// Texts, and the line that each makes.
const READ: &[(&'static [u8], &'static [u8])] = &[
    (
        b"a 5 TYPE731 \\# 6 abcd (\n ef 01 23 45 )",
        b"a.example. 5 IN TYPE731 \\# 6 abcdef012345\n",
    ),
    (
        b"b 5 HS type62347 \\# 0",
        b"b.example. 5 HS TYPE62347 \\# 0\n",
    ),
    (b"e 5 IN A \\# 4 0A000001", b"e.example. 5 IN A 10.0.0.1\n"),
    (b"e 5 TYPE1 10.0.0.2", b"e.example. 5 IN A 10.0.0.2\n"),
    (b"e 5 TYPE1 \\# 0", b"e.example. 5 IN A \\# 0\n"),
    (
        b"m 5 MX \\# 6 000a 02 6E73 00",
        b"m.example. 5 IN MX 10 ns.\n",
    ),
];

#[test]
fn the_generic_form_is_read(rt: HostRuntime) {
    let mut out = [0; 512];
    let mut needed = 0;
    for &(text, line) in READ {
        let len = fuzsbanel_zone(rt.alloc(), ORIGIN, text, &mut out, &mut needed);
        let is_zone = out.starts_with(b"$ORIGIN example.\n") && out[17..].starts_with(line);
        assert!(rt; len.saturating_sub(17) == line.len() as i64 && is_zone);
    }
}

/// Texts that are refused: the digits aren't as many bytes as the number says, are no pairs or no digits; the data isn't
/// of its type; no number, or one too large; and names in data that are relative.
const REFUSED: &[(&'static [u8], i64)] = &[
    (b"a 5 A \\# 4 0A0000", -23),
    (b"a 5 A \\# 3 0A000001", -23),
    (b"a 5 A \\# 2 0A000", -23),
    (b"a 5 A \\# 4 0A00000G", -23),
    (b"a 5 A \\# 3 0A0000", -23),
    (b"a 5 NS \\# 2 C000", -23),
    (b"a 5 A \\#", -23),
    (b"a 5 A \\# -1", -23),
    (b"a 5 TYPE731 \\# 65536", -23),
    (b"a 5 TYPE731 10.0.0.1", -22),
    (b"a 5 TYPE65536 \\# 0", -21),
    (b"a 5 TYPE \\# 0", -21),
    (b"a 5 OPT \\# 0", -31),
    (b"$ORIGIN a\nb 5 NS \"@\"", -31),
];

#[test]
fn other_forms_are_refused(rt: HostRuntime) {
    let update = b"\0\x01\x28\0\0\x01\0\0\0\0\0\0\x07example\0\0\x06\0\x01";
    let mut out = [7; 128];
    let mut needed = 0;
    for &(text, number) in REFUSED {
        let read = fuzsbanel_zone(rt.alloc(), ORIGIN, text, &mut out, &mut needed);
        let applied = fuzsbanel_apply(rt.alloc(), update, ORIGIN, text, &mut out, &mut needed);
        assert!(rt; read == number && applied == number && out[0] == 7);
    }
    // a relative name before any origin, where none is given
    let text = b"b. 5 NS x\n$ORIGIN a.";
    let read = fuzsbanel_zone(rt.alloc(), b"", text, &mut out, &mut needed);
    assert!(rt; read == -31 && needed == 0 && out[0] == 7);
}

/// An update that adds records of types without a form here: CAA (RFC 8659, 4), DS (the example of RFC 4034, 5.4), SSHFP
/// (that of RFC 4255, 3.2) and TLSA (RFC 6698, 2.1); and an address without data.
const ADDED: &[u8] = b"\0\x01\x28\0\0\x01\0\0\0\x05\0\0\x07example\0\0\x06\0\x01\
\x01c\xc0\x0c\x01\x01\0\x01\0\0\0\x3c\0\x09\0\x05issueca\
\x01d\xc0\x0c\0\x2b\0\x01\0\0\0\x3c\0\x18\
\xec\x45\x05\x01\x2b\xb1\x83\xaf\x5f\x22\x58\x81\x79\xa5\x3b\x0a\x98\x63\x1f\xad\x1a\x29\x21\x18\
\x01e\xc0\x0c\0\x01\0\x01\0\0\0\x3c\0\0\
\x01s\xc0\x0c\0\x2c\0\x01\0\0\0\x3c\0\x16\
\x02\x01\x12\x34\x56\x78\x9a\xbc\xde\xf6\x78\x90\x12\x34\x56\x78\x9a\xbc\xde\xf6\x78\x90\
\x01t\xc0\x0c\0\x34\0\x01\0\0\0\x3c\0\x04\x03\x01\0\xaa";

/// The zone then.
const LINES: &[u8] = b"NoError\n$ORIGIN example.\nexample. 60 IN NS ns.example.\n\
c.example. 60 IN TYPE257 \\# 9 000569737375656361\n\
d.example. 60 IN DS \\# 24 ec4505012bb183af5f22588179a53b0a98631fad1a292118\n\
e.example. 60 IN A \\# 0\n\
s.example. 60 IN TYPE44 \\# 22 0201123456789abcdef67890123456789abcdef67890\n\
t.example. 60 IN TYPE52 \\# 4 030100aa\n";

#[test]
fn what_is_written_is_read_again(rt: HostRuntime) {
    let mut out = [0; 512];
    let mut needed = 0;
    let text = b"@ 60 NS ns\n";
    let len = fuzsbanel_apply(rt.alloc(), ADDED, ORIGIN, text, &mut out, &mut needed);
    let is_applied = out.starts_with(LINES);
    assert!(rt; len == LINES.len() as i64 && is_applied);
    // the same zone, also where the caller names no origin
    let zone = &LINES[8..];
    for &origin in &[ORIGIN, b""] {
        let len = fuzsbanel_zone(rt.alloc(), origin, zone, &mut out, &mut needed);
        let is_zone = out.starts_with(zone);
        assert!(rt; len == zone.len() as i64 && is_zone);
    }
    // a set of such a type goes by a further update
    let mut update = [0; 64];
    let len = fuzsbanel_delete_rrset(
        rt.alloc(),
        1,
        ORIGIN,
        b"t",
        52,
        false,
        &mut update,
        &mut needed,
    );
    assert!(rt; 0 < len && len <= 64);
    let update = &update[..len as usize];
    let len = fuzsbanel_apply(rt.alloc(), update, ORIGIN, zone, &mut out, &mut needed);
    let left = LINES.len() - b"t.example. 60 IN TYPE52 \\# 4 030100aa\n".len();
    let is_left = out.starts_with(&LINES[..left]);
    assert!(rt; len == left as i64 && is_left);
}

/// An update that adds an ANAME record.
const ANAME_ADDED: &[u8] = b"\0\x01\x28\0\0\x01\0\0\0\x01\0\0\x07example\0\0\x06\0\x01\
\xc0\x0c\xff\x19\0\x01\0\0\0\x3c\0\x03\x01c\0";

/// Texts, what the update is answered of each, and the first byte of the answer then: beside another ANAME record it is
/// refused, in the place of the same data or beside other types it goes in.
const ANAMES: &[(&'static [u8], i64, u8)] = &[
    (b"@ 60 ANAME b.", -33, 7),
    (b"@ 60 ANAME C.", 49, b'N'),
    (b"www 60 ANAME b.", 77, b'N'),
];

#[test]
fn a_second_aname_is_refused(rt: HostRuntime) {
    let mut needed = 0;
    for &(text, answer, first) in ANAMES {
        let mut out = [7; 128];
        let len = fuzsbanel_apply(rt.alloc(), ANAME_ADDED, ORIGIN, text, &mut out, &mut needed);
        assert!(rt; len == answer && out[0] == first);
    }
}
