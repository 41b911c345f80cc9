//! Each export that builds an update or applies one, over updates of RFC 2136, and what each refuses.

use crate::applied::fuzsbanel_apply;
use crate::update::{
    fuzsbanel_append, fuzsbanel_compare_and_swap, fuzsbanel_create, fuzsbanel_delete_all,
    fuzsbanel_delete_by_rdata, fuzsbanel_delete_rrset, fuzsbanel_zone_transfer,
};
use crate::zone::fuzsbanel_zone;
use std::alloc::{AllocError, Global};

const ORIGIN: &[u8] = b"example.";

const WWW: &[u8] = b"www 300 A 192.0.2.2\n";

/// A call that builds a message about the set of a text.
#[derive(Clone, Copy, Drop)]
enum Call {
    Create,
    Append,
    Swap,
    DeleteData,
    DeleteSet(u16),
    DeleteAll,
    Transfer,
}

/// What a call answers to an origin and a text, which `DeleteSet` and `DeleteAll` take for a name, with room for 512
/// bytes.
fn answer(alloc: Global, call: Call, origin: &[u8], text: &[u8], out: &mut [u8]) -> i64 {
    let mut needed = 0;
    match call {
        Call::Create => fuzsbanel_create(alloc, 1, origin, text, false, out, &mut needed),
        Call::Append => fuzsbanel_append(alloc, 1, origin, text, true, false, out, &mut needed),
        Call::Swap => {
            fuzsbanel_compare_and_swap(alloc, 1, origin, text, WWW, false, out, &mut needed)
        }
        Call::DeleteData => {
            fuzsbanel_delete_by_rdata(alloc, 1, origin, text, false, out, &mut needed)
        }
        Call::DeleteSet(record_type) => {
            fuzsbanel_delete_rrset(alloc, 1, origin, text, record_type, false, out, &mut needed)
        }
        Call::DeleteAll => fuzsbanel_delete_all(alloc, 1, origin, text, false, out, &mut needed),
        Call::Transfer => fuzsbanel_zone_transfer(alloc, 1, origin, text, out, &mut needed),
    }
}

/// Updates of the zone `example.`, and what stands after id and flags: the counts, the zone, prerequisites (RFC 2136,
/// 2.4) and updates (2.5).
const BUILT: &[(Call, &'static [u8], &'static [u8])] = &[
    (
        Call::Create,
        WWW,
        b"\0\x01\0\x01\0\x01\0\0\x07example\0\0\x06\0\x01\
\x03www\xc0\x0c\0\x01\0\xfe\0\0\0\0\0\0\
\xc0\x19\0\x01\0\x01\0\0\x01\x2c\0\x04\xc0\0\x02\x02",
    ),
    (
        Call::Append,
        WWW,
        b"\0\x01\0\x01\0\x01\0\0\x07example\0\0\x06\0\x01\
\x03www\xc0\x0c\0\x01\0\xff\0\0\0\0\0\0\
\xc0\x19\0\x01\0\x01\0\0\x01\x2c\0\x04\xc0\0\x02\x02",
    ),
    (
        Call::Swap,
        b"www 60 A 192.0.2.1",
        b"\0\x01\0\x01\0\x02\0\0\x07example\0\0\x06\0\x01\
\x03www\xc0\x0c\0\x01\0\x01\0\0\0\0\0\x04\xc0\0\x02\x01\
\xc0\x19\0\x01\0\xfe\0\0\0\0\0\x04\xc0\0\x02\x01\
\xc0\x19\0\x01\0\x01\0\0\x01\x2c\0\x04\xc0\0\x02\x02",
    ),
    (
        Call::DeleteData,
        WWW,
        b"\0\x01\0\0\0\x01\0\0\x07example\0\0\x06\0\x01\
\x03www\xc0\x0c\0\x01\0\xfe\0\0\0\0\0\x04\xc0\0\x02\x02",
    ),
    (
        Call::DeleteSet(1),
        b"www",
        b"\0\x01\0\0\0\x01\0\0\x07example\0\0\x06\0\x01\
\x03www\xc0\x0c\0\x01\0\xff\0\0\0\0\0\0",
    ),
    (
        Call::DeleteAll,
        b"www",
        b"\0\x01\0\0\0\x01\0\0\x07example\0\0\x06\0\x01\
\x03www\xc0\x0c\0\xff\0\xff\0\0\0\0\0\0",
    ),
];

#[test]
fn updates_are_built(rt: HostRuntime) {
    let mut out = [0; 512];
    for &(call, text, after) in BUILT {
        let len = answer(rt.alloc(), call, ORIGIN, text, &mut out);
        let is_update = out.starts_with(b"\0\x01\x28\0") && out[4..].starts_with(after);
        assert!(rt; len.saturating_sub(4) == after.len() as i64 && is_update);
    }
}

/// What refuses a text, and with which number.
const REFUSED: &[(Call, &'static [u8], i64)] = &[
    (Call::Create, b"www 5 A 192.0.2.300", -23),
    (Call::Create, b"www 5 TXT \xff", -24),
    (Call::Append, b"www 5 CH A 192.0.2.1", -25),
    (
        Call::Append,
        b"www 5 A 192.0.2.1\nwww 5 CH A 192.0.2.2",
        -25,
    ),
    (Call::Swap, b"", -27),
    (Call::Create, b"www 5 A 192.0.2.1\nftp 5 A 192.0.2.1", -27),
    (Call::DeleteData, b"www.other. 5 A 192.0.2.1", -28),
    (Call::DeleteAll, b"other.", -28),
    (Call::Create, b"@ 5 SOA ns hostmaster 1 2 3 4 5", -29),
    (Call::DeleteSet(41), b"www", -29),
    (Call::DeleteSet(24), b"www", -29),
    (Call::DeleteSet(250), b"www", -29),
    (Call::DeleteSet(255), b"www", -29),
    (Call::DeleteSet(0), b"www", -29),
    (Call::Transfer, WWW, -30),
    (Call::Transfer, b"www 5 SOA ns hostmaster 1 2 3 4 5", -30),
    (Call::Create, b"$ORIGIN a\nwww.example. 5 MX 10 \"@\"", -31),
];

#[test]
fn texts_are_refused(rt: HostRuntime) {
    let mut out = [7; 512];
    for &(call, text, number) in REFUSED {
        let answered = answer(rt.alloc(), call, ORIGIN, text, &mut out);
        assert!(rt; answered == number && out[0] == 7);
    }
    // name servers and aliases are changed by updates too
    for &text in &[b"@ 5 NS ns" as &[u8], b"www 5 CNAME a"] {
        assert!(rt; answer(rt.alloc(), Call::Create, ORIGIN, text, &mut out) > 0);
    }
}

#[test]
fn an_origin_is_asked_for(rt: HostRuntime) {
    let mut out = [7; 64];
    let mut needed = 9;
    for &(call, text, _) in BUILT {
        assert!(rt; answer(rt.alloc(), call, b"", text, &mut out) == -26);
    }
    let applied = fuzsbanel_apply(
        rt.alloc(),
        b"\0\x01\x28\0\0\0\0\0\0\0\0\0",
        b"",
        WWW,
        &mut out,
        &mut needed,
    );
    assert!(rt; applied == -26 && needed == 0 && out[0] == 7);
}

/// The zone of `example.`, with a second `$ORIGIN` at its end.
const ZONE: &[u8] = b"@ 60 NS ns\nns 60 A 192.0.2.1\n$ORIGIN lab.example.\nwww 60 A 192.0.2.3\n";

#[test]
fn the_zone_is_that_of_the_origin(rt: HostRuntime) {
    let mut update = [0; 512];
    let mut out = [0; 512];
    let mut needed = 0;
    let len = answer(rt.alloc(), Call::Create, ORIGIN, WWW, &mut update);
    assert!(rt; 0 < len && len < 512);
    let update = &update[..len as usize];
    let applied = fuzsbanel_apply(rt.alloc(), update, ORIGIN, ZONE, &mut out, &mut needed);
    let lines: &[u8] = b"NoError\n$ORIGIN example.\nexample. 60 IN NS ns.example.\n\
www.lab.example. 60 IN A 192.0.2.3\nns.example. 60 IN A 192.0.2.1\n\
www.example. 300 IN A 192.0.2.2\n";
    let are_lines = out.starts_with(lines);
    assert!(rt; applied == lines.len() as i64 && are_lines);
    let other = fuzsbanel_apply(
        rt.alloc(),
        update,
        b"lab.example.",
        ZONE,
        &mut out,
        &mut needed,
    );
    assert!(rt; 0 < other && out.starts_with(b"NotAuth\n"));
    let zone = fuzsbanel_zone(rt.alloc(), ORIGIN, WWW, &mut out, &mut needed);
    let is_zone = out.starts_with(b"$ORIGIN example.\nwww.example. 300 IN A 192.0.2.2\n");
    assert!(rt; zone == 49 && is_zone);
}

/// The text of so many addresses of one owner.
fn addresses(alloc: Global, count: u16) -> Result<String, AllocError> {
    let mut text = String::new(alloc);
    for i in 0..count {
        writeln!(text, "www 300 A 10.0.{}.{}", i / 256, i % 256)?;
    }
    Ok(text)
}

#[test]
fn no_update_is_cut(rt: HostRuntime) -> Result<(), AllocError> {
    let mut out = vec![in rt.alloc(); 0; 65535]?;
    // 41 bytes before the records, and 16 for each
    let most = addresses(rt.alloc(), 4093)?;
    let more = addresses(rt.alloc(), 4094)?;
    let whole = answer(rt.alloc(), Call::Create, ORIGIN, most.as_bytes(), &mut out);
    let long = answer(rt.alloc(), Call::Create, ORIGIN, more.as_bytes(), &mut out);
    let swapped = answer(rt.alloc(), Call::Swap, ORIGIN, most.as_bytes(), &mut out);
    drop(out);
    drop(most);
    drop(more);
    assert!(rt; whole == 41 + 16 * 4093 && long == -32 && swapped == -32);
    Ok(())
}
