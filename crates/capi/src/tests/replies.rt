//! Responses that are built: their bytes by RFC 1035, 4.1, RFC 6891, 6.1, and RFC 3225, 3.

use crate::reply::fuzsbanel_build_response;
use std::alloc::{AllocError, Global};

/// Asks for the address of `www.example.`, with RD and CD.
const QUERY: &[u8] = b"\0\x09\x01\x10\0\x01\0\0\0\0\0\0\x03www\x07example\0\0\x01\0\x01";

/// The same with EDNS, which takes 600 bytes, and DO.
const WITH_EDNS: &[u8] = b"\0\x09\x01\x10\0\x01\0\0\0\0\0\x01\x03www\x07example\0\0\x01\0\x01\
\0\0\x29\x02\x58\0\0\x80\0\0\0";

/// An update of `example.` (RFC 2136, 2.2).
const UPDATE: &[u8] = b"\0\x09\x28\0\0\x01\0\0\0\0\0\0\x07example\0\0\x06\0\x01";

/// The section that has records.
#[derive(Clone, Copy)]
enum Section {
    Answer,
    Authority,
    Additional,
}

/// A query, the code, AA, RA, the section that has the records of a zone text, and the response.
const ROWS: &[(
    &'static [u8],
    u16,
    bool,
    bool,
    Section,
    &'static [u8],
    &'static [u8],
)] = &[
    // no record
    (
        QUERY,
        0,
        false,
        false,
        Section::Answer,
        b"",
        b"\0\x09\x81\x10\0\x01\0\0\0\0\0\0\x03www\x07example\0\0\x01\0\x01",
    ),
    // an address, with RA
    (
        QUERY,
        0,
        false,
        true,
        Section::Answer,
        b"www.example 60 A 192.0.2.1",
        b"\0\x09\x81\x90\0\x01\0\x01\0\0\0\0\x03www\x07example\0\0\x01\0\x01\
\xc0\x0c\0\x01\0\x01\0\0\0\x3c\0\x04\xc0\0\x02\x01",
    ),
    // an alias stands before what it leads to
    (
        QUERY,
        0,
        false,
        false,
        Section::Answer,
        b"a.example 60 A 192.0.2.1\nwww.example 60 CNAME a.example",
        b"\0\x09\x81\x10\0\x01\0\x02\0\0\0\0\x03www\x07example\0\0\x01\0\x01\
\xc0\x0c\0\x05\0\x01\0\0\0\x3c\0\x04\x01a\xc0\x10\xc0\x29\0\x01\0\x01\0\0\0\x3c\0\x04\xc0\0\x02\x01",
    ),
    // NXDomain, with AA and the SOA
    (
        QUERY,
        3,
        true,
        false,
        Section::Authority,
        b"example. 60 SOA www.example www.example 1 2 3 4 5",
        b"\0\x09\x85\x13\0\x01\0\0\0\x01\0\0\x03www\x07example\0\0\x01\0\x01\
\xc0\x10\0\x06\0\x01\0\0\0\x3c\0\x18\xc0\x0c\xc0\x0c\0\0\0\x01\0\0\0\x02\0\0\0\x03\0\0\0\x04\0\0\0\x05",
    ),
    // an additional record
    (
        QUERY,
        0,
        false,
        false,
        Section::Additional,
        b"www.example 60 A 192.0.2.1",
        b"\0\x09\x81\x10\0\x01\0\0\0\0\0\x01\x03www\x07example\0\0\x01\0\x01\
\xc0\x0c\0\x01\0\x01\0\0\0\x3c\0\x04\xc0\0\x02\x01",
    ),
    // BADVERS: EDNS with the high bits of the code, the 512 bytes that each server takes, and DO
    (
        WITH_EDNS,
        16,
        false,
        false,
        Section::Answer,
        b"",
        b"\0\x09\x81\x10\0\x01\0\0\0\0\0\x01\x03www\x07example\0\0\x01\0\x01\
\0\0\x29\x02\0\x01\0\x80\0\0\0",
    ),
    // an update that is refused, with its zone
    (
        UPDATE,
        5,
        false,
        false,
        Section::Answer,
        b"",
        b"\0\x09\xa8\x05\0\x01\0\0\0\0\0\0\x07example\0\0\x06\0\x01",
    ),
];

/// A query, the code, the section that has the records of a zone text, and the refusal: no message, and a response; codes
/// that have no bits; zone text; and records that no section has.
const REFUSED: &[(&'static [u8], u16, Section, &'static [u8], i64)] = &[
    (b"\0\x09\x01", 0, Section::Answer, b"", -4),
    (
        b"\0\x09\x81\x10\0\0\0\0\0\0\0\0",
        0,
        Section::Answer,
        b"",
        -38,
    ),
    (QUERY, 16, Section::Answer, b"", -31),
    (WITH_EDNS, 4096, Section::Answer, b"", -31),
    (QUERY, 0, Section::Answer, b"www.example 60 A 192.0.2", -23),
    (
        QUERY,
        0,
        Section::Authority,
        b"www.example A 192.0.2.1",
        -19,
    ),
    (QUERY, 0, Section::Additional, b"\xff", -24),
    (QUERY, 0, Section::Additional, b"example 60 OPT \\# 0", -31),
    (QUERY, 0, Section::Answer, b"www.example 60 A \\# 0", -31),
];

#[test]
fn responses_are_built(rt: HostRuntime) {
    for &(query, code, authoritative, recursion, section, text, response) in ROWS {
        let mut out = [7; 80];
        let mut needed = 99;
        let says = (code, authoritative, recursion);
        let len = response.len();
        let answer = built(
            rt.alloc(),
            query,
            says,
            section,
            text,
            &mut out,
            &mut needed,
        );
        assert!(rt; answer == len as i64 && needed == len);
        assert!(rt; out.starts_with(response) && out[len] == 7);
        let mut small = [7; 80];
        let room = &mut small[..len - 1];
        let answer = built(rt.alloc(), query, says, section, text, room, &mut needed);
        assert!(rt; answer == -100 && needed == len && small == [7; 80]);
    }
}

#[test]
fn responses_are_refused(rt: HostRuntime) {
    for &(query, code, section, text, number) in REFUSED {
        let mut out = [7; 80];
        let mut needed = 99;
        let says = (code, false, false);
        let answer = built(
            rt.alloc(),
            query,
            says,
            section,
            text,
            &mut out,
            &mut needed,
        );
        assert!(rt; answer == number && needed == 0 && out == [7; 80]);
    }
}

/// What is answered by stream where a response is built, with a code, AA and RA.
fn built(
    alloc: Global,
    query: &[u8],
    says: (u16, bool, bool),
    section: Section,
    text: &[u8],
    out: &mut [u8],
    needed: &mut usize,
) -> i64 {
    let (code, authoritative, recursion_available) = says;
    let (answers, authorities, additionals): (&[u8], &[u8], &[u8]) = match section {
        Section::Answer => (text, b"", b""),
        Section::Authority => (b"", text, b""),
        Section::Additional => (b"", b"", text),
    };
    fuzsbanel_build_response(
        alloc,
        query,
        code,
        authoritative,
        recursion_available,
        answers,
        authorities,
        additionals,
        0,
        true,
        out,
        needed,
    )
}

/// 29 bytes before the addresses, and 16 for each: so many are sent, and whether TC is set. A datagram has 512 bytes at
/// least, and what its server and the query's EDNS say at most, of which an OPT record takes 11.
const LIMITS: &[(&'static [u8], u16, bool, i64, bool)] = &[
    (QUERY, 0, true, 29 + 16 * 60, false),
    (QUERY, 1232, false, 29 + 16 * 30, true),
    (QUERY, 0, false, 29 + 16 * 30, true),
    (WITH_EDNS, 1232, false, 29 + 16 * 35 + 11, true),
    (WITH_EDNS, 550, false, 29 + 16 * 32, true),
    (WITH_EDNS, 0, true, 29 + 16 * 60 + 11, false),
];

#[test]
fn responses_are_cut(rt: HostRuntime) -> Result<(), AllocError> {
    let mut text = String::new(rt.alloc());
    for i in 0..60 {
        writeln!(text, "www.example 60 A 192.0.2.{i}")?;
    }
    let mut out = [0; 1024];
    let mut needed = 0;
    let mut is_right = true;
    for &(query, most, by_stream, answer, is_cut) in LIMITS {
        let answered = fuzsbanel_build_response(
            rt.alloc(),
            query,
            0,
            false,
            false,
            text.as_bytes(),
            b"",
            b"",
            most,
            by_stream,
            &mut out,
            &mut needed,
        );
        let truncated = out[2] & 2 == 2;
        if answered != answer || truncated != is_cut {
            is_right = false;
        }
    }
    drop(text);
    assert!(rt; is_right);
    Ok(())
}

#[test]
fn questions_without_room_are_refused(rt: HostRuntime) -> Result<(), AllocError> {
    // 100 questions for `a.`, which are 7 bytes and then 6 each
    let mut query = Vec::from_slice(rt.alloc(), b"\0\x09\x01\0\0\x64\0\0\0\0\0\0")?;
    for _ in 0..100 {
        query.extend_from_slice(b"\x01a\0\0\x01\0\x01")?;
    }
    let mut out = [0; 1024];
    let mut needed = 0;
    let rows: &[(bool, i64)] = &[(false, -2), (true, 12 + 7 + 99 * 6)];
    let mut is_right = true;
    for &(by_stream, answer) in rows {
        let answered = fuzsbanel_build_response(
            rt.alloc(),
            &query,
            1,
            false,
            false,
            b"",
            b"",
            b"",
            512,
            by_stream,
            &mut out,
            &mut needed,
        );
        if answered != answer {
            is_right = false;
        }
    }
    drop(query);
    assert!(rt; is_right);
    Ok(())
}
