//! The callers that docs/CALLING.md quotes.

use crate::updates::{EXAMPLE, LONG_ZONE, name, zone_and_addresses};
use base::ProtoError;
use base_data::{A, RData};
use examples::answer::respond;
use examples::cache::cache_entry;
use examples::update::create_in;
use examples::zone::check;
use op::ResponseCode;
use rr::Record;
use std::alloc::Global;
use std::net::Ipv4Addr;
use std::test::Fail;
use test_tools::bytes::decode;
use zones::sets;

/// The answer to `www.example.com A`.
fn answers(alloc: Global) -> Result<Vec<Record>, Fail> {
    let owner = name(alloc, "www.example.com.")?;
    let data = RData::A(A::new(Ipv4Addr::new(93, 184, 215, 14)));
    Ok(vec![in alloc; Record::from_rdata(owner, 2, data)]?)
}

/// Whether a query in hexadecimal is answered by such a response.
fn responds(alloc: Global, query: &str, response: &str) -> Result<bool, Fail> {
    let received = decode(alloc, query)?;
    let wanted = decode(alloc, response)?;
    let answers = answers(alloc)?;
    let sent = respond(alloc, &received, answers)?;
    Ok(sent.is_some_and(|sent| *sent == *wanted))
}

/// Whether nothing is sent for a message in hexadecimal.
fn is_silent(alloc: Global, message: &str) -> Result<bool, Fail> {
    let received = decode(alloc, message)?;
    Ok(respond(alloc, &received, answers(alloc)?)?.is_none())
}

/// The query `www.example.com A` and the response, whose answer's owner is a pointer to the
/// question; then both with EDNS.
const ANSWERED: &[(&'static str, &'static str)] = &[
    (
        "1000 0100 0001 0000 0000 0000 03777777 076578616D706C65 03636F6D 00 0001 0001",
        "1000 8100 0001 0001 0000 0000 03777777 076578616D706C65 03636F6D 00 0001 0001 \
         C00C 0001 0001 00000002 0004 5DB8D70E",
    ),
    (
        "1000 0110 0001 0000 0000 0001 03777777 076578616D706C65 03636F6D 00 0001 0001 \
         00 0029 04D0 00000000 0000",
        "1000 8110 0001 0001 0000 0001 03777777 076578616D706C65 03636F6D 00 0001 0001 \
         C00C 0001 0001 00000002 0004 5DB8D70E 00 0029 0200 00000000 0000",
    ),
];

#[test]
fn a_query_is_answered(rt: HostRuntime) -> Result<(), Fail> {
    for &(query, response) in ANSWERED {
        assert!(rt; responds(rt.alloc(), query, response)?, "{query}");
    }
    Ok(())
}

/// A response, a status query (RFC 1035, 4.1.1), a notice (RFC 1996, 3), an update (RFC 2136, 2.2), and a query of EDNS
/// version 1 (RFC 6891, 6.1.3).
const NOT_ANSWERED: &[&'static str] = &[
    "1000 8100 0001 0000 0000 0000 03777777 076578616D706C65 03636F6D 00 0001 0001",
    "1000 1000 0001 0000 0000 0000 03777777 076578616D706C65 03636F6D 00 0001 0001",
    "1000 2000 0001 0000 0000 0000 076578616D706C65 00 0006 0001",
    "1000 2800 0001 0000 0000 0000 076578616D706C65 00 0006 0001",
    "1000 0110 0001 0000 0000 0001 03777777 076578616D706C65 03636F6D 00 0001 0001 \
     00 0029 04D0 00010000 0000",
];

#[test]
fn queries_alone_are_answered(rt: HostRuntime) -> Result<(), Fail> {
    for &message in NOT_ANSWERED {
        assert!(rt; is_silent(rt.alloc(), message)?, "{message}");
    }
    Ok(())
}

/// A response with an answer of TTL 2, and one with an SOA of TTL 3600 and of minimum 300 among its authorities.
const FOUND: &str = "1000 8180 0001 0001 0000 0000 03777777 076578616D706C65 00 0001 0001 \
     C00C 0001 0001 00000002 0004 5DB8D70E";

const ABSENT: &str = "2000 8183 0001 0000 0001 0000 03777777 076578616D706C65 00 0001 0001 \
     C010 0006 0001 00000E10 0026 026E73 C010 0A686F73746D6173746572 C010 \
     00000001 00001C20 00000E10 00127500 0000012C";

/// The TTL of the first answer, and the negative TTL, `seconds` seconds after the response.
fn ttls_after(
    alloc: Global,
    response: &str,
    seconds: u32,
) -> Result<(Option<u32>, Option<u32>), ProtoError> {
    let entry = cache_entry(alloc, decode(alloc, response)?, seconds)?;
    let said = (
        entry.answers.first().map(|answer| answer.ttl),
        entry.negative_ttl,
    );
    drop(entry);
    Ok(said)
}

/// A response, seconds, and both TTLs then.
const RUN_DOWN: &[(&'static str, u32, (Option<u32>, Option<u32>))] = &[
    (FOUND, 1, (Some(1), None)),
    (FOUND, 3, (Some(0), None)),
    (ABSENT, 60, (None, Some(240))),
    (ABSENT, 400, (None, Some(0))),
];

#[test]
fn ttls_run_down(rt: HostRuntime) -> Result<(), Fail> {
    for &(response, seconds, wanted) in RUN_DOWN {
        assert!(rt;
            ttls_after(rt.alloc(), response, seconds)? == wanted,
            "{seconds}"
        );
    }
    Ok(())
}

/// The SOA of a zone and its name server, and an address of `www` after them.
const SOA_AND_NS: &str = "@ 3600 SOA ns hostmaster 1 2 3 4 5\n@ NS ns\n";

const WITH_WWW: &str = "@ 3600 SOA ns hostmaster 1 2 3 4 5\n@ NS ns\nwww 300 A 192.0.2.2\n";

/// The code and the number of sets where an address of `www` is created in the zone of this name and text.
fn creates(alloc: Global, zone: &str, text: &str) -> Result<(ResponseCode, usize), Fail> {
    let (origin, set) = zone_and_addresses(alloc, zone, 60, 1)?;
    let (code, sets) = create_in(alloc, &origin, text, set)?;
    Ok((code, sets.len()))
}

#[test]
fn a_set_is_created_once(rt: HostRuntime) -> Result<(), Fail> {
    for &(zone, text, wanted) in &[
        (EXAMPLE, SOA_AND_NS, (ResponseCode::NoError, 3)),
        (EXAMPLE, WITH_WWW, (ResponseCode::YXRRSet, 3)),
        (LONG_ZONE, SOA_AND_NS, (ResponseCode::NoError, 3)),
        (LONG_ZONE, WITH_WWW, (ResponseCode::YXRRSet, 3)),
    ] {
        assert!(rt; creates(rt.alloc(), zone, text)? == wanted, "{zone} {text}");
    }
    Ok(())
}

/// How many sets the text of a zone named `example.` has, or the number of its refusal.
fn counted(alloc: Global, text: &str) -> Result<Result<usize, u8>, Fail> {
    let origin = name(alloc, "example.")?;
    match sets(alloc, Some(origin), text) {
        Ok(count) => Ok(Ok(count)),
        Err(e) => Ok(Err(e.number())),
    }
}

#[test]
fn sets_are_counted(rt: HostRuntime) -> Result<(), Fail> {
    for &(text, wanted) in &[
        (SOA_AND_NS, Ok(2)),
        ("www 300 A 192.0.2\n", Err(23)),
        ("$X\n", Err(18)),
        ("$INCLUDE f\n", Err(20)),
    ] {
        let origin = name(rt.alloc(), "example.")?;
        assert!(rt; check(rt.alloc(), Some(origin), text) == wanted, "{text}");
        assert!(rt; counted(rt.alloc(), text)? == wanted, "{text}");
    }
    Ok(())
}
