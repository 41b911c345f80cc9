//! Headers, questions, EDNS and messages.

mod built;
mod edns;
mod header;
pub(super) mod message;
pub(super) mod query;
mod values;

use op::{Flags, Header, HeaderCounts, MessageType, Metadata, OpCode, ResponseCode};
use std::alloc::Global;
use std::cmp::Ordering::{self, Greater, Less};
use test_tools::forms::has_text;
use test_tools::hashes::hash_alike;
use test_tools::texts::all_print;

/// The operations: number, code and text.
const OP_CODES: &[(u8, OpCode, &'static str)] = &[
    (0, OpCode::Query, "QUERY"),
    (1, OpCode::Unknown(1), "Unknown opcode (1)"),
    (2, OpCode::Status, "STATUS"),
    (3, OpCode::Unknown(3), "Unknown opcode (3)"),
    (4, OpCode::Notify, "NOTIFY"),
    (5, OpCode::Update, "UPDATE"),
    (6, OpCode::Unknown(6), "Unknown opcode (6)"),
    (15, OpCode::Unknown(15), "Unknown opcode (15)"),
    (255, OpCode::Unknown(255), "Unknown opcode (255)"),
];

/// Whether the first has this order before the second.
fn has_order<T: PartialOrd>(first: &T, second: &T, order: Ordering) -> bool {
    first.partial_cmp(second) == Some(order)
}

#[test]
fn op_codes(rt: HostRuntime) {
    for &(number, code, text) in OP_CODES {
        let is_numbered = OpCode::from_u8(number) == code && u8::from(code) == number;
        assert!(rt;
            is_numbered && has_text(rt.alloc(), &code, text),
            "{number}"
        );
    }
}

#[test]
fn op_codes_and_message_types_in_order(rt: HostRuntime) {
    assert!(rt;
        has_order(&OpCode::Update, &OpCode::Notify, Greater)
            && has_order(&OpCode::Update, &OpCode::Unknown(0), Less)
            && has_order(&MessageType::Query, &MessageType::Response, Less)
    );
    assert!(rt;
        hash_alike(&OpCode::from_u8(5), &OpCode::Update)
            && !hash_alike(&OpCode::Update, &OpCode::Unknown(5))
            && !hash_alike(&MessageType::Query, &MessageType::Response)
    );
    assert!(rt; all_print(rt.alloc(), &[MessageType::Query, MessageType::Response]));
}

/// The response codes that have a name and a number of their own: number, code, name and text.
const CODES: &[(u16, ResponseCode, &'static str, &'static str)] = &[
    (0, ResponseCode::NoError, "NoError", "No Error"),
    (1, ResponseCode::FormErr, "FormErr", "Form Error"),
    (2, ResponseCode::ServFail, "ServFail", "Server Failure"),
    (3, ResponseCode::NXDomain, "NXDomain", "Non-Existent Domain"),
    (4, ResponseCode::NotImp, "NotImp", "Not Implemented"),
    (5, ResponseCode::Refused, "Refused", "Query Refused"),
    (
        6,
        ResponseCode::YXDomain,
        "YXDomain",
        "Name should not exist",
    ),
    (
        7,
        ResponseCode::YXRRSet,
        "YXRRSet",
        "RR Set should not exist",
    ),
    (8, ResponseCode::NXRRSet, "NXRRSet", "RR Set does not exist"),
    (9, ResponseCode::NotAuth, "NotAuth", "Not authorized"),
    (10, ResponseCode::NotZone, "NotZone", "Name not in zone"),
    (16, ResponseCode::BADSIG, "BADSIG", "TSIG Failure"),
    (17, ResponseCode::BADKEY, "BADKEY", "Key not recognized"),
    (
        18,
        ResponseCode::BADTIME,
        "BADTIME",
        "Signature out of time window",
    ),
    (19, ResponseCode::BADMODE, "BADMODE", "Bad TKEY mode"),
    (20, ResponseCode::BADNAME, "BADNAME", "Duplicate key name"),
    (
        21,
        ResponseCode::BADALG,
        "BADALG",
        "Algorithm not supported",
    ),
    (22, ResponseCode::BADTRUNC, "BADTRUNC", "Bad truncation"),
    (
        23,
        ResponseCode::BADCOOKIE,
        "BADCOOKIE",
        "Bad server cookie",
    ),
];

/// Numbers of codes without a name.
const UNKNOWN: &[u16] = &[11, 15, 24, 4095, 4097, 65535];

/// Whether this response code has this name, or none where it is empty, and this text.
fn is_called(alloc: Global, code: ResponseCode, name: &str, text: &str) -> bool {
    let is_named = code.name().unwrap_or("") == name && code.name().is_none() == name.is_empty();
    is_named && code.to_str() == text && has_text(alloc, &code, text)
}

/// Whether this is the response code of this number.
fn is_numbered(number: u16, code: ResponseCode) -> bool {
    let read: ResponseCode = number.into();
    read == code && u16::from(code) == number
}

#[test]
fn response_codes(rt: HostRuntime) {
    for &(number, code, name, text) in CODES {
        let is_called = is_called(rt.alloc(), code, name, text);
        assert!(rt; is_called && is_numbered(number, code), "{number}");
    }
}

#[test]
fn unknown_response_codes(rt: HostRuntime) {
    for &number in UNKNOWN {
        let code = ResponseCode::Unknown(number);
        let is_called = is_called(rt.alloc(), code, "", "Unknown response code");
        assert!(rt; is_called && is_numbered(number, code), "{number}");
    }
}

/// BADVERS shares its number with BADSIG, and is written only.
#[test]
fn response_codes_in_order(rt: HostRuntime) {
    let bad_version = ResponseCode::BADVERS;
    let is_called = is_called(rt.alloc(), bad_version, "BADVERS", "Bad option versions");
    assert!(rt; u16::from(bad_version) == 16 && is_called);
    assert!(rt;
        has_order(&bad_version, &ResponseCode::BADSIG, Less)
            && has_order(&ResponseCode::Unknown(0), &ResponseCode::BADCOOKIE, Greater)
            && has_order(&ResponseCode::Unknown(1), &ResponseCode::Unknown(2), Less)
    );
}

/// The low and the high part of a response code.
fn parts(code: ResponseCode) -> (u8, u8) {
    (code.low(), code.high())
}

#[test]
fn parts_of_response_codes(rt: HostRuntime) {
    assert!(rt;
        parts(ResponseCode::BADCOOKIE) == (7, 1)
            && parts(ResponseCode::Unknown(0xABCD)) == (0x0D, 0xBC)
    );
    assert!(rt;
        ResponseCode::from_low(0xF3) == ResponseCode::NXDomain
            && ResponseCode::from(1, 0xF7) == ResponseCode::BADCOOKIE
            && ResponseCode::from(0xFF, 0x0F) == ResponseCode::Unknown(4095)
    );
    assert!(rt; ResponseCode::default() == ResponseCode::NoError);
    assert!(rt;
        hash_alike(&ResponseCode::from(1, 3), &ResponseCode::BADMODE)
            && !hash_alike(&ResponseCode::BADVERS, &ResponseCode::BADSIG)
    );
    // metadata takes the high part over
    let mut metadata = Metadata::new(1, MessageType::Response, OpCode::Query);
    metadata.response_code = ResponseCode::NXDomain;
    metadata.merge_response_code(1);
    assert!(rt; metadata.response_code == ResponseCode::BADMODE);
    metadata.merge_response_code(0);
    assert!(rt; metadata.response_code == ResponseCode::NXDomain);
}

#[test]
fn texts_of_flags(rt: HostRuntime) {
    let mut flags = Flags {
        authoritative: true,
        truncation: true,
        recursion_desired: true,
        recursion_available: true,
        authentic_data: true,
        checking_disabled: true,
    };
    assert!(rt; has_text(rt.alloc(), &flags, "RD,CD,TC,AA,RA,AD"));
    flags.recursion_desired = false;
    flags.truncation = false;
    assert!(rt; has_text(rt.alloc(), &flags, "CD,AA,RA,AD"));
}

/// A response takes over id, operation, RD and CD, and nothing else.
#[test]
fn responses(rt: HostRuntime) {
    let mut request = Metadata::new(7, MessageType::Query, OpCode::Notify);
    request.authoritative = true;
    request.truncation = true;
    request.recursion_desired = true;
    request.recursion_available = true;
    request.authentic_data = true;
    request.checking_disabled = true;
    request.response_code = ResponseCode::Refused;
    let response = Metadata::response_from_request(&request);
    assert!(rt; has_text(rt.alloc(), &response, "7:RESPONSE:RD,CD:NoError:NOTIFY"));
    assert!(rt; request.flags().authoritative && !response.flags().authoritative);
}

/// The header of a response with this id and number of questions.
fn header_of(id: u16, queries: u16) -> Header {
    Header {
        metadata: Metadata::new(id, MessageType::Response, OpCode::Query),
        counts: HeaderCounts {
            queries,
            answers: 0,
            authorities: 0,
            additionals: 0,
        },
    }
}

#[test]
fn headers(rt: HostRuntime) {
    let header_of_two = header_of(1, 2);
    let metadata = header_of_two.metadata;
    let empty = Header {
        metadata,
        counts: HeaderCounts::default(),
    };
    assert!(rt; empty == empty && has_order(&empty, &header_of_two, Less));
    assert!(rt; empty.counts.additionals == 0);
    assert!(rt;
        hash_alike(&header_of_two, &header_of(1, 2))
            && !hash_alike(&header_of_two, &header_of(2, 2))
            && !hash_alike(&header_of_two, &header_of(1, 3))
    );
    assert!(rt; hash_alike(&metadata.flags(), &header_of(2, 3).metadata.flags()));
}
