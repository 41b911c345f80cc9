//! Headers on the wire.

use base::{BinEncodable, BinEncoder, DecodeError, EncodedSize, ProtoError};
use op::{Header, HeaderCounts, MessageType, Metadata, OpCode, ResponseCode};
use std::alloc::Global;
use test_tools::forms::{has_text, is_cut, is_read_as, is_read_to, is_written_back, read};

/// The bytes of a header, and the header.
const BYTES: [u8; 12] = [
    0x01, 0x10, 0xAA, 0x83, 0x88, 0x77, 0x66, 0x55, 0x44, 0x33, 0x22, 0x11,
];

/// The header that these bytes are.
fn header() -> Header {
    let mut metadata = Metadata::new(272, MessageType::Response, OpCode::Update);
    metadata.truncation = true;
    metadata.recursion_available = true;
    metadata.response_code = ResponseCode::NXDomain;
    Header {
        metadata,
        counts: HeaderCounts {
            queries: 34935,
            answers: 26197,
            authorities: 17459,
            additionals: 8721,
        },
    }
}

/// Whether the header's bytes are these.
fn is_filled_as(header: &Header, bytes: &[u8; 12]) -> bool {
    header.to_bytes().as_slice() == bytes.as_slice()
}

#[test]
fn headers_on_the_wire(rt: HostRuntime) {
    let is_read = is_read_as(rt.alloc(), &BYTES, &header());
    assert!(rt; is_read && is_read_to::<Header>(rt.alloc(), &BYTES, 12) && Header::LEN == 12);
    let is_written = is_written_back::<Header>(rt.alloc(), &BYTES);
    assert!(rt; is_written && is_filled_as(&header(), &BYTES));
    for len in 0..12usize {
        assert!(rt; is_cut::<Header>(rt.alloc(), &BYTES[..len]), "{len}");
    }
    // large codes are cut
    let mut metadata = Metadata::new(0, MessageType::Query, OpCode::Unknown(16));
    metadata.response_code = ResponseCode::BADVERS;
    let large = Header {
        metadata,
        counts: HeaderCounts::default(),
    };
    assert!(rt; is_filled_as(&large, &[0, 0, 0x80, 0, 0, 0, 0, 0, 0, 0, 0, 0]));
}

/// Whether a header with this id and these two bytes of codes and flags has this text, and is written with the same, but
/// for the reserved bit.
fn is_shown_as(alloc: Global, id: [u8; 2], high: u8, low: u8, text: &str) -> bool {
    let bytes = [id[0], id[1], high, low, 0, 0, 0, 0, 0, 0, 0, 0];
    let written = [id[0], id[1], high, low & 0xBF, 0, 0, 0, 0, 0, 0, 0, 0];
    let found: Result<Header, DecodeError> = read(alloc, &bytes);
    let is_shown = match &found {
        Ok(found) => is_filled_as(found, &written) && has_text(alloc, &found.metadata, text),
        Err(_) => false,
    };
    drop(found);
    is_shown
}

/// The id, the bytes of codes and flags, and the text of the header.
const FLAGS: &[(u16, u8, u8, &'static str)] = &[
    (0, 0x80, 0x00, "0:RESPONSE::NoError:QUERY"),
    (0, 0x04, 0x00, "0:QUERY:AA:NoError:QUERY"),
    (0, 0x02, 0x00, "0:QUERY:TC:NoError:QUERY"),
    (0, 0x01, 0x00, "0:QUERY:RD:NoError:QUERY"),
    (0, 0x00, 0x80, "0:QUERY:RA:NoError:QUERY"),
    (0, 0x00, 0x20, "0:QUERY:AD:NoError:QUERY"),
    (0, 0x00, 0x10, "0:QUERY:CD:NoError:QUERY"),
    (0, 0x10, 0x00, "0:QUERY::NoError:STATUS"),
    (0, 0x20, 0x00, "0:QUERY::NoError:NOTIFY"),
    (0, 0x00, 0x05, "0:QUERY::Refused:QUERY"),
    (10, 0x00, 0x00, "10:QUERY::NoError:QUERY"),
    (272, 0xAA, 0x83, "272:RESPONSE:TC,RA:NXDomain:UPDATE"),
    (
        65535,
        0xF9,
        0x3F,
        "65535:RESPONSE:RD,CD,AD:Unknown(15):Unknown opcode (15)",
    ),
    // the reserved bit is dropped
    (0, 0x00, 0x40, "0:QUERY::NoError:QUERY"),
];

#[test]
fn flags_of_a_header(rt: HostRuntime) {
    for &(id, high, low, text) in FLAGS {
        assert!(rt;
            is_shown_as(rt.alloc(), id.to_be_bytes(), high, low, text),
            "{text}"
        );
    }
}

/// Whether no header is written after thirteen bytes of twenty-four, and none of its bytes.
fn is_refused(encoder: &mut BinEncoder<'_>) -> bool {
    encoder.set_max_size(24);
    let past = header().emit(encoder);
    let is_full = matches!(&past, Err(ProtoError::MaxBufferSizeExceeded));
    drop(past);
    is_full && encoder.len() == 13
}

/// Writes a header into its room, after the byte that follows it.
fn fill_in(encoder: &mut BinEncoder<'_>) -> Result<(), ProtoError> {
    let place = encoder.place::<Header>()?;
    encoder.emit(0xFF)?;
    encoder.replace(place, &header());
    Ok(())
}

#[test]
fn a_header_fills_its_room_or_is_refused(rt: HostRuntime) {
    let mut bytes = Vec::new(rt.alloc());
    let mut encoder = BinEncoder::new(&mut bytes);
    let filled = fill_in(&mut encoder);
    let is_filled = filled.is_ok();
    drop(filled);
    let is_refused = is_refused(&mut encoder);
    drop(encoder);
    let is_first = bytes.starts_with(&BYTES);
    drop(bytes);
    assert!(rt; is_filled && is_refused && is_first);
}
