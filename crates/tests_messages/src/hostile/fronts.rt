//! Every front of a message.

use super::fault;
use base::ProtoError;
use std::alloc::Global;
use test_tools::bytes::decode;

/// A response with a question and an address, of 49 bytes, whose data begins at 45.
const WHOLE: &str =
    "1000 8180 0001 0001 0000 0000 03777777 076578616D706C65 03636F6D 00 0001 0001 C00C 0001 0001 00000002 0004 5DB8D70E";

/// Whether each front is refused as it must be: within a field, within the four bytes of data, not at all.
fn fronts_are_judged(alloc: Global, wire: &[u8]) -> bool {
    let mut right = wire.len() == 49 && fault(alloc, wire) == (0, 0, 0);
    for end in 0..wire.len() {
        let wanted = if end < 45 {
            (4, 0, 0)
        } else {
            (7, end.saturating_sub(45), 4)
        };
        right = fault(alloc, &wire[..end]) == wanted && right;
    }
    right
}

#[test]
fn every_front_of_a_response(rt: HostRuntime) -> Result<(), ProtoError> {
    let wire = decode(rt.alloc(), WHOLE)?;
    let are_judged = fronts_are_judged(rt.alloc(), &wire);
    drop(wire);
    assert!(rt; are_judged);
    Ok(())
}
