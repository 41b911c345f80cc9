//! EDNS: its fields, its record and its options.

use crate::messages::values::edns_with_option;
use base::{ProtoError, RecordType};
use op::{DEFAULT_MAX_PAYLOAD_LEN, Edns, EdnsFlags};
use rr::Record;
use std::alloc::Global;
use test_tools::forms::{has_text, is_copied, is_written_as};

/// A number, and the flags that it stands for.
const FLAGS: &[(u16, bool, u16)] = &[
    (0, false, 0),
    (0x8001, true, 1),
    (0x7FFF, false, 0x7FFF),
    (0xFFFF, true, 0x7FFF),
];

#[test]
fn flags_are_read_and_written(rt: HostRuntime) {
    for &(number, dnssec_ok, z) in FLAGS {
        let flags = EdnsFlags::from(number);
        let is_read = flags == EdnsFlags { dnssec_ok, z };
        assert!(rt; is_read && u16::from(flags) == number, "{number}");
    }
    // there are fifteen bits beside DO
    let wide = EdnsFlags {
        dnssec_ok: false,
        z: 0x8001,
    };
    assert!(rt; u16::from(wide) == 1);
}

/// EDNS in which each field is set.
fn edns(alloc: Global) -> Edns {
    let mut edns = Edns::new(alloc);
    edns.set_rcode_high(1).set_version(0x40).set_dnssec_ok(true);
    edns.set_max_payload(0x8008);
    edns.flags_mut().z = 1;
    edns
}

/// The payload of EDNS that was told these numbers, one after another.
fn payload(alloc: Global, told: &[u16]) -> u16 {
    let mut edns = Edns::new(alloc);
    for number in told {
        edns.set_max_payload(*number);
    }
    let payload = edns.max_payload();
    drop(edns);
    payload
}

#[test]
fn the_fields_of_edns(rt: HostRuntime) {
    let edns = edns(rt.alloc());
    let text = "version: 64 dnssec_ok: true z_flags: 1 max_payload: 32776 opts: 0";
    let is_shown = has_text(rt.alloc(), &edns, text);
    let bytes = b"\x00\x00\x29\x80\x08\x01\x40\x80\x01\x00\x00";
    let is_written = is_written_as(rt.alloc(), &edns, bytes);
    let fields = (edns.rcode_high(), edns.version(), edns.flags().z);
    let is_copied = is_copied(edns);
    assert!(rt; is_shown && is_written && is_copied);
    assert!(rt; fields == (1, 64, 1));
    assert!(rt;
        payload(rt.alloc(), &[]) == 512
            && payload(rt.alloc(), &[100]) == 512
            && payload(rt.alloc(), &[100, DEFAULT_MAX_PAYLOAD_LEN]) == 1232
    );
}

#[test]
fn options_are_put_and_found(rt: HostRuntime) -> Result<(), ProtoError> {
    let edns = edns_with_option(rt.alloc())?;
    let is_found = edns.option(65001).is_some() && edns.option(65002).is_none();
    let len = edns.options().as_ref().len();
    let bytes = b"\x00\x00\x29\x02\x00\x00\x00\x00\x00\x00\x06\xFD\xE9\x00\x02\x01\x02";
    let is_written = is_written_as(rt.alloc(), &edns, bytes);
    drop(edns);
    assert!(rt; is_found && len == 1 && is_written);
    Ok(())
}

/// Whether the record of that EDNS is an OPT record of this TTL, of which the same EDNS is made.
fn is_of_record(edns: &Edns, ttl: u32) -> Result<bool, ProtoError> {
    let record = Record::try_from(edns)?;
    let is_opt = record.record_type() == RecordType::OPT && record.ttl == ttl;
    let again = Edns::try_from(&record);
    drop(record);
    let again = again?;
    let same = again == *edns;
    drop(again);
    Ok(is_opt && same)
}

#[test]
fn a_record_is_made_of_edns(rt: HostRuntime) -> Result<(), ProtoError> {
    let plain = edns(rt.alloc());
    let is_of_record_without = is_of_record(&plain, 0x0140_8001);
    drop(plain);
    let with_option = edns_with_option(rt.alloc())?;
    let is_of_record_with = is_of_record(&with_option, 0);
    drop(with_option);
    assert!(rt; is_of_record_without? && is_of_record_with?);
    Ok(())
}
