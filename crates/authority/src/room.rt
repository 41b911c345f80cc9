//! How many bytes records take at most: those that they have without compression (RFC 1035, 3.2.1 and 4.1.4).

ghost use Rattle.base.specs.declared.limits.TheConstants.{MAX_NAME};
ghost use Rattle.base.specs.names.Labels.{plain_len};
ghost use Rattle.base_data.specs.Kinds.{plain_data};
ghost use Rattle.base_data.specs.OPT.{options_len};
ghost use Rattle.base.specs.names.Labels.{wire_of};
ghost use Rattle.authority.specs.Transfer.{room_beside as the_room};
ghost use Rattle.rr.specs.Record.{plain_record};
ghost use Rattle.std.specs.Prelude.{MatchOption, length, ◌+◌, ◌<◌, ◌≡◌, ◌≤◌};

use base::Name;
use base::limits::MAX_MESSAGE;
use base_data::rdata::EdnsOption;
use base_data::{RData, TXT};
use op::Query;
use rr::Record;

/// The bytes of a header and of EDNS without options (RFC 1035, 4.1.1; RFC 6891, 6.1.2).
const HEADER_AND_EDNS: usize = 23;

/// The bytes of a message that are left for answers beside the header, these questions and EDNS.
pub(crate) fn room_beside(questions: &[Query]) -> usize
    ensures { result ≡ the_room questions.now }
{
    let mut left = usize::from(MAX_MESSAGE) - HEADER_AND_EDNS;
    for question in questions {
        // the name, type and class
        left = left.saturating_sub(name_len(&question.name) + 4);
    }
    left
}

/// What is left of so much room after a record without compression, if it has room.
pub(crate) fn room_after(room: usize, entry: &Record) -> Option<usize>
    ensures { MatchOption result (room < plain_record entry.now)
        (λ left. left + plain_record entry.now ≡ room) }
{
    // the name, and type, class, TTL and the length of the data
    let after_fields = room_after_name(room, 10, &entry.name)?;
    room_after_data(after_fields, &entry.rdata)
}

/// The bytes of a name.
fn name_len(name: &Name) -> usize
    ensures len { result ≡ plain_len name.now.labels }
    ensures short { result ≤ MAX_NAME }
{
    name.as_wire().len() + 1
}

/// What is left after so many bytes and a name.
fn room_after_name(room: usize, before: u8, name: &Name) -> Option<usize>
    ensures { MatchOption result (room < before + plain_len name.now.labels)
        (λ left. left + (before + plain_len name.now.labels) ≡ room) }
{
    room.checked_sub(usize::from(before) + name_len(name))
}

/// What is left after bytes.
fn room_after_bytes(room: usize, bytes: &[u8]) -> Option<usize>
    ensures { MatchOption result (room < length bytes.now)
        (λ left. left + length bytes.now ≡ room) }
{
    room.checked_sub(bytes.len())
}

/// What is left after data.
fn room_after_data(room: usize, rdata: &RData) -> Option<usize>
    ensures { MatchOption result (room < plain_data rdata.now)
        (λ left. left + plain_data rdata.now ≡ room) }
{
    match rdata {
        RData::A(a) => room_after_bytes(room, &a.octets),
        RData::AAAA(aaaa) => room_after_bytes(room, &aaaa.octets),
        RData::NS(ns) => room_after_name(room, 0, ns.name()),
        RData::CNAME(cname) => room_after_name(room, 0, cname.name()),
        RData::PTR(ptr) => room_after_name(room, 0, ptr.name()),
        RData::ANAME(aname) => room_after_name(room, 0, aname.name()),
        RData::MX(mx) => room_after_name(room, 2, mx.exchange()),
        RData::SOA(soa) => room_after_name(room_after_name(room, 20, soa.mname())?, 0, soa.rname()),
        RData::SRV(srv) => room_after_name(room, 6, srv.target()),
        RData::TXT(txt) => room_after_strings(room, txt),
        RData::NULL(null) => room_after_bytes(room, null.bytes()),
        RData::OPT(opt) => room_after_options(room, opt.as_ref()),
        RData::TSIG(tsig) => room_after_bytes(room, tsig.bytes()),
        RData::Update0(_) => Some(room),
        RData::Unknown { rdata, .. } => room_after_bytes(room, rdata.bytes()),
    }
}

/// What is left after character strings.
fn room_after_strings(room: usize, txt: &TXT) -> Option<usize>
    ensures { MatchOption result (room < length (wire_of txt.now))
        (λ left. left + length (wire_of txt.now) ≡ room) }
{
    let mut left = room;
    for string in txt.strings() {
        left = left.checked_sub(1)?.checked_sub(string.len())?;
    }
    Some(left)
}

/// What is left after EDNS options.
fn room_after_options(room: usize, options: &[EdnsOption]) -> Option<usize>
    ensures { MatchOption result (room < options_len options.now)
        (λ left. left + options_len options.now ≡ room) }
{
    let mut left = room;
    for option in options {
        left = left.checked_sub(4)?.checked_sub(option.bytes().len())?;
    }
    Some(left)
}
