ghost use Rattle.std.specs.Prelude.{◌≡◌};

pub(crate) mod parts;
mod reading;
mod refusals;

use crate::hostile::fault;
use crate::messages::values::signature;
use base::{BinEncoder, ProtoError};
use base_data::TSIG;
use op::message::{EmitAndCount, emit_message_parts};
use op::{Edns, Header, MessageType, Metadata, OpCode};
use rr::Record;
use std::alloc::Global;

/// A part that answers as it is told, and writes nothing.
#[derive(Clone, Copy, Drop)]
struct Careless {
    count: usize,
    is_cut: bool,
}

impl EmitAndCount for Careless {
    ghost use Rattle.std.specs.Prelude.{⊤};

    ghost can_emit = { λ _. ⊤ };

    ghost emits = { λ _ a _ _ b. b ≡ a };

    fn emit(&mut self, _encoder: &mut BinEncoder<'_>) -> Result<usize, ProtoError> {
        if self.is_cut {
            Err(ProtoError::NotAllRecordsWritten { count: self.count })
        } else {
            Ok(self.count)
        }
    }
}

/// Writes a message of these parts, with this EDNS and this signature.
fn emit_parts(
    bytes: &mut Vec<u8>,
    parts: [Careless; 4],
    edns: Option<&Edns>,
    signature: Option<&Record<TSIG>>,
) -> Result<Header, ProtoError> {
    let metadata = Metadata::new(1, MessageType::Query, OpCode::Query);
    let [mut queries, mut answers, mut authorities, mut additionals] = parts;
    let mut encoder = BinEncoder::new(bytes);
    emit_message_parts(
        &metadata,
        &mut queries,
        &mut answers,
        &mut authorities,
        &mut additionals,
        edns,
        signature,
        &mut encoder,
    )
}

/// What comes of such a message, with EDNS and a signature where they are asked for: the number of the refusal, how many
/// items were written before one that had no room, or how many answers are counted, and how many additional records.
fn outcome(
    alloc: Global,
    parts: [Careless; 4],
    has_edns: bool,
    is_signed: bool,
) -> (u8, usize, u16) {
    let signature = match signature(alloc) {
        Ok(signature) => signature,
        Err(_) => return (3, 0, 0),
    };
    let edns = Edns::new(alloc);
    let with_edns = if has_edns { Some(&edns) } else { None };
    let with_signature: Option<&Record<TSIG>> = if is_signed { Some(&signature) } else { None };
    let mut bytes = Vec::new(alloc);
    let answer = emit_parts(&mut bytes, parts, with_edns, with_signature);
    drop(bytes);
    drop(edns);
    drop(signature);
    let outcome = match &answer {
        Ok(header) => {
            let counts = header.counts;
            (0, usize::from(counts.answers), counts.additionals)
        }
        Err(ProtoError::NotAllRecordsWritten { count }) => (2, *count, 0),
        Err(e) => (e.number(), 0, 0),
    };
    drop(answer);
    outcome
}

/// A part that answers a count, as one that is cut if `is_cut` says so.
fn part_of(count: usize, is_cut: bool) -> Careless {
    let is_cut = is_cut && count > 0;
    Careless { count, is_cut }
}

/// Parts that answer these counts; where `is_cut` says so, those that count something are cut.
fn parts_of(
    [queries, answers, authorities, additionals]: [usize; 4],
    is_cut: bool,
) -> [Careless; 4] {
    [
        part_of(queries, is_cut),
        part_of(answers, is_cut),
        part_of(authorities, is_cut),
        part_of(additionals, is_cut),
    ]
}

/// What the parts count and whether they are cut, whether there are EDNS and a signature, and what comes of them.
const OUTCOMES: &[([usize; 4], bool, bool, bool, (u8, usize, u16))] = &[
    // counts have two bytes
    ([0, 65_536, 0, 0], false, false, false, (14, 0, 0)),
    ([65_536, 65_536, 0, 0], false, false, false, (14, 0, 0)),
    ([0, 0, 65_536, 0], true, false, false, (14, 0, 0)),
    ([65_536, 0, 0, 0], false, false, false, (15, 0, 0)),
    // EDNS is counted, and the signature too
    ([0, 0, 0, 65_535], false, true, false, (14, 0, 0)),
    ([0, 0, 0, 65_535], false, false, false, (0, 0, 65_535)),
    ([0, 0, 0, 65_533], false, true, true, (0, 0, 65_535)),
    ([0, 0, 0, 65_534], false, true, true, (14, 0, 0)),
    // questions without room are refused as they say
    ([7, 0, 0, 0], true, false, false, (2, 7, 0)),
    ([0, 7, 0, 0], false, false, false, (0, 7, 0)),
];

#[test]
fn what_parts_count_stands_in_the_header(rt: HostRuntime) {
    for (i, &(counts, is_cut, has_edns, is_signed, wanted)) in OUTCOMES.iter().enumerate() {
        let parts = parts_of(counts, is_cut);
        let outcome = outcome(rt.alloc(), parts, has_edns, is_signed);
        assert!(rt; outcome == wanted, "row {i}");
    }
}

#[test]
fn what_was_not_written_is_not_read(rt: HostRuntime) {
    let mut bytes = Vec::new(rt.alloc());
    let answer = emit_parts(&mut bytes, parts_of([0, 7, 0, 0], false), None, None);
    drop(answer);
    let (number, _, _) = fault(rt.alloc(), &bytes);
    drop(bytes);
    assert!(rt; number == 4);
}
