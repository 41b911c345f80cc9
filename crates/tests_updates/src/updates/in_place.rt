//! Updates of a zone's sets where they are: they become those that `apply_update` answers, and stay where an update is
//! refused.

use crate::updates::alternating::{turns, zone};
use crate::updates::applied::{LEFT, LISTED, SERVERS, THREE, TTLS};
use crate::updates::name;
use base::DNSClass;
use examples::refusal::Refusal;
use op::{Message, ResponseCode};
use op_use::{apply_update, update_in_place};
use parsed_zone::are_sets_in;
use std::alloc::Global;
use std::collections::BTreeMap;
use std::test::Fail;
use test_tools::bytes::decode;
use txt::Parser;

/// The answer to an update of the text's zone where it is, if the sets are then those that `apply_update` answers, and
/// with any code but NoError those that were there. Where it is refused memory, it is none if a set is another then.
fn answer(alloc: Global, text: &str, update: &[u8]) -> Result<Option<ResponseCode>, Refusal> {
    let origin = name(alloc, "example.")?;
    let includes = BTreeMap::new(alloc);
    let (name, mut sets) = Parser::new(alloc, text, &includes, Some(origin)).parse()?;
    if !are_sets_in(&sets) {
        return Err(Refusal::Class);
    }
    let message = Message::from_vec(alloc, update)?;
    let before = sets.clone()?;
    let (code, after) = apply_update(alloc, &sets, &name, DNSClass::IN, &message)?;
    let in_place = match update_in_place(alloc, &mut sets, &name, DNSClass::IN, &message) {
        Ok(code) => code,
        Err(refusal) if sets == before => return Err(Refusal::from(refusal)),
        Err(_) => return Ok(None),
    };
    let is_same = in_place == code && sets == after;
    let stays = code == ResponseCode::NoError || sets == before;
    Ok((is_same && stays).then_some(in_place))
}

/// The same of an update that a text in parts spells.
fn answer_to(alloc: Global, text: &str, update: &[&str]) -> Result<Option<ResponseCode>, Refusal> {
    let spelled = update.concat(alloc)?;
    let bytes = decode(alloc, &spelled)?;
    answer(alloc, text, &bytes)
}

#[test]
fn an_update_in_place_makes_what_one_of_a_copy_makes(rt: HostRuntime) -> Result<(), Fail> {
    for &(text, update, _) in TTLS {
        assert!(rt;
            answer_to(rt.alloc(), text, update)? == Some(ResponseCode::NoError),
            "{update:?}"
        );
    }
    for &(update, wanted) in LISTED {
        assert!(rt;
            answer_to(rt.alloc(), THREE, update)? == Some(wanted),
            "{update:?}"
        );
    }
    for &(update, _) in LEFT {
        assert!(rt;
            answer_to(rt.alloc(), SERVERS, update)? == Some(ResponseCode::NoError),
            "{update:?}"
        );
    }
    Ok(())
}

/// The sections up to the zone's name, the zone, and an address of `www.example.` that is added.
const UPDATES_1: &str = "0007 2800 0001 0000 0001 0000";

const UPDATES_2: &str = "0007 2800 0001 0000 0002 0000";

const ASKS_1: &str = "0007 2800 0001 0001 0001 0000";

const EXAMPLE: &str = " 076578616D706C65 00 0006 0001";

const ADDS: &str = " 03777777 C00C 0001 0001 0000003C 0004 C0000203";

/// Updates, each refused by another step, and their codes.
const REFUSED: &[(&'static [&'static str], ResponseCode)] = &[
    // a type that isn't supported
    (
        &[UPDATES_2, EXAMPLE, ADDS, " C00C 0006 00FF 00000000 0000"],
        ResponseCode::NotImp,
    ),
    // the zone section: its type, and the zone
    (
        &[UPDATES_1, " 076578616D706C65 00 0001 0001", ADDS],
        ResponseCode::FormErr,
    ),
    (
        &[UPDATES_1, " 056F74686572 00 0006 0001", ADDS],
        ResponseCode::NotAuth,
    ),
    // a prerequisite that isn't met, and one outside the zone
    (
        &[ASKS_1, EXAMPLE, " 016E C00C 0001 00FF 00000000 0000", ADDS],
        ResponseCode::NXRRSet,
    ),
    (
        &[
            ASKS_1,
            EXAMPLE,
            " 03777777 C00C 0001 00FE 00000000 0000",
            ADDS,
        ],
        ResponseCode::YXRRSet,
    ),
    (
        &[ASKS_1, EXAMPLE, " 016E C00C 00FF 00FF 00000000 0000", ADDS],
        ResponseCode::NXDomain,
    ),
    (
        &[
            ASKS_1,
            EXAMPLE,
            " 03777777 C00C 00FF 00FE 00000000 0000",
            ADDS,
        ],
        ResponseCode::YXDomain,
    ),
    (
        &[ASKS_1, EXAMPLE, " 016E 00 0001 00FF 00000000 0000", ADDS],
        ResponseCode::NotZone,
    ),
    // a second update outside the zone, and one of a class of its own
    (
        &[
            UPDATES_2,
            EXAMPLE,
            ADDS,
            " 016E 00 0001 0001 00000000 0004 C0000203",
        ],
        ResponseCode::NotZone,
    ),
    (
        &[
            UPDATES_2,
            EXAMPLE,
            ADDS,
            " 016E C00C 0001 0003 00000000 0004 C0000203",
        ],
        ResponseCode::FormErr,
    ),
];

#[test]
fn a_refused_update_leaves_each_set(rt: HostRuntime) -> Result<(), Fail> {
    for &(update, wanted) in REFUSED {
        assert!(rt;
            answer_to(rt.alloc(), THREE, update)? == Some(wanted),
            "{update:?}"
        );
    }
    Ok(())
}

/// Updates of several owners: new names, one of which has memory of its own, and names whose sets all go.
const SEVERAL: &[&'static [&'static str]] = &[
    // a new name, a new type, an alias in the place of addresses, and a name that goes
    &[
        "0007 2800 0001 0000 0005 0000",
        EXAMPLE,
        ADDS,
        " 1D612D6E616D652D776974682D6D656D6F72792D6F662D6974732D6F776E C00C 0001 0001 0000003C 0004 C0000204",
        " 03777777 C00C 0010 0001 0000003C 0002 0161",
        " 03667470 C00C 0001 00FF 00000000 0000",
        " 03667470 C00C 0005 0001 0000003C 0002 C00C",
    ],
    // all of the zone's own name, but for what stays there; and all of another, twice
    &[
        "0007 2800 0001 0000 0003 0000",
        EXAMPLE,
        " C00C 00FF 00FF 00000000 0000",
        " 03777777 C00C 00FF 00FF 00000000 0000",
        " 03777777 C00C 00FF 00FF 00000000 0000",
    ],
    // an alias that comes, keeps an address out, and goes again
    &[
        "0007 2800 0001 0000 0004 0000",
        EXAMPLE,
        " 016E C00C 0005 0001 0000003C 0002 C00C",
        " 016E C00C 0001 0001 0000003C 0004 C0000203",
        " 016E C00C 0005 00FF 00000000 0000",
        " 016E C00C 0001 0001 0000003C 0004 C0000204",
    ],
];

/// Whether these are made in place as of a copy.
pub(crate) fn are_several_made(alloc: Global) -> Result<bool, Refusal> {
    for &update in SEVERAL {
        if answer_to(alloc, THREE, update)? != Some(ResponseCode::NoError) {
            return Ok(false);
        }
    }
    Ok(true)
}

#[test]
fn several_owners_are_updated(rt: HostRuntime) -> Result<(), Fail> {
    assert!(rt; are_several_made(rt.alloc())?);
    Ok(())
}

/// The answer to the update of one large set, which deletes and adds in turn.
fn large(alloc: Global) -> Result<Option<ResponseCode>, Refusal> {
    let text = zone(alloc)?;
    let (update, _) = turns(alloc)?;
    answer(alloc, &text, update.as_slice())
}

#[test]
fn a_large_set_is_updated(rt: HostRuntime) -> Result<(), Fail> {
    assert!(rt; large(rt.alloc())? == Some(ResponseCode::NoError));
    Ok(())
}
