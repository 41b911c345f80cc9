//! A message walked whole, by one reader that keeps what pointers lead to, so that it costs what the bytes cost.

ghost use Rattle.std.specs.Prelude.{◌≡◌, ◌++◌, ◌*◌, ◌<◌, ◌≤◌, ◌^◌, drop, length};
ghost use Rattle.tasks.specs.Walk.{told};
ghost use Rattle.tasks.specs.WalkWhole.{walk_of};
ghost use Rattle.capi.specs.WalkWhole.{IsWalked, items_of, names_of, needed_for, octets_of, section_number};

use crate::answer::{NO_ROOM, number};
use base::Name;
use std::alloc::Global;
use tasks::refusal::Refusal;
use tasks::walk::RecordFound;
use tasks::walk::whole::{Section, Stop, walk};

/// A question or a record of a message, and its name in the caller's buffer of names.
#[repr(C)]
#[derive(Clone, Copy, Drop)]
pub struct Item {
    /// Where it stands, and its fields. A question has no TTL and no data: 0, and no bytes at the place after it.
    pub found: RecordFound,
    /// The place of its name in wire form among the names.
    pub name: usize,
    /// How many bytes that takes, 1 to 255.
    pub name_len: u8,
    /// Its section: 0 for questions, 1 for answers, 2 for authorities, 3 for additional records.
    pub section: u8,
}

/// How much room a walk takes.
#[repr(C)]
#[derive(Drop)]
pub struct RoomNeeded {
    /// How many items.
    pub items: usize,
    /// How many bytes of names.
    pub names: usize,
}

/// Walks the message that the bytes begin with: fills in an item for each question and each record that its header
/// counts, section after section, and each one's name in wire form, and answers the place after the last. OPT records
/// and signatures are records like others.
///
/// # Errors
///
/// The number of the first fault of the header, a question or a record: 4 to 8. What the caller has stays.
#[unsafe(no_mangle)]
pub extern "C" fn fuzsbanel_walk(
    alloc: Global,
    message: &[u8],
    items: &mut [Item],
    names: &mut [u8],
    needed: &mut RoomNeeded,
) -> i64
    ensures { IsWalked (told (walk_of message.now)) items.old items.new names.old names.new
        needed.new result }
{
    match walk(alloc, message) {
        Ok((stops, end)) => {
            *needed = room_for(&stops);
            if needed.items > items.len() || needed.names > names.len() {
                return NO_ROOM;
            }
            tell(&stops, items, names);
            number(Ok(end))
        }
        Err(e) => {
            *needed = RoomNeeded { items: 0, names: 0 };
            number(Err(Refusal::from(e)))
        }
    }
}

/// How much room these stops take.
fn room_for(stops: &[Stop]) -> RoomNeeded
    requires { length stops.now < 4 * 2 ^ 16 }
    ensures { result ≡ needed_for stops.now }
{
    let mut names = 0;
    for stop in stops {
        names += stop.name.as_wire().len() + 1;
    }
    RoomNeeded {
        items: stops.len(),
        names,
    }
}

/// Fills in an item for each of these stops, and its name.
fn tell(stops: &[Stop], items: &mut [Item], names: &mut [u8])
    requires room { length stops.now ≤ length items.old }
    requires names_room { length (names_of stops.now) ≤ length names.old }
    ensures items { items.new ≡ items_of 0 stops.now ++ drop (length stops.now) items.old }
    ensures names { names.new
        ≡ names_of stops.now ++ drop (length (names_of stops.now)) names.old }
{
    let mut at = 0;
    for (i, stop) in stops.iter().enumerate() {
        let name_len = put_name(&stop.name, &mut names[at..]);
        items[i] = Item {
            found: stop.found,
            name: at,
            name_len,
            section: section_number(stop.section),
        };
        at += usize::from(name_len);
    }
}

/// Puts a name in wire form at the front of a buffer, and answers how many bytes that takes, which are at most 255.
pub(crate) fn put_name(name: &Name, room: &mut [u8]) -> u8
    requires { length (octets_of name.now) ≤ length room.old }
    ensures put { room.new
        ≡ octets_of name.now ++ drop (length (octets_of name.now)) room.old }
    ensures len { result ≡ length (octets_of name.now) }
{
    let wire = name.as_wire();
    let front = &mut room[..wire.len()];
    front.copy_from_slice(wire);
    room[wire.len()] = 0;
    (wire.len() + 1) as u8
}

/// The number of a section.
fn section_number(section: Section) -> u8
    ensures { result ≡ section_number section }
{
    match section {
        Section::Question => 0,
        Section::Answer => 1,
        Section::Authority => 2,
        Section::Additional => 3,
    }
}
