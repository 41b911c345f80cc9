//! Where zone text is refused, and for what (RFC 1035, 5.1).

ghost use Rattle.std.specs.Prelude.{◌≡◌, ◌⊎◌, Err};
ghost use Rattle.tasks.specs.ZoneCheck.{zone_checked};
ghost use Rattle.capi.specs.ZoneCheck.{IsChecked, fronted};

use crate::answer::{put, refusal_code};
use std::alloc::Global;
use tasks::included::Included;
use tasks::zone_check::check;

/// Where zone text is refused.
#[repr(C)]
#[derive(Drop)]
pub struct FaultFound {
    /// The line, from 1; 0 where the refusal has no place.
    pub line: usize,
    /// The column, from 1, in bytes; 0 where the refusal has no place.
    pub column: usize,
    /// How many bytes the name of the included text has; 0 of the text that was handed in.
    pub name_len: usize,
    /// How many bytes the words have.
    pub words_len: usize,
}

impl FaultFound {
    /// No fault is told.
    pub const NONE: FaultFound = FaultFound {
        line: 0,
        column: 0,
        name_len: 0,
        words_len: 0,
    };
}

/// Says where zone text is refused, and for what: 0 of a text that isn't, else minus the number of the refusal. The
/// origin is the text of a name, or empty for none. The texts that may be included stand one after the other, each after
/// its name, and the last of a name stands.
///
/// Of a fault in a text its line and column are filled in, the name of the included text that it stands in, and the
/// words that say what it is. The name and the words stand at the front of the caller's buffers, as much of them as has
/// room, and how long they are is filled in. Of any other answer the place is 0, and the buffers stay.
///
/// # Errors
///
/// 24 for an origin, a name or a text that isn't UTF-8, and the number of what the parser refuses.
#[unsafe(no_mangle)]
pub extern "C" fn fuzsbanel_zone_check(
    alloc: Global,
    origin: &[u8],
    text: &[u8],
    included: &[Included],
    included_bytes: &[u8],
    name: &mut [u8],
    words: &mut [u8],
    found: &mut FaultFound,
) -> i64
    ensures { IsChecked (zone_checked origin.now text.now included.now included_bytes.now)
        name.old name.new words.old words.new found.new result
        ⊎ IsChecked (Err 3) name.old name.new words.old words.new found.new result }
{
    *found = FaultFound::NONE;
    match check(alloc, origin, text, included, included_bytes) {
        Ok(None) => 0,
        Ok(Some(told)) => {
            put_front(told.name.as_bytes(), name);
            put_front(told.words.as_bytes(), words);
            *found = FaultFound {
                line: told.line,
                column: told.column,
                name_len: told.name.len(),
                words_len: told.words.len(),
            };
            refusal_code(told.refusal)
        }
        Err(refusal) => refusal_code(refusal),
    }
}

/// Puts bytes at the front of a buffer, as many as have room.
fn put_front(bytes: &[u8], out: &mut [u8])
    ensures { out.new ≡ fronted bytes.now out.old }
{
    let len = out.len().min(bytes.len());
    put(&bytes[..len], out);
}
