//! Names and data in wire form, and their texts (RFC 1035, 3.1, 3.3 and 5.1).

ghost use Rattle.tasks.specs.WireForm.{data_wire, name_wire, wire_text};
ghost use Rattle.capi.specs.Answer.{IsAnswered};

use crate::answer::give;
use std::alloc::Global;
use tasks::wire_form::{data_wire, name_wire, wire_text};

/// Writes the wire form of a name into the caller's buffer: each label after its length, and a zero byte, 255 bytes at
/// most (RFC 1035, 3.1). A name without a dot at its end is taken as absolute too.
///
/// # Errors
///
/// 26 for a name without bytes, 24 for one that isn't UTF-8, and 23 for a text that is no name.
#[unsafe(no_mangle)]
pub extern "C" fn fuzsbanel_name_wire(
    alloc: Global,
    name: &[u8],
    out: &mut [u8],
    needed: &mut usize,
) -> i64
    ensures { IsAnswered (name_wire name.now) out.old out.new needed.new result }
{
    give(name_wire(alloc, name), out, needed)
}

/// Writes the data of a type that a text is into the caller's buffer, in wire form, its names without compression (RFC
/// 1035, 3.3; RFC 3597, 4). The text is what follows the type in zone text; its relative names end in the root.
///
/// # Errors
///
/// 24 for a text that isn't UTF-8, and the number of what the parser refuses; 27 for a text that goes on with other
/// records, and 32 for data of more than 65,535 bytes.
#[unsafe(no_mangle)]
pub extern "C" fn fuzsbanel_data_wire(
    alloc: Global,
    record_type: u16,
    text: &[u8],
    out: &mut [u8],
    needed: &mut usize,
) -> i64
    ensures { IsAnswered (data_wire record_type text.now) out.old out.new needed.new result }
{
    give(data_wire(alloc, record_type, text), out, needed)
}

/// Writes the text of the data of a type into the caller's buffer, as `fuzsbanel_data_text` does of data that stands in a
/// message; of no bytes it is `\# 0`. A pointer in a name leads to a place of the data itself.
///
/// # Errors
///
/// 8 for bytes that are no data of the type, and 32 for more than 65,535.
#[unsafe(no_mangle)]
pub extern "C" fn fuzsbanel_wire_text(
    alloc: Global,
    record_type: u16,
    octets: &[u8],
    out: &mut [u8],
    needed: &mut usize,
) -> i64
    ensures { IsAnswered (wire_text record_type octets.now) out.old out.new needed.new result }
{
    give(wire_text(alloc, record_type, octets), out, needed)
}
