//! Reads character strings from the items of a text (RFC 1035, 5.1).

ghost use Rattle.base.specs.declared.limits.TheConstants.{MAX_STRING};
ghost use Rattle.std.specs.Prelude.{◌≡◌, ◌≤◌, IfOk, length, option_map};
ghost use Rattle.base_data.specs.Escape.{escape_of};
ghost use Rattle.base_data.specs.ItemFault.{GivesItems};
ghost use Rattle.base_data.specs.StringItems.{escape_step, no_escape, string_item, unescaped};

use crate::rdata::fields::ItemFault;
use base::limits::MAX_STRING;
use std::alloc::Global;

/// How much of an escape was read.
#[derive(Clone, Copy)]
enum Escape {
    /// Nothing: what follows stands for itself.
    Outside,
    /// The backslash.
    Begun,
    /// The backslash and a digit, of this number.
    OneDigit(u8),
    /// The backslash and two digits, of this number.
    TwoDigits(u16),
}

/// What a byte is after as much of an escape: a byte of the string or none, and as much of an escape then. None where
/// it can't stand there: fewer than three digits, or a number above 255.
fn escape_step(state: Escape, byte: u8) -> Option<(Option<u8>, Escape)>
    ensures { option_map (λ r. (r.0, escape_of r.1)) result ≡ escape_step (escape_of state) byte }
{
    match state {
        Escape::Outside => {
            if byte == b'\\' {
                return Some((None, Escape::Begun));
            }
            Some((Some(byte), Escape::Outside))
        }
        Escape::Begun => {
            if byte.is_ascii_digit() {
                return Some((None, Escape::OneDigit(byte - b'0')));
            }
            Some((Some(byte), Escape::Outside))
        }
        Escape::OneDigit(n) => {
            if !byte.is_ascii_digit() {
                return None;
            }
            Some((
                None,
                Escape::TwoDigits(u16::from(n) * 10 + u16::from(byte - b'0')),
            ))
        }
        Escape::TwoDigits(n) => {
            if !byte.is_ascii_digit() {
                return None;
            }
            let number = u32::from(n) * 10 + u32::from(byte - b'0');
            if number > 255 {
                return None;
            }
            Some((Some(number as u8), Escape::Outside))
        }
    }
}

/// The bytes of a text.
///
/// # Errors
///
/// `Bad` where an escape is written wrongly; `Memory` if memory runs out.
fn unescape(alloc: Global, text: &[u8]) -> Result<Vec<u8>, ItemFault>
    ensures { GivesItems (λ v. v.items) result (unescaped no_escape text.now) }
{
    let mut bytes = Vec::new(alloc);
    let mut state = Escape::Outside;
    for c in text {
        let Some((byte, next)) = escape_step(state, *c) else {
            return Err(ItemFault::Bad);
        };
        if let Some(b) = byte {
            bytes.push(b)?;
        }
        state = next;
    }
    match state {
        Escape::Outside => Ok(bytes),
        _ => Err(ItemFault::Bad),
    }
}

/// The character string that an item is, of 255 bytes at most.
///
/// # Errors
///
/// `Bad` where the item is no such string; `Memory` if memory runs out.
#[tactic(auto, unfolding(crate::specs::StringItems::string_item))]
pub(crate) fn string_item(alloc: Global, item: &str) -> Result<Vec<u8>, ItemFault>
    ensures string { GivesItems (λ v. v.items) result (string_item item.now) }
    ensures short { IfOk result (λ v. length v.items ≤ MAX_STRING) }
{
    let bytes = unescape(alloc, item.as_bytes())?;
    if bytes.len() > MAX_STRING {
        return Err(ItemFault::Bad);
    }
    Ok(bytes)
}
