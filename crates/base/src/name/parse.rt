//! Reads the text of names (RFC 1035, 5.1).

ghost use Rattle.base.specs.declared.limits.TheConstants.{MAX_LABELS};
ghost use Rattle.std.specs.Prelude.{◌≡◌, ◌↔◌, ◌⊎◌, ◌<◌, ◌≤◌, ◌≢◌, List, ℕ, Bool, [], ◌∷◌, length, take, IfNone, IfOk, IfErr, IfSome, IsTrue};
ghost use Rattle.std.specs.Char.{is_ascii_digit};
ghost use Rattle.std.specs.Option.{option_copied, option_map};
ghost use Rattle.base.specs.names.Labels.{NameValue, IsWire, labels_of};
ghost use Rattle.base.specs.texts.NameOf.{name_of};
ghost use Rattle.base.specs.texts.NameText.{IsLabelsText, IsNameText, decimal_char, escaped_char, first_char};
ghost use Rattle.base.specs.texts.TextChar.{character_of};
ghost use Rattle.base.specs.texts.TextFaults.{Gives};

use crate::error::ParseError;
use crate::labels::Labels;
use crate::limits::{MAX_LABEL, MAX_LABELS};
use crate::name::Name;
use std::alloc::Global;

/// A character of the text of a name.
#[derive(Drop)]
enum TextChar {
    /// The dot between labels, or at the end.
    Dot,
    /// A byte of a label.
    Byte(u8),
}

impl Name {
    /// Reads the text of a name (RFC 1035, 5.1): labels with `.` between them, and one more at the end of an absolute
    /// name; `.` alone is the root. A backslash and three decimal digits are the byte of that number, up to 255, and a
    /// backslash and another character of ASCII are that character; without a backslash stand the characters 0x21 to
    /// 0x7E.
    ///
    /// Where an origin is given, its labels are appended to a relative name, which becomes absolute; and `@` alone is
    /// the origin.
    ///
    /// # Errors
    ///
    /// `BadName`: the empty text, an empty label, a label of more than 63 bytes, a name of more than 255 (RFC 1035,
    /// 2.3.4), a backslash that stands before anything else, any other character, and `@` alone without an origin.
    /// `Memory` if memory runs out.
    pub fn parse(alloc: Global, text: &str, origin: Option<&Name>) -> Result<Name, ParseError>
        ensures named { IfOk result (IsNameText text.now (option_copied origin.entry)) }
        ensures refused { (result ≡ Err ParseError.BadName)
            ↔ ((name : NameValue) → IsNameText text.now (option_copied origin.entry) name → ⊥) }
        ensures err { IfErr result (λ e. (e ≡ ParseError.Memory) ⊎ (e ≡ ParseError.BadName)) }
        // The name or the fault is that of the definition `name_of`, unless memory runs out.
        ensures reads { Gives (λ n. n) result (name_of text.now (option_copied origin.entry)) }
    {
        Name::parse_text(alloc, text, origin)
    }

    /// The same, by the relation alone.
    fn parse_text(alloc: Global, text: &str, origin: Option<&Name>) -> Result<Name, ParseError>
        ensures named { IfOk result (IsNameText text.now (option_copied origin.entry)) }
        ensures refused { (result ≡ Err ParseError.BadName)
            ↔ ((name : NameValue) → IsNameText text.now (option_copied origin.entry) name → ⊥) }
        ensures err { IfErr result (λ e. (e ≡ ParseError.Memory) ⊎ (e ≡ ParseError.BadName)) }
    {
        if text == "." {
            return Ok(Name::root(alloc));
        }
        if text == "@" {
            let Some(origin) = origin else {
                return Err(ParseError::BadName);
            };
            return Ok(origin.clone()?);
        }
        let mut room = [0; MAX_LABELS];
        let Some((used, is_fqdn)) = gather_name(text.as_bytes(), origin, &mut room) else {
            return Err(ParseError::BadName);
        };
        let mut labels = Labels::none(alloc, is_fqdn);
        labels.set(&room, used, &[])?;
        Ok(Name { labels })
    }
}

/// The character of a backslash, this digit and two more digits, and the text after it.
#[tactic(auto, unfolding(crate::specs::texts::NameText::decimal_char))]
fn decimal_char(first: u8, text: &[u8]) -> Option<(TextChar, &[u8])>
    requires { IsTrue (is_ascii_digit first) }
    ensures value { option_map (λ r. (character_of r.0, r.1.now)) result
        ≡ decimal_char first text.now }
    ensures shorter { IfSome result (λ r. length r.1.now < length text.now) }
{
    let [second, third, rest @ ..] = text else {
        return None;
    };
    if !second.is_ascii_digit() || !third.is_ascii_digit() {
        return None;
    }
    let number = 100 * u16::from(first - b'0')
        + 10 * u16::from(*second - b'0')
        + u16::from(*third - b'0');
    if number > 255 {
        return None;
    }
    Some((TextChar::Byte(number as u8), rest))
}

/// The character of a backslash and what is after it, and the text after that.
#[tactic(auto, unfolding(crate::specs::texts::NameText::escaped_char))]
fn escaped_char(text: &[u8]) -> Option<(TextChar, &[u8])>
    ensures value { option_map (λ r. (character_of r.0, r.1.now)) result ≡ escaped_char text.now }
    ensures shorter { IfSome result (λ r. length r.1.now < length text.now) }
{
    let [first, rest @ ..] = text else {
        return None;
    };
    if first.is_ascii_digit() {
        return decimal_char(*first, rest);
    }
    if *first >= 128 {
        return None;
    }
    Some((TextChar::Byte(*first), rest))
}

/// The first character of a text, and the text after it; none where the text begins with no character.
#[tactic(auto, unfolding(crate::specs::texts::NameText::first_char))]
fn first_char(text: &[u8]) -> Option<(TextChar, &[u8])>
    ensures value { option_map (λ r. (character_of r.0, r.1.now)) result ≡ first_char text.now }
    ensures shorter { IfSome result (λ r. length r.1.now < length text.now) }
{
    let [first, rest @ ..] = text else {
        return None;
    };
    match *first {
        b'\\' => escaped_char(rest),
        b'.' => Some((TextChar::Dot, rest)),
        b'!'..=b'~' => Some((TextChar::Byte(*first), rest)),
        _ => None,
    }
}

/// Gathers the labels of a text, each with its length before it, in `room`. Answers how many bytes they
/// are, and whether the text ends with a dot; none where the text is no labels.
fn gather_labels(text: &[u8], room: &mut [u8; MAX_LABELS]) -> Option<(usize, bool)>
    ensures none { IfNone result ((labels : List (List ℕ)) (absolute : Bool)
        → IsLabelsText text.now labels absolute → ⊥) }
    ensures some { IfSome result (λ r. IsLabelsText text.now (labels_of (take r.0 room.new)) r.1) }
    // The bytes gathered are labels of 1 to 63 bytes, each with its length before it.
    ensures wire { IfSome result (λ r. IsWire (take r.0 room.new)) }
    ensures used { IfSome result (λ r. r.0 ≤ MAX_LABELS) }
{
    let mut used = 0;
    let mut len = 0;
    let mut rest = text;
    'chars: while let Some((c, tail)) = first_char(rest) {
        rest = tail;
        match c {
            TextChar::Byte(b) => {
                if len >= MAX_LABEL || used + 1 + len >= MAX_LABELS {
                    return None;
                }
                room[used + 1 + len] = b;
                len += 1;
            }
            TextChar::Dot => {
                if len == 0 {
                    return None;
                }
                room[used] = len as u8;
                used += 1 + len;
                len = 0;
            }
        }
    }
    if !rest.is_empty() {
        return None;
    }
    if len > 0 {
        room[used] = len as u8;
        return Some((used + 1 + len, false));
    }
    if used == 0 {
        return None;
    }
    Some((used, true))
}

/// Gathers the labels of the name that a text names, completed by the origin, in `room`. Answers how many
/// bytes they are, and whether the name is absolute; none where the text names nothing.
fn gather_name(
    text: &[u8],
    origin: Option<&Name>,
    room: &mut [u8; MAX_LABELS],
) -> Option<(usize, bool)>
    requires no_root { text.now ≢ 46 ∷ [] }
    requires no_origin { text.now ≢ 64 ∷ [] }
    ensures none { IfNone result ((name : NameValue)
        → IsNameText text.now (option_copied origin.entry) name → ⊥) }
    ensures some { IfSome result
        (λ r. IsNameText text.now (option_copied origin.entry)
        (record { labels = labels_of (take r.0 room.new); absolute = r.1 })) }
    // The bytes gathered are labels of 1 to 63 bytes, each with its length before it.
    ensures wire { IfSome result (λ r. IsWire (take r.0 room.new)) }
    ensures used { IfSome result (λ r. r.0 ≤ MAX_LABELS) }
{
    let (used, is_fqdn) = gather_labels(text, room)?;
    if is_fqdn {
        return Some((used, true));
    }
    let Some(origin) = origin else {
        return Some((used, false));
    };
    let wire = origin.as_wire();
    let end = used + wire.len();
    if end > MAX_LABELS {
        return None;
    }
    room[used..end].copy_from_slice(wire);
    Some((end, true))
}
