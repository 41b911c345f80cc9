//! Texts that zone text may include (RFC 1035, 5.1), as a caller hands them in.

ghost use Rattle.std.specs.Prelude.{◌≡◌, drop, take};
ghost use Rattle.txt.specs.Parser.{texts_in};
ghost use Rattle.txt.specs.Zone.{no_texts};
ghost use Rattle.tasks.specs.Asked.{Makes};
ghost use Rattle.tasks.specs.ZoneText.{with_texts};

use crate::refusal::Refusal;
use crate::zone::characters_of;
use std::alloc::Global;
use std::collections::BTreeMap;

/// How long the name and the text are of a text that may be included.
#[repr(C)]
#[derive(Clone, Copy, Drop)]
pub struct Included {
    /// How many bytes the name has.
    pub name_len: usize,
    /// How many bytes the text has.
    pub text_len: usize,
}

/// The texts that stand one after the other, each after its name.
///
/// # Errors
///
/// 24 for a name or a text that isn't UTF-8.
pub fn included_texts(
    alloc: Global,
    included: &[Included],
    bytes: &[u8],
) -> Result<BTreeMap<String, String>, Refusal>
    ensures { Makes texts_in (with_texts no_texts included.now bytes.now) result }
{
    let mut texts = BTreeMap::new(alloc);
    let mut rest = bytes;
    for lengths in included {
        let (name, after_name) = front_and_rest(rest, lengths.name_len);
        let (text, after_text) = front_and_rest(after_name, lengths.text_len);
        let name = characters_of(name)?;
        let text = characters_of(text)?;
        texts.insert(
            String::from_str(alloc, name)?,
            String::from_str(alloc, text)?,
        )?;
        rest = after_text;
    }
    Ok(texts)
}

/// So many bytes at the front, or all where there are fewer, and those after them.
fn front_and_rest(bytes: &[u8], len: usize) -> (&[u8], &[u8])
    ensures front { result.0.now ≡ take len bytes.now }
    ensures rest { result.1.now ≡ drop len bytes.now }
{
    bytes.split_at(len.min(bytes.len()))
}
