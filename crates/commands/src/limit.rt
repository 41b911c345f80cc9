//! The limit that a word names.

ghost use Rattle.std.specs.Prelude.{◌≡◌};
ghost use Rattle.std.specs.Char.{is_ascii_digit};
ghost use Rattle.std.specs.List.{list_all};
ghost use Rattle.commands.specs.Limit.{limit_of};

/// The number of bytes that a word names in decimal digits, 65,535 at most. Zeros may stand in front; a sign may not.
pub(crate) fn limit(word: &str) -> Option<u16>
    ensures { result ≡ limit_of word.now }
{
    if !are_digits(word) {
        return None;
    }
    word.parse::<u16>().ok()
}

/// Whether the word has no other characters than decimal digits.
fn are_digits(word: &str) -> bool
    ensures { result ≡ list_all is_ascii_digit word.now }
{
    word.bytes().all(|byte| byte.is_ascii_digit())
}
