//! The texts of TTLs.

ghost use Rattle.std.specs.Prelude.{◌≡◌, ◌∷◌, List, ℕ, IfNone, IfSome, None};
ghost use Rattle.std.specs.Option.{ok_or};
ghost use Rattle.base.specs.texts.Ttl.{below_limit, ttl_of, ttl_sum, unit_of};
ghost use Rattle.base.specs.declared.error.parse_error.ParseError.TheVariants as refusals;

use crate::error::ParseError;

/// The seconds of a unit, in either case.
fn unit_of(c: u8) -> Option<u32>
    ensures { result ≡ unit_of c }
{
    match c.to_ascii_lowercase() {
        b's' => Some(1),
        b'm' => Some(60),
        b'h' => Some(3_600),
        b'd' => Some(86_400),
        b'w' => Some(604_800),
        _ => None,
    }
}

/// One byte on: the sum and the number of the group begun; none where the text is no TTL text, or says too many.
#[tactic(auto, using(crate::proofs::texts::TtlLemmas::one_byte))]
fn ttl_step(sum: u32, begun: Option<u32>, c: u8) -> Option<(u32, Option<u32>)>
    ensures none { IfNone result ((rest : List ℕ)
        → below_limit (ttl_sum sum begun (c ∷ rest)) ≡ None) }
    ensures some { IfSome result (λ r. (rest : List ℕ)
        → ttl_sum sum begun (c ∷ rest) ≡ ttl_sum r.0 r.1 rest) }
{
    if c.is_ascii_digit() {
        let tens = begun.unwrap_or(0).checked_mul(10)?;
        let number = tens.checked_add(u32::from(c - b'0'))?;
        return Some((sum, Some(number)));
    }
    let seconds = begun?.checked_mul(unit_of(c)?)?;
    Some((sum.checked_add(seconds)?, None))
}

/// The seconds that a text says; none where it is no TTL text, or says too many.
#[tactic(auto, using(crate::proofs::texts::TtlLemmas::ttl_fails, crate::proofs::texts::TtlLemmas::ttl_nothing, crate::proofs::texts::TtlLemmas::ttl_ends))]
pub(crate) fn ttl_of(text: &[u8]) -> Option<u32>
    ensures { result ≡ ttl_of text.now }
{
    if text.is_empty() {
        return None;
    }
    let mut sum: u32 = 0;
    let mut begun: Option<u32> = None;
    for c in text {
        let (next_sum, next_begun) = ttl_step(sum, begun, *c)?;
        sum = next_sum;
        begun = next_begun;
    }
    sum.checked_add(begun.unwrap_or(0))
}

/// The seconds of a TTL text: groups of digits and a unit, which the last may lack. Takes no memory.
pub fn parse_ttl(text: &str) -> Result<u32, ParseError>
    ensures { result ≡ ok_or (ttl_of text.now) refusals.BadTtl }
{
    ttl_of(text.as_bytes()).ok_or(ParseError::BadTtl)
}
