//! The fronts of names as numbers, by which most names are compared.

ghost use Rattle.std.specs.Prelude.{◌≡◌, ◌<◌, IfSome, drop, ℕ};
ghost use Rattle.base.specs.names.Labels.{IsLabelRun, labels_of};
ghost use Rattle.txt.specs.Prefix.{IsPrefix, IsLed, LIMIT, digit};

use base::Name;
use base::name::first_label;

/// How many digits there are.
const BASE: u128 = 64;

/// What the first digit of a prefix counts: the 20th power of `BASE`.
const FIRST: u128 = 1 << 120;

/// A name of more bytes has no prefix, which would cost more than it spares: most of its bytes are looked at in vain.
const MOST: usize = 32;

/// The first 21 digits of a name, from its last label on, as a number: a name whose prefix is less comes first
/// (RFC 4034, 6.1). It is 0 where it isn't known: the name is long or relative, or a byte of it has no digit.
pub(super) fn prefix_of(name: &Name) -> u128
    ensures { IsPrefix result name.now }
{
    let mut rest = name.as_wire();
    if rest.len() > MOST || !name.is_fqdn() {
        return 0;
    }
    let mut prefix = 0;
    'labels: while let Some((label, tail)) = first_label(rest) {
        let Some(longer) = lead(label, prefix) else {
            return 0;
        };
        prefix = longer;
        rest = tail;
    }
    prefix
}

/// The prefix of a label and of the labels before it; none where a byte of the label has no digit.
fn lead(label: &[u8], others: u128) -> Option<u128>
    requires { others < LIMIT }
    ensures { IfSome result (IsLed label.now others) }
{
    let mut prefix = others / BASE;
    let mut at = label.len();
    'bytes: while at > 0 {
        at -= 1;
        let digit = digit(label[at]);
        if digit == 0 {
            return None;
        }
        prefix = u128::from(digit) * FIRST + prefix / BASE;
    }
    Some(prefix)
}

/// The digit of a byte of a name in lower case: letters, digits and the signs of host names have one by the order of
/// bytes, from 1 on; for others it is 0.
#[tactic(auto, unfolding(crate::specs::Prefix::digit))]
fn digit(b: u8) -> u8
    ensures { result ≡ digit b }
{
    match b {
        b'*'..=b'9' => b - b')',
        b'_'..=b'z' => b - b'N',
        _ => 0,
    }
}
