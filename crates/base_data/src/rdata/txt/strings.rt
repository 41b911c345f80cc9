//! The strings of a text, one by one.

ghost use Rattle.std.specs.Prelude.{◌≡◌};
ghost use Rattle.std.specs.Iterator.{YieldsFirstBy, item_count};
ghost use Rattle.base.specs.names.Labels.{IsLabelRun, labels_of};

use base::name::first_label;
use std::marker::Model;

/// The strings of a text that are left. Contracts see the list of them.
#[derive(Drop)]
pub struct Strings<'a> {
    rest: &'a [u8],
}

impl<'a> Model for Strings<'a> {
    ghost use Rattle.std.specs.Prelude.{ℕ, List};
    ghost use Rattle.base.specs.names.Labels.{IsLabelRun, labels_of};

    ghost Value = { List (List ℕ) };

    ghost view = { λ s. labels_of s.rest.now };

    ghost invariant = { λ s. IsLabelRun s.rest.now };
}

impl<'a> Strings<'a> {
    /// The strings of bytes, each with its length before it.
    pub(crate) fn new(wire: &'a [u8]) -> Strings<'a>
        requires { IsLabelRun wire.now }
        ensures { result ≡ labels_of wire.now }
    {
        Strings { rest: wire }
    }
}

impl<'a> Iterator for Strings<'a> {
    type Item = &'a [u8];

    ghost next_gives = { YieldsFirstBy (λ string. string.now) (λ strings. strings) };

    ghost remaining = { item_count (λ strings. strings) };

    fn next(&mut self) -> Option<&'a [u8]> {
        match first_label(self.rest) {
            Some((string, tail)) => {
                self.rest = tail;
                Some(string)
            }
            None => None,
        }
    }
}
