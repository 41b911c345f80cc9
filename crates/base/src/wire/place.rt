//! Room that an encoder keeps.

ghost use Rattle.std.specs.Prelude.{ℕ};

use std::marker::{Model, PhantomData};

/// Room that was kept in an encoder, for a value of type `T` to be written there later. Contracts see
/// where it begins.
#[derive(Drop)]
pub struct Place<T> {
    pub(crate) start: usize,
    pub(crate) value: PhantomData<T>,
}

impl<T> Model for Place<T> {
    ghost Value = { ℕ };

    ghost view = { λ p. p.start };
}
