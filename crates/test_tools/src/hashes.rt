//! Hashes of values.

use std::hash::{DefaultHasher, Hash, Hasher};

/// The hash of a value.
pub fn hash_of<T: Hash>(value: &T) -> u64 {
    let mut state = DefaultHasher::new();
    value.hash(&mut state);
    state.finish()
}

/// Whether two values hash alike.
pub fn hash_alike<T: Hash>(one: &T, other: &T) -> bool {
    hash_of(one) == hash_of(other)
}
