//! That values print.

use std::alloc::Global;
use std::fmt;

/// Whether the value prints at all.
pub fn prints<T: fmt::Display>(alloc: Global, value: &T) -> bool {
    let shown = value.to_string(alloc);
    let is_shown = shown.is_ok();
    drop(shown);
    is_shown
}

/// Whether each value prints.
pub fn all_print<T: fmt::Display>(alloc: Global, values: &[T]) -> bool {
    for value in values {
        if !prints(alloc, value) {
            return false;
        }
    }
    true
}

/// Whether a value that is given away prints.
pub fn refusal_prints<E: fmt::Display + Drop>(alloc: Global, refusal: E) -> bool {
    let is_shown = prints(alloc, &refusal);
    drop(refusal);
    is_shown
}
