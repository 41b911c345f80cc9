//! What was answered where a value was to be read.

use base::DecodeError;

/// Whether a value was read, and is this.
pub(crate) fn is_this<T: PartialEq + Drop>(read: Result<T, DecodeError>, wanted: &T) -> bool {
    let same = match &read {
        Ok(value) => *value == *wanted,
        Err(_) => false,
    };
    drop(read);
    same
}

/// Whether too few bytes were left.
pub(crate) fn is_cut<T: Drop>(read: Result<T, DecodeError>) -> bool {
    let is_cut = matches!(&read, Err(DecodeError::InsufficientBytes));
    drop(read);
    is_cut
}
