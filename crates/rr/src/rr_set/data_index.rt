//! The index of the data of records.

ghost use Rattle.base_data.specs.Kinds.{canonical_data};
ghost use Rattle.std.specs.Prelude.{IfOk, ◌≡◌};

use base_data::RData;
use std::alloc::{AllocError, Global};
use std::collections::BTreeMap;

/// The place of each record, at the key of its data. Data of one key can be other data, so that the record there is
/// compared before it is believed.
pub type DataIndex = BTreeMap<Vec<u8>, usize>;

/// The key of data: the bytes of its canonical form, which equal data shares (RFC 4034, 6.2).
///
/// # Errors
///
/// If memory runs out.
pub fn data_key(rdata: &RData, alloc: Global) -> Result<Vec<u8>, AllocError>
    ensures { IfOk result (λ key. key.items ≡ canonical_data rdata.now) }
{
    rdata.to_canonical(alloc).map_err(|_| AllocError)
}
