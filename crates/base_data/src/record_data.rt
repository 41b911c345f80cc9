//! What all data has in common.

ghost use Rattle.std.specs.Prelude.{Some, refl};

use crate::rdata::RData;
use base::{BinEncodable, RecordType};
use std::fmt;

/// Data of one kind, or of any.
///
/// `as_rdata` is the data as that of any record, and `of_rdata` takes the kind out of such data.
pub trait RecordData: Eq + Clone + BinEncodable + fmt::Display + Drop {
    ghost use Rattle.std.specs.Prelude.{◌≡◌, ◌↔◌, ℕ, List, Option, Some};
    ghost use Rattle.std.specs.Option.{option_copied};
    ghost use Rattle.base_data.specs.Kinds.{DataWord, data_text, data_written, plain_data, type_of_data};
    ghost use Rattle.base_data.specs.RData.{is_empty_data};
    ghost use Rattle.base_data.specs.declared.rdata.RData.{RData as AnyData};

    ghost as_rdata: { Self → AnyData };

    ghost of_rdata: { AnyData → Option Self };

    /// The data of this kind, if it is of this kind.
    fn try_borrow(rdata: &RData) -> Option<&Self>
        ensures { option_copied result ≡ of_rdata rdata.now };

    /// The data as that of any record.
    fn into_rdata(self) -> RData
        ensures { result ≡ as_rdata self };

    /// The type of the data.
    fn record_type(&self) -> RecordType
        ensures { result ≡ type_of_data (as_rdata self.now) };

    /// Whether the data is empty, as in updates (RFC 2136, 2.4).
    fn is_update(&self) -> bool
        ensures { result ≡ is_empty_data (as_rdata self.now) };

    /// What was made the data of any record is taken out of it again.
    ghost borrows_back: { (r : Self) → of_rdata (as_rdata r) ≡ Some r };

    /// As data of any record, data has the word and the length that it had.
    ghost keeps_word: { (r : Self) (B : List ℕ) (i e : ℕ) → DataWord (as_rdata r) B i e
        ↔ Self.word r B i e };

    ghost keeps_len: { (r : Self) → plain_data (as_rdata r) ≡ Self.plain_len r };

    ghost keeps_written: { (r : Self) → data_written (as_rdata r) ≡ Self.written r };

    /// And the text.
    ghost keeps_text: { (r : Self) → Some (data_text (as_rdata r)) ≡ Self.output r };

    /// As data of any record, data is equal where it was.
    ghost keeps_equality: { (r s : Self) → ⟦<RData as PartialEq>⟧.eq (as_rdata r) (as_rdata s)
        ≡ Self.eq r s };
}

impl RecordData for RData {
    ghost as_rdata = { λ r. r };

    ghost of_rdata = { Some };

    ghost borrows_back = { λ _. refl };

    ghost keeps_word = { λ _ _ _ _. (λ h. h, λ h. h) };

    ghost keeps_len = { λ _. refl };

    ghost keeps_written = { λ _. refl };

    ghost keeps_text = { λ _. refl };

    ghost keeps_equality = { λ _ _. refl };

    fn try_borrow(rdata: &RData) -> Option<&RData> {
        Some(rdata)
    }

    fn into_rdata(self) -> RData {
        self
    }

    fn record_type(&self) -> RecordType {
        RData::record_type(self)
    }

    fn is_update(&self) -> bool {
        RData::is_update(self)
    }
}
