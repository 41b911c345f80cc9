//! Laws of records.

ghost use Rattle.std.specs.Prelude.{◌≡◌, ◌+◌, ◌↔◌, ℕ, List, Ok, Err, IsTrue};
ghost use Rattle.std.specs.Cmp.{IsEquivalence, IsTotalOrder};
ghost use Rattle.base.specs.names.NameOrder.{same_name};
ghost use Rattle.base.specs.reading.Spelling.{NamesStand};
ghost use Rattle.base.specs.declared.error.decode_error.DecodeError.{DecodeError};
ghost use Rattle.base_data.specs.Kinds.{KeptData, type_of_data};
ghost use Rattle.base_data.specs.declared.rdata.RData.{RData};
ghost use Rattle.rr.specs.Record.{FitsRecord, IsReadableRecord, IsRecordAt, IsRecordFault, RecordWord, decremented, raw_record, record_at, record_names, record_places, record_value};
ghost use Rattle.rr.specs.RecordOrder.{record_cmp};
ghost use Rattle.rr.specs.declared.record.Record.{Record as Entry};

use crate::record::Record;
use base_data::{RData, RecordData};
use std::cmp::Ordering;

/// Reading a record is the record word, and refuses with its first fault (RFC 1035, 4.1.3). A readable record that was
/// written is read as the record of its fields: the name is absolute, the class is masked, and that of an OPT record
/// is 512 at least. A record that fits is read as the same record.
pub fn reading_is_the_record_word()
    ensures word { (B : List ℕ) (i : ℕ) (r : Entry RData) (e : ℕ)
        → (record_at B i ≡ Ok (r, e)) ↔ IsRecordAt B i r e }
    ensures fault { (B : List ℕ) (i : ℕ) (f : DecodeError)
        → (record_at B i ≡ Err f) ↔ IsRecordFault B i f }
    ensures written { (B : List ℕ) (i : ℕ) (r : Entry RData) (e : ℕ) → RecordWord r B i e
        → IsReadableRecord r → IsRecordAt B i (record_value (raw_record r)) e }
    ensures same { (r : Entry RData) → FitsRecord r → record_value (raw_record r) ≡ r }
{}

/// The names of a record that is read stand at the places that are said to be theirs: its owner, and then those of its
/// data from the left (RFC 1035, 4.1.3).
pub fn names_of_a_record_stand_at_their_places()
    ensures { (B : List ℕ) (i : ℕ) (r : Entry RData) (e : ℕ) → record_at B i ≡ Ok (r, e)
        → NamesStand B (record_places B i) (record_names r) }
{}

/// Records are equal where their names are, letters folded, their classes are the same and their data is equal; and
/// that is an equivalence. TTL and cache-flush bit are not looked at (RFC 2136, 1.1.1).
pub fn equal_records<R: RecordData>()
    ensures equal { (a b : Entry R) → IsTrue (⟦<Record<R> as PartialEq>⟧.eq a b)
        ↔ (IsTrue (same_name a.name b.name) × (a.dns_class ≡ b.dns_class)
        × IsTrue (R.eq a.rdata b.rdata)) }
    ensures equivalence { IsEquivalence ⟦<Record<R> as PartialEq>⟧.eq }
{}

/// The canonical order of records is total, and ties exactly records with the same name, letters folded, type, class
/// and TTL, and equal data.
pub fn canonical_order()
    ensures total { IsTotalOrder record_cmp }
    ensures ties { (a b : Entry RData) → KeptData a.rdata → KeptData b.rdata
        → (record_cmp a b ≡ Ordering.Equal)
        ↔ (IsTrue (same_name a.name b.name) × (type_of_data a.rdata ≡ type_of_data b.rdata)
        × (a.dns_class ≡ b.dns_class) × (a.ttl ≡ b.ttl)
        × IsTrue (⟦<RData as PartialEq>⟧.eq a.rdata b.rdata)) }
{}

/// A copy of a record of any data is the same record.
pub fn copies_are_the_same()
    ensures { (a b : Entry RData) → ⟦<Record<RData> as Clone>⟧.is_clone a b → b ≡ a }
{}

/// Seconds that are taken off a TTL one after the other are taken off together.
pub fn seconds_add_up<R: RecordData>()
    ensures { (r : Entry R) (a b : ℕ) → decremented b (decremented a r) ≡ decremented (a + b) r }
{}
