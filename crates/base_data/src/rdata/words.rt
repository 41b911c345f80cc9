//! Reading data is the word that data is written as.

ghost use Rattle.std.specs.Prelude.{◌≡◌, ◌↔◌, ℕ, ◌+◌, ◌-◌, ◌<◌, All, List, [], length, Ok, Err};
ghost use Rattle.base.specs.writing.Laws.{Holds, Keeps, Writes};
ghost use Rattle.base.specs.reading.Spelling.{NamesStand};
ghost use Rattle.base.specs.writing.State.{State};
ghost use Rattle.base.specs.declared.error.decode_error.DecodeError.{DecodeError};
ghost use Rattle.base.specs.declared.error.decode_error.DecodeError.TheVariants as faults;
ghost use Rattle.base.specs.declared.record_type.RecordType.{RecordType};
ghost use Rattle.base.specs.declared.record_type.RecordType.TheVariants as types;
ghost use Rattle.base_data.specs.Kinds.{DataWord, IsReadable, data_names, data_places, plain_data, type_of_data};
ghost use Rattle.base_data.specs.DataAt.{IsDataAt};
ghost use Rattle.base_data.specs.RData.{rdata_at};
ghost use Rattle.base_data.specs.TXT.{AreShort};
ghost use Rattle.base_data.specs.declared.rdata.RData.{RData};
ghost use Rattle.base_data.specs.declared.rdata.RData.TheVariants as kinds;

/// Reading data of a type and a length answers what stands there as data of the type and fills the length
/// exactly, and nothing else; where none does, it refuses with `BadData` of the type. Strings that stand in
/// bytes have up to 255 bytes each. Data that is readable is read as the same data wherever its word stands
/// (RFC 1035, 3.3; RFC 3597, 3 and 4).
pub fn reading_is_the_data_word()
    ensures word { (B : List ℕ) (i : ℕ) (type : RecordType) (len : ℕ) (d : RData) (e : ℕ)
        → (rdata_at type len B i ≡ Ok (d, e)) ↔ (IsDataAt B i type len d × (e ≡ i + len)) }
    ensures fault { (B : List ℕ) (i : ℕ) (type : RecordType) (len : ℕ) (f : DecodeError)
        → (rdata_at type len B i ≡ Err f)
        ↔ ((f ≡ faults.BadData type) × ((d : RData) → ¬ IsDataAt B i type len d)) }
    ensures short { (B : List ℕ) (i len : ℕ) (strings : List (List ℕ)) → All (λ b. b < 256) B
        → IsDataAt B i types.TXT len (kinds.TXT strings) → AreShort strings }
    ensures written { (B : List ℕ) (i len : ℕ) (d : RData) → DataWord d B i (i + len) → IsReadable d
        → rdata_at (type_of_data d) len B i ≡ Ok (d, i + len) }
{}

/// What `emit` wrote of readable data, after anything and under any limit, is read as the same data from every
/// buffer that holds it (RFC 1035, 3.2.1 and 4.1.4).
pub fn written_data_is_read()
    ensures { (old new : State) (d : RData) → Keeps old new
        → Writes (DataWord d) (plain_data d) [] old new → IsReadable d → (B : List ℕ)
        → Holds old new B
        → rdata_at (type_of_data d) (length new.bytes - length old.bytes) B (length old.bytes)
        ≡ Ok (d, length new.bytes) }
{}

/// The names of data that is read stand at the places that are said to be theirs, from the left
/// (RFC 1035, 3.3; RFC 2782).
pub fn names_of_data_stand_at_their_places()
    ensures { (B : List ℕ) (i : ℕ) (type : RecordType) (len : ℕ) (d : RData) (e : ℕ)
        → rdata_at type len B i ≡ Ok (d, e) → NamesStand B (data_places d B i) (data_names d) }
{}
