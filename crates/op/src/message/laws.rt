//! Laws of messages: what reading means (RFC 1035, 4.1), what is written under a limit, truncating and stripping. Each
//! is the contract of an empty function.

ghost use Rattle.std.specs.Cmp.{IsEquivalence};
ghost use Rattle.std.specs.Cmp.Lexicographic.{pointwise};
ghost use Rattle.std.specs.Option.{option_eq, option_map};
ghost use Rattle.std.specs.Prelude.{◌≡◌, ◌≢◌, ◌+◌, ◌-◌, ◌<◌, ◌↔◌, ◌≤◌, ◌^◌, ◌++◌, [], All, Bool, Err, false, IsTrue, length, List, Ok, true, ℕ};
ghost use Rattle.base.specs.reading.Many.{many_at};
ghost use Rattle.base.specs.reading.Spelling.{NamesStand};
ghost use Rattle.base.specs.writing.State.{State, Stored};
ghost use Rattle.base.specs.Words.{BackToBack};
ghost use Rattle.base.specs.writing.Written.{after, fitting, in_turn, FirstPasses, that_fit};
ghost use Rattle.base.specs.declared.error.proto_error.ProtoError.{ProtoError};
ghost use Rattle.base_data.specs.declared.rdata.RData.{RData};
ghost use Rattle.rr.specs.Record.{record_written};
ghost use Rattle.rr.specs.declared.record.Record.{Record};
ghost use Rattle.op.specs.Cut.{as_written, IsCut, IsTooSmall, IsUncut, IsWritten, raised};
ghost use Rattle.op.specs.EdnsRecord.{edns_record};
ghost use Rattle.op.specs.Fault.{IsMessageFault, IsQueriesFault, IsSectionFault};
ghost use Rattle.op.specs.Fits.{Fits, HasRoom, as_list, signature_record};
ghost use Rattle.op.specs.Message.{IsMessageAt, message_at, MessageValue};
ghost use Rattle.op.specs.MessageKept.{MessageKept};
ghost use Rattle.op.specs.MessageWritten.{AreWhole, LostForRoom, message_answer, message_answer_at, message_bytes, parts_of};
ghost use Rattle.op.specs.Parts.{stripped, truncated};
ghost use Rattle.op.specs.Places.{message_names, message_places};
ghost use Rattle.op.specs.Query.{IsQueryAt, query_at, query_written};
ghost use Rattle.op.specs.Section.{IsSectionAt, section_at, SectionValue};
ghost use Rattle.op.specs.declared.message.Message.{Message};
ghost use Rattle.op.specs.declared.query.Query.{Query};

use crate::edns::Edns;
use crate::message::Message;
use crate::query::Query;
use base::{DecodeError, ProtoError};
use base_data::{RData, TSIG};
use rr::Record;

/// Reading a message is the message word: it answers exactly the messages whose words stand there, and a place
/// begins one at most; and it refuses with the first fault of what stands there. The same for the records of a
/// section, and for questions back to back (RFC 1035, 4.1).
pub fn reading_is_the_message_word()
    // A message is read, with its end, exactly where its word stands.
    ensures word { (B : List ℕ) (i : ℕ) (m : MessageValue) (e : ℕ)
        → (message_at B i ≡ Ok (m, e)) ↔ IsMessageAt B i m e }
    // At a place one message at most begins, and it has one end.
    ensures once { (B : List ℕ) (i : ℕ) (m n : MessageValue) (e f : ℕ) → IsMessageAt B i m e
        → IsMessageAt B i n f → (m ≡ n) × (e ≡ f) }
    // The records of a section are read exactly where `count` of them stand back to back, and each
    // may stand there.
    ensures section { (is_additional : Bool) (op : _) (count : ℕ) (B : List ℕ) (i : ℕ)
        (s : SectionValue) (e : ℕ)
        → (section_at is_additional op count B i ≡ Ok (s, e))
        ↔ IsSectionAt is_additional op count B i s e }
    // Questions are read exactly where `count` of them stand back to back.
    ensures questions { (count : ℕ) (B : List ℕ) (i : ℕ) (qs : List Query) (e : ℕ)
        → (many_at query_at count B i ≡ Ok (qs, e))
        ↔ (BackToBack (IsQueryAt B) i qs e × (length qs ≡ count)) }
    // Reading a message is refused exactly with its first fault in the terms of the standard.
    ensures fault { (B : List ℕ) (i : ℕ) (f : DecodeError)
        → (message_at B i ≡ Err f) ↔ IsMessageFault B i f }
    // The same of the records of a section.
    ensures section_fault { (is_additional : Bool) (op : _) (count : ℕ) (B : List ℕ) (i : ℕ)
        (f : DecodeError)
        → (section_at is_additional op count B i ≡ Err f)
        ↔ IsSectionFault is_additional op count B i f }
    // The same of questions.
    ensures questions_fault { (count : ℕ) (B : List ℕ) (i : ℕ) (f : DecodeError)
        → (many_at query_at count B i ≡ Err f) ↔ IsQueriesFault count B i f }
{}

/// The names of a message stand at the places that are said to be theirs: those of its questions, and then those of the
/// records of its three sections (RFC 1035, 4.1).
pub fn names_of_a_message_stand_at_their_places()
    ensures { (B : List ℕ) (i : ℕ) (m : MessageValue) (e : ℕ) (word : IsMessageAt B i m e)
        → NamesStand B (message_places B i) (message_names word) }
{}

/// A message that was read fits, and an uncut cut of it is the same message.
pub fn what_is_read_fits()
    // A message that was read can stand on the wire, and is read there as it was.
    ensures fits { (B : List ℕ) (i : ℕ) (m : MessageValue) (e : ℕ) → IsMessageAt B i m e → Fits m }
    // A cut of it that loses nothing, under any limit, is read as the same message.
    ensures uncut { (B : List ℕ) (i : ℕ) (m : MessageValue) (e : ℕ) → IsMessageAt B i m e
        → All (λ b. b < 256) B
        → (limit : ℕ) (C : List ℕ) (c : MessageValue) (k : IsCut m limit C c) → IsUncut k → c ≡ m }
{}

/// An uncut cut of a message is that message, whatever it holds, but for what the wire can't have: the code as far as
/// it is written, in four bits or with EDNS in twelve, and the high bits of EDNS, which are the code's (RFC 1035,
/// 4.1.1; RFC 6891, 6.1.3).
pub fn uncut_is_the_message()
    ensures { (m : MessageValue) (limit : ℕ) (C : List ℕ) (c : MessageValue) (k : IsCut m limit C c)
        → IsUncut k → c ≡ as_written m }
{}

/// Messages are equal where their metadata is the same, and their questions, the records of their sections, their EDNS
/// and their signatures are equal one by one; and that is an equivalence. So letters are folded in names, and TTLs and
/// cache-flush bits are not looked at.
pub fn equal_messages()
    ensures equal { (a b : Message)
        → IsTrue (⟦<Message as PartialEq>⟧.eq a b) ↔ ((a.metadata ≡ b.metadata)
        × IsTrue (pointwise ⟦<Query as PartialEq>⟧.eq a.queries.items b.queries.items)
        × IsTrue (pointwise ⟦<Record<RData> as PartialEq>⟧.eq a.answers.items b.answers.items)
        × IsTrue (pointwise ⟦<Record<RData> as PartialEq>⟧.eq a.authorities.items
        b.authorities.items)
        × IsTrue (pointwise ⟦<Record<RData> as PartialEq>⟧.eq a.additionals.items
        b.additionals.items)
        × IsTrue (option_eq ⟦<Record<TSIG> as PartialEq>⟧.eq (option_map (λ s. s.value) a.signature)
        (option_map (λ s. s.value) b.signature))
        × IsTrue (option_eq ⟦<Edns as PartialEq>⟧.eq a.edns b.edns)) }
    ensures equivalence { IsEquivalence ⟦<Message as PartialEq>⟧.eq }
{}

/// What the definition `message_answer` gives of a message that fits the wire is a cut of it under the limit, and is
/// read as that cut (RFC 1035, 4.1.1; RFC 2181, 9; RFC 6891, 6.1.3).
pub fn what_is_written_is_a_cut()
    // `MessageKept` is what its types keep of every message, as `fits_wire` tells (`kept`).
    ensures { (m : MessageValue) (limit : ℕ) (B : List ℕ) → Fits m → MessageKept m
        → limit < 2 ^ 16 → message_answer limit m ≡ Ok B → IsWritten m limit B }
{}

/// Of records that are written in turn under a limit those that fit are a front, and the first of the others would have
/// passed the limit by its own bytes, compressed as they are (RFC 1035, 4.1.4; RFC 2181, 9). The same of questions.
pub fn what_is_cut_did_not_fit()
    ensures records { (limit : ℕ) (rs : List (Record RData)) (s : State)
        → (lost : List (Record RData))
        × (rs ≡ that_fit record_written limit rs (length s.bytes) s.suffixes ++ lost)
        × FirstPasses record_written limit (after (fitting record_written limit rs) s) lost }
    ensures questions { (limit : ℕ) (qs : List Query) (s : State) → (lost : List Query)
        × (qs ≡ that_fit query_written limit qs (length s.bytes) s.suffixes ++ lost)
        × FirstPasses query_written limit (after (fitting query_written limit qs) s) lost }
{}

/// Where all records have room together, compressed as they are, none is cut. The same of questions.
pub fn what_has_room_is_kept()
    ensures records { (limit : ℕ) (rs : List (Record RData)) (s : State)
        → length (after (in_turn record_written rs) s).bytes ≤ limit
        → that_fit record_written limit rs (length s.bytes) s.suffixes ≡ rs }
    ensures questions { (limit : ℕ) (qs : List Query) (s : State)
        → length (after (in_turn query_written qs) s).bytes ≤ limit
        → that_fit query_written limit qs (length s.bytes) s.suffixes ≡ qs }
{}

/// A larger limit never keeps fewer of the records that begin at one place, after the same suffixes. The same of
/// questions.
pub fn a_larger_limit_keeps_no_fewer()
    ensures records { (small large : ℕ) → small ≤ large
        → (rs : List (Record RData)) (at : ℕ) (stored : List Stored)
        → length (that_fit record_written small rs at stored)
        ≤ length (that_fit record_written large rs at stored) }
    ensures questions { (small large : ℕ) → small ≤ large
        → (qs : List Query) (at : ℕ) (stored : List Stored)
        → length (that_fit query_written small qs at stored)
        ≤ length (that_fit query_written large qs at stored) }
{}

/// An encoder that holds nothing refuses a message only under a limit without room for the header, or for the header and
/// the questions uncompressed; and the number of such a refusal, by any encoder, is that of the questions that do fit
/// (RFC 1035, 4.1; RFC 2181, 9).
pub fn a_refused_message_has_no_room()
    ensures small { (m : MessageValue) (limit : ℕ) (stored : List Stored) (e : ProtoError)
        → message_answer_at limit m 0 stored ≡ Err e → IsTooSmall m limit e }
    // So with room for header and uncompressed questions, after what stands, only memory can lack.
    ensures succeeds { (m : MessageValue) (limit at : ℕ) (stored : List Stored) (e : ProtoError)
        → HasRoom m (limit - at) → message_answer_at limit m at stored ≢ Err e }
    ensures count { (m : MessageValue) (limit at : ℕ) (stored : List Stored) (n : ℕ)
        → message_answer_at limit m at stored ≡ Err (ProtoError.NotAllRecordsWritten n)
        → n ≡ length (parts_of limit m (at + 12) stored).queries.kept }
{}

/// The bytes that are answered are those of the definition `message_bytes`.
pub fn what_is_answered_is_written()
    ensures { (m : MessageValue) (limit : ℕ) (B : List ℕ) → message_answer limit m ≡ Ok B
        → B ≡ message_bytes limit m }
{}

/// What a message loses under a limit didn't fit: of each part, its questions, answers, authorities, additionals, EDNS
/// and signature, a front is kept, and the first that is lost would have passed the limit by its own bytes, compressed
/// as they are (RFC 1035, 4.1 and 4.1.4; RFC 2181, 9).
pub fn what_a_message_loses_did_not_fit()
    ensures queries { (limit : ℕ) (m : MessageValue) (at : ℕ) (stored : List Stored)
        → LostForRoom query_written limit m.queries (parts_of limit m at stored).queries }
    ensures answers { (limit : ℕ) (m : MessageValue) (at : ℕ) (stored : List Stored)
        → LostForRoom record_written limit m.answers (parts_of limit m at stored).answers }
    ensures authorities { (limit : ℕ) (m : MessageValue) (at : ℕ) (stored : List Stored)
        → LostForRoom record_written limit m.authorities (parts_of limit m at stored).authorities }
    ensures additionals { (limit : ℕ) (m : MessageValue) (at : ℕ) (stored : List Stored)
        → LostForRoom record_written limit m.additionals (parts_of limit m at stored).additionals }
    // EDNS is written as an OPT record, which has the high bits of the response code.
    ensures edns { (limit : ℕ) (m : MessageValue) (at : ℕ) (stored : List Stored)
        → LostForRoom record_written limit (as_list (option_map edns_record (raised m)))
        (parts_of limit m at stored).edns }
    ensures signature { (limit : ℕ) (m : MessageValue) (at : ℕ) (stored : List Stored)
        → LostForRoom record_written limit (as_list (option_map signature_record m.signature))
        (parts_of limit m at stored).signature }
{}

/// Under a limit with room for all of a message nothing is lost: where no part is cut under some limit, none is under
/// any other that its end doesn't pass, and the bytes are the same.
pub fn a_message_with_room_is_whole()
    ensures { (larger limit : ℕ) (m : MessageValue) (at : ℕ) (stored : List Stored)
        → AreWhole (parts_of larger m at stored)
        → (parts_of larger m at stored).signature.end ≤ limit
        → parts_of limit m at stored ≡ parts_of larger m at stored }
{}

/// A larger limit never keeps fewer questions, nor, where all questions are kept, fewer answers.
pub fn a_larger_limit_keeps_no_fewer_of_a_message()
    ensures queries { (small large : ℕ) → small ≤ large
        → (m : MessageValue) (at : ℕ) (stored : List Stored)
        → length (parts_of small m at stored).queries.kept
        ≤ length (parts_of large m at stored).queries.kept }
    ensures answers { (small large : ℕ) → small ≤ large
        → (m : MessageValue) (at : ℕ) (stored : List Stored)
        → (parts_of small m at stored).queries.is_cut ≡ false
        → length (parts_of small m at stored).answers.kept
        ≤ length (parts_of large m at stored).answers.kept }
{}

/// Truncating twice is truncating once, and keeps the questions, EDNS and the metadata but TC, which is set.
pub fn truncating_twice_is_once()
    ensures once { (m : MessageValue) → truncated (truncated m) ≡ truncated m }
    ensures keeps { (m : MessageValue)
        → ((truncated m).queries ≡ m.queries) × ((truncated m).edns ≡ m.edns)
        × ((truncated m).metadata ≡ record m.metadata { truncation = true }) }
{}

/// Stripping twice for one client is stripping once. Nothing changes for one who takes records of DNSSEC, nor without a
/// question.
pub fn stripping_twice_is_once()
    ensures once { (takes_dnssec : Bool) (m : MessageValue)
        → stripped takes_dnssec (stripped takes_dnssec m) ≡ stripped takes_dnssec m }
    ensures unchanged { (m : MessageValue) → stripped true m ≡ m }
    ensures unasked { (takes_dnssec : Bool) (m : MessageValue) → m.queries ≡ []
        → stripped takes_dnssec m ≡ m }
{}
