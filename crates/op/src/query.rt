//! Questions (RFC 1035, 4.1.2).

ghost use Rattle.std.specs.Prelude.{◌≡◌, ◌↔◌, ◌+◌, ◌++◌, ◌<◌, ◌^◌, ℕ, List, length, Ok, Err, Some, IfErr, IfOk, OnOk, IsTrue, [], true};
ghost use Rattle.std.specs.Int.{w16, to_be_bytes};
ghost use Rattle.base.specs.writing.Laws.{Keeps};
ghost use Rattle.base.specs.names.NameOrder.{same_name};
ghost use Rattle.base.specs.writing.Wire.{state_of};
ghost use Rattle.base.specs.reading.Tracks.{Tracks};
ghost use Rattle.base.specs.Words.{IsNumberAt};
ghost use Rattle.base.specs.writing.Written.{Exactly, just};
ghost use Rattle.op.specs.Places.{query_places};
ghost use Rattle.op.specs.Query.{FitsQuery, IsQueryAt, IsQueryFault, QueryWord, plain_query, plain_question, query_at, query_text, query_written, query_value, raw_query};
ghost use Rattle.op.specs.QuerySays.{QueryKept, query_says};
ghost use Rattle.op.specs.declared.query.Query.{Query};

use base::{
    BinDecodable, BinDecoder, BinEncodable, BinEncoder, DNSClass, DecodeError, Name, ProtoError,
    RecordType,
};
use std::alloc::{AllocError, Global};
use std::fmt;
use std::hash::Hash;

/// A question: which records of a name are asked for (RFC 1035, 4.1.2).
///
/// Equal questions have equal names, letters folded, and the same type, class and bit.
#[derive(Debug, Drop, PartialEq, Eq, Hash)]
pub struct Query {
    /// QNAME: the name that is asked for.
    pub name: Name,
    /// QTYPE: the type of the records that are asked for.
    pub query_type: RecordType,
    /// QCLASS: their class.
    pub query_class: DNSClass,
    /// The top bit of the class field: an answer by unicast is asked for (RFC 6762, 5.4).
    pub mdns_unicast_response: bool,
}

impl Query {
    /// The question for the addresses of the root in the class IN. Takes no memory.
    pub fn new(alloc: Global) -> Query
        ensures { result ≡ plain_question (record { labels = []; absolute = true }) RecordType.A }
    {
        Query::query(Name::root(alloc), RecordType::A)
    }

    /// The question for the records of a type of a name in the class IN. Takes no memory.
    pub fn query(name: Name, query_type: RecordType) -> Query
        ensures { result ≡ plain_question name query_type }
    {
        Query {
            name,
            query_type,
            query_class: DNSClass::IN,
            mdns_unicast_response: false,
        }
    }

    /// Asks for another name. The other fields stay.
    pub fn set_name(&mut self, name: Name) -> &mut Query
        // The reference that is answered is `self` itself.
        ensures same { result.ghost_name ≡ self.entry.ghost_name }
        ensures value { result.now ≡ record self.old { name = name } }
    {
        self.name = name;
        self
    }

    /// Asks for another type. The other fields stay.
    pub fn set_query_type(&mut self, query_type: RecordType) -> &mut Query
        // The reference that is answered is `self` itself.
        ensures same { result.ghost_name ≡ self.entry.ghost_name }
        ensures value { result.now ≡ record self.old { query_type = query_type } }
    {
        self.query_type = query_type;
        self
    }

    /// Asks in another class. The other fields stay.
    pub fn set_query_class(&mut self, query_class: DNSClass) -> &mut Query
        // The reference that is answered is `self` itself.
        ensures same { result.ghost_name ≡ self.entry.ghost_name }
        ensures value { result.now ≡ record self.old { query_class = query_class } }
    {
        self.query_class = query_class;
        self
    }

    /// Asks for an answer by unicast, or not (RFC 6762, 5.4). The other fields stay.
    pub fn set_mdns_unicast_response(&mut self, flag: bool) -> &mut Query
        // The reference that is answered is `self` itself.
        ensures same { result.ghost_name ≡ self.entry.ghost_name }
        ensures value { result.now ≡ record self.old { mdns_unicast_response = flag } }
    {
        self.mdns_unicast_response = flag;
        self
    }

    /// The name that is asked for.
    pub fn name(&self) -> &Name
        ensures { result.now ≡ self.now.name }
    {
        &self.name
    }

    /// The type that is asked for.
    pub fn query_type(&self) -> RecordType
        ensures { result ≡ self.now.query_type }
    {
        self.query_type
    }

    /// The class that is asked in.
    pub fn query_class(&self) -> DNSClass
        ensures { result ≡ self.now.query_class }
    {
        self.query_class
    }

    /// Whether an answer by unicast is asked for (RFC 6762, 5.4).
    pub fn mdns_unicast_response(&self) -> bool
        ensures { result ≡ self.now.mdns_unicast_response }
    {
        self.mdns_unicast_response
    }
}

impl Clone for Query {
    ghost is_clone = { λ a b. b ≡ a };

    /// The same question.
    ///
    /// # Errors
    ///
    /// If memory runs out.
    fn clone(&self) -> Result<Query, AllocError> {
        Ok(Query {
            name: self.name.clone()?,
            query_type: self.query_type,
            query_class: self.query_class,
            mdns_unicast_response: self.mdns_unicast_response,
        })
    }
}

impl BinEncodable for Query {
    ghost word = { QueryWord };

    ghost plain_len = { plain_query };

    ghost owner = { λ q. q.name.labels };

    ghost written = { query_written };

    ghost fits = { QueryKept };

    ghost says = { query_says };

    /// Writes the name, compressed where it can be, the type and the class, whose top bit is set where an answer by
    /// unicast is asked for (RFC 1035, 4.1.2 and 4.1.4; RFC 6762, 5.4).
    ///
    /// # Errors
    ///
    /// `MaxBufferSizeExceeded` where a byte would pass the limit; `Memory` if memory runs out.
    #[tactic(auto, using(base::proofs::writing::LawLemmas::writing))]
    fn emit(&self, encoder: &mut BinEncoder<'_>) -> Result<(), ProtoError> {
        self.name.emit(encoder)?;
        let class = self.query_class.to_field(self.mdns_unicast_response);
        emit_fields(u16::from(self.query_type), class, encoder)
    }
}

/// Writes type and class, the high byte of each first. They are written at once, since that is faster.
fn emit_fields(query_type: u16, class: u16, encoder: &mut BinEncoder<'_>) -> Result<(), ProtoError>
    // Whatever the answer, what stood before stays, and no byte is written past the limit.
    ensures keeps { Keeps (state_of encoder.old) (state_of encoder.new) }
    // Type and class are below 2^16.
    ensures fits { (query_type < 2 ^ 16) × (class < 2 ^ 16) }
    // After `Ok` exactly these four bytes were written; refused for the limit only where they would
    // pass it.
    ensures exact { Exactly (just (to_be_bytes w16 query_type ++ to_be_bytes w16 class))
        (state_of encoder.old) (state_of encoder.new) result }
{
    let mut fields = [0; 4];
    fields[..2].copy_from_slice(&query_type.to_be_bytes());
    fields[2..].copy_from_slice(&class.to_be_bytes());
    encoder.emit_slice(&fields)
}

/// What stands after the name of a question.
#[derive(Clone, Copy, Drop)]
struct Fields {
    query_type: u16,
    class: u16,
}

/// Reads type and class. They are read at once, since that is faster.
fn read_fields(decoder: &mut BinDecoder<'_>) -> Result<Fields, DecodeError>
    // Type and class stand at the place, one after the other.
    ensures found { let B = decoder.old.bytes in let i = decoder.old.index in
        IfOk result (λ f. IsNumberAt w16 B i f.query_type × IsNumberAt w16 B (i + 2) f.class) }
    // The decoder stands after these four bytes.
    ensures after { OnOk result ((decoder.new.index ≡ decoder.old.index + 4)
        × (decoder.new.bytes ≡ decoder.old.bytes)) }
    // Refused only where fewer than four bytes are left.
    ensures short { IfErr result (λ e. (e ≡ DecodeError.InsufficientBytes)
        × (length decoder.old.bytes < decoder.old.index + 4)) }
    // As of every read, see `BinDecodable::read`: no name is read.
    ensures tracks { Tracks (λ _. []) decoder.old decoder.new result }
{
    let [type_high, type_low, class_high, class_low] = decoder.read_array::<4>()?;
    Ok(Fields {
        query_type: u16::from_be_bytes([type_high, type_low]),
        class: u16::from_be_bytes([class_high, class_low]),
    })
}

impl BinDecodable for Query {
    ghost read_at = { query_at };

    ghost names_at = { query_places };

    /// Reads a question at the decoder's place, and moves after it. The top bit of the class field is the unicast bit
    /// (RFC 1035, 4.1.2; RFC 6762, 5.4).
    ///
    /// # Errors
    ///
    /// The first fault of its name, `InsufficientBytes` or `BadName`; `InsufficientBytes` where the end cuts type or
    /// class; `Memory` where there is none for the name.
    #[tactic(auto, unfolding(crate::specs::Query::query_at))]
    fn read(decoder: &mut BinDecoder<'_>) -> Result<Query, DecodeError> {
        let name = Name::read(decoder)?;
        let fields = read_fields(decoder)?;
        let (query_class, mdns_unicast_response) = DNSClass::from_field(fields.class);
        Ok(Query {
            name,
            query_type: RecordType::from(fields.query_type),
            query_class,
            mdns_unicast_response,
        })
    }
}

/// `name class type; mdns_unicast_response: BOOL`.
impl fmt::Display for Query {
    ghost output = { λ q. Some (query_text q) };

    fn fmt<W: fmt::Write>(&self, f: &mut fmt::Formatter<W>) -> fmt::Result {
        write!(
            f,
            "{} {} {}; mdns_unicast_response: {}",
            self.name, self.query_class, self.query_type, self.mdns_unicast_response
        )
    }
}

/// Reading a question is the question word, and refuses with its first fault (RFC 1035, 4.1.2). A question
/// that fits, and was written, is read as the same question; of one whose class number has the top bit, that
/// bit is read as the wish for a unicast response.
pub fn reading_is_the_question_word()
    // A question is read, with its end, exactly where its word stands.
    ensures word { (B : List ℕ) (i : ℕ) (q : Query) (e : ℕ)
        → (query_at B i ≡ Ok (q, e)) ↔ IsQueryAt B i q e }
    // Reading a question is refused exactly with its first fault in the terms of the standard.
    ensures fault { (B : List ℕ) (i : ℕ) (f : DecodeError)
        → (query_at B i ≡ Err f) ↔ IsQueryFault B i f }
    // Where a question was written, the question stands that its fields on the wire are read as.
    ensures written { (B : List ℕ) (i : ℕ) (q : Query) (e : ℕ) → QueryWord q B i e
        → IsQueryAt B i (query_value (raw_query q)) e }
    // Of a question that fits, that is the same question.
    ensures same { (q : Query) → FitsQuery q → query_value (raw_query q) ≡ q }
{}

/// Questions are equal where their names are, letters folded, and their types, classes and bits are the
/// same; and equal questions hash alike.
pub fn equal_questions()
    ensures equal { (a b : Query)
        → IsTrue (⟦<Query as PartialEq>⟧.eq a b)
        ↔ (IsTrue (same_name a.name b.name) × (a.query_type ≡ b.query_type)
        × (a.query_class ≡ b.query_class) × (a.mdns_unicast_response ≡ b.mdns_unicast_response)) }
    ensures hashed { (a b : Query) → IsTrue (⟦<Query as PartialEq>⟧.eq a b)
        → ⟦<Query as Hash>⟧.hash_input a ≡ ⟦<Query as Hash>⟧.hash_input b }
{}
