//! Questions that also have their name in lower case, by which records are looked up.

ghost use Rattle.std.specs.Prelude.{◌≡◌, IfOk, IsOkUnless, MatchResult, Some};
ghost use Rattle.base.specs.declared.error.proto_error.ProtoError.TheVariants as refusals;
ghost use Rattle.std.specs.Cmp.{partial_equiv_from_equiv};
ghost use Rattle.base.specs.names.NameOrder.{lowered};
ghost use Rattle.op.specs.contracts.query.QueryEq.TheImpl.Laws.{laws-law as query_laws};
ghost use Rattle.op.specs.LowerQuery.{lower_query_text};
ghost use Rattle.op.specs.Places.{query_places};
ghost use Rattle.op.specs.Query.{QueryWord, plain_query, query_at, query_written};
ghost use Rattle.op.specs.QuerySays.{QueryKept, query_says};

use crate::query::Query;
use base::{
    BinDecodable, BinDecoder, BinEncodable, BinEncoder, DNSClass, DecodeError, LowerName,
    ProtoError, RecordType,
};
use std::alloc::{AllocError, Global};
use std::fmt;
use std::marker::Model;

/// A question, and its name in lower case (RFC 4343, 3). Contracts see the question.
#[derive(Debug, Drop)]
pub struct LowerQuery {
    name: LowerName,
    original: Query,
}

impl Model for LowerQuery {
    ghost use Rattle.std.specs.Prelude.{◌≡◌};
    ghost use Rattle.base.specs.names.NameOrder.{lowered};
    ghost use Rattle.op.specs.declared.query.Query.{Query};

    ghost Value = { Query };

    ghost view = { λ q. q.original };

    ghost invariant = { λ q. q.name ≡ lowered q.original.name };
}

impl LowerQuery {
    /// The question with its name in lower case beside it.
    ///
    /// # Errors
    ///
    /// `Memory` alone, if memory runs out.
    pub fn query(alloc: Global, question: Query) -> Result<LowerQuery, ProtoError>
        ensures value { IfOk result (λ lower. lower ≡ question) }
        ensures only { IsOkUnless result ProtoError.Memory }
    {
        Ok(LowerQuery {
            name: LowerName::new(alloc, &question.name)?,
            original: question,
        })
    }

    /// The name in lower case.
    pub fn name(&self) -> &LowerName
        ensures { result.now ≡ lowered self.now.name }
    {
        &self.name
    }

    /// The question as it was asked.
    pub fn original(&self) -> &Query
        ensures { result.now ≡ self.now }
    {
        &self.original
    }

    /// The type that is asked for.
    pub fn query_type(&self) -> RecordType
        ensures { result ≡ self.now.query_type }
    {
        self.original.query_type
    }

    /// The class that is asked in.
    pub fn query_class(&self) -> DNSClass
        ensures { result ≡ self.now.query_class }
    {
        self.original.query_class
    }
}

impl TryFrom<Query> for LowerQuery {
    type Error = ProtoError;

    ghost try_from_gives = { λ query result. MatchResult result (λ lower. lower ≡ query)
        (λ e. e ≡ refusals.Memory) };

    /// The question with its name in lower case beside it (RFC 4343, 3), as `query` answers it.
    ///
    /// # Errors
    ///
    /// `Memory` if memory runs out.
    fn try_from(query: Query) -> Result<LowerQuery, ProtoError> {
        LowerQuery::query(query.name.allocator(), query)
    }
}

impl Clone for LowerQuery {
    ghost is_clone = { λ a b. b ≡ a };

    /// The same question.
    ///
    /// # Errors
    ///
    /// If memory runs out.
    fn clone(&self) -> Result<LowerQuery, AllocError> {
        Ok(LowerQuery {
            name: self.name.clone()?,
            original: self.original.clone()?,
        })
    }
}

impl PartialEq for LowerQuery {
    ghost eq = { ⟦<Query as PartialEq>⟧.eq };

    ghost laws = { partial_equiv_from_equiv query_laws };

    fn eq(&self, other: &LowerQuery) -> bool {
        self.original == other.original
    }
}

impl Eq for LowerQuery {
    ghost laws = { query_laws };
}

impl BinEncodable for LowerQuery {
    ghost word = { QueryWord };

    ghost plain_len = { plain_query };

    ghost owner = { λ q. q.name.labels };

    ghost written = { query_written };

    ghost fits = { QueryKept };

    ghost says = { query_says };

    /// Writes the question as it was asked (RFC 1035, 4.1.2).
    ///
    /// # Errors
    ///
    /// `MaxBufferSizeExceeded` where a byte would pass the limit; `Memory` if memory runs out.
    fn emit(&self, encoder: &mut BinEncoder<'_>) -> Result<(), ProtoError> {
        self.original.emit(encoder)
    }
}

impl BinDecodable for LowerQuery {
    ghost read_at = { query_at };

    ghost names_at = { query_places };

    /// Reads a question at the decoder's place, and moves after it (RFC 1035, 4.1.2).
    ///
    /// # Errors
    ///
    /// The fault of `Query::read`; `Memory` also where the name in lower case can't be allocated.
    fn read(decoder: &mut BinDecoder<'_>) -> Result<LowerQuery, DecodeError> {
        let original = Query::read(decoder)?;
        let name = LowerName::new(decoder.allocator(), &original.name).map_err(
            |_| DecodeError::Memory,
        )?;
        Ok(LowerQuery { name, original })
    }
}

/// `name: N type: T class: C`, N in lower case.
impl fmt::Display for LowerQuery {
    ghost output = { λ q. Some (lower_query_text q) };

    fn fmt<W: fmt::Write>(&self, f: &mut fmt::Formatter<W>) -> fmt::Result {
        write!(
            f,
            "name: {} type: {} class: {}",
            self.name,
            self.query_type(),
            self.query_class()
        )
    }
}
