//! The counts of a header (RFC 1035, 4.1.1).

/// How many items each section of a message holds (RFC 1035, 4.1.1).
#[derive(Clone, Copy, Debug, Default, Drop, PartialEq, Eq, PartialOrd, Hash)]
pub struct HeaderCounts {
    /// QDCOUNT: the questions.
    pub queries: u16,
    /// ANCOUNT: the records among the answers.
    pub answers: u16,
    /// NSCOUNT: the records among the authorities.
    pub authorities: u16,
    /// ARCOUNT: the records among the additionals, OPT and the signature with them.
    pub additionals: u16,
}
