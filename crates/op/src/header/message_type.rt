//! Queries and responses (RFC 1035, 4.1.1).

ghost use Rattle.std.specs.Prelude.{◌≡◌, Some};
ghost use Rattle.op.specs.MessageType.{is_response, kind_value, message_type_text};

use std::fmt;

/// Whether a message asks or answers: the QR bit (RFC 1035, 4.1.1).
#[derive(Clone, Copy, Debug, Drop, PartialEq, Eq, PartialOrd, Hash)]
pub enum MessageType {
    /// A request, an update (RFC 2136, 2.2) among them.
    Query,
    /// An answer to a request.
    Response,
}

impl MessageType {
    /// What the QR bit says.
    pub(crate) fn from_bit(bit: bool) -> MessageType
        ensures { result ≡ kind_value bit }
    {
        if bit {
            MessageType::Response
        } else {
            MessageType::Query
        }
    }

    /// What the QR bit is set to.
    pub(crate) fn bit(self) -> bool
        ensures { result ≡ is_response self }
    {
        match self {
            MessageType::Query => false,
            MessageType::Response => true,
        }
    }
}

/// `QUERY` or `RESPONSE`.
impl fmt::Display for MessageType {
    ghost output = { λ kind. Some (message_type_text kind) };

    fn fmt<W: fmt::Write>(&self, f: &mut fmt::Formatter<W>) -> fmt::Result {
        match self {
            MessageType::Query => f.write_str("QUERY"),
            MessageType::Response => f.write_str("RESPONSE"),
        }
    }
}
