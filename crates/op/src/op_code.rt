//! Operation codes (RFC 1035, 4.1.1).

ghost use Rattle.std.specs.Prelude.{◌≡◌, Some};
ghost use Rattle.op.specs.OpCode.{op_number, op_value, op_text};

use std::fmt;

/// What a message asks for (RFC 1035, 4.1.1; RFC 1996; RFC 2136).
///
/// The header has four bits for it, so the numbers from 16 on don't fit the wire.
#[derive(Clone, Copy, Debug, Drop, PartialEq, Eq, PartialOrd, Hash)]
pub enum OpCode {
    /// A standard query (RFC 1035, 4.1.1).
    Query,
    /// A server status request (RFC 1035, 4.1.1).
    Status,
    /// A notice that a zone has changed (RFC 1996, 3).
    Notify,
    /// A change of a zone (RFC 2136, 2.2).
    Update,
    /// Any other number.
    Unknown(u8),
}

impl OpCode {
    /// The operation of a number.
    pub fn from_u8(number: u8) -> OpCode
        ensures { result ≡ op_value number }
    {
        match number {
            0 => OpCode::Query,
            2 => OpCode::Status,
            4 => OpCode::Notify,
            5 => OpCode::Update,
            _ => OpCode::Unknown(number),
        }
    }
}

impl From<OpCode> for u8 {
    ghost from_gives = { λ code number. number ≡ op_number code };

    /// The number of the operation (RFC 1035, 4.1.1; RFC 6895, 2.2).
    fn from(code: OpCode) -> u8 {
        match code {
            OpCode::Query => 0,
            OpCode::Status => 2,
            OpCode::Notify => 4,
            OpCode::Update => 5,
            OpCode::Unknown(number) => number,
        }
    }
}

/// The name in upper case, and `Unknown opcode (n)` for a number without one.
impl fmt::Display for OpCode {
    ghost output = { λ code. Some (op_text code) };

    fn fmt<W: fmt::Write>(&self, f: &mut fmt::Formatter<W>) -> fmt::Result {
        match self {
            OpCode::Query => f.write_str("QUERY"),
            OpCode::Status => f.write_str("STATUS"),
            OpCode::Notify => f.write_str("NOTIFY"),
            OpCode::Update => f.write_str("UPDATE"),
            OpCode::Unknown(number) => write!(f, "Unknown opcode ({number})"),
        }
    }
}
