//! A header without its counts (RFC 1035, 4.1.1).

ghost use Rattle.std.specs.Prelude.{◌≡◌, Some};
ghost use Rattle.op.specs.Metadata.{plain_metadata, response_metadata, metadata_flags, metadata_text};
ghost use Rattle.op.specs.ResponseCode.{code_low, code_from, code_label};

use super::{Flags, MessageType};
use crate::op_code::OpCode;
use crate::response_code::ResponseCode;
use std::fmt;

/// A header without its counts: id, codes and flags (RFC 1035, 4.1.1).
#[derive(Clone, Copy, Debug, Drop, PartialEq, Eq, PartialOrd, Hash)]
pub struct Metadata {
    /// ID: chosen by the one who asks, and copied into the response.
    pub id: u16,
    /// QR: whether the message asks or answers.
    pub message_type: MessageType,
    /// OPCODE: what is asked for.
    pub op_code: OpCode,
    /// AA: the answering server has authority over the name asked for.
    pub authoritative: bool,
    /// TC: the message was cut.
    pub truncation: bool,
    /// RD: the server is to ask others where it must.
    pub recursion_desired: bool,
    /// RA: the server asks others where it must.
    pub recursion_available: bool,
    /// AD: the server has checked the signatures of the answer (RFC 4035, 3.1.6).
    pub authentic_data: bool,
    /// CD: the server need not check signatures (RFC 4035, 3.1.6).
    pub checking_disabled: bool,
    /// RCODE: what became of the request. Of its number the header holds the lowest four bits.
    pub response_code: ResponseCode,
}

impl Metadata {
    /// Metadata of that id, type and operation, without any flag and without an error.
    pub fn new(id: u16, message_type: MessageType, op_code: OpCode) -> Metadata
        ensures { result ≡ plain_metadata id message_type op_code }
    {
        Metadata {
            id,
            message_type,
            op_code,
            authoritative: false,
            truncation: false,
            recursion_desired: false,
            recursion_available: false,
            authentic_data: false,
            checking_disabled: false,
            response_code: ResponseCode::NoError,
        }
    }

    /// The metadata that a response to the request begins with: its id, operation, RD and CD, without any other flag
    /// and without an error (RFC 1035, 4.1.1; RFC 6895, 2).
    pub fn response_from_request(request: &Metadata) -> Metadata
        ensures { result ≡ response_metadata request.now }
    {
        let mut response = Metadata::new(request.id, MessageType::Response, request.op_code);
        response.recursion_desired = request.recursion_desired;
        response.checking_disabled = request.checking_disabled;
        response
    }

    /// The six flags (RFC 1035, 4.1.1; RFC 4035, 3.1.6).
    pub fn flags(&self) -> Flags
        ensures { result ≡ metadata_flags self.now }
    {
        Flags {
            authoritative: self.authoritative,
            truncation: self.truncation,
            recursion_desired: self.recursion_desired,
            recursion_available: self.recursion_available,
            authentic_data: self.authentic_data,
            checking_disabled: self.checking_disabled,
        }
    }

    /// Puts an OPT record's eight bits above the lowest four of the code, and keeps no others (RFC 6891, 6.1.3).
    pub fn merge_response_code(&mut self, high: u8)
        ensures { self.new
            ≡ record self.old { response_code = code_from high (code_low self.old.response_code) } }
    {
        self.response_code = ResponseCode::from(high, self.response_code.low());
    }
}

/// `id:TYPE:FLAGS:CODE:OPCODE`, where CODE is the code's name, and `Unknown(n)` for a number without one.
impl fmt::Display for Metadata {
    ghost output = { λ metadata. Some (metadata_text metadata) };

    fn fmt<W: fmt::Write>(&self, f: &mut fmt::Formatter<W>) -> fmt::Result {
        let flags = self.flags();
        let label = Label(self.response_code);
        write!(
            f,
            "{}:{}:{flags}:{label}:{}",
            self.id, self.message_type, self.op_code
        )
    }
}

/// A code by its name, or by its number where it has none.
#[derive(Clone, Copy, Drop)]
struct Label(ResponseCode);

impl fmt::Display for Label {
    ghost output = { λ label. Some (code_label label.0) };

    fn fmt<W: fmt::Write>(&self, f: &mut fmt::Formatter<W>) -> fmt::Result {
        match self.0.name() {
            Some(name) => f.write_str(name),
            None => write!(f, "Unknown({})", u16::from(self.0)),
        }
    }
}
