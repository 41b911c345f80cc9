//! Messages as bytes, with the address that they came from or go to.

ghost use Rattle.std.specs.Prelude.{◌≡◌, ◌⊎◌, ℕ, IfErr, IfOk, MatchResult};
ghost use Rattle.base.specs.reading.Reading.{Fails};
ghost use Rattle.op.specs.Fault.{IsMessageFault};
ghost use Rattle.op.specs.Fits.{Fits};
ghost use Rattle.op.specs.Message.{IsMessageAt, MessageValue, message_at, message_value};

use base::DecodeError;
use op::Message;
use std::alloc::Global;
use std::marker::Model;
use std::net::SocketAddr;

/// The bytes of a message, and the address that they came from or go to.
///
/// Contracts see it as its bytes and its address.
#[derive(Drop)]
pub struct SerialMessage {
    message: Vec<u8>,
    addr: SocketAddr,
}

impl Model for SerialMessage {
    ghost use Rattle.op_use.specs.SerialMessage.{SerialValue};

    ghost Value = { SerialValue };

    ghost view = { λ s. record { bytes = s.message.items; addr = s.addr } };
}

impl SerialMessage {
    /// These bytes and the address.
    pub fn new(message: Vec<u8>, addr: SocketAddr) -> SerialMessage
        ensures { result ≡ record { bytes = message.items; addr = addr } }
    {
        SerialMessage { message, addr }
    }

    /// The bytes.
    pub fn bytes(&self) -> &[u8]
        ensures { result.now ≡ self.now.bytes }
    {
        &self.message
    }

    /// The address.
    pub fn addr(&self) -> SocketAddr
        ensures { result ≡ self.now.addr }
    {
        self.addr
    }

    /// The bytes and the address.
    pub fn into_parts(self) -> (Vec<u8>, SocketAddr)
        ensures bytes { result.0.items ≡ self.bytes }
        ensures addr { result.1 ≡ self.addr }
    {
        (self.message, self.addr)
    }

    /// These bytes and the address, as `new`.
    pub fn from_parts(message: Vec<u8>, addr: SocketAddr) -> SerialMessage
        ensures { result ≡ record { bytes = message.items; addr = addr } }
    {
        SerialMessage::new(message, addr)
    }

    /// The message that the bytes begin with, as `Message::from_vec` reads it; bytes after it are not looked at (RFC
    /// 1035, 4.1).
    ///
    /// # Errors
    ///
    /// The first fault of bytes that begin with no message; `Memory` if memory runs out.
    pub fn to_message(&self) -> Result<Message, DecodeError>
        ensures found { IfOk result (λ m. (e : ℕ)
            × IsMessageAt self.now.bytes 0 (message_value m) e) }
        // Where a message begins the bytes, it is that one, unless memory runs out.
        ensures only { (m : MessageValue) (e : ℕ) → IsMessageAt self.now.bytes 0 m e
            → MatchResult result (λ read. message_value read ≡ m) (λ f. f ≡ DecodeError.Memory) }
        // A refusal is the fault of the definition `message_at`, or memory ran out.
        ensures refused { IfErr result (λ f. Fails f (message_at self.now.bytes 0)) }
        // Unless memory ran out, that is the first fault in the terms of the standard.
        ensures fault { IfErr result (λ f. (f ≡ DecodeError.Memory)
            ⊎ IsMessageFault self.now.bytes 0 f) }
        // A message that was read can stand on the wire, and is read there as it was.
        ensures fits { IfOk result (λ m. Fits (message_value m)) }
    {
        Message::from_vec(*self.message.allocator(), &self.message)
    }
}

impl From<(Vec<u8>, SocketAddr)> for SerialMessage {
    ghost from_gives = { λ parts s. s ≡ record { bytes = parts.0.items; addr = parts.1 } };

    fn from(parts: (Vec<u8>, SocketAddr)) -> SerialMessage {
        SerialMessage::new(parts.0, parts.1)
    }
}

impl From<SerialMessage> for (Vec<u8>, SocketAddr) {
    ghost from_gives = { λ s parts. s ≡ record { bytes = parts.0.items; addr = parts.1 } };

    fn from(message: SerialMessage) -> (Vec<u8>, SocketAddr) {
        message.into_parts()
    }
}
