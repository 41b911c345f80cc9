//! Laws of the codes and of the types of the header. Each is the contract of an empty function.
ghost use Rattle.std.specs.Prelude.{◌≡◌, ◌↔◌, ◌%◌, ◌<◌, ◌^◌, ℕ, Some, IsTrue, false};
ghost use Rattle.op.specs.MessageType.{message_type_cmp};
ghost use Rattle.op.specs.Metadata.{metadata_cmp};
ghost use Rattle.op.specs.OpCode.{op_number, op_value, op_cmp};
ghost use Rattle.op.specs.ResponseCode.{code_number, code_value, code_low, code_high, code_from, code_cmp};
ghost use Rattle.op.specs.Header.{header_cmp};
ghost use Rattle.op.specs.HeaderCounts.{zero_counts, counts_cmp};
ghost use Rattle.op.specs.declared.edns.Edns.{Edns};
ghost use Rattle.op.specs.declared.edns.edns_flags.EdnsFlags.{EdnsFlags};
ghost use Rattle.op.specs.declared.header.Header.{Header};
ghost use Rattle.op.specs.declared.header.flags.Flags.{Flags};
ghost use Rattle.op.specs.declared.header.header_counts.HeaderCounts.{HeaderCounts};
ghost use Rattle.op.specs.declared.header.message_type.MessageType.{MessageType};
ghost use Rattle.op.specs.declared.header.metadata.Metadata.{Metadata};
ghost use Rattle.op.specs.declared.op_code.OpCode.{OpCode};
ghost use Rattle.op.specs.declared.response_code.ResponseCode.{ResponseCode};
ghost use Rattle.op.specs.declared.response_code.ResponseCode.TheVariants as response_codes;

use crate::edns::{Edns, EdnsFlags};
use crate::header::{Flags, Header, HeaderCounts, MessageType, Metadata};
use crate::op_code::OpCode;
use crate::response_code::ResponseCode;

/// The operation of a number has that number.
pub fn op_codes_keep_numbers()
    ensures { (number : ℕ) → number < 2 ^ 8 → op_number (op_value number) ≡ number }
{}

/// The response code of a number has that number.
pub fn response_codes_keep_numbers()
    ensures { (number : ℕ) → number < 2 ^ 16 → code_number (code_value number) ≡ number }
{}

/// The two parts of a response code make up the lowest twelve bits of its number (RFC 6891, 6.1.3).
pub fn parts_make_up_codes()
    ensures { (code : ResponseCode)
        → code_number (code_from (code_high code) (code_low code)) ≡ code_number code % 4096 }
{}

/// The default response code is that of no error.
pub fn default_is_no_error()
    ensures { (code : ResponseCode) → ⟦<ResponseCode as Default>⟧.is_default code
        → code ≡ response_codes.NoError }
{}

/// The default counts are zeros.
pub fn default_counts_are_zero()
    ensures { (counts : HeaderCounts) → ⟦<HeaderCounts as Default>⟧.is_default counts
        → counts ≡ zero_counts }
{}

/// The default flags of EDNS are all clear.
pub fn default_edns_flags_are_clear()
    ensures { (flags : EdnsFlags) → ⟦<EdnsFlags as Default>⟧.is_default flags
        → flags ≡ record { dnssec_ok = false; z = 0 } }
{}

/// Operations are ordered as they are listed, and two unknown ones by number.
pub fn op_codes_are_ordered()
    ensures { (a b : OpCode) → ⟦<OpCode as PartialOrd>⟧.partial_cmp a b ≡ Some (op_cmp a b) }
{}

/// Response codes are ordered as they are listed, and two unknown ones by number.
pub fn response_codes_are_ordered()
    ensures { (a b : ResponseCode)
        → ⟦<ResponseCode as PartialOrd>⟧.partial_cmp a b ≡ Some (code_cmp a b) }
{}

/// Queries stand before responses.
pub fn message_types_are_ordered()
    ensures { (a b : MessageType)
        → ⟦<MessageType as PartialOrd>⟧.partial_cmp a b ≡ Some (message_type_cmp a b) }
{}

/// Metadata is ordered by its fields in turn.
pub fn metadata_is_ordered()
    ensures { (a b : Metadata)
        → ⟦<Metadata as PartialOrd>⟧.partial_cmp a b ≡ Some (metadata_cmp a b) }
{}

/// Counts are ordered by the sections in turn.
pub fn counts_are_ordered()
    ensures { (a b : HeaderCounts)
        → ⟦<HeaderCounts as PartialOrd>⟧.partial_cmp a b ≡ Some (counts_cmp a b) }
{}

/// Headers are ordered by metadata, then counts.
pub fn headers_are_ordered()
    ensures { (a b : Header) → ⟦<Header as PartialOrd>⟧.partial_cmp a b ≡ Some (header_cmp a b) }
{}

/// Two operations are `==` exactly where they are the same.
pub fn equal_op_codes_are_the_same()
    ensures { (a b : OpCode) → IsTrue (⟦<OpCode as PartialEq>⟧.eq a b) ↔ (a ≡ b) }
{}

/// Two response codes are `==` exactly where they are the same.
pub fn equal_response_codes_are_the_same()
    ensures { (a b : ResponseCode) → IsTrue (⟦<ResponseCode as PartialEq>⟧.eq a b) ↔ (a ≡ b) }
{}

/// Two values of flags are `==` exactly where they are the same.
pub fn equal_flags_are_the_same()
    ensures { (a b : Flags) → IsTrue (⟦<Flags as PartialEq>⟧.eq a b) ↔ (a ≡ b) }
{}

/// Two message types are `==` exactly where they are the same.
pub fn equal_message_types_are_the_same()
    ensures { (a b : MessageType) → IsTrue (⟦<MessageType as PartialEq>⟧.eq a b) ↔ (a ≡ b) }
{}

/// Two values of metadata are `==` exactly where they are the same.
pub fn equal_metadata_is_the_same()
    ensures { (a b : Metadata) → IsTrue (⟦<Metadata as PartialEq>⟧.eq a b) ↔ (a ≡ b) }
{}

/// Two values of counts are `==` exactly where they are the same.
pub fn equal_counts_are_the_same()
    ensures { (a b : HeaderCounts) → IsTrue (⟦<HeaderCounts as PartialEq>⟧.eq a b) ↔ (a ≡ b) }
{}

/// Two headers are `==` exactly where they are the same.
pub fn equal_headers_are_the_same()
    ensures { (a b : Header) → IsTrue (⟦<Header as PartialEq>⟧.eq a b) ↔ (a ≡ b) }
{}

/// Two values of the flags of EDNS are `==` exactly where they are the same.
pub fn equal_edns_flags_are_the_same()
    ensures { (a b : EdnsFlags) → IsTrue (⟦<EdnsFlags as PartialEq>⟧.eq a b) ↔ (a ≡ b) }
{}

/// Two values of EDNS are `==` exactly where they are the same, options and all.
pub fn equal_edns_is_the_same()
    ensures { (a b : Edns) → IsTrue (⟦<Edns as PartialEq>⟧.eq a b) ↔ (a ≡ b) }
{}
