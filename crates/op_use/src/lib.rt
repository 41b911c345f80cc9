//! What stands on messages: updates and what they mean (RFC 2136), responses and what they say (RFC 2308, 5), and
//! messages with the address that they came from.
#![tactic(auto)]

pub mod apply;
pub mod dns_response;
pub mod serial;
pub mod serial_message;
pub mod server_rows;
pub mod update_message;

pub use apply::{Applied, apply_in_place, apply_update, is_supported_type, update_in_place};
pub use dns_response::DnsResponse;
pub use serial::raise_serial;
pub use serial_message::SerialMessage;
pub use update_message::UpdateMessage;
