//! DNS messages: the codes and the header, and above them questions, EDNS and whole messages.
#![tactic(auto)]

pub mod edns;
pub mod header;
pub mod laws;
pub mod lower_query;
pub mod message;
pub mod op_code;
pub mod query;
pub mod response_code;

pub use edns::{DEFAULT_MAX_PAYLOAD_LEN, Edns, EdnsFlags};
pub use header::{Flags, Header, HeaderCounts, MessageType, Metadata};
pub use lower_query::LowerQuery;
pub use message::{AllSections, Message, TakeAllSections};
pub use op_code::OpCode;
pub use query::Query;
pub use response_code::ResponseCode;
