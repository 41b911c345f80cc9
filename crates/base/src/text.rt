//! The tokens of zone text and the texts of TTLs (RFC 1035, 5.1), the lexer of the original's `serialize::txt`.

mod cutting;
pub mod laws;
pub mod lexer;
pub mod token;
pub mod ttl;

pub use lexer::Lexer;
pub use token::{Token, TokenRef};
pub use ttl::parse_ttl;
