//! The chip's parser: how it is made for a program, and how a frame becomes a header vector by it.
#![tactic(auto)]

pub mod clustered;
pub mod fault;
pub mod joining;
pub mod joins;
pub mod parse;
pub mod plain;

pub use clustered::clustered_parser;
pub use joining::join;
pub use joins::{joins_of, replayed};
pub use parse::parse_chip;
pub use plain::need::parser_need;
pub use plain::plain_parser;
