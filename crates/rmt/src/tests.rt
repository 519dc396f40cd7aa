//! What standard error is told, which no clause says: the rows of the commands stand in crates of tests above rmt_core.

mod endings;
mod messages;
