//! What tests of several crates begin with.

pub mod images;
pub mod programs;
pub mod shown;
pub mod texts;
