//! Images with which tests of several crates begin.

pub mod image_bytes;
pub mod image_texts;
