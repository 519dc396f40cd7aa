//! The items of an image, as headers, stages and names: their bytes, read from the front and written.
#![tactic(auto)]

pub mod fault;
pub mod reading;
pub mod writing;
