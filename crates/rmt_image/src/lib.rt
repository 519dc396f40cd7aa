//! Images: the bytes of a configuration, written and read.
#![tactic(auto)]

pub mod laws;
mod reading;
mod writing;

pub use reading::{answers_one, read_image, spells_one};
pub use rmt_items::fault::ImageFault;
pub use writing::write_image;
