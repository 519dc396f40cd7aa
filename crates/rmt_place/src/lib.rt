//! Places the nodes of a program into the stages of the chip, and starts the stages as early as they may.
#![tactic(auto)]

pub mod demand;
pub mod fault;
mod load;
pub mod order;
pub mod placing;
mod stages;
pub mod start;

pub use order::rule_order;
pub use placing::{place, place_in};
pub use start::offsets;
