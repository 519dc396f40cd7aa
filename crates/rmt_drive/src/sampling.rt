//! Cycles of a chip of which only counts are kept.

mod enter;
pub mod line;
pub mod run;
pub mod tally;
