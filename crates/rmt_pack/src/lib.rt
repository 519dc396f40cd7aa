//! How the memory of tables is laid out: their formats, and how their entries lie in a stage's memories.
#![tactic(auto)]

pub mod cell;
pub mod encoding;
pub mod fault;
pub mod format;
pub mod head;
pub mod need;
pub mod placement;
pub mod record;
pub mod rows;
mod run;
pub mod shape;
mod spots;
pub mod tcam;
