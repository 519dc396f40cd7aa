//! What a configuration uses of the chip, as a text.
#![tactic(auto)]

mod fault;
mod named;
mod stage_use;
mod stages;
mod text;

pub use fault::ReportFault;
pub use text::report;
