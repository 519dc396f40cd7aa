//! The map of a compiled program as a file, and what verify looks at: whether a configuration and a map belong to a
//! program.
#![tactic(auto)]

mod all;
pub mod cells;
mod checked;
pub mod checking;
pub mod edges;
mod fault;
pub mod instructions;
mod map_file;
pub mod names;
pub mod parser;
pub mod places;
mod reading;
mod same;
pub mod units;
mod writing;

pub use cells::cells_hold;
pub use checked::Checked;
pub use checking::check_map;
pub use edges::{edges_hold, parts_stand};
pub use fault::{MapFault, VerifyFault};
pub use instructions::code_holds;
pub use map_file::MapFile;
pub use names::names_hold;
pub use parser::parser_holds;
pub use places::places_hold;
pub use reading::{read_map, spells_one};
pub use units::units_hold;
pub use writing::write_map;
