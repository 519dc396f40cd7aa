//! The cells of tables with their entries: as the configuration holds them, as they spell entries, and where they stand.
#![tactic(auto)]

mod cells;
mod entry;
pub mod grid;
pub mod kept;
pub mod nodes;
pub mod ordered;
mod parts;
mod ranks;
pub mod row_order;
mod rows;
pub mod shape;
pub mod spot;
pub mod spots;
pub mod table;
pub mod told;
mod words;
pub mod written;
