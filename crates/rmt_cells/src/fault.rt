//! Why cells are not made, and why bytes find none.

use rmt_bits::fault::OutOfMemory;
use thiserror::Error;

/// Why cells are not made: for want of memory alone.
pub type CellsFault = OutOfMemory;

/// The bytes need more cells than are free.
#[derive(Debug, Drop, Error)]
#[error("more cells are needed than are free")]
pub struct Full;
