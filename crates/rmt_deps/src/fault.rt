//! Why dependencies are not told.

use rmt_bits::fault::OutOfMemory;

/// Why dependencies or levels are not told: for want of memory alone.
pub type DepsFault = OutOfMemory;
