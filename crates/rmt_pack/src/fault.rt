//! Why a part of a table is not packed.

use rmt_bits::fault::OutOfMemory;

/// Why a part of a table is not packed: for want of memory alone.
pub type PackFault = OutOfMemory;
