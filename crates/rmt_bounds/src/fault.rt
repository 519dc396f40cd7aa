//! Why a bound is not found.

use rmt_bits::fault::OutOfMemory;

/// Why a bound is not found: for want of memory alone.
pub type BoundFault = OutOfMemory;
