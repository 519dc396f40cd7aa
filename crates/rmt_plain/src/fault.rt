//! Why a call was refused.

use rmt_bits::fault::OutOfMemory;

/// Why a call was refused: for want of memory alone.
pub type PlainFault = OutOfMemory;
