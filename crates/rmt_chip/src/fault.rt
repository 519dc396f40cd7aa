//! Why a call of the chip was refused.

use rmt_bits::fault::OutOfMemory;

/// Why a call of the chip was refused: for want of memory alone.
pub type ChipFault = OutOfMemory;
