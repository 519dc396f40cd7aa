//! Why a report was not made.

use rmt_bits::fault::OutOfMemory;

/// Why a report was not made: for want of memory alone.
pub type ReportFault = OutOfMemory;
