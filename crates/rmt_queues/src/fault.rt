//! Why queues are not made.

use rmt_bits::fault::OutOfMemory;

/// Why queues are not made: for want of memory alone.
pub type QueueFault = OutOfMemory;
