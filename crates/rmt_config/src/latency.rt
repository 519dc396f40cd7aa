//! How long packets stay in the chip.

ghost use Rattle.std.specs.Prelude.{◌≡◌};
ghost use Rattle.rmt_config.specs.ChipRun.{latency_of};

use crate::config::Stage;

/// The age at which a packet leaves, in cycles: 12 behind the last start, or 0 where there is no stage.
pub fn latency(stages: &[Stage]) -> u32
    ensures { result ≡ latency_of stages.now }
{
    match stages.last() {
        Some(stage) => stage.start as u32 + 12,
        None => 0,
    }
}
