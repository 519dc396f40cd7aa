//! What a stage uses of the chip, in numbers.

ghost use Rattle.std.specs.Prelude.{◌≡◌};
ghost use Rattle.rmt_report.specs.StageUse.{use_of};
ghost use Rattle.rmt_report.specs.Fits.{StageFits};

use rmt_config::config::Stage;
use rmt_config::limits::crossbar::{exact_bits, ternary_bits};
use rmt_config::limits::total::{Resource, total};

/// What a stage uses of the chip.
#[derive(Clone, Copy, Debug, PartialEq, Eq)]
pub struct StageUse {
    /// The data bits of an entry, over all slots; the chip has 1,280.
    pub data_bits: u32,
    /// The bits of the words that exact keys read, each word whole and once; the chip has 640.
    pub exact_bits: u32,
    /// Gates; the chip has 16.
    pub gates: u32,
    /// Instructions: one for each action of a slot and one for its default; the chip has 32.
    pub instructions: u32,
    /// Slots: tables, and parts of tables that stand in several stages; the chip has 16.
    pub slots: u32,
    /// SRAM blocks; the chip has 106.
    pub sram: u32,
    /// The age of a packet, in cycles, at which the stage starts, at most 372.
    pub start: u16,
    /// TCAM blocks; the chip has 16.
    pub tcam: u32,
    /// The bits of the words that prefix and ternary keys and gates read, each word whole and once; the chip has 640.
    pub ternary_bits: u32,
}

/// What a stage uses.
pub fn stage_use(stage: &Stage) -> StageUse
    requires { StageFits stage.now }
    ensures { result ≡ use_of stage.now }
{
    let units = stage.units.as_slice();
    StageUse {
        data_bits: total(Resource::DataBits, units),
        exact_bits: exact_bits(units),
        gates: total(Resource::Gates, units),
        instructions: total(Resource::Instructions, units),
        slots: total(Resource::Slots, units),
        sram: total(Resource::Sram, units),
        start: stage.start,
        tcam: total(Resource::Tcam, units),
        ternary_bits: ternary_bits(units),
    }
}
