//! The limits of each stage.

ghost use Rattle.std.specs.Prelude.{◌≡◌, ◌<◌, length};
ghost use Rattle.rmt_config.specs.Limits.{first_hit, stage_hit, reading_limit_hit, unit_limit_hit};
ghost use Rattle.rmt_config.specs.LimitSteps.{hit_of};

use crate::config::Stage;
use crate::limits::crossbar::{exact_bits, ternary_bits};
use crate::limits::listing::listings;
use crate::limits::total::{Resource, greatest_width, total};
use crate::limits::{LimitHit, over};

/// A limit that each stage keeps by itself.
#[derive(Clone, Copy)]
pub enum StageLimit {
    /// 106 SRAM blocks.
    Sram,
    /// 16 TCAM blocks.
    Tcam,
    /// 640 bits of words that exact keys read.
    ExactWords,
    /// 640 bits of words that prefix and ternary keys and gates read.
    TernaryWords,
    /// 16 slots.
    Slots,
    /// 32 instructions.
    Instructions,
    /// 1,280 data bits.
    DataBits,
    /// 16 gates.
    Gates,
    /// 8 blocks side by side.
    Width,
    /// No block is listed twice.
    Listings,
}

fn over_in_stage(limit: StageLimit, number: u8, stage: &Stage) -> Option<LimitHit>
    ensures { result ≡ hit_of limit number stage.now }
{
    let units = stage.units.as_slice();
    match limit {
        StageLimit::Sram => over(106, 6, number, total(Resource::Sram, units)),
        StageLimit::Tcam => over(16, 7, number, total(Resource::Tcam, units)),
        StageLimit::ExactWords => over(640, 8, number, exact_bits(units)),
        StageLimit::TernaryWords => over(640, 9, number, ternary_bits(units)),
        StageLimit::Slots => over(16, 10, number, total(Resource::Slots, units)),
        StageLimit::Instructions => over(32, 11, number, total(Resource::Instructions, units)),
        StageLimit::DataBits => over(1280, 12, number, total(Resource::DataBits, units)),
        StageLimit::Gates => over(16, 13, number, total(Resource::Gates, units)),
        StageLimit::Width => over(8, 15, number, greatest_width(units) as u32),
        StageLimit::Listings => over(1, 17, number, listings(units)),
    }
}

/// The first stage that passes a limit.
pub fn over_in_stages(limit: StageLimit, stages: &[Stage]) -> Option<LimitHit>
    requires { length stages.now < 256 }
    ensures { result ≡ stage_hit (hit_of limit) 0 stages.now }
{
    let mut number: u16 = 0;
    for stage in stages {
        if let Some(hit) = over_in_stage(limit, number as u8, stage) {
            return Some(hit);
        }
        number += 1;
    }
    None
}

/// The first of some limits that is passed, by limit and then by stage.
fn over_in_any(limits: &[StageLimit], stages: &[Stage]) -> Option<LimitHit>
    requires { length stages.now < 256 }
    ensures { result ≡ first_hit (λ limit. stage_hit (hit_of limit) 0 stages.now) limits.now }
{
    for limit in limits {
        if let Some(hit) = over_in_stages(*limit, stages) {
            return Some(hit);
        }
    }
    None
}

/// The first of the limits on blocks and crossbars that is passed.
pub fn over_in_reading(stages: &[Stage]) -> Option<LimitHit>
    requires { length stages.now < 256 }
    ensures { result ≡ reading_limit_hit stages.now }
{
    let limits = [
        StageLimit::Sram,
        StageLimit::Tcam,
        StageLimit::ExactWords,
        StageLimit::TernaryWords,
    ];
    over_in_any(&limits, stages)
}

/// The first of the limits on units, instructions and data that is passed.
pub fn over_in_units(stages: &[Stage]) -> Option<LimitHit>
    requires { length stages.now < 256 }
    ensures { result ≡ unit_limit_hit stages.now }
{
    over_in_any(
        &[
            StageLimit::Slots,
            StageLimit::Instructions,
            StageLimit::DataBits,
            StageLimit::Gates,
        ],
        stages,
    )
}
