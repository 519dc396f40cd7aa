//! The limits of the chip, and the first that a configuration passes.

ghost use Rattle.std.specs.Prelude.{◌≡◌, ◌<◌, ℕ, length, MatchResult, Some, None};
ghost use Rattle.rmt_config.specs.Limits.{told, over as over_limit, last_start_hit, stage_limit_hit, limit_hit, IsWithinLimits};
ghost use Rattle.rmt_config.specs.declared.config.Config.{Config};

pub mod crossbar;
pub mod listing;
pub mod marks;
pub mod node;
pub mod parser;
pub mod stage;
pub mod total;

use crate::config::{Config, Stage};
use crate::limits::node::over_in_nodes;
use crate::limits::parser::over_in_parser;
use crate::limits::stage::{StageLimit, over_in_reading, over_in_stages, over_in_units};
use crate::limits::total::told_length;

/// A limit of the chip that a configuration passes.
///
/// `limit` is the number of the limit, from 1 to 17. `stage` is the stage where it is passed, from 0, and 0 for
/// limits 1 to 5. `sum` is what the configuration takes there. `need` is what one more quantum would take on top,
/// and 0 where nothing is being placed.
#[derive(Clone, Copy, Debug, PartialEq, Eq)]
pub struct LimitHit {
    pub limit: u8,
    pub stage: u8,
    pub sum: u32,
    pub need: u32,
}

/// The hit of a sum that is above its limit. A sum of 4,294,967,295 stands for any that is at least that.
pub fn over(most: u32, limit: u8, stage: u8, sum: u32) -> Option<LimitHit>
    requires { most < 4294967295 }
    ensures { (n : ℕ) → sum ≡ told n → result ≡ over_limit most limit stage n }
{
    if sum <= most {
        return None;
    }
    Some(LimitHit {
        limit,
        stage,
        sum,
        need: 0,
    })
}

fn over_in_last_start(stages: &[Stage]) -> Option<LimitHit>
    requires { length stages.now < 256 }
    ensures { result ≡ last_start_hit stages.now }
{
    match stages.last() {
        None => None,
        Some(stage) => over(372, 16, (stages.len() - 1) as u8, stage.start as u32),
    }
}

/// The first limit on stages that is passed, by number and then by stage.
fn over_in_all_stages(stages: &[Stage]) -> Option<LimitHit>
    requires { length stages.now < 256 }
    ensures { result ≡ stage_limit_hit stages.now }
{
    if let Some(hit) = over_in_reading(stages) {
        return Some(hit);
    }
    if let Some(hit) = over_in_units(stages) {
        return Some(hit);
    }
    if let Some(hit) = over_in_nodes(stages) {
        return Some(hit);
    }
    if let Some(hit) = over_in_stages(StageLimit::Width, stages) {
        return Some(hit);
    }
    if let Some(hit) = over_in_last_start(stages) {
        return Some(hit);
    }
    over_in_stages(StageLimit::Listings, stages)
}

fn first_over(config: &Config) -> Option<LimitHit>
    ensures { result ≡ limit_hit config.now }
{
    if let Some(hit) = over(32, 1, 0, told_length(config.stages.len())) {
        return Some(hit);
    }
    if let Some(hit) = over_in_parser(&config.parser) {
        return Some(hit);
    }
    over_in_all_stages(config.stages.as_slice())
}

impl Config {
    /// Whether the configuration keeps the limits of the chip: else the first limit that it passes, by number and
    /// then by stage, with its sum there.
    pub fn fits(&self) -> Result<(), LimitHit>
        ensures exact { MatchResult result (λ _. IsWithinLimits self.now) (λ hit. limit_hit self.now ≡ Some hit) }
    {
        match first_over(self) {
            None => Ok(()),
            Some(hit) => Err(hit),
        }
    }
}
