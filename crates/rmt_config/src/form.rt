//! Whether a configuration keeps the rules of form, rule by rule.

ghost use Rattle.std.specs.Prelude.{◌≡◌, All, IfOk, IsOkUnless, IsTrue, ◌↔◌};
ghost use Rattle.std.specs.List.{list_all};
ghost use Rattle.rmt_config.specs.StageForm.{stage_is_formed, rows_are_formed};
ghost use Rattle.rmt_config.specs.CellForm.{StageHolds};
ghost use Rattle.rmt_config.specs.Form.{items_are_formed, visible_with, WholeIsFormed, Formed};
ghost use Rattle.rmt_config.specs.MemoryRules.{MemoryIsFormed};
ghost use Rattle.rmt_config.specs.TailForm.{has_names_with_tails};

pub mod block_counts;
mod cells;
pub mod code;
mod header;
mod item;
pub mod lane;
pub mod layout;
mod memory;
pub mod names;
pub mod number;
mod numbers;
pub mod parser;
pub mod parts;
mod row_rules;
pub mod search;
mod set_bits;
pub mod sram;
mod stage;
mod tables;
mod tails;
pub mod tcam;
pub mod unit;

use crate::config::{Config, Stage};
use crate::form::item::items_fit;
use crate::form::memory::stage_holds;
use crate::form::names::own_names_fit;
use crate::form::numbers::numbers_are_distinct;
use crate::form::row_rules::rows_fit;
use crate::form::tables::tables_fit;
use rmt_ast::names::Names;
use rmt_bits::fault::OutOfMemory;
use std::alloc::{AllocError, Global};

/// Why it was not found out whether a configuration keeps the rules of form: for want of memory alone.
pub type FormFault = OutOfMemory;

/// Whether the rows of each stage keep the rules of form.
fn all_rows_fit(stages: &[Stage]) -> bool
    ensures { result ≡ list_all rows_are_formed stages.now }
{
    stages.iter().all(rows_fit)
}

/// Whether the memories of stages, whose items and rows keep their rules, hold what they may, with these visible bits.
fn memories_hold(stages: &[Stage], visible: u8) -> bool
    requires formed { IsTrue (list_all stage_is_formed stages.now) }
    requires rows { IsTrue (list_all rows_are_formed stages.now) }
    ensures { IsTrue result ↔ All (StageHolds visible) stages.now }
{
    for stage in stages {
        if !stage_holds(stage, visible) {
            return false;
        }
    }
    true
}

/// The visible bits of occupied cells.
fn visible_bits(names: &Option<Names>) -> u8
    ensures { result ≡ visible_with names.now }
{
    match names {
        None => 0,
        Some(_) => 3,
    }
}

/// Whether a configuration, whose items keep their rules, keeps those of the whole but for names and numbers.
fn memory_fits(config: &Config) -> bool
    requires { IsTrue (items_are_formed config.now) }
    ensures { IsTrue result ↔ MemoryIsFormed config.now }
{
    let stages = config.stages.as_slice();
    all_rows_fit(stages) && tables_fit(config) && memories_hold(stages, visible_bits(&config.names))
}

/// Whether the configuration has names where it has a tail.
fn comes_with_names(config: &Config) -> bool
    ensures { result ≡ has_names_with_tails config.now }
{
    config.parser.tails.is_empty() || config.names.is_some()
}

/// Whether a configuration, whose items keep their rules, keeps those of the whole.
fn whole_fits(alloc: Global, config: &Config) -> Result<bool, AllocError>
    requires { IsTrue (items_are_formed config.now) }
    ensures { IfOk result (λ formed. IsTrue formed ↔ WholeIsFormed config.now) }
{
    if !memory_fits(config) || !comes_with_names(config) {
        return Ok(false);
    }
    if !numbers_are_distinct(alloc, config)? {
        return Ok(false);
    }
    own_names_fit(alloc, config)
}

/// Whether a configuration keeps all rules of form.
fn is_in_form(alloc: Global, config: &Config) -> Result<bool, AllocError>
    ensures { IfOk result (λ formed. IsTrue formed ↔ Formed config.now) }
{
    if !items_fit(config) {
        return Ok(false);
    }
    whole_fits(alloc, config)
}

impl Config {
    /// Whether the configuration keeps the rules of form; its only refusal is `NoMemory`.
    ///
    /// The time is that of the items, but for a factor of their logarithm.
    pub fn formed(&self, alloc: Global) -> Result<bool, FormFault>
        ensures exact { IfOk result (λ formed. IsTrue formed ↔ Formed self.now) }
        ensures only_memory { IsOkUnless result OutOfMemory.NoMemory }
    {
        Ok(is_in_form(alloc, self)?)
    }
}
