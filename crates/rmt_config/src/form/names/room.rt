//! That the numbers of a configuration's entries leave room for those that come.

ghost use Rattle.std.specs.Prelude.{◌≡◌, nat_lt};
ghost use Rattle.std.specs.List.{list_all};
ghost use Rattle.rmt_config.specs.declared.config.CellNumber.{CellNumber};
ghost use Rattle.rmt_config.specs.CellForm.{numbers_of_stage, numbers_of_unit};
ghost use Rattle.rmt_config.specs.NamesForm.{numbers_leave_room};

use crate::config::{CellNumber, Config, Stage, Unit};

fn all_are_small(cells: &[CellNumber]) -> bool
    ensures { result ≡ list_all (λ (n : CellNumber). nat_lt n.number 4293918720) cells.now }
{
    cells.iter().all(|cell| cell.number < 4_293_918_720)
}

fn unit_leaves_room(unit: &Unit) -> bool
    ensures { result ≡ list_all (λ n. nat_lt n 4293918720) (numbers_of_unit unit.now) }
{
    match unit {
        Unit::Gate(_) => true,
        Unit::Slot(slot) => all_are_small(slot.numbers.as_slice()),
    }
}

fn units_leave_room(units: &[Unit]) -> bool
    ensures { result ≡ list_all (λ unit. list_all (λ n. nat_lt n 4293918720) (numbers_of_unit unit)) units.now }
{
    units.iter().all(unit_leaves_room)
}

fn stage_leaves_room(stage: &Stage) -> bool
    ensures { result ≡ list_all (λ n. nat_lt n 4293918720) (numbers_of_stage stage.now) }
{
    units_leave_room(stage.units.as_slice())
}

fn stages_leave_room(stages: &[Stage]) -> bool
    ensures { result ≡ list_all (λ stage. list_all (λ n. nat_lt n 4293918720) (numbers_of_stage stage)) stages.now }
{
    stages.iter().all(stage_leaves_room)
}

/// Whether 1,048,576 more entries find numbers above those of a configuration.
pub fn numbers_leave_room(config: &Config) -> bool
    ensures { result ≡ numbers_leave_room config.now }
{
    stages_leave_room(config.stages.as_slice())
}
