//! The rules of form of a stage as it is read: its start, its units, its code, and the numbers of its rows.

ghost use Rattle.std.specs.Prelude.{◌≡◌, map};
ghost use Rattle.std.specs.List.{list_all};
ghost use Rattle.rmt_config.specs.StageForm.{srow_fits as srow_is_small, trow_fits as trow_is_small, stage_is_formed, starts_are_formed, stages_are_formed};
ghost use Rattle.rmt_config.specs.declared.config.Stage.{Stage};

use crate::config::{SramRow, Stage, TcamRow};
use crate::form::code::code_fits;
use crate::form::number::fits_two_bytes;
use crate::form::search::items_rise;
use crate::form::unit::units_fit;

fn srow_fits(row: SramRow) -> bool
    ensures { result ≡ srow_is_small row }
{
    row.block < 106 && fits_two_bytes(row.row) && row.bits < 1u128 << 112
}

fn srows_fit(rows: &[SramRow]) -> bool
    ensures { result ≡ list_all srow_is_small rows.now }
{
    rows.iter().all(|row| srow_fits(*row))
}

fn trow_fits(row: TcamRow) -> bool
    ensures { result ≡ trow_is_small row }
{
    row.block < 16 && fits_two_bytes(row.row) && row.value < 1u64 << 40 && row.mask < 1u64 << 40
}

fn trows_fit(rows: &[TcamRow]) -> bool
    ensures { result ≡ list_all trow_is_small rows.now }
{
    rows.iter().all(|row| trow_fits(*row))
}

fn stage_fits(stage: &Stage) -> bool
    ensures { result ≡ stage_is_formed stage.now }
{
    fits_two_bytes(stage.start)
        && stage.units.len() < 256
        && units_fit(stage.units.as_slice())
        && code_fits(stage.units.as_slice(), stage.code.as_slice())
        && (stage.srows.len() as u64) < 4294967296
        && srows_fit(stage.srows.as_slice())
        && (stage.trows.len() as u64) < 4294967296
        && trows_fit(stage.trows.as_slice())
}

fn each_stage_fits(stages: &[Stage]) -> bool
    ensures { result ≡ list_all stage_is_formed stages.now }
{
    stages.iter().all(stage_fits)
}

fn starts_rise(stages: &[Stage]) -> bool
    ensures { result ≡ starts_are_formed (map (λ (s : Stage). s.start) stages.now) }
{
    match stages {
        [] => true,
        [first, rest @ ..] => first.start == 0 && items_rise(1, rest),
    }
}

/// Whether each stage fits by itself, and their starts rise from 0.
pub fn stages_fit(stages: &[Stage]) -> bool
    ensures { result ≡ stages_are_formed stages.now }
{
    stages.len() < 256 && each_stage_fits(stages) && starts_rise(stages)
}
