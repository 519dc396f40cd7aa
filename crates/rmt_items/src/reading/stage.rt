//! Stages, with their rows of memory.

#![tactic(auto, unfolding(crate::specs::Reading::srow_at, crate::specs::Reading::trow_at, crate::specs::Reading::stage_head_at, crate::specs::Reading::stage_at, crate::specs::Reading::stage_tail_at))]

ghost use Rattle.std.specs.Prelude.{◌≡◌};
ghost use Rattle.rmt_items.specs.Readers.{Gives, kept, listed, list_at, items_at, each, byte_at, number_at};
ghost use Rattle.rmt_items.specs.Reading.{srow_at, trow_at, start_fits, vliw_at, stage_head_at, stage_tail_at, stage_at, next_start};
ghost use Rattle.rmt_config.specs.CodeForm.{places_of};

use crate::fault::Read;
use crate::reading::items::{Count32, InOrder, Item, items_of, list8_of, three_of};
use crate::reading::memory::block_of;
use crate::reading::number::{byte_of, kept, number_from, two_of};
use crate::reading::vliw::code_of;
use rmt_bits::sequence::Sequence;
use rmt_config::config::{SramRow, Stage, TcamRow, Unit, Vliw};
use std::alloc::Global;

// ---- rows

impl Item<()> for SramRow {
    const LEAST_SIZE: usize = 17;

    ghost item_at = { λ _. srow_at };

    fn read(_alloc: Global, _given: (), bytes: &[u8]) -> Read<SramRow> {
        let (block, rest) = block_of(106, bytes)?;
        let (row, rest) = two_of(rest)?;
        let (bits, rest) = number_from(14, rest)?;
        Ok((SramRow { block, row, bits }, rest))
    }
}

impl Item<()> for TcamRow {
    const LEAST_SIZE: usize = 13;

    ghost item_at = { λ _. trow_at };

    fn read(_alloc: Global, _given: (), bytes: &[u8]) -> Read<TcamRow> {
        let (block, rest) = block_of(16, bytes)?;
        let (row, rest) = two_of(rest)?;
        let (value, rest) = number_from(5, rest)?;
        let (mask, rest) = number_from(5, rest)?;
        let row = TcamRow {
            block,
            row,
            value: value as u64,
            mask: mask as u64,
        };
        Ok((row, rest))
    }
}

// ---- stages

fn start_of(least: u32, bytes: &[u8]) -> Read<u16>
    ensures { Gives (λ x. (x.0, x.1.now)) result (kept (start_fits least) (number_at 2) bytes.now) }
{
    let (start, rest) = two_of(bytes)?;
    let fits = if least == 0 {
        start == 0
    } else {
        least <= start as u32
    };
    kept(fits, start, rest)
}

fn stage_head_of(alloc: Global, least: u32, bytes: &[u8]) -> Read<(u16, Sequence<Unit>)>
    ensures { Gives (λ x. ((x.0.0, x.0.1), x.1.now)) result (stage_head_at least bytes.now) }
{
    let (start, rest) = start_of(least, bytes)?;
    let (units, rest) = list8_of(alloc, (), rest)?;
    Ok(((start, units), rest))
}

/// The code of a stage of these units.
impl<'u> Item<&'u [Unit]> for Sequence<Vliw> {
    const LEAST_SIZE: usize = 0;

    ghost item_at = { λ units. each vliw_at (places_of units.now) };

    fn read<'a>(alloc: Global, units: &'u [Unit], bytes: &'a [u8]) -> Read<'a, Sequence<Vliw>> {
        code_of(alloc, units, bytes)
    }
}

#[derive(Drop)]
struct Stages;

impl InOrder for Stages {
    type Item = Stage;

    const LEAST_SIZE: usize = 11;

    ghost item_at = { λ _. stage_at };

    ghost after = { λ _. next_start };

    fn item<'a>(&self, alloc: Global, least: u32, bytes: &'a [u8]) -> Read<'a, Stage> {
        let ((start, units), rest) = stage_head_of(alloc, least, bytes)?;
        let ((code, (srows, trows)), rest) = three_of(
            alloc,
            units.as_slice(),
            Count32,
            Count32,
            rest,
        )?;
        let stage = Stage {
            start,
            units,
            code,
            srows,
            trows,
        };
        Ok((stage, rest))
    }

    fn least_after(&self, stage: &Stage) -> u32 {
        stage.start as u32 + 1
    }
}

/// The stages behind their count.
pub fn stages_of(alloc: Global, bytes: &[u8]) -> Read<Sequence<Stage>>
    ensures read { Gives (λ x. (x.0, x.1.now)) result (listed byte_at (items_at stage_at next_start 0) bytes.now) }
{
    let (count, rest) = byte_of(bytes)?;
    items_of(alloc, &Stages, count as u64, rest)
}
