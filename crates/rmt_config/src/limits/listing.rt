//! How often the blocks of a stage are listed.

ghost use Rattle.std.specs.Prelude.{◌≡◌, ◌++◌, List, [], ◌∷◌, ℕ};
ghost use Rattle.rmt_config.specs.Resources.{memory_sram, most_listed, most_listed_in};
ghost use Rattle.rmt_config.specs.Limits.{told};
ghost use Rattle.rmt_config.specs.LimitSteps.{Counts};
ghost use Rattle.rmt_config.specs.StageForm.{memory_tcam_blocks};

use crate::config::{Memory, Unit};

/// No block is listed.
fn no_counts() -> [u32; 256]
    ensures { Counts [] result }
{
    [0; 256]
}

fn count_block(counts: &mut [u32; 256], block: u8)
    ensures { (ns : List ℕ) → Counts ns counts.old → Counts (ns ++ block ∷ []) counts.new }
{
    counts[block as usize] = counts[block as usize].saturating_add(1);
}

fn count_blocks(counts: &mut [u32; 256], blocks: &[u8])
    ensures { (ns : List ℕ) → Counts ns counts.old → Counts (ns ++ blocks.now) counts.new }
{
    for block in blocks {
        count_block(counts, *block);
    }
}

fn count_sram(counts: &mut [u32; 256], memory: &Memory)
    ensures { (ns : List ℕ) → Counts ns counts.old → Counts (ns ++ memory_sram memory.now) counts.new }
{
    match memory {
        Memory::Without => {}
        Memory::Exact {
            keys,
            records,
            counters,
            ..
        } => {
            count_blocks(counts, keys.as_slice());
            count_blocks(counts, records.as_slice());
            count_blocks(counts, counters.as_slice());
        }
        Memory::Ternary {
            records,
            counters,
            ..
        } => {
            count_blocks(counts, records.as_slice());
            count_blocks(counts, counters.as_slice());
        }
    }
}

fn count_tcam(counts: &mut [u32; 256], memory: &Memory)
    ensures { (ns : List ℕ) → Counts ns counts.old → Counts (ns ++ memory_tcam_blocks memory.now) counts.new }
{
    if let Memory::Ternary { keys, .. } = memory {
        count_blocks(counts, keys.as_slice());
    }
}

fn greatest(counts: &[u32; 256]) -> u32
    ensures { (ns : List ℕ) → Counts ns counts.now → result ≡ told (most_listed ns) }
{
    let mut most: u32 = 0;
    for count in counts {
        most = most.max(*count);
    }
    most
}

/// How often the block is listed that is listed most.
pub fn listings(units: &[Unit]) -> u32
    ensures { result ≡ told (most_listed_in units.now) }
{
    let mut sram = no_counts();
    let mut tcam = no_counts();
    for unit in units {
        match unit {
            Unit::Gate(_) => {}
            Unit::Slot(slot) => {
                count_sram(&mut sram, &slot.memory);
                count_tcam(&mut tcam, &slot.memory);
            }
        }
    }
    greatest(&sram).max(greatest(&tcam))
}
