//! The memory of a slot, with its lists of blocks, whose lengths follow from the numbers before them.

ghost use Rattle.std.specs.Prelude.{◌≡◌, ◌<◌, length};
ghost use Rattle.rmt_config.specs.LaneForm.{bits_of_lanes};
ghost use Rattle.rmt_items.specs.Readers.{Gives, where_, kept, list_at, number_at};
ghost use Rattle.rmt_items.specs.Reading.{block_at, blocks_at, cells_fit, exact_format_at, format_at, format_block_counts, exact_at, ternary_at, exact_of_parts, ternary_of_parts, memory_at};

use crate::fault::{Read, ReadError, ReadFault};
use crate::reading::bounded::{one_to, positive};
use crate::reading::items::{Item, list_of, three_of};
use crate::reading::number::{byte_of, kept, two_of};
use rmt_bits::answer::Bytes;
use rmt_config::config::{Memory, SlotUnit};
use rmt_config::form::block_counts::{BlockCounts, exact_block_counts, ternary_block_counts};
use rmt_config::form::lane::count_bits;
use rmt_config::form::unit::{can_take_memory, needs_no_memory};
use std::alloc::Global;

// ---- lists of blocks

/// A block below that number.
#[tactic(auto, unfolding(crate::specs::Reading::block_at))]
pub fn block_of(most: u8, bytes: &[u8]) -> Read<u8>
    ensures { Gives (λ x. (x.0, x.1.now)) result (block_at most bytes.now) }
{
    let (block, rest) = byte_of(bytes)?;
    kept(block < most, block, rest)
}

/// What a block is below.
#[derive(Clone, Copy)]
struct Below(u8);

impl Item<Below> for u8 {
    const LEAST_SIZE: usize = 1;

    ghost item_at = { λ most. block_at most.0 };

    fn read(_alloc: Global, most: Below, bytes: &[u8]) -> Read<u8> {
        block_of(most.0, bytes)
    }
}

/// How many blocks there are, and what each is below.
#[derive(Clone, Copy)]
struct BlockList {
    most: u8,
    count: u64,
}

impl Item<BlockList> for Bytes {
    const LEAST_SIZE: usize = 0;

    ghost item_at = { λ list. list_at (block_at list.most) list.count };

    fn read(alloc: Global, list: BlockList, bytes: &[u8]) -> Read<Bytes> {
        list_of(alloc, Below(list.most), list.count, bytes)
    }
}

/// The lists of blocks of a memory.
#[derive(Drop)]
struct Blocks {
    keys: Bytes,
    records: Bytes,
    counters: Bytes,
}

#[tactic(auto, unfolding(crate::specs::Reading::blocks_at))]
fn blocks_of(alloc: Global, most: u8, counts: BlockCounts, bytes: &[u8]) -> Read<Blocks>
    ensures { Gives (λ x. (x.0, x.1.now)) result (blocks_at most counts bytes.now) }
{
    let keys = BlockList {
        most,
        count: counts.keys,
    };
    let records = BlockList {
        most: 106,
        count: counts.records,
    };
    let counters = BlockList {
        most: 106,
        count: counts.counters,
    };
    let ((keys, (records, counters)), rest) = three_of(alloc, keys, records, counters, bytes)?;
    let blocks = Blocks {
        keys,
        records,
        counters,
    };
    Ok((blocks, rest))
}

// ---- the numbers before them

fn per_of(bits: u32, width: u8, bytes: &[u8]) -> Read<u16>
    ensures { Gives (λ x. (x.0, x.1.now)) result (kept (cells_fit bits width) (number_at 2) bytes.now) }
{
    let (per, rest) = two_of(bytes)?;
    let fits = 1 <= per && per as u64 * (bits as u64 + 8) <= 112 * width as u64;
    kept(fits, per, rest)
}

/// The numbers of exact memory before its lists.
#[derive(Clone, Copy)]
struct ExactFormat {
    width: u8,
    per: u16,
    quanta: u8,
    first_way: u8,
}

/// These numbers where the keys have that many bits.
#[tactic(auto, unfolding(crate::specs::Reading::exact_format_at))]
fn format_of(bits: u32, bytes: &[u8]) -> Read<ExactFormat>
    ensures { Gives (λ x. (x.0, x.1.now)) result (exact_format_at bits bytes.now) }
{
    let (width, rest) = positive(bytes)?;
    let (per, rest) = per_of(bits, width, rest)?;
    let (quanta, rest) = one_to(106, rest)?;
    let (first_way, rest) = byte_of(rest)?;
    let format = ExactFormat {
        width,
        per,
        quanta,
        first_way,
    };
    Ok((format, rest))
}

// ---- memories

#[tactic(auto, unfolding(crate::specs::Reading::exact_at, crate::specs::Reading::format_at))]
fn exact_of<'a>(alloc: Global, slot: &SlotUnit, bytes: &'a [u8]) -> Read<'a, (ExactFormat, Blocks)>
    requires { length slot.now.keys < 65536 }
    ensures { Gives (λ x. (x.0, x.1.now)) result (exact_at slot.now bytes.now) }
{
    let (_, rest) = kept(can_take_memory(slot), (), bytes)?;
    let (format, rest) = format_of(count_bits(slot.keys.as_slice()), rest)?;
    let counts = exact_block_counts(
        format.width,
        format.per,
        format.quanta,
        slot.held,
        slot.counted,
    );
    let (blocks, rest) = blocks_of(alloc, 106, counts, rest)?;
    Ok(((format, blocks), rest))
}

#[tactic(auto, unfolding(crate::specs::Reading::ternary_at))]
fn ternary_of<'a>(alloc: Global, slot: &SlotUnit, bytes: &'a [u8]) -> Read<'a, (u8, Blocks)>
    requires { length slot.now.keys < 65536 }
    ensures { Gives (λ x. (x.0, x.1.now)) result (ternary_at slot.now bytes.now) }
{
    let (_, rest) = kept(can_take_memory(slot), (), bytes)?;
    let (quanta, rest) = one_to(106, rest)?;
    let counts = ternary_block_counts(
        count_bits(slot.keys.as_slice()),
        quanta,
        slot.held,
        slot.counted,
    );
    let (blocks, rest) = blocks_of(alloc, 16, counts, rest)?;
    Ok(((quanta, blocks), rest))
}

fn exact_memory(format: ExactFormat, blocks: Blocks) -> Memory
    ensures { result ≡ exact_of_parts (format, blocks) }
{
    Memory::Exact {
        width: format.width,
        per: format.per,
        quanta: format.quanta,
        first_way: format.first_way,
        keys: blocks.keys,
        records: blocks.records,
        counters: blocks.counters,
    }
}

fn ternary_memory(quanta: u8, blocks: Blocks) -> Memory
    ensures { result ≡ ternary_of_parts (quanta, blocks) }
{
    Memory::Ternary {
        quanta,
        keys: blocks.keys,
        records: blocks.records,
        counters: blocks.counters,
    }
}

/// The memory of a slot of which all that stands before it was read, with fewer than 65,536 key lanes.
#[tactic(auto, unfolding(crate::specs::Reading::memory_at))]
pub fn memory_of<'a>(alloc: Global, slot: &SlotUnit, bytes: &'a [u8]) -> Read<'a, Memory>
    requires { length slot.now.keys < 65536 }
    ensures { Gives (λ x. (x.0, x.1.now)) result (memory_at slot.now bytes.now) }
{
    match bytes {
        [] => Err(ReadError::Fault(ReadFault::Short)),
        [0, rest @ ..] => kept(needs_no_memory(slot), Memory::Without, rest),
        [1, rest @ ..] => {
            let ((format, blocks), rest) = exact_of(alloc, slot, rest)?;
            Ok((exact_memory(format, blocks), rest))
        }
        [2, rest @ ..] => {
            let ((quanta, blocks), rest) = ternary_of(alloc, slot, rest)?;
            Ok((ternary_memory(quanta, blocks), rest))
        }
        _ => Err(ReadError::Fault(ReadFault::Form)),
    }
}
