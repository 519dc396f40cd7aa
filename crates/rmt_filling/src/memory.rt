//! The memory of a table's part, and its blocks.

ghost use Rattle.std.specs.Prelude.{◌≡◌, ◌≢◌, ◌+◌, ◌*◌, ◌≤◌, IfOk, OnOk};
ghost use Rattle.std.specs.List.{range_with_len};
ghost use Rattle.rmt_filling.specs.Memories.{exact_from, ternary_from, memory_for, taken_behind, HasRoom};

use rmt_ast::program::Kind;
use rmt_bits::answer::Bytes;
use rmt_config::config::Memory;
use rmt_config::form::block_counts::{BlockCounts, exact_block_counts, ternary_block_counts};
use rmt_pack::format::Format;
use std::alloc::{AllocError, Global};

/// How many blocks of a stage are taken: those with the first numbers.
#[derive(Clone, Copy)]
pub struct Taken {
    /// SRAM blocks.
    pub sram: u8,
    /// TCAM blocks.
    pub tcam: u8,
}

/// What the memory of a part has to hold.
#[derive(Clone, Copy)]
pub struct PartNeed {
    /// The table's format.
    pub format: Format,
    /// The quanta of the part, 1 to 106.
    pub quanta: u8,
    /// How many parts of the table stand in earlier stages.
    pub before: u8,
    /// The bits of a key, at most 640.
    pub key: u32,
    /// The bits of data that an entry holds.
    pub held: u16,
    /// Whether each entry counts what hits it.
    pub counted: bool,
}

/// The next so many blocks.
fn take(alloc: Global, taken: &mut u8, count: u64) -> Result<Bytes, AllocError>
    requires { taken.old + count ≤ 106 }
    ensures blocks { IfOk result (λ blocks. blocks ≡ range_with_len taken.old count) }
    ensures taken { OnOk result (taken.new ≡ taken.old + count) }
{
    let mut blocks = Bytes::new(alloc);
    for _block in 0..count {
        blocks.push(*taken)?;
        *taken += 1;
    }
    Ok(blocks)
}

/// The memory of an exact part that lists so many blocks.
fn exact_memory(
    alloc: Global,
    taken: &mut Taken,
    need: &PartNeed,
    counts: BlockCounts,
) -> Result<Memory, AllocError>
    requires before { need.now.before ≤ 63 }
    requires per { need.now.format.per ≤ 65535 }
    requires room { taken.old.sram + (counts.keys + counts.records + counts.counters) ≤ 106 }
    ensures memory { IfOk result (λ memory. memory ≡ exact_from need.now counts taken.old.sram) }
    ensures sram { OnOk result (taken.new.sram ≡ taken.old.sram + (counts.keys + counts.records + counts.counters)) }
    ensures tcam { taken.new.tcam ≡ taken.old.tcam }
{
    let keys = take(alloc, &mut taken.sram, counts.keys)?;
    let records = take(alloc, &mut taken.sram, counts.records)?;
    let counters = take(alloc, &mut taken.sram, counts.counters)?;
    Ok(Memory::Exact {
        width: need.format.width,
        per: need.format.per as u16,
        quanta: need.quanta,
        first_way: 4 * need.before,
        keys,
        records,
        counters,
    })
}

/// The memory of a prefix or ternary part that lists so many blocks.
fn ternary_memory(
    alloc: Global,
    taken: &mut Taken,
    need: &PartNeed,
    counts: BlockCounts,
) -> Result<Memory, AllocError>
    requires sram { taken.old.sram + (counts.records + counts.counters) ≤ 106 }
    requires tcam { taken.old.tcam + counts.keys ≤ 16 }
    ensures memory { IfOk result (λ memory. memory ≡ ternary_from need.now counts taken.old.sram taken.old.tcam) }
    ensures sram { OnOk result (taken.new.sram ≡ taken.old.sram + (counts.records + counts.counters)) }
    ensures tcam { OnOk result (taken.new.tcam ≡ taken.old.tcam + counts.keys) }
{
    let keys = take(alloc, &mut taken.tcam, counts.keys)?;
    let records = take(alloc, &mut taken.sram, counts.records)?;
    let counters = take(alloc, &mut taken.sram, counts.counters)?;
    Ok(Memory::Ternary {
        quanta: need.quanta,
        keys,
        records,
        counters,
    })
}

/// The memory of a part, in the next blocks of its stage: of keys, then of records, then of counters.
pub fn memory_of(
    alloc: Global,
    taken: &mut Taken,
    kind: Kind,
    need: &PartNeed,
) -> Result<Memory, AllocError>
    requires { kind ≢ Kind.Keyless → HasRoom kind need.now taken.old }
    ensures memory { IfOk result (λ memory. memory ≡ memory_for kind need.now taken.old) }
    ensures taken { OnOk result (taken.new ≡ taken_behind kind need.now taken.old) }
{
    match kind {
        Kind::Keyless => Ok(Memory::Without),
        Kind::Exact => {
            let per = need.format.per as u16;
            let counts = exact_block_counts(
                need.format.width,
                per,
                need.quanta,
                need.held,
                need.counted,
            );
            exact_memory(alloc, taken, need, counts)
        }
        Kind::Prefix | Kind::Ternary => {
            let counts = ternary_block_counts(need.key, need.quanta, need.held, need.counted);
            ternary_memory(alloc, taken, need, counts)
        }
    }
}
