//! What a chip has before the first cycle: empty packet slots with all room, and the memories laid out.

ghost use Rattle.std.specs.Prelude.{◌≡◌, ◌≤◌, [], All, IfOk, replicate, vec_len};
ghost use Rattle.rmt_bits.specs.Counts.{counts};
ghost use Rattle.rmt_config.specs.ChipRun.{counted_numbers};
ghost use Rattle.rmt_config.specs.RunCells.{own_cells};
ghost use Rattle.rmt_chip.specs.declared.packet_slot.PacketSlot.{PacketSlot as PlaceOf};
ghost use Rattle.rmt_chip.specs.FrameList.{frames_of};
ghost use Rattle.rmt_chip.specs.Held.{IsFree};
ghost use Rattle.rmt_chip.specs.Pending.{HasRoomFor, HaveRoomFor};
ghost use Rattle.rmt_chip.specs.Writes.{most_ops};
ghost use Rattle.rmt_memory.specs.StageMemories.{AllSlotsFormed, MemoriesHold, MemoriesOf};

use crate::counters::first_counters;
use crate::frames::Frames;
use crate::packet_slot::PacketSlot;
use crate::pending::Pending;
use rmt_bits::counts::Counts;
use rmt_config::config::{Config, Stage, Vliw};
use rmt_config::tails::Tails;
use rmt_config::vector::Vector;
use rmt_memory::memory::SlotMemory;
use rmt_memory::room::room;
use rmt_memory::stages::lay_all;
use rmt_ptcam::parse::Parsed;
use std::alloc::{AllocError, Global};

/// What a chip has beside its configuration.
#[derive(Drop)]
pub struct Parts {
    pub counters: Counts,
    pub frames: Frames,
    pub memories: Vec<Vec<SlotMemory>>,
    pub places: Vec<PacketSlot>,
}

/// The most operations that an instruction has.
fn most_operations(code: &[Vliw]) -> usize
    ensures { result ≡ most_ops code.now }
{
    let mut most: usize = 0;
    for instruction in code {
        most = most.max(instruction.ops.len());
    }
    most
}

/// Room for what a stage keeps for one packet.
fn nothing_kept(alloc: Global, stage: &Stage) -> Result<Pending, AllocError>
    ensures { IfOk result (λ pending. HasRoomFor stage.now pending) }
{
    let units = stage.units.len();
    let Some(writes) = units.checked_mul(most_operations(stage.code.as_slice())) else {
        return Err(AllocError);
    };
    let running = Vec::with_capacity(alloc, units)?;
    let due = Vec::with_capacity(alloc, writes)?;
    let looked = room(alloc, stage)?;
    Ok(Pending {
        looked,
        running,
        due,
    })
}

/// Room for what each stage keeps for one packet.
fn nothing_pending(alloc: Global, stages: &[Stage]) -> Result<Vec<Pending>, AllocError>
    ensures { IfOk result (λ pending. HaveRoomFor stages.now pending.items) }
{
    let mut pending = Vec::with_capacity(alloc, stages.len())?;
    for stage in stages {
        pending.push(nothing_kept(alloc, stage)?)?;
    }
    Ok(pending)
}

/// A packet slot without a packet.
fn empty_place(alloc: Global, stages: &[Stage]) -> Result<PacketSlot, AllocError>
    ensures free { IfOk result (λ place. IsFree place) }
    ensures room { IfOk result (λ place. HaveRoomFor stages.now place.pending.items) }
{
    Ok(PacketSlot {
        taken: false,
        number: 0,
        version: 0,
        size: 0,
        parsed: Parsed::Reject,
        vector: Vector::new(),
        tails: Tails::new(),
        outcomes: [0; 256],
        pending: nothing_pending(alloc, stages)?,
    })
}

/// So many packet slots, all without a packet.
fn all_places(alloc: Global, stages: &[Stage], count: usize) -> Result<Vec<PacketSlot>, AllocError>
    ensures full { IfOk result (λ places. vec_len places ≡ count) }
    ensures free { IfOk result (λ places. All IsFree places.items) }
    ensures room { IfOk result (λ places. All (λ (p : PlaceOf). HaveRoomFor stages.now p.pending.items) places.items) }
{
    let mut places = Vec::with_capacity(alloc, count)?;
    for _at in 0..count {
        places.push(empty_place(alloc, stages)?)?;
    }
    Ok(places)
}

/// What a chip of so many packet slots has before the first cycle, beside its configuration.
pub fn parts_of(alloc: Global, config: &Config, count: usize) -> Result<Parts, AllocError>
    requires formed { AllSlotsFormed config.now.stages }
    requires few { count ≤ 385 }
    ensures counters { IfOk result (λ parts. parts.counters.counts ≡ counts (counted_numbers config.now) []) }
    ensures frames { IfOk result (λ parts. frames_of parts.frames ≡ replicate count []) }
    ensures fit { IfOk result (λ parts. MemoriesOf config.now.stages parts.memories.items) }
    ensures hold { IfOk result (λ parts. MemoriesHold config.now (own_cells config.now) parts.memories.items) }
    ensures full { IfOk result (λ parts. vec_len parts.places ≡ count) }
    ensures free { IfOk result (λ parts. All IsFree parts.places.items) }
    ensures room { IfOk result (λ parts. All (λ (p : PlaceOf). HaveRoomFor config.now.stages p.pending.items) parts.places.items) }
{
    let stages = config.stages.as_slice();
    let counters = first_counters(alloc, config)?;
    let frames = Frames::new(alloc, count)?;
    let memories = lay_all(alloc, stages)?;
    let places = all_places(alloc, stages, count)?;
    Ok(Parts {
        counters,
        frames,
        memories,
        places,
    })
}
