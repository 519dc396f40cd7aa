//! The passes of a cycle over the stages. The packets stand in a ring and are not moved: each pass
//! touches, for each stage, the one packet at the age at which the stage acts.

ghost use Rattle.std.specs.Prelude.{◌≡◌, ◌+◌, ◌<◌, ◌≤◌, ℕ, Option, length};
ghost use Rattle.rmt_config.specs.ChipRun.{latency_of};
ghost use Rattle.rmt_config.specs.RunCells.{RunCells};
ghost use Rattle.rmt_chip.specs.Held.{Entered};
ghost use Rattle.rmt_chip.specs.Hits.{hits_upto};
ghost use Rattle.rmt_chip.specs.Ran.{CountsAlso};
ghost use Rattle.rmt_chip.specs.Ring.{ring_at, ring_after, now, past, next, IsRing, AllHold, LooksNow, oldest_below};
ghost use Rattle.rmt_chip.specs.Runnable.{StagesFit, start_of};
ghost use Rattle.rmt_config.specs.declared.config.Config.{Config as ConfigOf};
ghost use Rattle.rmt_memory.specs.StageMemories.{MemoriesOf, MemoriesHold};

use crate::packet_slot::PacketSlot;
use crate::{keys, operands, outcomes, words};
use rmt_bits::counts::Counts;
use rmt_config::config::Config;
use rmt_memory::memory::SlotMemory;
use rmt_memory::sight::Sight;

/// The place of the packet of this age, counted back from the newest place of a ring of so many.
pub fn place_of(size: usize, newest: usize, age: usize) -> usize
    requires newest { newest < size }
    requires age { age < size }
    ensures place { result ≡ ring_at size newest age }
    ensures within { result < size }
{
    if age <= newest {
        newest - age
    } else {
        size - (age - newest)
    }
}

/// The place that is the newest in the next cycle.
pub fn place_after(size: usize, newest: usize) -> usize
    requires { newest < size }
    ensures place { result ≡ ring_after size newest }
    ensures within { result < size }
{
    if newest + 1 < size { newest + 1 } else { 0 }
}

/// The place of the packet that is so many cycles behind the start of a stage.
fn place_behind(size: usize, newest: usize, config: &Config, k: usize, after: u16) -> usize
    requires newest { newest < size }
    requires fits { StagesFit config.now.stages }
    requires full { latency_of config.now.stages < size }
    requires exists { k < length config.now.stages }
    requires after { after ≤ 12 }
    ensures place { result ≡ ring_at size newest (start_of config.now.stages k + after) }
    ensures within { result < size }
{
    let stages = config.stages.as_slice();
    let stage = &stages[k];
    place_of(size, newest, usize::from(stage.start) + usize::from(after))
}

/// The version of the oldest packet of an age below this one, if there is one.
pub fn oldest(places: &[PacketSlot], newest: usize, age: usize) -> Option<u64>
    requires newest { newest < length places.now }
    requires age { age ≤ length places.now }
    ensures { (c : ConfigOf) (item : ℕ → Option Entered) → AllHold c item now now now next newest places.now →
        result ≡ oldest_below item age }
{
    let mut below = age;
    while below > 0 {
        below -= 1;
        let place = &places[place_of(places.len(), newest, below)];
        if place.taken {
            return Some(place.version);
        }
    }
    None
}

/// Each stage writes the words of the packet that is 12 cycles behind its start.
pub fn write_words(places: &mut [PacketSlot], newest: usize, config: &Config)
    requires fits { StagesFit config.now.stages }
    requires ring { IsRing config.now.stages newest places.old }
    ensures ring { IsRing config.now.stages newest places.new }
    ensures holds { (item : ℕ → Option Entered) →
        AllHold config.now item past past past now newest places.old →
        AllHold config.now item now past past now newest places.new }
{
    for k in 0..config.stages.len() {
        let at = place_behind(places.len(), newest, config, k, 12);
        words::write_words(&mut places[at], k);
    }
}

/// Each stage reads the operands and old words of the packet that is 9 cycles behind its start.
pub fn read_operands(places: &mut [PacketSlot], newest: usize, config: &Config)
    requires fits { StagesFit config.now.stages }
    requires ring { IsRing config.now.stages newest places.old }
    ensures ring { IsRing config.now.stages newest places.new }
    ensures holds { (item : ℕ → Option Entered) →
        AllHold config.now item now past past now newest places.old →
        AllHold config.now item now now past now newest places.new }
{
    let stages = config.stages.as_slice();
    for k in 0..config.stages.len() {
        let at = place_behind(places.len(), newest, config, k, 9);
        operands::read_operands(&mut places[at], k, stages);
    }
}

/// Each stage sets the outcomes of the packet that is 8 cycles behind its start, and counts its hits.
pub fn set_outcomes(
    places: &mut [PacketSlot],
    newest: usize,
    config: &Config,
    counters: &mut Counts,
)
    requires fits { StagesFit config.now.stages }
    requires ring { IsRing config.now.stages newest places.old }
    ensures ring { IsRing config.now.stages newest places.new }
    ensures spare { counters.new.room ≡ counters.old.room }
    ensures holds { (item : ℕ → Option Entered) →
        AllHold config.now item now now past now newest places.old →
        AllHold config.now item now now now now newest places.new
        × CountsAlso counters.old.counts counters.new.counts (hits_upto config.now item (length config.now.stages)) }
{
    let stages = config.stages.as_slice();
    for k in 0..config.stages.len() {
        let at = place_behind(places.len(), newest, config, k, 8);
        outcomes::set_outcomes(&mut places[at], k, stages, counters);
    }
}

/// Each stage reads the keys and tests of the packet that is at its start.
pub fn read_keys(
    places: &mut [PacketSlot],
    newest: usize,
    config: &Config,
    memories: &[Vec<SlotMemory>],
    seed: u8,
)
    requires fits { StagesFit config.now.stages }
    requires memories { MemoriesOf config.now.stages memories.now }
    requires ring { IsRing config.now.stages newest places.old }
    ensures ring { IsRing config.now.stages newest places.new }
    ensures holds { (cells : RunCells) (item : ℕ → Option Entered) →
        MemoriesHold config.now cells memories.now → cells.seed ≡ seed → LooksNow config.now cells item →
        AllHold config.now item now now now now newest places.old →
        AllHold config.now item now now now next newest places.new }
{
    let stages = config.stages.as_slice();
    for k in 0..config.stages.len() {
        let at = place_behind(places.len(), newest, config, k, 0);
        let place = &mut places[at];
        let sight = Sight {
            seed,
            named: config.names.is_some(),
            version: place.version,
        };
        keys::read_keys(place, k, stages, &memories[k], sight);
    }
}
