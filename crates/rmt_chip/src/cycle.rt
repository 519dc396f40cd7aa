//! One cycle of the chip.

ghost use Rattle.std.specs.Prelude.{◌≡◌, ◌+◌, ◌≤◌, ◌∷◌, ℕ, List, length, All};
ghost use Rattle.rmt_config.specs.ChipRun.{latency_of};
ghost use Rattle.rmt_config.specs.RunInputs.{Input};
ghost use Rattle.rmt_chip.specs.declared.packet_slot.PacketSlot.{PacketSlot as PlaceOf};
ghost use Rattle.rmt_chip.specs.PacketsInFlight.{InFlight, Precedes};
ghost use Rattle.rmt_chip.specs.FrameList.{frames_of};
ghost use Rattle.rmt_chip.specs.Inputs.{MayEnter};
ghost use Rattle.rmt_chip.specs.Cycles.{Cycles};
ghost use Rattle.rmt_chip.specs.Pending.{HaveRoomFor};
ghost use Rattle.rmt_chip.specs.Runnable.{IsRunnable, StagesFit};
ghost use Rattle.rmt_memory.specs.StageMemories.{MemoriesOf};

use crate::emit::leave;
use crate::enter::enter_if;
use crate::frame::Frame;
use crate::frames::Frames;
use crate::moment::Moment;
use crate::out::Out;
use crate::packet_slot::PacketSlot;
use crate::ring::{place_of, read_keys, read_operands, set_outcomes, write_words};
use rmt_bits::answer::Verdict;
use rmt_bits::counts::Counts;
use rmt_config::config::{Config, Stage};
use rmt_config::latency::latency as age_of_leaving;
use rmt_memory::memory::SlotMemory;

/// The age at which a packet leaves: 12 cycles behind the last start, or 0 where there is no stage.
pub fn latency(stages: &[Stage]) -> u16
    requires { StagesFit stages.now }
    ensures value { result ≡ latency_of stages.now }
    ensures within { result ≤ 384 }
{
    age_of_leaving(stages) as u16
}

/// One cycle: the input enters the newest slot, every stage acts on the packets at its ages, and
/// the packet whose age is `latency` leaves.
pub fn cycle(
    config: &Config,
    memories: &[Vec<SlotMemory>],
    places: &mut [PacketSlot],
    frames: &mut Frames,
    counters: &mut Counts,
    moment: Moment,
    frame: Option<Frame<'_>>,
    latency: u16,
    out: &mut Out,
) -> Option<Verdict>
    requires fits { IsRunnable config.now }
    requires memories { MemoriesOf config.now.stages memories.now }
    requires full { length places.old ≡ latency + 1 }
    requires framed { length (frames_of frames.old) ≡ latency + 1 }
    requires room { All (λ (p : PlaceOf). HaveRoomFor config.now.stages p.pending.items) places.old }
    requires in_ring { moment.newest ≤ latency }
    requires frame { MayEnter frame }
    requires leaves { latency ≡ latency_of config.now.stages }
    ensures room { All (λ (p : PlaceOf). HaveRoomFor config.now.stages p.pending.items) places.new }
    ensures framed { length (frames_of frames.new) ≡ length (frames_of frames.old) }
    ensures spare { counters.new.room ≡ counters.old.room }
    ensures gives { (numbers : List ℕ) (inputs later : List Input) (input : Input) (before : ℕ) →
        Precedes config.now inputs input before moment frame.entry memories.now →
        InFlight config.now numbers inputs (input ∷ later) before places.old (frames_of frames.old) counters.old.counts →
        Cycles config.now numbers inputs later input moment.newest places.new (frames_of frames.new) counters.new.counts result out.new }
{
    let newest = moment.newest;
    enter_if(&mut places[newest], frames, moment, config, frame);
    write_words(places, newest, config);
    read_operands(places, newest, config);
    set_outcomes(places, newest, config, counters);
    read_keys(places, newest, config, memories, moment.seed);
    let last = place_of(places.len(), newest, usize::from(latency));
    leave(config, &places[last], frames, last, out)
}
