//! The clocked chip.

ghost use Rattle.std.specs.Prelude.{◌≡◌, ◌+◌, ◌≤◌, All, IsTrue, is_none, length, vec_len};
ghost use Rattle.std.proofs.Props.{props};
ghost use Rattle.rmt_config.specs.ChipRun.{latency_of};
ghost use Rattle.rmt_config.specs.Form.{items_are_formed};
ghost use Rattle.rmt_config.specs.Limits.{limit_hit};
ghost use Rattle.rmt_chip.specs.declared.packet_slot.PacketSlot.{PacketSlot as PlaceOf};
ghost use Rattle.rmt_chip.specs.FrameList.{frames_of};
ghost use Rattle.rmt_chip.specs.Pending.{HaveRoomFor};
ghost use Rattle.rmt_memory.specs.StageMemories.{MemoriesOf};

use crate::counters::bring;
use crate::cycle::{cycle, latency};
use crate::fault::ChipFault;
use crate::frame::Frame;
use crate::frames::Frames;
use crate::moment::Moment;
use crate::open::parts_of;
use crate::out::Out;
use crate::packet_slot::PacketSlot;
use crate::ring::{oldest, place_after, place_of};
use crate::seen::Seen;
use crate::taken::is_taken;
use rmt_bits::answer::Verdict;
use rmt_bits::counts::Counts;
use rmt_config::cell_write::CellWrite;
use rmt_config::config::Config;
use rmt_memory::memory::SlotMemory;
use rmt_memory::stages::write_cell;
use std::alloc::Global;

/// The chip: its configuration with the memories laid out for reading, and a ring of slots for the packets in flight.
#[derive(Drop)]
pub struct Chip {
    config: Config,
    memories: Vec<Vec<SlotMemory>>,
    places: Vec<PacketSlot>,
    frames: Frames,
    counters: Counts,
    newest: usize,
    entered: u64,
    version: u64,
    seed: u8,
    latency: u16,
    ghost formed: { IsTrue (items_are_formed config) },
    ghost limits: { IsTrue (is_none (limit_hit config)) },
    ghost fit: { MemoriesOf config.stages memories.items } by { Prim.hlevel props },
    ghost full: { vec_len places ≡ latency + 1 },
    ghost framed: { length (frames_of frames) ≡ latency + 1 },
    ghost room: { All (λ (p : PlaceOf). HaveRoomFor config.stages p.pending.items) places.items } by { Prim.hlevel props },
    ghost in_ring: { newest ≤ latency },
    ghost leaves: { latency ≡ latency_of config.stages },
}

impl Chip {
    ghost use Rattle.std.specs.Prelude.{[], ◌∷◌, ◌++◌, ◌<◌, ◌^◌, ◌⊎◌, ℕ, List, None, true, false, Contains, map, IfOk, OnOk, OnErr};
    ghost use Rattle.rmt_bits.specs.declared.answer.Count.{Count};
    ghost use Rattle.rmt_config.specs.declared.config.Config.{Config};
    ghost use Rattle.rmt_config.specs.Form.{Formed};
    ghost use Rattle.rmt_config.specs.Limits.{IsWithinLimits};
    ghost use Rattle.rmt_config.specs.RunInputs.{Input, Writes, Turns, answer_in, counts_in, numbers_brought, packet_of};
    ghost use Rattle.rmt_chip.specs.Inputs.{input_of, input_from, MayEnter};
    ghost use Rattle.rmt_chip.specs.Leaving.{AnswersIf};
    ghost use Rattle.rmt_chip.specs.Stands.{Stands, Took, Turned, Shows, entered_of, spare_of, version_of, in_flight, oldest_in_flight};
    ghost use Rattle.rmt_memory.specs.Writable.{IsTaken};

    /// A chip in which no packet is. It takes all memory that the chip ever needs but room for counters
    /// of numbers that changed cells bring, and can only be refused for memory.
    pub fn open(alloc: Global, config: Config) -> Result<Chip, ChipFault>
        requires form { Formed config }
        requires limits { IsWithinLimits config }
        ensures { IfOk result (λ chip. Stands config [] chip) }
    {
        let latency = latency(config.stages.as_slice());
        let parts = parts_of(alloc, &config, usize::from(latency) + 1)?;
        let seed = config.seed;
        Ok(Chip {
            config,
            memories: parts.memories,
            places: parts.places,
            frames: parts.frames,
            counters: parts.counters,
            newest: 0,
            entered: 0,
            version: 0,
            seed,
            latency,
        })
    }

    /// Makes room for the counters of that many more numbers, which changed cells may bring. Without
    /// memory all is as before.
    pub fn reserve(&mut self, entries: u32) -> Result<(), ChipFault>
        ensures stands { (c : Config) (inputs : List Input) → Stands c inputs self.old → Stands c inputs self.new }
        ensures ok { OnOk result (entries ≤ spare_of self.new) }
        ensures kept { spare_of self.old ≤ spare_of self.new }
        ensures err { OnErr result (spare_of self.new ≡ spare_of self.old) }
    {
        self.counters.reserve(entries as usize)?;
        Ok(())
    }

    /// Its configuration.
    pub fn config(&self) -> &Config
        ensures { (c : Config) (inputs : List Input) → Stands c inputs self.now → result.now ≡ c }
    {
        &self.config
    }

    /// How many packets have entered.
    pub fn entered(&self) -> u64
        ensures { result ≡ entered_of self.now }
    {
        self.entered
    }

    /// How many versions were made, which is the version under which a packet enters.
    pub fn version(&self) -> u64
        ensures { result ≡ version_of self.now }
    {
        self.version
    }

    /// For how many more numbers there is room to count.
    pub fn spare(&self) -> usize
        ensures { result ≡ spare_of self.now }
    {
        self.counters.spare()
    }

    /// Whether a changed cell is one of a slot, and holds what the slot may have.
    pub fn takes(&self, write: &CellWrite) -> bool
        ensures yes { result ≡ true → IsTaken self.now.config.stages write.now }
        ensures no { result ≡ false → IsTaken self.now.config.stages write.now → ⊥ }
    {
        is_taken(self.config.stages.as_slice(), write)
    }

    /// One cycle, with a frame or nothing. The frame must be one that may enter, and fewer than
    /// 2^63 packets may have entered before. The answer is that to the packet that leaves, or None
    /// where none leaves; after a packet was sent its bytes are in `out`, and after every other
    /// answer `out` is empty. It takes no memory.
    pub fn clock(&mut self, frame: Option<Frame<'_>>, out: &mut Out) -> Option<Verdict>
        requires frame { MayEnter frame }
        requires few { entered_of self.old < 2 ^ 63 }
        ensures stands { (c : Config) (inputs : List Input) → Stands c inputs self.old →
            Stands c (inputs ++ input_from frame.entry ∷ []) self.new }
        ensures answers { (c : Config) (inputs : List Input) → Stands c inputs self.old →
            AnswersIf (answer_in c (inputs ++ input_from frame.entry ∷ []) (length inputs)) result out.new }
        ensures spare { spare_of self.new ≡ spare_of self.old }
    {
        self.turn(frame, out)
    }

    /// One cycle in which no packet enters and one cell changes, which packets see from the next cycle
    /// on. The cell must be one of its slot, and what it is to hold must be as the slot has it; where it
    /// brings a number into a counted slot that has no counter yet, there must be room for one. The
    /// answer is as that of `clock`. It takes no memory.
    pub fn clock_write(&mut self, write: &CellWrite, out: &mut Out) -> Option<Verdict>
        requires taken { IsTaken self.old.config.stages write.now }
        requires room { All (λ n. Contains (map (λ (count : Count). count.entry) self.old.counters.counts) n ⊎ (1 ≤ spare_of self.old))
            (numbers_brought self.old.config (Writes write.now)) }
        ensures stands { (c : Config) (inputs : List Input) → Stands c inputs self.old →
            Stands c (inputs ++ Writes write.now ∷ []) self.new }
        ensures answers { (c : Config) (inputs : List Input) → Stands c inputs self.old →
            AnswersIf (answer_in c (inputs ++ Writes write.now ∷ []) (length inputs)) result out.new }
        ensures spare { (c : Config) (inputs : List Input) → Stands c inputs self.old →
            spare_of self.new + length (counts_in c (inputs ++ Writes write.now ∷ [])) ≡ spare_of self.old + length (counts_in c inputs) }
        ensures falls { spare_of self.old ≤ spare_of self.new + 1 }
    {
        bring(&mut self.counters, &self.config, write);
        let answer = self.turn(None, out);
        write_cell(self.config.stages.as_slice(), &mut self.memories, write);
        answer
    }

    /// One cycle in which no packet enters, and which makes the next version the current one, with a new
    /// seed for look-ups. Fewer than 2^63 versions may have been made before. The answer is as that of
    /// `clock`. It takes no memory.
    pub fn clock_commit(&mut self, seed: u8, out: &mut Out) -> Option<Verdict>
        requires few { version_of self.old < 2 ^ 63 }
        ensures stands { (c : Config) (inputs : List Input) → Stands c inputs self.old →
            Stands c (inputs ++ Turns seed ∷ []) self.new }
        ensures answers { (c : Config) (inputs : List Input) → Stands c inputs self.old →
            AnswersIf (answer_in c (inputs ++ Turns seed ∷ []) (length inputs)) result out.new }
        ensures spare { spare_of self.new ≡ spare_of self.old }
    {
        let answer = self.turn(None, out);
        self.version += 1;
        self.seed = seed;
        answer
    }

    /// One cycle of the packets; the cells, the version and the seed stay.
    fn turn(&mut self, frame: Option<Frame<'_>>, out: &mut Out) -> Option<Verdict>
        requires frame { MayEnter frame }
        requires few { entered_of self.old < 2 ^ 63 ⊎ (frame ≡ None) }
        ensures goes { (c : Config) (numbers : List ℕ) (inputs : List Input) (input : Input) → packet_of input ≡ input_of frame.entry →
            Took c numbers inputs self.old → Turned c numbers inputs input self.new
            × AnswersIf (answer_in c (inputs ++ input ∷ []) (length inputs)) result out.new }
        ensures config { self.new.config ≡ self.old.config }
        ensures spare { spare_of self.new ≡ spare_of self.old }
        ensures version { version_of self.new ≡ version_of self.old }
    {
        let newest = place_after(self.places.len(), self.newest);
        let moment = Moment {
            newest,
            number: self.entered,
            version: self.version,
            seed: self.seed,
        };
        let entering = u64::from(frame.is_some());
        let answer = cycle(
            &self.config,
            &self.memories,
            &mut self.places,
            &mut self.frames,
            &mut self.counters,
            moment,
            frame,
            self.latency,
            out,
        );
        self.newest = newest;
        self.entered += entering;
        answer
    }

    /// The packet of this age, counted in cycles since it entered; None exactly where none of that
    /// age is in flight. A packet is in flight from age 0 to the age at which it leaves.
    pub fn probe(&self, age: u16) -> Option<Seen<'_>>
        ensures { (c : Config) (inputs : List Input) → Stands c inputs self.now →
            Shows c age (in_flight c inputs age) result }
    {
        if age > self.latency {
            return None;
        }
        let place = &self.places[place_of(self.places.len(), self.newest, usize::from(age))];
        if !place.taken {
            return None;
        }
        Some(Seen {
            number: place.number,
            words: &place.vector,
        })
    }

    /// The version of the oldest packet that hasn't left; None exactly where all have. In the cycle in
    /// which its age is the latency a packet leaves.
    pub fn oldest(&self) -> Option<u64>
        ensures { (c : Config) (inputs : List Input) → Stands c inputs self.now →
            result ≡ oldest_in_flight c inputs }
    {
        oldest(&self.places, self.newest, usize::from(self.latency))
    }

    /// How often each counted entry was hit, by rising number.
    pub fn counters(&self) -> &Counts
        ensures { (c : Config) (inputs : List Input) → Stands c inputs self.now →
            result.now.counts ≡ counts_in c inputs }
    {
        &self.counters
    }

    /// The age at which a packet leaves: 12 cycles behind the last start, or 0 without a stage.
    pub fn latency(&self) -> u16
        ensures { (c : Config) (inputs : List Input) → Stands c inputs self.now →
            result ≡ latency_of c.stages }
    {
        self.latency
    }
}
