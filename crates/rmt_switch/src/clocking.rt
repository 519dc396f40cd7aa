//! One cycle of the chip, in a run of the packets of a list.

ghost use Rattle.std.specs.Prelude.{◌≡◌, ◌<◌, ◌≤◌, ◌+◌, ◌^◌, ℕ, List, length, slice_get};
ghost use Rattle.rmt_bits.specs.Packet.{Packet};
ghost use Rattle.rmt_config.specs.declared.config.Config.{Config};
ghost use Rattle.rmt_config.specs.ChipRun.{answer_at, cycles_of, inputs_of, latency_of};
ghost use Rattle.rmt_chip.specs.Inputs.{input_of, MayEnter};
ghost use Rattle.rmt_chip.specs.Leaving.{AnswersIf};
ghost use Rattle.rmt_switch.specs.Clocked.{IsClocked};

use rmt_bits::answer::Verdict;
use rmt_chip::chip::Chip;
use rmt_chip::frame::Frame;
use rmt_chip::out::Out;

/// One cycle: with the frame of the packet of its number, or with nothing behind the last packet.
pub fn clock(chip: &mut Chip, frame: Option<Frame<'_>>, out: &mut Out) -> Option<Verdict>
    requires frame { MayEnter frame }
    requires clocked { (c : Config) × (packets : List Packet) × (cycle : ℕ) × IsClocked c packets cycle chip.old
        × (cycle < 2 ^ 63) × (cycle ≤ cycles_of c packets) }
    ensures { (c : Config) (packets : List Packet) (cycle : ℕ) → IsClocked c packets cycle chip.old →
        cycle < cycles_of c packets → input_of frame.entry ≡ slice_get packets cycle →
        IsClocked c packets (cycle + 1) chip.new × AnswersIf (answer_at c (inputs_of c packets) cycle) result out.new }
{
    chip.clock(frame, out)
}

/// The age at which a packet leaves.
pub fn latency(chip: &Chip) -> u16
    ensures { (c : Config) (packets : List Packet) (cycle : ℕ) → IsClocked c packets cycle chip.now → result ≡ latency_of c.stages }
{
    chip.latency()
}
