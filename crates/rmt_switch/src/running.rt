//! A run of a switch.

ghost use Rattle.std.specs.Prelude.{◌≡◌, ◌<◌, ◌≤◌, ◌+◌, ◌++◌, ◌∷◌, ◌^◌, [], ℕ, List, Ok, length, slice_get, nat_eq, IfOk, OnOk, OnErr, IsErrOf};
ghost use Rattle.std.specs.List.{All, IsDistinct};
ghost use Rattle.rmt_bits.specs.Packet.{Packet};
ghost use Rattle.rmt_config.specs.declared.config.Config.{Config as ConfigOf};
ghost use Rattle.rmt_config.specs.ChipRun.{cycles_of, latency_of};
ghost use Rattle.rmt_config.specs.Form.{Formed};
ghost use Rattle.rmt_config.specs.Limits.{IsWithinLimits};
ghost use Rattle.rmt_chip.specs.Inputs.{input_of, MayEnter};
ghost use Rattle.rmt_pcap.specs.declared.capture.Capture.{Capture as CaptureOf};
ghost use Rattle.rmt_pcap.specs.Captures.{IsHead, IsOfFile, capture_of};
ghost use Rattle.rmt_queues.specs.Calls.{Call};
ghost use Rattle.rmt_queues.specs.Calls.Call.{Offer};
ghost use Rattle.rmt_switch.specs.Clocked.{Runs};
ghost use Rattle.rmt_switch.specs.Copies.{rounds};
ghost use Rattle.rmt_switch.specs.Ports.{Holds};
ghost use Rattle.rmt_switch.specs.Running.{CanBeOffered, Ends, Goes, offer_left, unsent_left};
ghost use Rattle.rmt_switch.specs.Switch.{Switch, packets_in, ports_for, switch_of, switched, time_of};

use crate::clocking::{clock, latency};
use crate::group_table::Groups;
use crate::ports::{Ports, files};
use crate::switched::{SwitchCounts, Switched};
use rmt_bits::answer::Verdict;
use rmt_bits::fault::OutOfMemory;
use rmt_chip::chip::Chip;
use rmt_chip::frame::Frame;
use rmt_chip::out::Out;
use rmt_config::config::Config;
use rmt_pcap::capture::Capture;
use std::alloc::{AllocError, Global};

/// How many items the queue of a port may have, so that as many takes leave nothing in it.
const DEPTH: u16 = 64;

/// Runs the frames of a capture through the chip, one a cycle and all on port 0, and what is sent through queues of 512
/// ports of 64 items each. After each cycle a packet that was sent is offered to the ports of the line of its group, or
/// to its port alone where no line has it; then, after every so many cycles, each port takes one item and sends it.
/// After the last cycle all queues are taken empty.
///
/// The capture is what a file of at most 4,294,967,294 bytes says, and `every` is at least 1. Memory is taken for the
/// captures of all ports.
///
/// # Errors
///
/// For want of memory alone.
pub fn run(
    alloc: Global,
    config: Config,
    groups: &Groups,
    every: u32,
    file: &[u8],
    capture: &Capture,
) -> Result<Switched, OutOfMemory>
    requires form { Formed config }
    requires limits { IsWithinLimits config }
    requires every { 1 ≤ every }
    requires short { length file.now ≤ 4294967294 }
    requires read { capture_of file.now ≡ Ok capture.now }
    requires head { IsHead capture.now.big capture.now.head }
    requires records { All (IsOfFile file.now) capture.now.records }
    // The captures and the counts are those of the chip run for the frames, followed by queues as lists.
    ensures switched { IfOk result (λ s. s ≡ switched config groups.now every file.now capture.now) }
    ensures no_memory { OnErr result (IsErrOf result OutOfMemory.NoMemory) }
{
    let mut running = start(alloc, config)?;
    match run_all(&mut running, groups, every, file, capture) {
        Ok(()) => {}
        Err(_) => return Err(OutOfMemory::NoMemory),
    }
    finish(alloc, running, capture)
}

/// What there is of a run.
#[derive(Drop)]
struct Running {
    /// The chip.
    chip: Chip,
    /// The bytes of what leaves it.
    leaving: Out,
    /// The output ports.
    ports: Ports,
    /// The item that is offered.
    item: Vec<u8>,
    /// The packets that left and were not sent.
    dropped: u64,
}

/// A run before its first cycle.
fn start(alloc: Global, config: Config) -> Result<Running, OutOfMemory>
    requires form { Formed config }
    requires limits { IsWithinLimits config }
    ensures { IfOk result (λ run. (s : Switch) (file : List ℕ) (capture : CaptureOf) →
        s.config ≡ config → Goes s file capture 0 run) }
{
    let ports = Ports::new(alloc)?;
    let leaving = Out::new(alloc)?;
    let chip = Chip::open(alloc, config)?;
    Ok(Running {
        chip,
        leaving,
        ports,
        item: Vec::new(alloc),
        dropped: 0,
    })
}

/// All cycles of a run, and then rounds until all queues are empty.
fn run_all(
    running: &mut Running,
    groups: &Groups,
    every: u32,
    file: &[u8],
    capture: &Capture,
) -> Result<(), AllocError>
    requires every { 1 ≤ every }
    requires head { length capture.now.head ≡ 24 }
    requires records { All (IsOfFile file.now) capture.now.records }
    requires few { length capture.now.records ≤ 4294967294 }
    requires goes { (c : ConfigOf) × Runs c × Goes (switch_of c groups.now every) file.now capture.now 0 running.old }
    ensures { OnOk result ((c : ConfigOf) → Runs c → Goes (switch_of c groups.now every) file.now capture.now 0 running.old →
        Ends (switch_of c groups.now every) file.now capture.now running.new) }
{
    let cycles = cycles(capture.records.len(), latency(&running.chip));
    for cycle in 0..cycles {
        running.turn(groups, every, file, capture, cycle)?;
    }
    running.empty(capture)?;
    Ok(())
}

/// How many cycles there are for so many frames.
fn cycles(frames: usize, latency: u16) -> usize
    requires { frames ≤ 4294967294 }
    ensures cycles { (c : ConfigOf) (packets : List Packet) → length packets ≡ frames →
        latency ≡ latency_of c.stages → result ≡ cycles_of c packets }
    ensures few { result < 2 ^ 33 }
{
    if frames == 0 {
        0
    } else {
        frames + usize::from(latency)
    }
}

impl Running {
    /// A cycle: the chip's, the offer of what leaves it, and the takes where it is their turn.
    fn turn(
        &mut self,
        groups: &Groups,
        every: u32,
        file: &[u8],
        capture: &Capture,
        cycle: usize,
    ) -> Result<(), AllocError>
        requires every { 1 ≤ every }
        requires head { length capture.now.head ≡ 24 }
        requires records { All (IsOfFile file.now) capture.now.records }
        requires few { cycle < 2 ^ 33 }
        requires goes { (c : ConfigOf) × Runs c × Goes (switch_of c groups.now every) file.now capture.now cycle self.old
            × (cycle < cycles_of c (packets_in file.now capture.now)) }
        ensures { OnOk result ((c : ConfigOf) → Runs c → Goes (switch_of c groups.now every) file.now capture.now cycle self.old →
            cycle < cycles_of c (packets_in file.now capture.now) →
            Goes (switch_of c groups.now every) file.now capture.now (cycle + 1) self.new) }
    {
        let frame = frame_at(file, capture, cycle);
        let left = clock(&mut self.chip, frame, &mut self.leaving);
        let number = cycle.saturating_sub(usize::from(latency(&self.chip)));
        self.leave(groups, time_of(capture, number), left)?;
        self.ports.round_after(capture, cycle, every)?;
        Ok(())
    }

    /// What leaves the chip: a packet that was sent is offered, and others are counted.
    fn leave(
        &mut self,
        groups: &Groups,
        time: &[u8],
        left: Option<Verdict>,
    ) -> Result<(), AllocError>
        requires sent { CanBeOffered time.now left self.old.leaving }
        requires few { self.old.dropped < 2 ^ 50 }
        requires holds { (capture : CaptureOf) × (calls : List Call) × Holds capture calls self.old.ports × (length calls < 2 ^ 50) }
        ensures chip { self.new.chip ≡ self.old.chip }
        ensures dropped { self.new.dropped ≡ self.old.dropped + unsent_left left }
        ensures holds { OnOk result ((capture : CaptureOf) (calls : List Call) → Holds capture calls self.old.ports →
            Holds capture (calls ++ offer_left groups.now time.now left self.old.leaving) self.new.ports) }
    {
        let Some(verdict) = left else {
            return Ok(());
        };
        match verdict {
            Verdict::Sent { port } => self.offer(groups, port, time)?,
            Verdict::Short | Verdict::Reject | Verdict::Dropped => self.dropped += 1,
        }
        Ok(())
    }

    /// Offers the packet that is leaving: its time and its bytes, to the ports of the line of the group, or to the
    /// port alone.
    fn offer(&mut self, groups: &Groups, port: u16, time: &[u8]) -> Result<(), AllocError>
        requires port { port < 512 }
        requires time { length time.now ≡ 8 }
        requires bytes { length self.old.leaving ≤ 13312 }
        requires holds { (capture : CaptureOf) × (calls : List Call) × Holds capture calls self.old.ports × (length calls < 2 ^ 50) }
        ensures chip { self.new.chip ≡ self.old.chip }
        ensures dropped { self.new.dropped ≡ self.old.dropped }
        ensures holds { OnOk result ((capture : CaptureOf) (calls : List Call) → Holds capture calls self.old.ports →
            Holds capture (calls ++ Offer (ports_for groups.now port) (time.now ++ self.old.leaving) ∷ []) self.new.ports) }
    {
        self.item.clear();
        self.item.extend_from_slice(time)?;
        self.item.extend_from_slice(self.leaving.bytes())?;
        self.ports
            .offer(receivers(groups, port, &[port]), &self.item);
        Ok(())
    }

    /// Rounds until all queues are empty.
    fn empty(&mut self, capture: &Capture) -> Result<(), AllocError>
        requires head { length capture.now.head ≡ 24 }
        requires holds { (calls : List Call) × Holds capture.now calls self.old.ports × (length calls < 2 ^ 49) }
        ensures dropped { self.new.dropped ≡ self.old.dropped }
        ensures holds { OnOk result ((calls : List Call) → Holds capture.now calls self.old.ports →
            Holds capture.now (calls ++ rounds 512 64) self.new.ports) }
    {
        for _round in 0..DEPTH {
            self.ports.round(capture)?;
        }
        Ok(())
    }
}

/// To which ports what is sent to a port goes: to those of the line of its group, or to itself alone where no line has
/// it.
fn receivers<'a>(groups: &'a Groups, port: u16, own: &'a [u16]) -> &'a [u16]
    requires port { port < 512 }
    requires own { own.now ≡ port ∷ [] }
    ensures ports { result.now ≡ ports_for groups.now port }
    ensures few { length result.now ≤ 8 }
    ensures within { All (λ port. port < 512) result.now }
    ensures once { IsDistinct nat_eq result.now }
{
    let line = groups.ports(port);
    if line.is_empty() { own } else { line }
}

/// The captures of the ports, of all that there is of a run.
fn captures_of(running: Running) -> Vec<Vec<u8>>
    ensures { result.items ≡ running.ports.files.items }
{
    let ports = running.ports;
    ports.files
}

/// What a run gives at its end.
fn finish(alloc: Global, running: Running, capture: &Capture) -> Result<Switched, OutOfMemory>
    requires head { length capture.now.head ≡ 24 }
    requires ends { (s : Switch) × (file : List ℕ) × Ends s file capture.now running }
    ensures { IfOk result (λ s. (c : ConfigOf) (groups : List (List ℕ)) (every : ℕ) (file : List ℕ) →
        Ends (switch_of c groups every) file capture.now running →
        s ≡ switched c groups every file capture.now) }
{
    let counts = SwitchCounts {
        packets: capture.records.len() as u64,
        skipped: u64::from(capture.skipped),
        out: running.ports.out,
        dropped: running.dropped,
        queue: running.ports.queue,
        cells: running.ports.cells,
    };
    let files = files(alloc, captures_of(running))?;
    Ok(Switched { files, counts })
}

/// The frame of a number, which comes in on port 0; None behind the last.
fn frame_at<'a>(file: &'a [u8], capture: &Capture, number: usize) -> Option<Frame<'a>>
    requires { All (IsOfFile file.now) capture.now.records }
    ensures input { input_of result ≡ slice_get (packets_in file.now capture.now) number }
    ensures enters { MayEnter result }
{
    match capture.records.get(number) {
        Some(record) => {
            let from = record.from as usize;
            Some(Frame {
                port: 0,
                bytes: &file[from..from + record.len as usize],
            })
        }
        None => None,
    }
}

/// The time of the frame of a number; no bytes behind the last.
fn time_of(capture: &Capture, number: usize) -> &[u8]
    ensures { result.now ≡ time_of capture.now number }
{
    match capture.records.get(number) {
        Some(record) => record.time.as_slice(),
        None => &[],
    }
}
