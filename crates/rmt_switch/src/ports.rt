//! The output ports: their queues, and the captures of what they sent.

ghost use Rattle.std.specs.Prelude.{◌≡◌, ◌<◌, ◌≤◌, ◌+◌, ◌%◌, ◌++◌, ◌∷◌, ◌^◌, [], ℕ, List, length, slice_index_or, vec_len, map, replicate, Vec, true, false, ◌==◌, IfOk, OnOk, nat_eq, if◌then◌else◌};
ghost use Rattle.std.specs.List.{All, IsDistinct, list_any};
ghost use Rattle.std.specs.Global.{Global as GlobalOf};
ghost use Rattle.rmt_pcap.specs.declared.capture.Capture.{Capture as CaptureOf};
ghost use Rattle.rmt_queues.specs.Calls.{Call};
ghost use Rattle.rmt_queues.specs.Calls.Call.{Offer, Take};
ghost use Rattle.rmt_switch.specs.Ports.{Holds, files_from};
ghost use Rattle.rmt_switch.specs.Copies.{round};

use crate::records::put_item;
use crate::switched::PortFile;
use rmt_bits::answer::Bytes;
use rmt_bits::fault::OutOfMemory;
use rmt_bits::sequence::Sequence;
use rmt_pcap::capture::Capture;
use rmt_queues::queues::{Offered, Queues};
use std::alloc::{AllocError, Global};

/// How many ports there are.
const PORTS: u16 = 512;

/// How many items the queue of a port may have.
const DEPTH: u16 = 64;

/// The most bytes of an item.
const ITEM: usize = 13_320;

/// The output ports of a switch.
#[derive(Drop)]
pub struct Ports {
    /// Their queues.
    pub queues: Queues,
    /// For each port whether its queue may have an item; one without is passed over where ports take.
    pub waiting: Vec<bool>,
    /// Room for an item that is taken.
    pub room: Vec<u8>,
    /// For each port its capture; no bytes where it has sent nothing.
    pub files: Vec<Vec<u8>>,
    /// The copies that were taken.
    pub out: u64,
    /// The copies for which a queue had no room.
    pub queue: u64,
    /// The copies of items for which cells were short.
    pub cells: u64,
}

impl Ports {
    /// Ports with empty queues that have sent nothing.
    pub fn new(alloc: Global) -> Result<Ports, OutOfMemory>
        ensures { IfOk result (λ ports. (capture : CaptureOf) → Holds capture [] ports) }
    {
        let queues = Queues::new(alloc, PORTS, DEPTH)?;
        let waiting = vec![in alloc; false; PORTS as usize]?;
        let room = vec![in alloc; 0; ITEM]?;
        let files = no_files(alloc)?;
        Ok(Ports {
            queues,
            waiting,
            room,
            files,
            out: 0,
            queue: 0,
            cells: 0,
        })
    }

    /// Offers an item to ports, no port twice.
    pub fn offer(&mut self, ports: &[u16], item: &[u8])
        requires some { 1 ≤ length item.now }
        requires small { length item.now ≤ 13320 }
        requires once { IsDistinct nat_eq ports.now }
        requires within { All (λ port. port < 512) ports.now }
        requires few { length ports.now ≤ 8 }
        requires holds { (capture : CaptureOf) × (calls : List Call) × Holds capture calls self.old × (length calls < 2 ^ 50) }
        ensures { (capture : CaptureOf) (calls : List Call) → Holds capture calls self.old →
            Holds capture (calls ++ Offer ports.now item.now ∷ []) self.new }
    {
        mark(&mut self.waiting, ports);
        match self.queues.offer(ports, item) {
            Offered::CellsFull => self.cells += ports.len() as u64,
            Offered::Queued { copies: _, dropped } => self.queue += u64::from(dropped),
        }
    }

    /// Each port takes an item, if its queue has one, and sends it.
    pub fn round(&mut self, capture: &Capture) -> Result<(), AllocError>
        requires head { length capture.now.head ≡ 24 }
        requires holds { (calls : List Call) × Holds capture.now calls self.old × (length calls < 2 ^ 50) }
        ensures { OnOk result ((calls : List Call) → Holds capture.now calls self.old →
            Holds capture.now (calls ++ round 512) self.new) }
    {
        for port in 0..PORTS {
            if self.waiting[usize::from(port)] {
                self.take(capture, port)?;
            }
        }
        Ok(())
    }

    /// Each port takes an item where it is their turn, which is after every so many cycles.
    pub fn round_after(
        &mut self,
        capture: &Capture,
        cycle: usize,
        every: u32,
    ) -> Result<(), AllocError>
        requires few { cycle < 2 ^ 33 }
        requires every { 1 ≤ every }
        requires head { length capture.now.head ≡ 24 }
        requires holds { (calls : List Call) × Holds capture.now calls self.old × (length calls < 2 ^ 50) }
        ensures { OnOk result ((calls : List Call) → Holds capture.now calls self.old →
            Holds capture.now (calls ++ (if (cycle + 1) % every == 0 then round 512 else [])) self.new) }
    {
        if (cycle as u64 + 1) % u64::from(every) == 0 {
            self.round(capture)?;
        }
        Ok(())
    }

    /// A port takes an item, if its queue has one, and sends it.
    fn take(&mut self, capture: &Capture, port: u16) -> Result<(), AllocError>
        requires port { port < 512 }
        requires head { length capture.now.head ≡ 24 }
        requires holds { (calls : List Call) × Holds capture.now calls self.old × (length calls < 2 ^ 51) }
        ensures { OnOk result ((calls : List Call) → Holds capture.now calls self.old →
            Holds capture.now (calls ++ Take port ∷ []) self.new) }
    {
        let at = usize::from(port);
        match self.queues.take(port, &mut self.room) {
            Some(len) => {
                put_item(&mut self.files[at], capture, &self.room[..len as usize])?;
                self.out += 1;
            }
            None => self.waiting[at] = false,
        }
        Ok(())
    }
}

/// The captures of the ports that sent, by rising port.
pub fn files(alloc: Global, captures: Vec<Vec<u8>>) -> Result<Sequence<PortFile>, AllocError>
    requires { length captures.items ≡ 512 }
    ensures { IfOk result (λ files. files ≡ files_from 0 captures.items) }
{
    let mut files = Sequence::new(alloc);
    let mut port = 0;
    for bytes in captures {
        if !bytes.is_empty() {
            files.push(PortFile {
                port,
                bytes: Bytes::from_vec(bytes),
            })?;
        }
        port += 1;
    }
    Ok(files)
}

/// For each port no bytes.
fn no_files(alloc: Global) -> Result<Vec<Vec<u8>>, AllocError>
    ensures { IfOk result (λ files. map (λ (f : Vec ℕ GlobalOf). f.items) files.items ≡ replicate 512 []) }
{
    let mut files = Vec::with_capacity(alloc, PORTS as usize)?;
    for _port in 0..PORTS {
        files.push(Vec::new(alloc))?;
    }
    Ok(files)
}

/// Marks ports: their queues may have an item.
fn mark(waiting: &mut Vec<bool>, ports: &[u16])
    requires { All (λ port. port < vec_len waiting.old) ports.now }
    ensures many { length waiting.new.items ≡ length waiting.old.items }
    ensures others { (port : ℕ) → slice_index_or waiting.new.items port true ≡ false →
        (slice_index_or waiting.old.items port true ≡ false) × (list_any (λ p. p == port) ports.now ≡ false) }
{
    for port in ports {
        waiting[usize::from(*port)] = true;
    }
}
