//! Queues of a chip's output ports, over cells in which an item is stored once for all its copies.

ghost use Rattle.std.specs.Prelude.{◌≡◌, ℕ, ◌<◌, ◌≤◌, List, length, take, IfOk, OnErr, IsErrOf, IfSome, MatchOption, Some, None, nat_eq};
ghost use Rattle.std.specs.List.{All, IsDistinct};
ghost use Rattle.rmt_queues.specs.Lists.{Lists, empty, offer_answer, offered, take_answer, taken};
ghost use Rattle.rmt_queues.specs.Stands.{Stands};

use crate::fault::QueueFault;
use crate::rings::{Ring, empty_rings, send, with_room};
use crate::stored::{Stored, all_spare, give_back, no_items, read};
use rmt_bits::fault::OutOfMemory;
use rmt_cells::cells::Cells;
use std::alloc::Global;

/// How many cells there are, of 64 bytes each.
const CELLS: u32 = 65_536;

/// The answer to an offer.
#[derive(Clone, Copy, Debug, PartialEq, Eq)]
pub enum Offered {
    /// Some port has room, and the item needs more cells than are free. Nothing has changed.
    CellsFull,
    /// The item was offered to each port.
    Queued {
        /// How many ports had room, 0 to 512: each has a copy now, behind those that it had.
        copies: u16,
        /// How many ports had no room, 0 to 512: their copies are lost.
        dropped: u16,
    },
}

/// The queues of output ports, which are numbered from 0. Only `new` takes memory.
#[derive(Drop)]
pub struct Queues {
    /// The cells in which the items' bytes are.
    cells: Cells,
    /// The items, by index: as many as all queues together may have.
    stored: Vec<Stored>,
    /// The indices at which no item is stored.
    spare: Vec<u32>,
    /// For each port the indices of the items in its queue.
    rings: Vec<Ring>,
    /// How many items a queue may have, 1 to 64.
    depth: u16,
}

impl Queues {
    /// Empty queues of so many ports, 1 to 512, of so many items each, 1 to 64, over 65,536 cells.
    ///
    /// # Errors
    ///
    /// For want of memory alone.
    pub fn new(alloc: Global, ports: u16, depth: u16) -> Result<Queues, QueueFault>
        requires some_ports { 1 ≤ ports }
        requires few_ports { ports ≤ 512 }
        requires some_depth { 1 ≤ depth }
        requires small_depth { depth ≤ 64 }
        ensures empty { IfOk result (Stands (empty 65536 ports depth)) }
        ensures no_memory { OnErr result (IsErrOf result OutOfMemory.NoMemory) }
    {
        let count = u32::from(ports) * u32::from(depth);
        let spare = all_spare(alloc, count)?;
        let cells = Cells::new(alloc, CELLS)?;
        let rings = empty_rings(alloc, ports, depth)?;
        let stored = no_items(alloc, count)?;
        Ok(Queues {
            cells,
            stored,
            spare,
            rings,
            depth,
        })
    }

    /// Offers an item of 1 to 13,320 bytes to ports, no port twice: each port that has room has a copy of it at the end of
    /// its queue. The item is stored once, however many ports have one. Where cells are short nothing changes. It takes no
    /// memory.
    pub fn offer(&mut self, ports: &[u16], item: &[u8]) -> Offered
        requires some { 1 ≤ length item.now }
        requires small { length item.now ≤ 13320 }
        requires once { IsDistinct nat_eq ports.now }
        requires stands { (s : Lists) × Stands s self.old × All (λ port. port < length s.queues) ports.now }
        // The queues are those of the definition, and so is the answer.
        ensures stands { (s : Lists) → Stands s self.old → Stands (offered s ports.now item.now) self.new }
        ensures answer { (s : Lists) → Stands s self.old → result ≡ offer_answer s ports.now item.now }
    {
        let copies = with_room(self.rings.as_slice(), self.depth, ports);
        let dropped = ports.len() as u16 - copies;
        if copies == 0 {
            return Offered::Queued { copies, dropped };
        }
        let chain = match self.cells.put(item) {
            Ok(chain) => chain,
            Err(_) => return Offered::CellsFull,
        };
        let index = match self.spare.pop() {
            Some(index) => index,
            None => unreachable!(),
        };
        self.stored[index as usize] = Stored {
            chain: Some(chain),
            len: item.len() as u32,
            copies,
        };
        send(&mut self.rings, self.depth, ports, index);
        Offered::Queued { copies, dropped }
    }

    /// Takes the first item of a port's queue: its bytes stand at the front of `into`, which has room for 13,320, and the
    /// answer is how many they are; None where the queue is empty. With its last copy an item's cells are given back. It
    /// takes no memory.
    pub fn take(&mut self, port: u16, into: &mut [u8]) -> Option<u32>
        requires room { 13320 ≤ length into.old }
        requires stands { (s : Lists) × Stands s self.old × (port < length s.queues) }
        // The queues are those of the definition, and so is the item.
        ensures stands { (s : Lists) → Stands s self.old → Stands (taken s port) self.new }
        ensures item { (s : Lists) → Stands s self.old →
            MatchOption result (take_answer s port ≡ None) (λ len. take_answer s port ≡ Some (take len into.new)) }
        ensures within { IfSome result (λ len. len ≤ length into.new) }
    {
        let index = match self.rings[port as usize].pop() {
            Some(index) => index,
            None => return None,
        };
        let item = &mut self.stored[index as usize];
        let len = read(&self.cells, item, into);
        if item.copies > 1 {
            item.copies -= 1;
            return Some(len);
        }
        give_back(&mut self.cells, item.chain.take());
        self.spare.push_reserved(index);
        Some(len)
    }
}
