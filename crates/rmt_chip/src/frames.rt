//! The frames of the packets in the chip, in linked cells.

ghost use Rattle.std.specs.Prelude.{◌≡◌, ◌+◌, ◌++◌, ◌∷◌, ◌≤◌, ℕ, List, [], Option, None, replicate, map, length, IfOk};
ghost use Rattle.std.proofs.Props.{props};
ghost use Rattle.rmt_cells.specs.Stands.{Held, Stands, cells_held, held_if};
ghost use Rattle.rmt_chip.specs.Frames.{AreFrames, frames_in};

use rmt_cells::cells::{Cells, Chain};
use std::alloc::{AllocError, Global};

/// The frames of the packets in the chip, one for each packet slot, each a chain of linked cells.
#[derive(Drop)]
pub struct Frames {
    cells: Cells,
    chains: Vec<Option<Chain>>,
    sizes: Vec<u32>,
    ghost stand: { AreFrames cells chains.items (frames_in cells chains.items) } by { Prim.hlevel props },
    ghost sized: { sizes.items ≡ map length (frames_in cells chains.items) },
}

impl Frames {
    ghost use Rattle.std.specs.Prelude.{◌<◌, take, drop, slice_set};
    ghost use Rattle.rmt_chip.specs.FrameList.{frames_of, frame_at};

    /// No frame in any of so many packet slots. It takes all memory that frames ever need.
    pub fn new(alloc: Global, count: usize) -> Result<Frames, AllocError>
        requires { count ≤ 385 }
        ensures { IfOk result (λ frames. frames_of frames ≡ replicate count []) }
    {
        let cells = match Cells::new(alloc, 144 * (count as u32 + 1)) {
            Ok(cells) => cells,
            Err(_) => return Err(AllocError),
        };
        let chains = no_chains(alloc, count)?;
        let sizes = no_sizes(alloc, count)?;
        Ok(Frames {
            cells,
            chains,
            sizes,
        })
    }

    /// Puts a frame in the place of the one that stood in this packet slot.
    pub fn put(&mut self, at: usize, bytes: &[u8])
        requires exists { at < length (frames_of self.old) }
        requires some { 1 ≤ length bytes.now }
        requires short { length bytes.now ≤ 9216 }
        ensures { frames_of self.new ≡ slice_set (frames_of self.old) at bytes.now }
    {
        let old = self.chains[at].take();
        clear(&mut self.cells, old);
        let chain = put_short(&mut self.cells, bytes);
        self.chains[at] = Some(chain);
        self.sizes[at] = bytes.len() as u32;
    }

    /// How many bytes the frame in a packet slot has, 0 where there is none.
    pub fn len(&self, at: usize) -> u32
        requires { at < length (frames_of self.now) }
        ensures len { result ≡ length (frame_at self.now at) }
        ensures short { result ≤ 9216 }
    {
        self.sizes[at]
    }

    /// Reads bytes of the frame in a packet slot, from a place in it on.
    pub fn read(&self, at: usize, from: u32, into: &mut [u8])
        requires exists { at < length (frames_of self.now) }
        requires within { from + length into.old ≤ length (frame_at self.now at) }
        ensures { into.new ≡ take (length into.old) (drop from (frame_at self.now at)) }
    {
        if let Some(chain) = &self.chains[at] {
            self.cells.read(chain, from, into);
        }
    }
}

/// No chain for any of so many packet slots.
fn no_chains(alloc: Global, count: usize) -> Result<Vec<Option<Chain>>, AllocError>
    ensures { IfOk result (λ chains. chains.items ≡ replicate count None) }
{
    let mut chains = Vec::with_capacity(alloc, count)?;
    for _at in 0..count {
        chains.push(None)?;
    }
    Ok(chains)
}

/// No byte for any of so many packet slots.
fn no_sizes(alloc: Global, count: usize) -> Result<Vec<u32>, AllocError>
    ensures { IfOk result (λ sizes. sizes.items ≡ replicate count 0) }
{
    vec![in alloc; 0; count]
}

/// Gives the cells of a chain back, if one is there.
fn clear(cells: &mut Cells, chain: Option<Chain>)
    requires { (count : ℕ) × (front : List Held) × (back : List Held) × (bytes : List ℕ) × Stands count (front ++ (held_if chain bytes ++ back)) cells.old }
    ensures { (count : ℕ) (front back : List Held) (bytes : List ℕ) →
        Stands count (front ++ (held_if chain bytes ++ back)) cells.old → Stands count (front ++ back) cells.new }
{
    if let Some(chain) = chain {
        cells.give_back(chain);
    }
}

/// Puts a frame, for which there is room.
fn put_short(cells: &mut Cells, bytes: &[u8]) -> Chain
    requires some { 1 ≤ length bytes.now }
    requires short { length bytes.now ≤ 9216 }
    requires room { (count : ℕ) × (held : List Held) × Stands count held cells.old × (cells_held held + 144 ≤ count) }
    ensures { (count : ℕ) (held : List Held) → Stands count held cells.old →
        Stands count (record { chain = result; bytes = bytes.now } ∷ held) cells.new }
{
    match cells.put(bytes) {
        Ok(chain) => chain,
        Err(_) => unreachable!(),
    }
}
