//! The bytes that a packet is sent with.

ghost use Rattle.std.specs.Prelude.{◌≡◌, ◌≤◌, ◌+◌, length, slice_index, vec_len};
ghost use Rattle.rmt_bits.specs.Bits.{bytes_of};
ghost use Rattle.rmt_config.specs.Life.{key_of};
ghost use Rattle.rmt_chip.specs.Runnable.{HeaderFits};

use crate::fault::ChipFault;
use crate::frames::Frames;
use crate::header::put_header;
use rmt_config::config::OutHeader;
use rmt_config::vector::Vector;
use std::alloc::Global;
use std::marker::Model;

/// The most bytes that a packet can be sent with: 64 headers of 64 bytes, and a frame.
pub const OUT_BYTES: usize = 13_312;

/// A buffer for the bytes of one answer. Contracts see it as these bytes.
#[derive(Drop, Debug)]
pub struct Out {
    pub(crate) buffer: Vec<u8>,
    pub(crate) len: usize,
}

impl Model for Out {
    ghost use Rattle.std.specs.Prelude.{List, ℕ, take, vec_len, ◌≡◌, ◌≤◌};

    ghost Value = { List ℕ };

    ghost view = { λ o. take o.len o.buffer.items };

    ghost invariant = { λ o. (vec_len o.buffer ≡ 13312) × (o.len ≤ 13312) };
}

impl Out {
    ghost use Rattle.std.specs.Prelude.{◌++◌, ◌<◌, [], IfOk, take, drop};
    ghost use Rattle.rmt_chip.specs.FrameList.{frame_at, frames_of};

    /// An empty buffer with room for every answer. It can only be refused for memory.
    pub fn new(alloc: Global) -> Result<Out, ChipFault>
        ensures { IfOk result (λ out. out ≡ []) }
    {
        let buffer = vec![in alloc; 0; OUT_BYTES]?;
        Ok(Out { buffer, len: 0 })
    }

    /// The bytes in the buffer.
    pub fn bytes(&self) -> &[u8]
        ensures { result.now ≡ self.now }
    {
        &self.buffer[..self.len]
    }

    /// Empties the buffer.
    pub(crate) fn clear(&mut self)
        ensures { self.new ≡ [] }
    {
        self.len = 0;
    }

    /// Adds so many bytes of the frame in a packet slot, from a place in it on.
    pub(crate) fn push_frame(&mut self, frames: &Frames, at: usize, from: u32, size: u32)
        requires exists { at < length (frames_of frames.now) }
        requires within { from + size ≤ length (frame_at frames.now at) }
        requires room { length self.old + size ≤ 13312 }
        ensures { self.new ≡ self.old ++ take size (drop from (frame_at frames.now at)) }
    {
        let end = self.len + size as usize;
        frames.read(at, from, &mut self.buffer[self.len..end]);
        self.len = end;
    }

    /// Adds the bytes of a header, said by its lanes.
    pub(crate) fn push_lanes(&mut self, vector: &Vector, header: &OutHeader)
        requires fits { HeaderFits header.now }
        requires room { length self.old + header.now.bytes ≤ 13312 }
        ensures { self.new ≡ self.old ++ bytes_of header.now.bytes (key_of (λ w. slice_index vector.now w) header.now.pieces) }
    {
        let end = self.len + usize::from(header.bytes);
        put_header(&mut self.buffer[self.len..end], vector, header);
        self.len = end;
    }
}
