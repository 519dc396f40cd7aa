//! How a packet leaves.

ghost use Rattle.std.specs.Prelude.{◌≡◌, [], ◌+◌, ◌-◌, ◌<◌, ◌≤◌, ◌++◌, length, take, drop, min, map, All, slice_index};
ghost use Rattle.rmt_config.specs.ChipRun.{header_bytes, tail_bytes, finished};
ghost use Rattle.rmt_chip.specs.FrameList.{frame_at, frames_of};
ghost use Rattle.rmt_chip.specs.Leaving.{Answers, AnswersIf, leaving_if, headers_sent, still};
ghost use Rattle.rmt_chip.specs.Runnable.{HeaderFits, IsRunnable};
ghost use Rattle.rmt_chip.specs.Tails.{tails_len};

use crate::frames::Frames;
use crate::lanes::lane;
use crate::out::Out;
use crate::packet_slot::PacketSlot;
use rmt_bits::answer::Verdict;
use rmt_config::config::{Config, OutHeader};
use rmt_config::tails::Tails;
use rmt_config::vector::Vector;
use rmt_ptcam::parse::Parsed;

/// Adds a part of the frame in a packet slot: so many bytes from a place on, or as many as it has there.
fn push_part(out: &mut Out, frames: &Frames, at: usize, from: u32, size: u32)
    requires exists { at < length (frames_of frames.now) }
    requires room { length out.old + min size (length (frame_at frames.now at) - from) ≤ 13312 }
    ensures { out.new ≡ out.old ++ take size (drop from (frame_at frames.now at)) }
{
    let len = frames.len(at);
    let from = from.min(len);
    out.push_frame(frames, at, from, size.min(len - from));
}

/// Adds the bytes of a header and its tail if it is valid.
fn push_header(
    out: &mut Out,
    vector: &Vector,
    header: &OutHeader,
    tail: (u16, u16),
    frames: &Frames,
    at: usize,
)
    requires exists { at < length (frames_of frames.now) }
    requires fits { HeaderFits header.now }
    requires room { length out.old + (64 + tail.1) ≤ 13312 }
    ensures { out.new ≡ out.old ++ header_bytes (λ w. slice_index vector.now w) header.now (take tail.1 (drop tail.0 (frame_at frames.now at))) }
{
    if lane(vector, header.valid) == 1 {
        out.push_lanes(vector, header);
        push_part(out, frames, at, u32::from(tail.0), u32::from(tail.1));
    }
}

/// Adds the bytes of all valid headers, in their order, each with its tail.
fn push_headers(
    out: &mut Out,
    vector: &Vector,
    headers: &[OutHeader],
    tails: &Tails,
    frames: &Frames,
    at: usize,
)
    requires exists { at < length (frames_of frames.now) }
    requires few { length headers.now ≤ 64 }
    requires fit { All HeaderFits headers.now }
    requires empty { out.old ≡ [] }
    requires short { tails_len tails.now ≤ 9216 }
    ensures bytes { out.new ≡ headers_sent (λ w. slice_index vector.now w) headers.now (map (tail_bytes (frame_at frames.now at)) tails.now) }
    ensures within { length out.new ≤ 4096 + tails_len tails.now }
{
    for (n, header) in headers.iter().enumerate() {
        let tail = tails.get(n as u8);
        push_header(out, vector, header, tail, frames, at);
    }
}

/// The answer to an accepted packet whose payload begins at a byte.
fn finish(
    config: &Config,
    place: &PacketSlot,
    used: u32,
    frames: &Frames,
    at: usize,
    out: &mut Out,
) -> Verdict
    requires exists { at < length (frames_of frames.now) }
    requires fits { IsRunnable config.now }
    requires empty { out.old ≡ [] }
    requires short { tails_len place.now.tails + (length (frame_at frames.now at) - used) ≤ 9216 }
    ensures { Answers (finished config.now (map (tail_bytes (frame_at frames.now at)) place.now.tails) (drop used (frame_at frames.now at)) (still place.now.vector)) result out.new }
{
    if lane(&place.vector, config.drop) == 1 {
        return Verdict::Dropped;
    }
    let headers = config.headers.as_slice();
    push_headers(out, &place.vector, headers, &place.tails, frames, at);
    push_part(out, frames, at, used, frames.len(at));
    Verdict::Sent {
        port: lane(&place.vector, config.out_port) as u16,
    }
}

/// The answer to the packet in slot `at`, and the bytes that it is sent with; None where no packet is there.
pub fn leave(
    config: &Config,
    place: &PacketSlot,
    frames: &Frames,
    at: usize,
    out: &mut Out,
) -> Option<Verdict>
    requires exists { at < length (frames_of frames.now) }
    requires fits { IsRunnable config.now }
    ensures { AnswersIf (leaving_if config.now place.now (frame_at frames.now at) place.now.taken) result out.new }
{
    out.clear();
    if !place.taken {
        return None;
    }
    match place.parsed {
        Parsed::Short => Some(Verdict::Short),
        Parsed::Reject => Some(Verdict::Reject),
        Parsed::Accept { used } => Some(finish(config, place, used, frames, at, out)),
    }
}
