//! How a packet enters its slot.

ghost use Rattle.std.specs.Prelude.{◌≡◌, ◌<◌, ◌≤◌, length};
ghost use Rattle.rmt_chip.specs.FrameList.{frames_of};
ghost use Rattle.rmt_chip.specs.Held.{EnteredBy, EntersIf};
ghost use Rattle.rmt_chip.specs.Inputs.{input_of, MayEnter, frames_after};
ghost use Rattle.rmt_chip.specs.Runnable.{IsRunnable};

use crate::accepted::is_accepted;
use crate::frame::Frame;
use crate::frames::Frames;
use crate::lanes::put;
use crate::moment::Moment;
use crate::packet_slot::PacketSlot;
use rmt_config::config::Config;
use rmt_config::tails::Tails;
use rmt_ptcam::parse::Parsed;
use rmt_ptcam::parse_chip;

/// The packet enters: it is parsed, its port is put where the configuration wants it, and nothing has been read for it.
fn enter(place: &mut PacketSlot, config: &Config, port: u16, bytes: &[u8], moment: Moment)
    requires fits { IsRunnable config.now }
    requires port { port < 512 }
    requires short { length bytes.now ≤ 9216 }
    ensures room { place.new.pending ≡ place.old.pending }
    ensures entered { EnteredBy config.now (record { port = port; frame = bytes.now }) moment.number moment.version place.new }
{
    place.taken = true;
    place.number = moment.number;
    place.version = moment.version;
    place.size = bytes.len() as u64;
    place.outcomes = [0; 256];
    let parsed = parse_chip(&config.parser, bytes, &mut place.vector, &mut place.tails);
    if is_accepted(parsed) {
        put(&mut place.vector, config.in_port, u32::from(port));
    }
    place.parsed = parsed;
}

/// A frame enters the newest packet slot, or nothing does.
pub fn enter_if(
    place: &mut PacketSlot,
    frames: &mut Frames,
    moment: Moment,
    config: &Config,
    frame: Option<Frame<'_>>,
)
    requires exists { moment.newest < length (frames_of frames.old) }
    requires fits { IsRunnable config.now }
    requires frame { MayEnter frame }
    ensures room { place.new.pending ≡ place.old.pending }
    ensures entered { EntersIf config.now (input_of frame.entry) moment.number moment.version place.new }
    ensures frames { frames_of frames.new ≡ frames_after frame.entry moment.newest (frames_of frames.old) }
{
    match frame {
        None => {
            place.taken = false;
            place.parsed = Parsed::Reject;
            place.tails = Tails::new();
        }
        Some(frame) => {
            frames.put(moment.newest, frame.bytes);
            enter(place, config, frame.port, frame.bytes, moment);
        }
    }
}
