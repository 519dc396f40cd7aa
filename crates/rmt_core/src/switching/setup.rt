//! What the files of `switch` say.

ghost use Rattle.std.specs.Prelude.{◌≡◌, ◌≤◌, ◌<◌, Ok, length, IfOk, IfErr};
ghost use Rattle.rmt_core.specs.Parts.{OnlyPrinted, Tells};
ghost use Rattle.std.specs.List.{All};
ghost use Rattle.rmt_pcap.specs.Captures.{IsHead, IsOfFile, capture_of};
ghost use Rattle.rmt_switch.specs.GroupText.{groups_of};
ghost use Rattle.rmt_drive.specs.SimText.{bad_packets_line};
ghost use Rattle.rmt_core.specs.SwitchSetup.{IsImageOf, SaysFault, setup_fault_line, setup_fault_status};

use crate::bad_image::tell_bad_image;
use crate::texts::{TextFault, tell_text_fault};
use rmt_config::config::Config;
use rmt_drive::status::Status;
use rmt_drive::telling::tell;
use rmt_image::{ImageFault, read_image};
use rmt_io::sink::Sink;
use rmt_pcap::capture::Capture;
use rmt_pcap::fault::CaptureFault;
use rmt_pcap::read_capture;
use rmt_switch::fault::GroupFault;
use rmt_switch::group_table::Groups;
use rmt_switch::groups as read_groups;
use std::alloc::{AllocError, Global};

/// The line that is told of a fault of a capture, which has no lines.
const NO_LINE: u32 = 0;

/// The bytes of the three files.
#[derive(Debug, Drop)]
pub struct Inputs {
    pub image: Vec<u8>,
    /// A group text.
    pub groups: Vec<u8>,
    /// A capture file.
    pub capture: Vec<u8>,
}

/// What the three files say.
#[derive(Drop)]
pub struct Setup {
    pub config: Config,
    pub groups: Groups,
    pub capture: Capture,
}

/// Why they say nothing.
#[derive(Clone, Copy, Debug)]
pub enum SetupFault {
    Image(ImageFault),
    Groups(GroupFault),
    Capture(CaptureFault),
}

/// What the three files say. A bad image counts before bad groups, and both before a bad capture.
pub fn set_up(alloc: Global, inputs: &Inputs) -> Result<Setup, SetupFault>
    requires groups { length inputs.now.groups.items < 4294967295 }
    requires capture { length inputs.now.capture.items ≤ 4294967294 }
    ensures image { IfOk result (λ setup. IsImageOf inputs.now.image.items setup.config) }
    ensures groups { IfOk result (λ setup. groups_of inputs.now.groups.items ≡ Ok setup.groups) }
    ensures capture { IfOk result
        (λ setup. capture_of inputs.now.capture.items ≡ Ok setup.capture) }
    ensures head { IfOk result (λ setup. IsHead setup.capture.big setup.capture.head) }
    ensures records { IfOk result
        (λ setup. All (IsOfFile inputs.now.capture.items) setup.capture.records) }
    ensures fault { IfErr result (SaysFault inputs.now.image.items inputs.now.groups.items
        inputs.now.capture.items) }
{
    let config = match read_image(alloc, inputs.image.as_slice()) {
        Ok(config) => config,
        Err(fault) => return Err(SetupFault::Image(fault)),
    };
    let groups = match read_groups(alloc, inputs.groups.as_slice()) {
        Ok(groups) => groups,
        Err(fault) => return Err(SetupFault::Groups(fault)),
    };
    match read_capture(alloc, inputs.capture.as_slice()) {
        Ok(capture) => Ok(Setup {
            config,
            groups,
            capture,
        }),
        Err(fault) => Err(SetupFault::Capture(fault)),
    }
}

/// Prints the last line that tells a fault of the files, and answers its status; `NoMemory` where there is no memory, and then
/// nothing is printed.
pub fn tell_setup_fault<O: Sink>(alloc: Global, fault: SetupFault, out: &mut O) -> Status
    ensures line { Tells (O.state out.old) (O.state out.new)
        (setup_fault_line fault) (setup_fault_status fault) result }
    ensures no_memory { fault ≡ SetupFault.Image ImageFault.NoMemory → result ≡ Status.NoMemory }
    ensures only_printed { OnlyPrinted (O.state out.old) (O.state out.new) }
{
    match fault {
        SetupFault::Image(fault) => tell_bad_image(alloc, fault, out),
        SetupFault::Groups(GroupFault::NoMemory) => {
            tell_text_fault(alloc, TextFault::NoMemory, out)
        }
        SetupFault::Groups(GroupFault::At { code, line }) => {
            tell_text_fault(alloc, TextFault::BadEntries { code, line }, out)
        }
        SetupFault::Capture(fault) => tell_capture_fault(alloc, fault, out),
    }
}

/// The same of a fault of the capture.
fn tell_capture_fault<O: Sink>(alloc: Global, fault: CaptureFault, out: &mut O) -> Status
    ensures line { Tells (O.state out.old) (O.state out.new)
        (setup_fault_line (SetupFault.Capture fault))
        (setup_fault_status (SetupFault.Capture fault)) result }
    ensures only_printed { OnlyPrinted (O.state out.old) (O.state out.new) }
{
    match fault {
        CaptureFault::NoMemory => tell_text_fault(alloc, TextFault::NoMemory, out),
        CaptureFault::Code(code) => { tell(bad_capture_text(alloc, code), Status::BadPackets, out) }
    }
}

/// `bad packets CODE line 0`
fn bad_capture_text(alloc: Global, code: u8) -> Result<Vec<u8>, AllocError>
    ensures { IfOk result (λ text. text.items ≡ bad_packets_line code 0) }
{
    let line = NO_LINE;
    let text = format!(in alloc; "bad packets {code} line {line}\n")?;
    Ok(text.into_bytes())
}
