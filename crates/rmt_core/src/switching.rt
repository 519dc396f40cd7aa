//! The command `switch`.

ghost use Rattle.std.specs.Prelude.{◌≡◌, ◌≤◌, ◌⊎◌, string_bytes};
ghost use Rattle.rmt_switch.specs.Printed.{switch_line};
ghost use Rattle.rmt_core.specs.Commands.{IsPossible, Switch};
ghost use Rattle.rmt_drive.specs.Ends.{WritesAndPrints, outside};
ghost use Rattle.rmt_drive.specs.Given.{Stores};
ghost use Rattle.rmt_core.specs.Switching.{GivesSwitch, port_writes};

mod inputs;
mod ports;
pub mod setup;

use crate::commands::SwitchNames;
use crate::switching::inputs::read_inputs;
use crate::switching::ports::port_files;
use crate::switching::setup::{Setup, set_up, tell_setup_fault};
use crate::writing::deliver;
use rmt_drive::status::Status;
use rmt_io::shelf::Shelf;
use rmt_io::sink::Sink;
use rmt_switch::switched::Switched;
use rmt_switch::{run, switch_line as line_of};
use std::alloc::Global;

/// Runs the frames of a capture through the chip of an image and the queues of its ports, where each port takes an item after so
/// many cycles; writes a capture for each port that sent, and prints the line of the counts.
pub fn switch<F: Shelf, O: Sink>(
    alloc: Global,
    names: SwitchNames<'_>,
    every: u32,
    shelf: &mut F,
    out: &mut O,
) -> Status
    requires { 1 ≤ every }
    ensures possible { IsPossible
        (Switch (string_bytes names.entry.image.now) (string_bytes names.entry.groups.now)
        (string_bytes names.entry.capture.now) (string_bytes names.entry.out.now) every) result }
    ensures call { WritesAndPrints (outside (F.state shelf.old) (O.state out.old))
        (outside (F.state shelf.new) (O.state out.new))
        (λ files. GivesSwitch files (string_bytes names.entry.image.now) (string_bytes names.entry.groups.now)
        (string_bytes names.entry.capture.now) (string_bytes names.entry.out.now) every) result }
{
    let inputs = match read_inputs(alloc, names, shelf) {
        Ok(inputs) => inputs,
        Err(status) => return status,
    };
    let Setup {
        config,
        groups,
        capture,
    } = match set_up(alloc, &inputs) {
        Ok(setup) => setup,
        Err(fault) => return tell_setup_fault(alloc, fault, out),
    };
    let file = inputs.capture.as_slice();
    match run(alloc, config, &groups, every, file, &capture) {
        Ok(switched) => deliver_ports(alloc, switched, names.out, shelf, out),
        Err(_) => Status::NoMemory,
    }
}

/// Writes the captures of a run, and then prints its line.
fn deliver_ports<F: Shelf, O: Sink>(
    alloc: Global,
    switched: Switched,
    name: &String,
    shelf: &mut F,
    out: &mut O,
) -> Status
    ensures kind { (result ≡ Status.Done) ⊎ (result ≡ Status.WriteFault)
        ⊎ (result ≡ Status.NoMemory) }
    ensures call { WritesAndPrints (outside (F.state shelf.old) (O.state out.old))
        (outside (F.state shelf.new) (O.state out.new))
        (Stores (port_writes (string_bytes name.now) switched.files)
        (switch_line switched.counts)) result }
{
    let Switched { files, counts } = switched;
    let Ok(line) = line_of(alloc, &counts) else {
        return Status::NoMemory;
    };
    match port_files(alloc, name, files) {
        Ok(files) => deliver(alloc, files.as_slice(), line.as_bytes(), shelf, out),
        Err(_) => Status::NoMemory,
    }
}
