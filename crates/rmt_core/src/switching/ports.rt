//! The files of the ports.

ghost use Rattle.std.specs.Prelude.{◌≡◌, IfOk, string_bytes};
ghost use Rattle.rmt_core.specs.Switching.{port_write, port_writes};
ghost use Rattle.rmt_core.specs.Writing.{write_of, writes_of};

use crate::writing::NewFile;
use rmt_bits::sequence::Sequence;
use rmt_switch::switched::PortFile;
use std::alloc::{AllocError, Global};

/// The captures of ports as files, each under its name.
pub fn port_files(
    alloc: Global,
    out: &String,
    files: Sequence<PortFile>,
) -> Result<Vec<NewFile>, AllocError>
    ensures { IfOk result
        (λ named. writes_of named.items ≡ port_writes (string_bytes out.now) files) }
{
    let mut named = Vec::with_capacity(alloc, files.len())?;
    for file in files.into_vec() {
        named.push(port_file(alloc, out, file)?)?;
    }
    Ok(named)
}

/// The capture of a port as a file.
fn port_file(alloc: Global, out: &String, file: PortFile) -> Result<NewFile, AllocError>
    ensures { IfOk result (λ named. write_of named ≡ port_write (string_bytes out.now) file) }
{
    let PortFile { port, bytes } = file;
    let name = format!(in alloc; "{out}.{port}.pcap")?;
    Ok(NewFile {
        name,
        bytes: bytes.into_vec(),
    })
}
