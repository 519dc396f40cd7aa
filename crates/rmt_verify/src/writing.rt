//! Maps are written from their front, once, each list behind its length.

ghost use Rattle.std.specs.Prelude.{◌≡◌, ◌++◌, OnOk, IfOk, IsOkUnless};
ghost use Rattle.rmt_bits.specs.declared.fault.OutOfMemory.{OutOfMemory};
ghost use Rattle.rmt_verify.specs.Spelling.{MapFits, spelled_lists, spelled_map};
ghost use Rattle.rmt_verify.specs.Spells.{Spells};

mod items;
mod spelled;

use crate::fault::VerifyFault;
use crate::map_file::MapFile;
use spelled::{put_list8, put_list16, put_list32};
use std::alloc::{AllocError, Global};

/// What stands behind the version.
fn put_lists(out: &mut Vec<u8>, map: &MapFile) -> Result<(), AllocError>
    requires { MapFits map.now }
    ensures { OnOk result (out.new.items ≡ out.old.items ++ spelled_lists map.now) }
{
    put_list32(out, map.map.places.as_slice())?;
    put_list16(out, map.joins.as_slice())?;
    put_list16(out, map.map.placement.parts.as_slice())?;
    put_list8(out, map.map.starts.as_slice())?;
    put_list32(out, map.map.cells.as_slice())
}

fn put_map(out: &mut Vec<u8>, map: &MapFile) -> Result<(), AllocError>
    requires { MapFits map.now }
    ensures { OnOk result (out.new.items ≡ out.old.items ++ spelled_map map.now) }
{
    out.extend_from_slice(b"RMTM\0\x01")?;
    put_lists(out, map)
}

/// The bytes that spell a map. Its only refusal is `NoMemory`.
pub fn write_map(alloc: Global, map: &MapFile) -> Result<Vec<u8>, VerifyFault>
    requires fits { MapFits map.now }
    ensures ok { IfOk result (λ bytes. Spells bytes.items map.now) }
    ensures only_memory { IsOkUnless result OutOfMemory.NoMemory }
{
    let mut bytes = Vec::new(alloc);
    put_map(&mut bytes, map)?;
    Ok(bytes)
}
