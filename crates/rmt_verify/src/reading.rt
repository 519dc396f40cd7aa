//! Maps are read from their front, once, in time and memory linear in their bytes.

ghost use Rattle.std.specs.Prelude.{◌≡◌, ◌≢◌, ℕ, List, IfOk, Ok, Err};
ghost use Rattle.rmt_verify.specs.declared.map_file.MapFile.{MapFile};
ghost use Rattle.rmt_verify.specs.declared.fault.MapFault.TheVariants.{NoMemory};
ghost use Rattle.rmt_verify.specs.Readers.{Gives};
ghost use Rattle.rmt_verify.specs.Reading.{whole_of, map_of};
ghost use Rattle.rmt_verify.specs.Spells.{Spells};

mod items;
mod lists;
mod number;

use crate::fault::MapFault;
use crate::map_file::MapFile;
use lists::lists_of;
use std::alloc::Global;

/// What stands behind the version, and nothing behind it.
fn whole(alloc: Global, bytes: &[u8]) -> Result<MapFile, MapFault>
    ensures { Gives (λ m. m) result (whole_of bytes.now) }
{
    let (map, rest) = lists_of(alloc, bytes)?;
    match rest {
        [] => Ok(map),
        [_, ..] => Err(MapFault::Form),
    }
}

fn map(alloc: Global, bytes: &[u8]) -> Result<MapFile, MapFault>
    ensures { Gives (λ m. m) result (map_of bytes.now) }
{
    if bytes.starts_with(b"RMTM\0\x01") {
        whole(alloc, &bytes[6..])
    } else {
        Err(MapFault::Form)
    }
}

/// The map that bytes spell. `Form` comes exactly where they spell none.
pub fn read_map(alloc: Global, bytes: &[u8]) -> Result<MapFile, MapFault>
    // What is read is spelled so, and fits its places.
    ensures found { IfOk result (λ m. Spells bytes.now m) }
    // What is spelled so is read, unless memory runs out.
    ensures only { (m : MapFile) → Spells bytes.now m → result ≢ Err NoMemory → result ≡ Ok m }
{
    map(alloc, bytes)
}

/// No bytes spell two maps.
pub fn spells_one()
    ensures { (bytes : List ℕ) (a b : MapFile) → Spells bytes a → Spells bytes b → a ≡ b }
{}
