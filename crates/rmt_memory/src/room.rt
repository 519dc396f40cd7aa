//! Room for what the units of a stage read.

ghost use Rattle.std.specs.Prelude.{◌≡◌, IfOk};
ghost use Rattle.rmt_memory.specs.Looked.{HasRoom, HaveRoom, held_bytes as held_bytes_of};

use crate::looked::Looked;
use rmt_config::config::{Stage, Unit};
use std::alloc::{AllocError, Global};

/// How many bytes the data of an entry of a unit takes.
fn held_bytes(unit: &Unit) -> usize
    ensures { result ≡ held_bytes_of unit.now }
{
    match unit {
        Unit::Gate(_) => 0,
        Unit::Slot(slot) => (usize::from(slot.held) + 7) / 8,
    }
}

/// Room for what one unit reads.
fn room_of(alloc: Global, unit: &Unit) -> Result<Looked, AllocError>
    ensures { IfOk result (λ looked. HasRoom unit.now looked) }
{
    Ok(Looked {
        hit: false,
        code: 0,
        number: 0,
        held: vec![in alloc; 0; held_bytes(unit)]?,
    })
}

/// Room for what every unit of a stage reads.
pub fn room(alloc: Global, stage: &Stage) -> Result<Vec<Looked>, AllocError>
    ensures { IfOk result (λ looked. HaveRoom stage.now looked.items) }
{
    let units = stage.units.as_slice();
    let mut looked = Vec::with_capacity(alloc, units.len())?;
    for unit in units {
        looked.push(room_of(alloc, unit)?)?;
    }
    Ok(looked)
}
