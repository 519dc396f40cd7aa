//! The shapes of the parts of tables.

ghost use Rattle.std.specs.Prelude.{◌≡◌, ◌+◌, ◌<◌, ◌^◌, IfOk};
ghost use Rattle.rmt_filling.specs.Holding.{exact_part, ternary_part};

use rmt_bits::answer::Bytes;
use rmt_pack::shape::{EXACT, Shape, TERNARY};
use std::alloc::{AllocError, Global};

/// A list of blocks with the same blocks.
fn copied(alloc: Global, blocks: &Bytes) -> Result<Bytes, AllocError>
    ensures { IfOk result (λ same. same ≡ blocks.now) }
{
    let mut same = Bytes::new(alloc);
    for block in blocks.as_slice() {
        same.push(*block)?;
    }
    Ok(same)
}

/// The shape of an exact part.
pub fn exact_shape(
    alloc: Global,
    key: u16,
    held: u16,
    width: u8,
    per: u16,
    quanta: u8,
    keys: &Bytes,
    records: &Bytes,
) -> Result<Shape, AllocError>
    ensures { IfOk result (λ shape. shape ≡ exact_part key held width per quanta keys.now records.now) }
{
    Ok(Shape {
        memory: EXACT,
        key,
        width,
        per,
        quanta,
        held,
        keys: copied(alloc, keys)?,
        records: copied(alloc, records)?,
    })
}

/// The shape of a ternary part.
pub fn ternary_shape(
    alloc: Global,
    key: u16,
    held: u16,
    quanta: u8,
    records: &Bytes,
) -> Result<Shape, AllocError>
    requires { held + 8 < 2 ^ 16 }
    ensures { IfOk result (λ shape. shape ≡ ternary_part key held quanta records.now) }
{
    Ok(Shape {
        memory: TERNARY,
        key,
        width: 0,
        per: 0,
        quanta,
        held: held + 8,
        keys: Bytes::new(alloc),
        records: copied(alloc, records)?,
    })
}
