//! The numbers of the entries that stand in cells.

ghost use Rattle.std.specs.Prelude.{◌≡◌, ◌<◌, ◌^◌, All, IfOk, map, length};
ghost use Rattle.rmt_ast.specs.declared.entry.Entry.{Entry};
ghost use Rattle.rmt_config.specs.declared.config.CellNumber.{CellNumber};
ghost use Rattle.rmt_filling.specs.declared.stands.Stand.{Stand};
ghost use Rattle.rmt_filling.specs.Numbers.{number_at};

use crate::stands::Stand;
use rmt_ast::entry::Entry;
use rmt_bits::sequence::Sequence;
use rmt_config::config::CellNumber;
use std::alloc::{AllocError, Global};

/// The number of an entry.
fn number_of(entry: &Entry) -> u32
    ensures number { result ≡ entry.now.number }
    ensures fits { result < 2 ^ 32 }
{
    entry.number
}

/// The numbers of the entries of a table that stand in the cells of a part.
pub fn numbers_of(
    alloc: Global,
    stands: &[Stand],
    entries: &[Entry],
) -> Result<Sequence<CellNumber>, AllocError>
    requires { All (λ (s : Stand). s.entry < length entries.now) stands.now }
    ensures numbers { IfOk result (λ numbers. numbers ≡ map (number_at entries.now) stands.now) }
    ensures small { IfOk result (All (λ (x : CellNumber). x.number < 2 ^ 32)) }
{
    let mut numbers = Sequence::new(alloc);
    for stand in stands {
        numbers.push(CellNumber {
            cell: stand.cell,
            number: number_of(&entries[stand.entry as usize]),
        })?;
    }
    Ok(numbers)
}
