//! Where a map says that entries stand.

ghost use Rattle.std.specs.Prelude.{◌↔◌, List, AllPairs, Contains, IfOk, IsTrue, MatchOption};
ghost use Rattle.rmt_refine.specs.declared.map.CellOf.{CellOf as CellOfMap};
ghost use Rattle.rmt_verify.specs.Told.{AreTold, TellApart};

use rmt_refine::map::CellOf;
use std::alloc::{AllocError, Global};
use std::collections::BTreeMap;

/// What a map tells of each entry, found by the entry's number; None where it tells of one twice.
pub fn told_of(alloc: Global, cells: &[CellOf]) -> Result<Option<BTreeMap<u32, CellOf>>, AllocError>
    ensures { IfOk result (λ told. MatchOption told (AllPairs TellApart cells.now → ⊥) (AreTold cells.now)) }
{
    let mut told = BTreeMap::new(alloc);
    for cell in cells {
        let before = told.insert(cell.entry, *cell)?;
        if before.is_some() {
            return Ok(None);
        }
    }
    Ok(Some(told))
}

/// Whether a map tells of an entry that it stands in a cell.
pub fn is_told(told: &BTreeMap<u32, CellOf>, cell: CellOf) -> bool
    ensures { (cells : List CellOfMap) → AreTold cells told.now → (IsTrue result ↔ Contains cells cell) }
{
    match told.get(&cell.entry) {
        Some(own) => *own == cell,
        None => false,
    }
}
