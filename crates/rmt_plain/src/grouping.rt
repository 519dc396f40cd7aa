//! Entries are put into groups that test the same bits of the key.

ghost use Rattle.std.specs.Prelude.{◌≡◌, map, IfOk};
ghost use Rattle.rmt_bits.specs.Grouping.{AreGrouped};
ghost use Rattle.rmt_plain.specs.Grouping.{masks_of, values_of, row_of};

use rmt_ast::entry::Entry;
use rmt_ast::program::Test;
use rmt_bits::groups::{Group, Grouping, add, no_groups};
use std::alloc::{AllocError, Global};

/// The masks of tests.
fn masks(alloc: Global, tests: &[Test]) -> Result<Vec<u128>, AllocError>
    ensures { IfOk result (λ masks. masks.items ≡ masks_of tests.now) }
{
    let mut masks = Vec::with_capacity(alloc, tests.len())?;
    for test in tests {
        masks.push(test.mask)?;
    }
    Ok(masks)
}

/// The values of tests.
pub fn values(alloc: Global, tests: &[Test]) -> Result<Vec<u128>, AllocError>
    ensures { IfOk result (λ values. values.items ≡ values_of tests.now) }
{
    let mut values = Vec::with_capacity(alloc, tests.len())?;
    for test in tests {
        values.push(test.value)?;
    }
    Ok(values)
}

/// The groups of entries.
pub fn groups_of(alloc: Global, entries: &[Entry]) -> Result<Vec<Group>, AllocError>
    ensures { IfOk result (λ groups. AreGrouped (map row_of entries.now) groups.items) }
{
    let mut grouping = no_groups(alloc);
    for at in 0..entries.len() {
        let tests = entries[at].tests.as_slice();
        let masks = masks(alloc, tests)?;
        let values = values(alloc, tests)?;
        add(alloc, &mut grouping, masks, values, at)?;
    }
    let Grouping { groups, .. } = grouping;
    Ok(groups)
}
