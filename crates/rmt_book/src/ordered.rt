//! Entries by their numbers.

ghost use Rattle.std.specs.Prelude.{◌≡◌, ◌++◌, ◌∷◌, [], IfOk, List, OnOk};
ghost use Rattle.rmt_ast.specs.declared.entry.Entry.{Entry as EntryOf};
ghost use Rattle.rmt_config.specs.NamesForm.{by_number};
ghost use Rattle.rmt_book.specs.Numbered.{IsNew, IsOrder};

use rmt_ast::entry::Entry;
use rmt_bits::sequence::Sequence;
use std::alloc::{AllocError, Global};
use std::collections::BTreeMap;

/// Entries, found by their numbers.
pub type Ordered = BTreeMap<u32, Entry>;

/// Adds an entry of a new number. The only fault is want of memory.
pub fn put(ordered: &mut Ordered, entry: Entry) -> Result<(), AllocError>
    ensures { OnOk result ((es : List EntryOf) → IsOrder es ordered.old → IsNew entry.number es → IsOrder (es ++ entry ∷ []) ordered.new) }
{
    ordered.insert(entry.number, entry)?;
    Ok(())
}

/// The entries by rising number. The only fault is want of memory.
pub fn in_order(alloc: Global, ordered: Ordered) -> Result<Sequence<Entry>, AllocError>
    ensures { IfOk result (λ list. (es : List EntryOf) → IsOrder es ordered → list ≡ by_number es) }
{
    let mut list = Sequence::from_vec(Vec::with_capacity(alloc, ordered.len())?);
    for (_, entry) in ordered {
        list.push(entry)?;
    }
    Ok(list)
}
