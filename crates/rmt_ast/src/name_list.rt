//! Names and their numbers.

ghost use Rattle.std.specs.Prelude.{◌≡◌, ◌<◌, length, IfOk, IfSome};
ghost use Rattle.rmt_ast.specs.NameList.{bytes_of, is_known, number_of, seen, HasNumbers};

use indexmap::IndexMap;
use std::alloc::{AllocError, Global};
use std::marker::Model;

/// A list of names, in which the number of a name is found: the place, from 0 on, of the first that is equal. Contracts
/// see it as the names.
#[derive(Drop)]
pub struct NameList<'a> {
    names: Vec<&'a [u8]>,
    numbers: IndexMap<&'a [u8], usize>,
}

impl<'a> Model for NameList<'a> {
    ghost use Rattle.std.specs.Prelude.{List, ℕ};
    ghost use Rattle.rmt_ast.specs.NameList.{seen, AreNumbered};

    ghost Value = { List (List ℕ) };

    ghost view = { λ n. seen n.names.items };

    ghost invariant = { AreNumbered };
}

impl<'a> NameList<'a> {
    /// These names with their numbers. It is refused for want of memory alone.
    pub fn of(alloc: Global, names: Vec<&'a [u8]>) -> Result<NameList<'a>, AllocError>
        ensures { IfOk result (λ n. n ≡ seen names.entry.items) }
    {
        let numbers = first_places(alloc, names.as_slice())?;
        Ok(NameList { names, numbers })
    }

    /// The number of a name; None for one that is not among them.
    pub fn number(&self, name: &[u8]) -> Option<usize>
        ensures number { result ≡ number_of self.now name.now }
        ensures within { IfSome result (λ n. n < length self.now) }
    {
        self.numbers.get(&name).copied()
    }

    /// Whether a name is among them.
    pub fn knows(&self, name: &[u8]) -> bool
        ensures { result ≡ is_known self.now name.now }
    {
        self.number(name).is_some()
    }
}

/// The first place of each of the names.
fn first_places<'a>(
    alloc: Global,
    names: &[&'a [u8]],
) -> Result<IndexMap<&'a [u8], usize>, AllocError>
    ensures { IfOk result (λ m. HasNumbers bytes_of m.entries (seen names.now)) }
{
    let mut numbers = IndexMap::new(alloc);
    for (place, name) in names.iter().enumerate() {
        if numbers.get(name).is_none() {
            numbers.insert(*name, place)?;
        }
    }
    Ok(numbers)
}
