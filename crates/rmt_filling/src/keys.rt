//! The keys of exact tables, loaded under a seed.

ghost use Rattle.std.specs.Prelude.{◌≡◌, All, IfOk, map};
ghost use Rattle.std.specs.List.{AllZip};
ghost use Rattle.rmt_ast.specs.declared.entry.Entry.{Entry};
ghost use Rattle.rmt_ast.specs.State.{width_of};
ghost use Rattle.rmt_ast.specs.WellFormed.{IsKeyed, IsProgram, IsTest};
ghost use Rattle.rmt_filling.specs.Keys.{CanBeLoaded, IsTried, keys_of as keys_as_bytes};

use crate::data::widths_of;
use crate::stands::{Stands, as_loaded};
use rmt_ast::entry::Entry;
use rmt_ast::program::{Program, Table};
use rmt_bits::sequence::Sequence;
use rmt_cuckoo::fault::LoadFault;
use rmt_cuckoo::layout::{Keys, Layout};
use rmt_cuckoo::load;
use rmt_pack::encoding::tests_bytes;
use std::alloc::{AllocError, Global};

/// What comes of loading one table.
#[derive(Drop)]
pub enum TableTried {
    /// Where its entries stand.
    Stand(Stands),
    /// Some entries have fewer cells than they are.
    Overfull {
        /// How many these are.
        members: u32,
        /// How many cells they have together.
        cells: u64,
    },
}

/// The keys of the entries of a table.
pub fn keys_of(
    alloc: Global,
    program: &Program,
    table: &Table,
    entries: &[Entry],
) -> Result<Keys, AllocError>
    requires program { IsProgram program.now }
    requires entries { All (λ (e : Entry). AllZip IsTest (map (width_of program.now) table.now.key) e.tests) entries.now }
    requires table { IsKeyed program.now table.now }
    ensures { IfOk result (λ keys. keys ≡ keys_as_bytes program.now table.now entries.now) }
{
    let widths = widths_of(alloc, program, table.key.as_slice())?;
    let mut keys = Sequence::new(alloc);
    for entry in entries {
        let key = tests_bytes(alloc, widths.as_slice(), entry.tests.as_slice(), false)?;
        keys.push(Sequence::from_vec(key))?;
    }
    Ok(keys)
}

/// Loads the keys of an exact table under a seed.
pub fn load_exact(
    alloc: Global,
    layout: &Layout,
    keys: &Keys,
    seed: u8,
) -> Result<TableTried, AllocError>
    requires { CanBeLoaded layout.now keys.now }
    ensures { IfOk result (IsTried layout.now seed keys.now) }
{
    match load(alloc, layout, keys, seed) {
        Ok(cells) => {
            let stands = as_loaded(alloc, cells.as_slice())?;
            Ok(TableTried::Stand(stands))
        }
        Err(LoadFault::NoMemory) => Err(AllocError),
        Err(LoadFault::Overfull { members, cells }) => Ok(TableTried::Overfull {
            members: members.len() as u32,
            cells,
        }),
    }
}
