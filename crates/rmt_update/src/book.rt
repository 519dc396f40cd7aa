//! The cells of a run with their entries.

ghost use Rattle.std.specs.Prelude.{◌≡◌, IfErr, IfOk, IsSome, List, Some};
ghost use Rattle.std.specs.List.{AllZip};
ghost use Rattle.rmt_update.specs.Types.{Config as ConfigOf, Entry, Names as NamesOf, RunCells};
ghost use Rattle.rmt_config.specs.Form.{Formed};
ghost use Rattle.rmt_config.specs.NamesForm.{entries_spelled};
ghost use Rattle.rmt_config.specs.RunCells.{own_cells};
ghost use Rattle.rmt_update.specs.BookStands.{BookStands};
ghost use Rattle.rmt_book.specs.Listed.{IsTable};

mod adding;
mod after;
pub mod book_index;
mod changing;
mod coming;
pub mod differences;
mod entering;
mod going;
mod in_rows;
mod index;
mod leaving;
pub mod loading;
pub mod moving;
mod next_index;
mod number_set;
mod open;
pub mod placing;
pub mod plan;
mod refill;
mod same;
mod seen;
pub mod settling;
mod taking;
mod turning;

use crate::book::adding::add_made;
use crate::book::book_index::BookIndex;
use crate::book::seen::entries_at;
use rmt_ast::entry::EntryLists;
use rmt_ast::names::Names;
use rmt_book::nodes::node_count;
use rmt_book::table::{TableCells, cells_of};
pub use rmt_book::{grid, kept, shape, spot, spots};
use rmt_config::config::Config;
use rmt_lists::fault::UpdateFault;
use std::alloc::{AllocError, Global};

/// The names of a configuration.
fn names_of(config: &Config) -> &Names
    requires { IsSome config.now.names }
    ensures { config.now.names ≡ Some result.now }
{
    match &config.names {
        Some(names) => names,
        None => unreachable!(),
    }
}

/// The tables of names with the cells that a configuration lists. The only fault is want of memory.
fn tables_of(alloc: Global, config: &Config, names: Names) -> Result<Vec<TableCells>, AllocError>
    requires formed { Formed config.now }
    requires named { config.now.names ≡ Some names }
    ensures { IfOk result (λ tables. AllZip (IsTable config.now) names.tables tables.items) }
{
    let mut tables = Vec::new(alloc);
    for name in names.tables.into_vec() {
        let parts = cells_of(alloc, config, &name)?;
        tables.push(TableCells { name, parts })?;
    }
    Ok(tables)
}

/// The cells of a run with the entries that its version sees.
#[derive(Drop)]
pub struct Book {
    /// Whether the number of its version is odd.
    odd: bool,
    /// The seed of the hash that finds exact keys.
    seed: u8,
    /// For how many nodes there are entry lists, from 0 on.
    nodes: u32,
    /// The tables with a key, by rising node.
    tables: Vec<TableCells>,
    /// Where their cells are found; None behind a commit that moves cells, or one that failed.
    index: Option<BookIndex>,
}

impl Book {
    /// A book of the cells of a configuration that has names, with the entries that they spell.
    ///
    /// # Errors
    ///
    /// For want of memory alone.
    pub fn new(alloc: Global, config: &Config) -> Result<Book, UpdateFault>
        requires formed { Formed config.now }
        requires named { IsSome config.now.names }
        ensures stands { IfOk result (λ book. (names : NamesOf) → config.now.names ≡ Some names →
            BookStands config.now (own_cells config.now) (entries_spelled config.now names) book) }
        ensures kept { IfOk result (λ book. IsSome book.index) }
        ensures fault { IfErr result (λ fault. fault ≡ UpdateFault.NoMemory) }
    {
        let names = names_of(config).copy(alloc)?;
        let tables = tables_of(alloc, config, names)?;
        let mut book = Book {
            odd: false,
            seed: config.seed,
            nodes: node_count(config),
            tables,
            index: None,
        };
        book.keep_index(alloc)?;
        Ok(book)
    }

    /// The entries that its version sees, a list by rising number for each node.
    ///
    /// # Errors
    ///
    /// For want of memory alone.
    pub fn entries(&self, alloc: Global) -> Result<EntryLists, UpdateFault>
        requires { (c : ConfigOf) × (cells : RunCells) × (lists : List (List Entry)) × BookStands c cells lists self.now }
        ensures entries { IfOk result (λ entries. (c : ConfigOf) (cells : RunCells) (lists : List (List Entry)) → BookStands c cells lists self.now → entries ≡ lists) }
        ensures fault { IfErr result (λ fault. fault ≡ UpdateFault.NoMemory) }
    {
        let mut lists = Vec::new(alloc);
        for node in 0..self.nodes {
            add_made(
                &mut lists,
                entries_at(alloc, self.odd, self.tables.as_slice(), node),
            )?;
        }
        Ok(EntryLists::from_vec(lists))
    }
}
