//! Reads the parts of a program's text from its tree.

ghost use Rattle.std.specs.Prelude.{◌≡◌, IfOk};
ghost use Rattle.rmt_check.specs.Reading.{parts, source_of};

use crate::reading::lists::{Among, first_place};
use crate::reading::words::nowhere;
use crate::source::Source;
use rmt_syntax::terminal::Terminal;
use rmt_syntax::tree::Tree;
use std::alloc::{AllocError, Global};

pub mod actions;
pub mod control;
pub mod fields;
pub mod headers;
pub mod lists;
pub mod tables;
pub mod words;

/// The parts of a tree; a token has none.
fn parts(tree: &Tree) -> &[Tree]
    ensures { result.now ≡ parts tree.now }
{
    match tree {
        Tree::One(_) => &[],
        Tree::Many { parts, .. } => parts.as_slice(),
    }
}

/// The parts of a program's text. Parts that the grammar asks for and that the tree lacks are nowhere and have no name.
pub fn read(alloc: Global, tree: &Tree) -> Result<Source, AllocError>
    ensures source { IfOk result (λ source. source ≡ source_of tree.now) }
{
    let parts = parts(tree);
    let ((headers, metas), ((actions, tables), control)) = Among::among(alloc, parts)?;
    Ok(Source {
        headers,
        metas,
        actions,
        tables,
        control,
        end: first_place(Terminal::End, parts).unwrap_or(nowhere()),
    })
}
