//! Reads tables.

ghost use Rattle.std.specs.Prelude.{◌≡◌};
ghost use Rattle.rmt_check.specs.Reading.{kind_of, kind_at, key_at, table_at};

use crate::pairs::both;
use crate::reading::lists::{Among, Part, first_behind, first_place, parts_of};
use crate::reading::words::no_name;
use crate::source::{KeyText, TableText};
use rmt_ast::program::Kind;
use rmt_syntax::terminal::{Terminal, terminal_of};
use rmt_syntax::tree::{Rule, Tree};
use std::alloc::{AllocError, Global};

/// How a key is compared behind a word.
fn kind_of(terminal: Terminal) -> Option<Kind>
    ensures { result ≡ kind_of terminal }
{
    match terminal {
        Terminal::Exact => Some(Kind::Exact),
        Terminal::Prefix => Some(Kind::Prefix),
        Terminal::Ternary => Some(Kind::Ternary),
        _ => None,
    }
}

impl Part for Kind {
    ghost seen = { kind_at };

    fn read(_alloc: Global, trees: &[Tree]) -> Result<Option<Kind>, AllocError> {
        let [Tree::One(token), ..] = trees else {
            return Ok(None);
        };
        Ok(kind_of(terminal_of(token)))
    }
}

impl Part for KeyText {
    ghost seen = { key_at };

    fn read(alloc: Global, trees: &[Tree]) -> Result<Option<KeyText>, AllocError> {
        let Some(parts) = parts_of(Rule::Key, trees) else {
            return Ok(None);
        };
        let ((kind, size), (actions, fields)): ((Option<_>, _), _) = Among::among(alloc, parts)?;
        Ok(Some(KeyText {
            kind: kind.unwrap_or(Kind::Keyless),
            fields,
            actions,
            size,
            counted: first_place(Terminal::Counted, parts).is_some(),
        }))
    }
}

impl Part for TableText {
    ghost seen = { table_at };

    fn read(alloc: Global, trees: &[Tree]) -> Result<Option<TableText>, AllocError> {
        let Some(parts) = parts_of(Rule::Table, trees) else {
            return Ok(None);
        };
        let (default, ((ident, args), key)) = both(
            first_behind(alloc, Terminal::Default, parts),
            Among::among(alloc, parts),
        )?;
        Ok(Some(TableText {
            ident,
            key,
            default: default.unwrap_or(no_name(alloc)),
            args,
        }))
    }
}
