//! Builds the program that a checked text means.

ghost use Rattle.std.specs.Prelude.{◌≡◌, IfOk};
ghost use Rattle.rmt_check.specs.Meaning.{program_of};
ghost use Rattle.rmt_check.specs.Sizes.{AreNested, IsSized};

use crate::building::fields::fields_of;
use crate::building::headers::headers_of;
use crate::building::mapped::mapped;
use crate::names::lookup::Lookup;
use crate::pairs::both;
use crate::rules::parts::nodes_of;
use rmt_ast::program::Program;
use std::alloc::{AllocError, Global};

mod actions;
mod fields;
mod headers;
mod known;
mod mapped;
mod nodes;
mod outcomes;
mod tables;
mod values;

/// The program that a text means, of which each part is within the bounds of the rules.
pub fn build<N: Lookup>(alloc: Global, names: &N) -> Result<Program, AllocError>
    requires sized { IsSized (N.text names.now) }
    requires nested { AreNested (N.text names.now) }
    ensures program { IfOk result (λ program. program ≡ program_of (N.text names.now)) }
{
    let source = names.source();
    let (nodes, ((fields, headers), (actions, tables))) = both(
        mapped(alloc, names, nodes_of(source)),
        both(
            both(fields_of(alloc, names), headers_of(alloc, names)),
            both(
                mapped(alloc, names, source.actions.as_slice()),
                mapped(alloc, names, source.tables.as_slice()),
            ),
        ),
    )?;
    Ok(Program {
        fields,
        headers,
        actions,
        tables,
        nodes,
    })
}
