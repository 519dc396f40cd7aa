//! A plain run before its first line.

ghost use Rattle.std.specs.Prelude.{IfOk};
ghost use Rattle.rmt_ast.specs.EntryLists.{AreEntries};
ghost use Rattle.rmt_ast.specs.WellFormed.{IsProgram};
ghost use Rattle.rmt_io.specs.Outside.{SinkState};
ghost use Rattle.rmt_drive.specs.EventText.{unread};
ghost use Rattle.rmt_core.specs.Making.{AreOfTexts};
ghost use Rattle.rmt_drive.specs.PlainRunning.{Goes};

use crate::texts::Meant;
use rmt_ast::naming::names_of;
use rmt_check::laws::one_meaning;
use rmt_drive::plain_run::PlainRun;
use rmt_plain::plain::Plain;
use rmt_runs::waiting::Waiting;
use rmt_update::lists::Lists;
use std::alloc::{AllocError, Global};

/// How many entries a packet text may add.
const MOST_ADDITIONS: u32 = 1_048_576;

/// A run of a program with its entries in which no line was taken.
pub fn begin(alloc: Global, meant: Meant) -> Result<PlainRun, AllocError>
    requires program { IsProgram meant.program }
    requires entries { AreEntries meant.program meant.entries }
    requires said { AreOfTexts meant.program meant.entries }
    ensures { IfOk result (λ run. (now : SinkState) →
        Goes meant.program meant.entries (unread meant.program meant.entries) run now now) }
{
    one_meaning();
    let Ok(names) = names_of(alloc, &meant.program, &meant.entries) else {
        return Err(AllocError);
    };
    let Ok(entries) = meant.entries.copy(alloc) else {
        return Err(AllocError);
    };
    let Ok(lists) = Lists::new(alloc, names, entries, MOST_ADDITIONS) else {
        return Err(AllocError);
    };
    match Plain::new(alloc, meant.program, meant.entries) {
        Ok(plain) => Ok(PlainRun {
            plain,
            lists,
            answered: 0,
            waiting: Waiting::new(alloc),
        }),
        Err(_) => Err(AllocError),
    }
}
