//! What holds of what the commands give.

ghost use Rattle.rmt_core.specs.FilesRead.{ReadFaultIsAbsence, SteadyFaultIsAbsence};
ghost use Rattle.rmt_core.specs.Headline.{GivesAlways, GivesNeverNothing, GivesOne, ImproveHasNoMoreStages, IsComplete, LeavesFiles, MapIsBeside, OneTryIsCompile, RefusesAsCompile, SimPrintsPlain, VerifiesCompiled};

use rmt_check::laws::one_meaning;
use rmt_cuckoo::never_both;
use rmt_entries::laws::lists_or_fault;
use rmt_refine::laws::event_lists;
use rmt_verify::spells_one;

/// Each command gives one status and one text over the same files, but for the numbers of a table that doesn't load, and for the
/// text of a run in which a commit moves cells.
pub fn gives_one()
    ensures { GivesOne }
{
    one_meaning();
    never_both();
    spells_one();
}

/// Whatever the files are, each command that builds no configuration gives something; of `verify` it can't be that it gives
/// nothing.
pub fn gives_always()
    ensures always { GivesAlways }
    ensures never_nothing { GivesNeverNothing }
{
    one_meaning();
    lists_or_fault();
}

/// A command that writes no more than one file leaves all files as they are where it ends for want of memory or by a fault of
/// reading.
pub fn leaves_files()
    ensures { LeavesFiles }
{}

/// A command gives `ReadFault` exactly where a file that it reads is absent, and each before it can be read; over a steady shelf a
/// call ends so only there.
pub fn read_fault_is_absence()
    ensures exact { ReadFaultIsAbsence }
    ensures steady { SteadyFaultIsAbsence }
{}

/// Where the files are as they must be, a command gives `Done`.
pub fn is_complete()
    ensures { IsComplete }
{
    one_meaning();
    spells_one();
}

/// What `compile` or `improve` made runs as `plain` runs the program: `sim` prints the same, and then its cycles and its flight.
pub fn sim_prints_plain()
    ensures { SimPrintsPlain }
{
    one_meaning();
    lists_or_fault();
    event_lists();
}

/// With a map `compile` gives what it gives without one, and all files but the map stand as then.
pub fn map_is_beside()
    ensures { MapIsBeside }
{}

/// With one try `improve` gives what `compile` gives.
pub fn one_try_is_compile()
    ensures { OneTryIsCompile }
{}

/// `improve` never has more stages than `compile`, and what it refuses before the entries are loaded is refused by the rule
/// too, in the same words.
pub fn improve_is_no_worse()
    ensures no_more { ImproveHasNoMoreStages }
    ensures refused { RefusesAsCompile }
{
    one_meaning();
}

/// What `compile` wrote with a map belongs to the program: `verify` of the four files prints `yes`.
pub fn verifies_compiled()
    ensures { VerifiesCompiled }
{
    one_meaning();
    spells_one();
}
