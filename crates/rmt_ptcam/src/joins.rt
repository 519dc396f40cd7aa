//! The joins of the clustered parser, told and made again.

ghost use Rattle.std.specs.Prelude.{◌≡◌, ◌≢◌, ◌≤◌, if◌then◌else◌, Some, None, Err, length, IfOk, IfSome, IsTrue};
ghost use Rattle.rmt_ptcam.specs.Clauses.{IsProgram, KeepsApart, parser_is_formed};
ghost use Rattle.rmt_ptcam.specs.declared.fault.ParserFault.TheVariants.{NoMemory};
ghost use Rattle.rmt_ptcam.specs.Clustering.{clustered};
ghost use Rattle.rmt_ptcam.specs.Grouping.{Stand, parser_in};
ghost use Rattle.rmt_ptcam.specs.Joining.{KeepsForm, ParsesAlike};
ghost use Rattle.rmt_ptcam.specs.Joins.{behind_joins as behind_joins_of, joins_or, replayed as replayed_of};
ghost use Rattle.rmt_ptcam.specs.Plain.{plain};

use crate::clustered::clustering::all_joined;
use crate::clustered::compaction::compacted;
use crate::fault::{JoinFault, ParserFault};
use crate::joining::in_place::join_in;
use crate::joining::rows::{StateRows, flattened, grouped};
use crate::plain::plain_parser;
use rmt_ast::program::Program;
use rmt_bits::sequence::Sequence;
use rmt_config::config::ParserConfig;
use rmt_phv::places::Places;
use std::alloc::{AllocError, Global};
use std::mem::drop;

/// An entry that is joined to the entries of the state that it goes to.
#[derive(Clone, Copy, Debug, PartialEq, Eq)]
pub struct Join {
    /// The state of the entry.
    pub state: u8,
    /// The number of the entry among those of its state, from 0 on.
    pub entry: u16,
}

/// The joins of the clustered parser, in the order in which they are made on the plain one.
///
/// # Errors
///
/// As `clustered_parser`.
pub fn joins_of(
    alloc: Global,
    program: &Program,
    places: &Places,
) -> Result<Sequence<Join>, ParserFault>
    requires program { IsProgram program.now }
    requires places { KeepsApart program.now places.now }
    // Which joins, or which refusal, unless memory runs out.
    ensures made { result ≢ Err NoMemory → result ≡ joins_or program.now places.now }
    // No entry of the plain parser is joined twice, so they are few.
    ensures few { IfOk result (λ joins. length joins ≤ 256) }
    // Made again on the plain parser, they give the clustered one.
    ensures replay { IfOk result (λ joins. replayed_of (plain program.now places.now) joins ≡ Some (clustered program.now places.now)) }
{
    let parser = plain_parser(alloc, program, places)?;
    let mut groups = grouped(alloc, &parser)?;
    Ok(all_joined(alloc, program, &mut groups)?)
}

/// Makes joins in place, one after another, and tells whether all were made; the first one that can't be made ends it.
fn all_in(alloc: Global, groups: &mut [StateRows], joins: &[Join]) -> Result<bool, AllocError>
    requires stand { Stand groups.old }
    ensures { IfOk result (λ made. (if made then Some (parser_in groups.new) else None) ≡ behind_joins_of (parser_in groups.old) joins.now) }
{
    for join in joins {
        if !join_in(alloc, groups, *join)? {
            return Ok(false);
        }
    }
    Ok(true)
}

/// A copy of a parser behind joins, one after another, where all can be made.
fn behind_joins(
    alloc: Global,
    parser: &ParserConfig,
    joins: &[Join],
) -> Result<Option<ParserConfig>, AllocError>
    requires keeps { KeepsForm parser.now }
    ensures { IfOk result (λ o. o ≡ behind_joins_of parser.now joins.now) }
{
    let mut groups = grouped(alloc, parser)?;
    if !all_in(alloc, &mut groups, joins)? {
        return Ok(None);
    }
    Ok(Some(flattened(alloc, &groups)?))
}

/// Makes joins on a parser, one after another; then states that can't be met are left out, and the others numbered in order.
///
/// It is `None` where the entry of a join isn't there by then, or can't be joined, as `join` says. A join that can't be made
/// ends the work. One that is made takes the time of a look at each state and of the entries that come in place of its own:
/// of the other entries of its state only those behind are moved, at once, where more than one comes, and all are touched
/// only where the state looks at more bytes than before.
///
/// # Errors
///
/// For want of memory.
pub fn replayed(
    alloc: Global,
    parser: ParserConfig,
    joins: &[Join],
) -> Result<Option<ParserConfig>, JoinFault>
    requires formed { IsTrue (parser_is_formed parser) }
    requires few { length parser.states ≤ 256 }
    // Which parser, or that there is none.
    ensures given { IfOk result (λ o. o ≡ replayed_of parser joins.now) }
    // On every frame it ends as the parser that was given: too short, rejected, or accepted at the same byte, with the same
    // words and the same tails.
    ensures alike { IfOk result (λ o. IfSome o (ParsesAlike parser)) }
    // It keeps the rules of form.
    ensures formed { IfOk result (λ o. IfSome o (λ q. IsTrue (parser_is_formed q))) }
{
    let behind = behind_joins(alloc, &parser, joins);
    drop(parser);
    let behind = behind?;
    match behind {
        Some(behind) => Ok(Some(compacted(alloc, behind)?)),
        None => Ok(None),
    }
}
