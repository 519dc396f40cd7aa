//! The clustered parser of a program: several headers in one step.

ghost use Rattle.std.specs.Prelude.{◌≡◌, ◌≢◌, ◌≤◌, nat_lt, length, Some, Err, IfOk, IsTrue};
ghost use Rattle.std.specs.List.{list_all};
ghost use Rattle.rmt_ptcam.specs.Clauses.{AgreesWith, IsParser, IsProgram, KeepsApart, MeetsNoMore, TailOf, clustered_or, joins, parser_is_formed, plain, replayed};
ghost use Rattle.rmt_ptcam.specs.Clustering.{all_joined as all_joined_of};
ghost use Rattle.rmt_ptcam.specs.Joining.{KeepsForm};
ghost use Rattle.rmt_ptcam.specs.declared.fault.ParserFault.TheVariants.{NoMemory};

pub(crate) mod clustering;
pub(crate) mod compaction;

use crate::clustered::clustering::all_joined;
use crate::clustered::compaction::compacted;
use crate::fault::ParserFault;
use crate::joining::rows::{flattened, grouped};
use crate::plain::plain_parser;
use rmt_ast::program::Program;
use rmt_config::config::ParserConfig;
use rmt_phv::places::Places;
use std::alloc::{AllocError, Global};
use std::mem::drop;

/// A copy of a plain parser behind the joins of the rule.
fn behind_rule(
    alloc: Global,
    program: &Program,
    plain: &ParserConfig,
) -> Result<ParserConfig, AllocError>
    requires few { length program.now.headers ≤ 64 }
    requires keeps { KeepsForm plain.now }
    ensures joined { IfOk result (λ parser. parser ≡ all_joined_of program.now plain.now) }
    ensures keeps { IfOk result KeepsForm }
{
    let mut groups = grouped(alloc, plain)?;
    all_joined(alloc, program, &mut groups)?;
    flattened(alloc, &groups)
}

/// The clustered parser of a program, into these places of its fields: the plain parser, some of whose entries are joined.
///
/// Headers are taken from the last to the first, and each of their entries once, from the first to the last. An entry that
/// goes to a header is joined to the entries that stand for it by then, where these are one, or no other case or `else` of
/// the program goes to that header; and where it can be, as `join` says. States that can't be met are left out, and the
/// others numbered in order.
///
/// # Errors
///
/// As `plain_parser`.
pub fn clustered_parser(
    alloc: Global,
    program: &Program,
    places: &Places,
) -> Result<ParserConfig, ParserFault>
    requires program { IsProgram program.now }
    requires places { KeepsApart program.now places.now }
    // Which parser, or which refusal, unless memory runs out.
    ensures made { result ≢ Err NoMemory → result ≡ clustered_or program.now places.now }
    // The chip can run it.
    ensures runs { IfOk result IsParser }
    // It is what the joins of the rule make of the plain parser.
    ensures joins { IfOk result (λ parser. replayed (plain program.now places.now) (joins program.now places.now) ≡ Some parser) }
    // It keeps the rules of form.
    ensures formed { IfOk result (λ parser. IsTrue (parser_is_formed parser)) }
    // Its tails are of headers of the program.
    ensures headers { IfOk result (λ parser. IsTrue (list_all (λ (t : TailOf). nat_lt t.header (length program.now.headers)) parser.tails)) }
    // The chip's parse of each frame, whole or cut, ends as the walk of the program's parse graph does.
    ensures agrees { IfOk result (λ parser. AgreesWith parser places.now program.now) }
    // On no frame it meets more states than the walk takes headers.
    ensures pace { IfOk result (λ parser. MeetsNoMore parser program.now) }
    // It has no more entries than the plain parser.
    ensures few { IfOk result (λ parser. length parser.entries ≤ length (plain program.now places.now).entries) }
{
    let plain = plain_parser(alloc, program, places)?;
    let parser = behind_rule(alloc, program, &plain);
    drop(plain);
    let parser = parser?;
    Ok(compacted(alloc, parser)?)
}
