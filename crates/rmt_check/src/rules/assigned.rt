//! Code 11, sums of at most 32 bits, and code 12, the field that no action may assign.

ghost use Rattle.std.specs.Prelude.{◌≡◌};
ghost use Rattle.std.specs.List.{flat_map};
ghost use Rattle.rmt_check.specs.Names.{in_port, named, same_field, width_of};
ghost use Rattle.rmt_check.specs.Rules as rules;
ghost use Rattle.rmt_check.specs.Rules.{broken_11, broken_12, earliest, when};

use crate::names::fields::INTRINSIC;
use crate::names::lookup::{Lookup, key, width_of};
use crate::rules::places::place_when;
use crate::rules::search::{Flaw, earliest_of};
use crate::source::{ActionText, AssignText, FieldText, LeafText, Sign};
use rmt_ast::program::Op;
use rmt_lexer::position::Position;

fn is_sum(op: Op) -> bool
    ensures { result ≡ rules.is_sum op }
{
    match op {
        Op::Add => true,
        Op::Sub => true,
        Op::And => false,
        Op::Or => false,
        Op::Xor => false,
    }
}

/// Where a sum goes into more than 32 bits.
fn wide_sign(width: u128, right: &Option<(Sign, LeafText)>) -> Option<Position>
    ensures { result ≡ earliest (rules.wide_sign width right.now) }
{
    match right {
        Some((sign, _)) => place_when(is_sum(sign.op) && 32 < width, sign.place),
        None => None,
    }
}

/// What is wrong with an assignment of an action.
impl<N: Lookup, F: Flaw<N, AssignText>> Flaw<N, ActionText> for F {
    ghost places = { λ n a. flat_map (F.places n) a.assigns };

    fn at(names: &N, action: &ActionText) -> Option<Position> {
        earliest_of::<F, _, _>(names, action.assigns.as_slice())
    }
}

/// A sum that goes into more than 32 bits.
struct WideSum;

impl<N: Lookup> Flaw<N, AssignText> for WideSum {
    ghost places = { λ n x. rules.wide_sign (width_of (N.text n) (named (N.text n) x.dest)) x.expr.right };

    fn at(names: &N, assign: &AssignText) -> Option<Position> {
        wide_sign(width_of(names, &assign.dest), &assign.expr.right)
    }
}

/// Where `+` or `-` goes into a field of more than 32 bits.
pub fn wide_arithmetic<N: Lookup>(names: &N) -> Option<Position>
    ensures { result ≡ earliest (broken_11 (N.text names.now)) }
{
    let source = names.source();
    earliest_of::<WideSum, _, _>(names, source.actions.as_slice())
}

#[tactic(auto, using(crate::proofs::FieldCodes::owner_same))]
fn is_in_port<N: Lookup>(names: &N, field: &FieldText) -> bool
    ensures { result ≡ same_field (named (N.text names.now) field.now) in_port }
{
    let (owner, name) = key(names, field);
    owner == INTRINSIC && name == b"in_port".as_slice()
}

/// A port that is assigned and may not be.
struct WrittenPort;

impl<N: Lookup> Flaw<N, AssignText> for WrittenPort {
    ghost places = { λ n x. when (same_field (named (N.text n) x.dest) in_port) x.dest.place };

    fn at(names: &N, assign: &AssignText) -> Option<Position> {
        place_when(is_in_port(names, &assign.dest), assign.dest.place)
    }
}

/// Where `in_port` is assigned.
pub fn read_only<N: Lookup>(names: &N) -> Option<Position>
    ensures { result ≡ earliest (broken_12 (N.text names.now)) }
{
    let source = names.source();
    earliest_of::<WrittenPort, _, _>(names, source.actions.as_slice())
}
