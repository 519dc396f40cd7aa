//! Code 10: operands and numbers of the width that they need.

ghost use Rattle.std.specs.Prelude.{◌≡◌, IfOk};
ghost use Rattle.std.specs.List.{flat_map};
ghost use Rattle.rmt_check.specs.Names.{named, operands, selected, width_of};
ghost use Rattle.rmt_check.specs.Rules as rules;
ghost use Rattle.rmt_check.specs.Rules.{broken_10, earliest};

use crate::names::lookup::{InHeader, Lookup, own_key, width, width_of};
use crate::names::params::{ActionNames, InAction};
use crate::rules::parts::nodes_of;
use crate::rules::places::{earlier, place_when};
use crate::rules::search::{
    Flaw, Found, PairFlaw, TryFlaw, earliest_beside, earliest_of, earliest_with, try_earliest_of,
};
use crate::source::{
    ActionText, AssignText, CaseText, HeaderText, Ident, LeafText, NodeText, Number, ValueText,
    WhatText,
};
use rmt_lexer::position::Position;
use std::alloc::Global;

/// Whether a number is of at most so many bits.
fn fits(width: u128, number: u128) -> bool
    ensures { result ≡ rules.fits width number }
{
    width >= 128 || number < 1 << width
}

/// Where a number does not fit a width.
pub fn too_wide(width: u128, number: Number) -> Option<Position>
    ensures { result ≡ earliest (rules.too_wide width number) }
{
    place_when(!fits(width, number.value), number.place)
}

/// Where an operand is of another width.
fn differs<N: Lookup>(
    names: &N,
    action: &ActionNames<'_>,
    width: u128,
    leaf: &LeafText,
) -> Option<Position>
    ensures { result ≡ earliest (rules.differs (N.text names.now) action.now width leaf.now) }
{
    match leaf {
        LeafText::Field(field) => place_when(width_of(names, field) != width, field.place),
        LeafText::Param(param) => {
            let own = action.width(param.name.as_slice());
            place_when(own != width, param.place)
        }
        LeafText::Number(number) => too_wide(width, *number),
    }
}

/// An operand of another width than the assigned field.
struct OtherWidth;

impl<'a, N: Lookup> Flaw<InAction<'a, N>, AssignText> for OtherWidth {
    ghost places = { λ c x. flat_map (rules.differs (N.text c.0.now) c.1 (width_of (N.text c.0.now) (named (N.text c.0.now) x.dest))) (operands x.expr) };

    fn at(shared: &InAction<'a, N>, assign: &AssignText) -> Option<Position> {
        let (names, action) = shared;
        let width = width_of(*names, &assign.dest);
        let left = differs(*names, action, width, &assign.expr.left);
        match &assign.expr.right {
            Some((_, right)) => earlier(left, differs(*names, action, width, right)),
            None => left,
        }
    }
}

impl<N: Lookup> TryFlaw<N, ActionText> for OtherWidth {
    ghost places = { λ n a. rules.operand_widths (N.text n) a };

    fn at(alloc: Global, names: &N, action: &ActionText) -> Found {
        let own = ActionNames::of(alloc, action)?;
        let assigns = action.assigns.as_slice();
        Ok(earliest_with::<OtherWidth, _, _>((names, own), assigns))
    }
}

/// Where a value, or its mask, does not fit a width.
fn too_wide_value(width: u128, value: ValueText) -> Option<Position>
    ensures { result ≡ earliest (rules.too_wide_value width value) }
{
    let own = too_wide(width, value.value);
    match value.mask {
        Some(mask) => earlier(own, too_wide(width, mask)),
        None => own,
    }
}

/// A value that does not fit its field.
struct TooWide;

impl<'a, N: Lookup> PairFlaw<InHeader<'a, N>, Ident, ValueText> for TooWide {
    ghost places = { λ c x. rules.too_wide_value (width_of (N.text c.0.now) (selected (N.text c.0.now) c.1.now x.0)) x.1 };

    fn at(shared: &InHeader<'a, N>, ident: &Ident, value: &ValueText) -> Option<Position> {
        let (names, header) = *shared;
        too_wide_value(width(names, own_key(names, header, ident)), *value)
    }
}

impl<'a, N: Lookup> Flaw<InHeader<'a, N>, CaseText> for TooWide {
    ghost places = { λ c x. rules.too_wide_case (N.text c.0.now) c.1.now x };

    fn at(shared: &InHeader<'a, N>, case: &CaseText) -> Option<Position> {
        let (_, header) = *shared;
        earliest_beside::<TooWide, _, _, _>(
            shared,
            header.select.as_slice(),
            case.values.as_slice(),
        )
    }
}

impl<N: Lookup> Flaw<N, HeaderText> for TooWide {
    ghost places = { λ n h. rules.case_widths (N.text n) h };

    fn at(names: &N, header: &HeaderText) -> Option<Position> {
        earliest_of::<TooWide, _, _>(&(names, header), header.cases.as_slice())
    }
}

impl<N: Lookup> Flaw<N, NodeText> for TooWide {
    ghost places = { λ n x. rules.gate_widths (N.text n) x };

    fn at(names: &N, node: &NodeText) -> Option<Position> {
        match &node.what {
            WhatText::Apply { .. } => None,
            WhatText::If { field, mask, value } => {
                let width = width_of(names, field);
                too_wide_value(
                    width,
                    ValueText {
                        value: *value,
                        mask: *mask,
                    },
                )
            }
        }
    }
}

/// Where an operand is not of the width of the assigned field, or a number does not fit its field.
pub fn widths_differ<N: Lookup>(alloc: Global, names: &N) -> Found
    ensures { IfOk result (λ p. p ≡ earliest (broken_10 (N.text names.now))) }
{
    let source = names.source();
    let actions = try_earliest_of::<OtherWidth, _, _>(alloc, names, source.actions.as_slice())?;
    let headers = earliest_of::<TooWide, _, _>(names, source.headers.as_slice());
    let nodes = earliest_of::<TooWide, _, _>(names, nodes_of(source));
    Ok(earlier(earlier(actions, headers), nodes))
}
