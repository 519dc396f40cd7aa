//! Code 6: names that are not declared where they are used.

ghost use Rattle.std.specs.Prelude.{◌≡◌, ◌∷◌, [], not, IfOk};
ghost use Rattle.rmt_ast.specs.NameList.{is_known};
ghost use Rattle.rmt_check.specs.Names.{is_field, selected};
ghost use Rattle.rmt_check.specs.Rules as rules;
ghost use Rattle.rmt_check.specs.Rules.{broken_6, earliest, unknown, when};
ghost use Rattle.rmt_check.specs.StoredFields.{named_at};

use crate::names::fields::FieldKey;
use crate::names::lookup::{InHeader, Lookup, key, own_key};
use crate::names::params::{ActionNames, InAction};
use crate::rules::parts::{arm_names, key_fields, listed, nodes_of, target_names};
use crate::rules::places::{earlier, place_when};
use crate::rules::search::{Flaw, Found, TryFlaw, earliest_of, earliest_with, try_earliest_of};
use crate::source::{
    ActionText, ArmText, AssignText, CaseText, FieldText, HeaderText, Ident, LeafText, NodeText,
    OwnerText, TableText, WhatText,
};
use rmt_ast::name_list::NameList;
use rmt_lexer::position::Position;
use std::alloc::Global;
use std::slice;

/// A name that is not among some.
struct Unknown;

impl<'a> Flaw<NameList<'a>, Ident> for Unknown {
    ghost places = { λ names i. when (not (is_known names i.name)) i.place };

    fn at(names: &NameList<'a>, ident: &Ident) -> Option<Position> {
        place_when(!names.knows(ident.name.as_slice()), ident.place)
    }
}

/// The earliest place of a name that is not among these.
fn unknown_among(names: &NameList<'_>, idents: &[Ident]) -> Option<Position>
    ensures { result ≡ earliest (unknown names.now idents.now) }
{
    earliest_of::<Unknown, _, _>(names, idents)
}

/// Where a name is not among these.
fn unknown_one(names: &NameList<'_>, ident: &Ident) -> Option<Position>
    ensures { result ≡ earliest (unknown names.now (ident.now ∷ [])) }
{
    unknown_among(names, slice::from_ref(ident))
}

impl<'a> Flaw<NameList<'a>, CaseText> for Unknown {
    ghost places = { λ names c. unknown names (rules.target_names c.target) };

    fn at(names: &NameList<'a>, case: &CaseText) -> Option<Position> {
        unknown_among(names, target_names(&case.target))
    }
}

impl<'a> Flaw<NameList<'a>, ArmText> for Unknown {
    ghost places = { λ names a. unknown names (rules.arm_names a) };

    fn at(names: &NameList<'a>, arm: &ArmText) -> Option<Position> {
        unknown_among(names, arm_names(arm))
    }
}

/// Where a field's header is not declared.
fn unknown_owner<N: Lookup>(names: &N, owner: &OwnerText) -> Option<Position>
    ensures { result ≡ earliest (rules.unknown_owner (N.text names.now) owner.now) }
{
    match owner {
        OwnerText::Header(header) => unknown_one(names.headers(), header),
        OwnerText::Intrinsic => None,
        OwnerText::Metadata => None,
    }
}

/// The place, where no field has the key.
fn unknown_key<N: Lookup>(names: &N, key: FieldKey<'_>, place: Position) -> Option<Position>
    ensures { result ≡ earliest (when (not (is_field (N.text names.now) (named_at key.entry))) place) }
{
    place_when(names.field(key).is_none(), place)
}

/// Where a field, or its header, is not declared.
fn unknown_field<N: Lookup>(names: &N, field: &FieldText) -> Option<Position>
    ensures { result ≡ earliest (rules.unknown_field (N.text names.now) field.now) }
{
    earlier(
        unknown_owner(names, &field.owner),
        unknown_key(names, key(names, field), field.ident.place),
    )
}

/// A field that is not declared, or whose header is not.
struct UnknownField;

impl<N: Lookup> Flaw<N, FieldText> for UnknownField {
    ghost places = { λ n f. rules.unknown_field (N.text n) f };

    fn at(names: &N, field: &FieldText) -> Option<Position> {
        unknown_field(names, field)
    }
}

/// A target that is no header.
struct UnknownTarget;

impl<N: Lookup> Flaw<N, HeaderText> for UnknownTarget {
    ghost places = { λ n h. rules.unknown_targets (N.text n) h };

    fn at(names: &N, header: &HeaderText) -> Option<Position> {
        let headers = names.headers();
        earlier(
            earliest_of::<Unknown, _, _>(headers, header.cases.as_slice()),
            unknown_among(headers, target_names(&header.other)),
        )
    }
}

/// A name of a select or a tail that is no field of the header.
struct UnknownOwn;

impl<'a, N: Lookup> Flaw<InHeader<'a, N>, Ident> for UnknownOwn {
    ghost places = { λ c i. when (not (is_field (N.text c.0.now) (selected (N.text c.0.now) c.1.now i))) i.place };

    fn at(shared: &InHeader<'a, N>, ident: &Ident) -> Option<Position> {
        let (names, header) = *shared;
        unknown_key(names, own_key(names, header, ident), ident.place)
    }
}

impl<N: Lookup> Flaw<N, HeaderText> for UnknownOwn {
    ghost places = { λ n h. rules.unknown_own (N.text n) h };

    fn at(names: &N, header: &HeaderText) -> Option<Position> {
        let shared = (names, header);
        let select = earliest_of::<UnknownOwn, _, _>(&shared, header.select.as_slice());
        match &header.tail {
            Some(tail) => earlier(select, UnknownOwn::at(&shared, &tail.field)),
            None => select,
        }
    }
}

/// Where an operand is not declared.
fn unknown_leaf<N: Lookup>(names: &N, action: &ActionNames<'_>, leaf: &LeafText) -> Option<Position>
    ensures { result ≡ earliest (rules.unknown_leaf (N.text names.now) action.now leaf.now) }
{
    match leaf {
        LeafText::Field(field) => unknown_field(names, field),
        LeafText::Param(param) => unknown_one(action.params(), param),
        LeafText::Number(_) => None,
    }
}

/// A name of an assignment that is not declared.
struct UnknownInAssign;

impl<'a, N: Lookup> Flaw<InAction<'a, N>, AssignText> for UnknownInAssign {
    ghost places = { λ c x. rules.unknown_assign (N.text c.0.now) c.1 x };

    fn at(shared: &InAction<'a, N>, assign: &AssignText) -> Option<Position> {
        let (names, action) = shared;
        let dest = unknown_field(*names, &assign.dest);
        let left = unknown_leaf(*names, action, &assign.expr.left);
        match &assign.expr.right {
            Some((_, right)) => earlier(dest, earlier(left, unknown_leaf(*names, action, right))),
            None => earlier(dest, left),
        }
    }
}

impl<N: Lookup> TryFlaw<N, ActionText> for UnknownInAssign {
    ghost places = { λ n a. rules.unknown_in_action (N.text n) a };

    fn at(alloc: Global, names: &N, action: &ActionText) -> Found {
        let own = ActionNames::of(alloc, action)?;
        let assigns = action.assigns.as_slice();
        Ok(earliest_with::<UnknownInAssign, _, _>((names, own), assigns))
    }
}

/// A name of a table that is not declared.
struct UnknownInTable;

impl<N: Lookup> Flaw<N, TableText> for UnknownInTable {
    ghost places = { λ n t. rules.unknown_in_table (N.text n) t };

    fn at(names: &N, table: &TableText) -> Option<Position> {
        let fields = earliest_of::<UnknownField, _, _>(names, key_fields(table));
        let actions = unknown_among(names.actions(), listed(table));
        earlier(
            earlier(fields, actions),
            unknown_one(names.actions(), &table.default),
        )
    }
}

/// A name of a node that is not declared.
struct UnknownInNode;

impl<N: Lookup> Flaw<N, NodeText> for UnknownInNode {
    ghost places = { λ n x. rules.unknown_at_node (N.text n) x };

    fn at(names: &N, node: &NodeText) -> Option<Position> {
        match &node.what {
            WhatText::Apply { table, arms } => {
                let list = names.list(table.name.as_slice());
                earlier(
                    unknown_one(names.tables(), table),
                    earliest_of::<Unknown, _, _>(list, arms.as_slice()),
                )
            }
            WhatText::If { field, .. } => unknown_field(names, field),
        }
    }
}

/// Where a name is not declared.
pub fn unknown_name<N: Lookup>(alloc: Global, names: &N) -> Found
    ensures { IfOk result (λ p. p ≡ earliest (broken_6 (N.text names.now))) }
{
    let source = names.source();
    let headers = source.headers.as_slice();
    let own = earliest_of::<UnknownOwn, _, _>(names, headers);
    let targets = earliest_of::<UnknownTarget, _, _>(names, headers);
    let actions = source.actions.as_slice();
    let actions = try_earliest_of::<UnknownInAssign, _, _>(alloc, names, actions)?;
    let tables = earliest_of::<UnknownInTable, _, _>(names, source.tables.as_slice());
    let nodes = earliest_of::<UnknownInNode, _, _>(names, nodes_of(source));
    let found = earlier(earlier(own, targets), actions);
    Ok(earlier(earlier(found, tables), nodes))
}
