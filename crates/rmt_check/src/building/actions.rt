//! Actions.

ghost use Rattle.std.specs.Prelude.{◌≡◌, ◌≤◌, map, IfOk};
ghost use Rattle.rmt_check.specs.Meaning.{leaf_of, expr_of, assign_of, action_of};
ghost use Rattle.rmt_check.specs.Sizes.{IsSized, IsSizedAction};

use crate::building::known::{field_number, number_among};
use crate::building::mapped::{Build, mapped, mapped_with};
use crate::names::lookup::Lookup;
use crate::names::params::{ActionNames, InAction};
use crate::pairs::both;
use crate::reading::words::copy_name;
use crate::source::{ActionText, AssignText, Declared, ExprText, LeafText};
use rmt_ast::program::{Action, Assign, Expr, Leaf};
use rmt_bits::sequence::Sequence;
use std::alloc::{AllocError, Global};

/// An operand of an assignment of this action.
fn leaf_of<N: Lookup>(names: &N, action: &ActionNames<'_>, leaf: &LeafText) -> Leaf
    requires sized { IsSized (N.text names.now) }
    requires action { IsSizedAction action.now }
    ensures { result ≡ leaf_of (N.text names.now) action.now leaf.now }
{
    match leaf {
        LeafText::Field(field) => Leaf::Field(field_number(names, field)),
        LeafText::Param(param) => {
            Leaf::Param(number_among(action.params(), param.name.as_slice()))
        }
        LeafText::Number(number) => Leaf::Number(number.value),
    }
}

fn expr_of<N: Lookup>(names: &N, action: &ActionNames<'_>, expr: &ExprText) -> Expr
    requires sized { IsSized (N.text names.now) }
    requires action { IsSizedAction action.now }
    ensures { result ≡ expr_of (N.text names.now) action.now expr.now.left expr.now.right }
{
    let left = leaf_of(names, action, &expr.left);
    match &expr.right {
        Some((sign, right)) => Expr::Two(sign.op, left, leaf_of(names, action, right)),
        None => Expr::One(left),
    }
}

/// An assignment of an action.
impl<'a, N: Lookup> Build<InAction<'a, N>, AssignText> for Assign {
    ghost fits = { λ own assign. IsSized (N.text own.0.now) × IsSizedAction own.1 };

    ghost meant = { λ own assign. assign_of (N.text own.0.now) own.1 assign };

    fn build(
        _alloc: Global,
        own: &InAction<'a, N>,
        assign: &AssignText,
    ) -> Result<Assign, AllocError> {
        Ok(Assign {
            dest: field_number(own.0, &assign.dest),
            expr: expr_of(own.0, &own.1, &assign.expr),
        })
    }
}

/// The width of a parameter.
impl Build<(), Declared> for u8 {
    ghost fits = { λ _ param. param.width.value ≤ 128 };

    ghost meant = { λ _ param. param.width.value };

    fn build(_alloc: Global, _shared: &(), param: &Declared) -> Result<u8, AllocError> {
        Ok(param.width.value as u8)
    }
}

/// The assignments of an action.
fn assigns_of<N: Lookup>(
    alloc: Global,
    names: &N,
    action: &ActionText,
) -> Result<Sequence<Assign>, AllocError>
    requires sized { IsSized (N.text names.now) }
    requires action { IsSizedAction action.now }
    ensures { IfOk result (λ assigns. assigns ≡ map (assign_of (N.text names.now) action.now) action.now.assigns) }
{
    let own = ActionNames::of(alloc, action)?;
    mapped_with(alloc, (names, own), action.assigns.as_slice())
}

/// An action with the widths of its parameters.
impl<N: Lookup> Build<N, ActionText> for Action {
    ghost fits = { λ names action. IsSized (N.text names) × IsSizedAction action };

    ghost meant = { λ names action. action_of (N.text names) action };

    fn build(alloc: Global, names: &N, action: &ActionText) -> Result<Action, AllocError> {
        let (name, (params, assigns)) = both(
            copy_name(alloc, &action.ident.name),
            both(
                mapped(alloc, &(), action.params.as_slice()),
                assigns_of(alloc, names, action),
            ),
        )?;
        Ok(Action {
            name,
            params,
            assigns,
        })
    }
}
