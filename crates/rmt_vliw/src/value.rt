//! What is known of the fields while an action is folded.

ghost use Rattle.std.specs.Prelude.{◌≡◌, ◌==◌, OnOk, map};
ghost use Rattle.std.specs.List.{list_any};
ghost use Rattle.rmt_vliw.specs.declared.value.Value.{Value};
ghost use Rattle.rmt_vliw.specs.Folding.{two_of};
ghost use Rattle.rmt_vliw.specs.Known.{known as known_of, known_operand as operand_of, as_leaf as leaf_of, known_expr as expr_of, replaced, with_value, known_after};

use rmt_ast::program::{Assign, Expr, Leaf, Op};
use std::alloc::{AllocError, Global};

/// What a field that has been assigned to is by then, over the fields as they were before the action.
#[derive(Clone, Copy)]
pub struct Value {
    /// The number of the field.
    pub field: u32,
    /// Its value; None where that takes more than one operation.
    pub expr: Option<Expr>,
}

/// What a field is by now.
fn known(values: &[Value], field: u32) -> Option<Expr>
    ensures { result ≡ known_of values.now field }
{
    for value in values {
        if value.field == field {
            return value.expr;
        }
    }
    Some(Expr::One(Leaf::Field(field)))
}

/// What an operand is by now.
fn operand(values: &[Value], leaf: Leaf) -> Option<Expr>
    ensures { result ≡ operand_of values.now leaf }
{
    match leaf {
        Leaf::Field(field) => known(values, field),
        Leaf::Param(_) | Leaf::Number(_) => Some(Expr::One(leaf)),
    }
}

/// A value that is one operand.
fn as_leaf(expr: Option<Expr>) -> Option<Leaf>
    ensures { result ≡ leaf_of expr }
{
    match expr {
        Some(Expr::One(leaf)) => Some(leaf),
        Some(Expr::Two(..)) | None => None,
    }
}

/// An operator on two values that are operands.
fn joined(op: Op, left: Option<Leaf>, right: Option<Leaf>) -> Option<Expr>
    ensures { result ≡ two_of op left right }
{
    match (left, right) {
        (Some(left), Some(right)) => Some(Expr::Two(op, left, right)),
        _ => None,
    }
}

/// What an expression is by now.
fn known_expr(values: &[Value], expr: Expr) -> Option<Expr>
    ensures { result ≡ expr_of values.now expr }
{
    match expr {
        Expr::One(leaf) => operand(values, leaf),
        Expr::Two(op, left, right) => joined(
            op,
            as_leaf(operand(values, left)),
            as_leaf(operand(values, right)),
        ),
    }
}

/// Whether a field has a value.
fn has_value(values: &[Value], field: u32) -> bool
    ensures { result ≡ list_any (λ (v : Value). v.field == field) values.now }
{
    values.iter().any(|value| value.field == field)
}

/// Replaces the value of a field.
fn replace(values: &mut [Value], field: u32, expr: Option<Expr>)
    ensures { values.new ≡ map (replaced field expr) values.old }
{
    for value in values.iter_mut() {
        if value.field == field {
            value.expr = expr;
        }
    }
}

/// Sets the value of a field, which stands behind the others where it is the field's first.
fn set(values: &mut Vec<Value>, field: u32, expr: Option<Expr>) -> Result<(), AllocError>
    ensures { OnOk result (values.new.items ≡ with_value values.old.items field expr) }
{
    if has_value(values, field) {
        replace(values, field, expr);
    } else {
        values.push(Value { field, expr })?;
    }
    Ok(())
}

/// Takes one assignment more, which reads what the earlier ones left.
pub fn assign(values: &mut Vec<Value>, assign: &Assign) -> Result<(), AllocError>
    ensures { OnOk result (values.new.items ≡ known_after values.old.items assign.now) }
{
    let expr = known_expr(values, assign.expr);
    set(values, assign.dest, expr)
}
