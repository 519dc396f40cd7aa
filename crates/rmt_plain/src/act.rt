//! Actions: assignments in order, each on what the earlier ones leave.

ghost use Rattle.std.specs.Prelude.{◌≡◌, ◌^◌, ◌-◌, ◌≤◌};
ghost use Rattle.rmt_ast.specs.Actions.{operand as operand_of, applied as applied_to, value_of, assigned, acted};
ghost use Rattle.rmt_plain.specs.Runnable.{IsRunnable};

use crate::fields::width_of;
use crate::numbers::{number_at, put_at};
use rmt_ast::program::{Assign, Expr, Leaf, Op, Program};
use rmt_bits::bits::slice;

/// The value of an operand.
fn operand(state: &[u128], args: &[u128], leaf: Leaf) -> u128
    ensures { result ≡ operand_of state.now args.now leaf }
{
    match leaf {
        Leaf::Field(field) => number_at(state, field as usize),
        Leaf::Param(param) => number_at(args, param as usize),
        Leaf::Number(number) => number,
    }
}

/// The greatest number of some bits.
fn greatest(width: u8) -> u128
    requires { width ≤ 128 }
    ensures { result ≡ 2 ^ width - 1 }
{
    slice(u128::MAX, 0, width)
}

/// The sum of two numbers, modulo two to the width.
fn sum(width: u8, a: u128, b: u128) -> u128
    requires { width ≤ 128 }
    ensures { result ≡ applied_to Op.Add width a b }
{
    slice(a.wrapping_add(b), 0, width)
}

/// The first number less the second, modulo two to the width.
fn difference(width: u8, a: u128, b: u128) -> u128
    requires { width ≤ 128 }
    ensures { result ≡ applied_to Op.Sub width a b }
{
    if b <= a {
        slice(a - b, 0, width)
    } else {
        greatest(width).saturating_sub(b - a - 1)
    }
}

/// What an operator makes of two numbers.
fn applied(op: Op, width: u8, a: u128, b: u128) -> u128
    requires { width ≤ 128 }
    ensures { result ≡ applied_to op width a b }
{
    match op {
        Op::Add => sum(width, a, b),
        Op::Sub => difference(width, a, b),
        Op::And => a & b,
        Op::Or => a | b,
        Op::Xor => a ^ b,
    }
}

/// The value of an expression.
fn value(width: u8, expr: Expr, state: &[u128], args: &[u128]) -> u128
    requires { width ≤ 128 }
    ensures { result ≡ value_of width expr state.now args.now }
{
    match expr {
        Expr::One(leaf) => operand(state, args, leaf),
        Expr::Two(op, first, second) => {
            let first = operand(state, args, first);
            let second = operand(state, args, second);
            applied(op, width, first, second)
        }
    }
}

/// Does one assignment.
fn assign(program: &Program, args: &[u128], state: &mut [u128], one: Assign)
    requires { IsRunnable program.now }
    ensures { state.new ≡ assigned program.now args.now state.old one }
{
    let value = value(width_of(program, one.dest), one.expr, state, args);
    put_at(state, one.dest as usize, value);
}

/// Does the assignments of an action, with these arguments.
pub fn act(program: &Program, assigns: &[Assign], args: &[u128], state: &mut [u128])
    requires { IsRunnable program.now }
    ensures { state.new ≡ acted program.now assigns.now args.now state.old }
{
    for one in assigns {
        assign(program, args, state, *one);
    }
}
