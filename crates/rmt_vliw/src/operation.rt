//! The operations that put a value into the lanes of a field.

ghost use Rattle.std.specs.Prelude.{◌≡◌, ◌+◌, ◌≤◌, ◌++◌, OnOk, sum, All, slice_get, option_copied};
ghost use Rattle.rmt_bits.specs.declared.lane.Lane.{Lane};
ghost use Rattle.rmt_config.specs.LaneForm.{bits_of_lanes};
ghost use Rattle.rmt_ast.specs.Places.{lanes_of};
ghost use Rattle.rmt_vliw.specs.Operations.{source_for as source_of, lane_source as source_of_lane, kind_for as kind_of, operation_for as operation_of, operations_for, operations_from};
ghost use Rattle.rmt_config.specs.Effects.{begin_of as begin_of_param};

use crate::piece::Piece;
use rmt_ast::program::{Assign, Expr, Leaf, Op};
use rmt_bits::bits::slice;
use rmt_bits::lane::Lane;
use rmt_config::config::{OpKind, Operation, Source};
use rmt_phv::places::Places;
use std::alloc::AllocError;

/// The bit of an entry's data at which a parameter begins.
fn begin_of(params: &[u8], param: u32) -> u16
    requires { sum params.now ≤ 2048 }
    ensures { result ≡ begin_of_param params.now param }
{
    let end = params.len().min(param as usize);
    let mut bits: u16 = 0;
    for width in &params[..end] {
        bits += u16::from(*width);
    }
    bits
}

/// The bits of a lane.
fn lane_source(lane: Option<&Lane>) -> Source
    ensures { result ≡ source_of_lane (option_copied lane.entry) }
{
    match lane {
        Some(lane) => Source::Word {
            word: lane.word,
            low: lane.low,
        },
        None => Source::Constant { value: 0 },
    }
}

/// The bits of a field's piece.
fn field_source(places: &Places, field: u32, number: usize) -> Source
    ensures { result ≡ source_of_lane (slice_get (lanes_of places.now field) number) }
{
    match places.get(field as usize) {
        Some(lanes) => lane_source(lanes.get(number)),
        None => lane_source(None),
    }
}

/// Where a piece of an operand is read.
fn source_for(places: &Places, params: &[u8], piece: Piece, leaf: Leaf) -> Source
    requires params { sum params.now ≤ 2048 }
    requires within { piece.low + piece.len ≤ 128 }
    requires small { piece.len ≤ 32 }
    ensures { result ≡ source_of places.now params.now piece leaf }
{
    match leaf {
        Leaf::Field(field) => field_source(places, field, piece.number),
        Leaf::Param(param) => {
            let low = begin_of(params, param) + u16::from(piece.low);
            Source::Held { low }
        }
        Leaf::Number(number) => {
            let value = slice(number, piece.low, piece.len) as u32;
            Source::Constant { value }
        }
    }
}

/// What an operator is on the chip.
fn kind_for(op: Op) -> OpKind
    ensures { result ≡ kind_of op }
{
    match op {
        Op::Add => OpKind::Add,
        Op::Sub => OpKind::Sub,
        Op::And => OpKind::And,
        Op::Or => OpKind::Or,
        Op::Xor => OpKind::Xor,
    }
}

/// The operation that puts a piece of a value into a lane.
fn operation_for(places: &Places, params: &[u8], expr: Expr, piece: Piece, lane: Lane) -> Operation
    requires params { sum params.now ≤ 2048 }
    requires within { piece.low + piece.len ≤ 128 }
    requires small { piece.len ≤ 32 }
    ensures { result ≡ operation_of places.now params.now expr piece lane }
{
    let (kind, left, right) = match expr {
        Expr::One(leaf) => (
            OpKind::Copy,
            source_for(places, params, piece, leaf),
            Source::Constant { value: 0 },
        ),
        Expr::Two(op, left, right) => (
            kind_for(op),
            source_for(places, params, piece, left),
            source_for(places, params, piece, right),
        ),
    };
    Operation {
        word: lane.word,
        low: lane.low,
        len: lane.len,
        kind,
        left,
        right,
    }
}

/// Adds the operations that put a value into these lanes, low piece first.
fn push_pieces(
    ops: &mut Vec<Operation>,
    places: &Places,
    params: &[u8],
    expr: Expr,
    lanes: &[Lane],
) -> Result<(), AllocError>
    requires params { sum params.now ≤ 2048 }
    requires within { bits_of_lanes lanes.now ≤ 128 }
    requires small { All (λ (l : Lane). l.len ≤ 32) lanes.now }
    ensures { OnOk result (ops.new.items ≡ ops.old.items ++ operations_from places.now params.now expr 0 0 lanes.now) }
{
    let mut low: u8 = 0;
    for (number, lane) in lanes.iter().enumerate() {
        let piece = Piece {
            number,
            low,
            len: lane.len,
        };
        ops.push(operation_for(places, params, expr, piece, *lane))?;
        low += lane.len;
    }
    Ok(())
}

/// Adds the operations of a value.
pub fn push_operations(
    ops: &mut Vec<Operation>,
    places: &Places,
    params: &[u8],
    value: &Assign,
) -> Result<(), AllocError>
    requires params { sum params.now ≤ 2048 }
    requires within { bits_of_lanes (lanes_of places.now value.now.dest) ≤ 128 }
    requires small { All (λ (l : Lane). l.len ≤ 32) (lanes_of places.now value.now.dest) }
    ensures { OnOk result (ops.new.items ≡ ops.old.items ++ operations_for places.now params.now value.now) }
{
    match places.get(value.dest as usize) {
        Some(lanes) => push_pieces(ops, places, params, value.expr, lanes.as_slice()),
        None => Ok(()),
    }
}
