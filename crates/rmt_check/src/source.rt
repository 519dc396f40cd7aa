//! The parts of a program's text, with the places where they stand.

use rmt_ast::name::Name;
use rmt_ast::program::{Kind, Op};
use rmt_bits::sequence::Sequence;
use rmt_lexer::position::Position;

/// A name and its place.
#[derive(Drop)]
pub struct Ident {
    pub place: Position,
    pub name: Name,
}

/// A number and its place.
#[derive(Clone, Copy)]
pub struct Number {
    pub place: Position,
    pub value: u128,
}

/// A name with a width: a field of a header or of the metadata, or a parameter.
#[derive(Drop)]
pub struct Declared {
    pub ident: Ident,
    pub width: Number,
}

/// Whose a field is.
#[derive(Drop)]
pub enum OwnerText {
    /// Every program has it.
    Intrinsic,
    Metadata,
    Header(Ident),
}

/// A field that is named.
#[derive(Drop)]
pub struct FieldText {
    /// Of its first token.
    pub place: Position,
    pub owner: OwnerText,
    /// Its own name, as `dst` of `eth.dst`, with the place of its last token.
    pub ident: Ident,
}

/// A value that a case compares, with its mask.
#[derive(Clone, Copy)]
pub struct ValueText {
    pub value: Number,
    pub mask: Option<Number>,
}

/// Where a header goes on.
#[derive(Drop)]
pub enum TargetText {
    Header(Ident),
    Accept,
    Reject,
}

#[derive(Drop)]
pub struct CaseText {
    pub values: Sequence<ValueText>,
    pub target: TargetText,
}

/// A part of a header behind its fields: as many bytes as a field's value times a unit, less a base.
#[derive(Drop)]
pub struct TailText {
    /// Of the word `tail`.
    pub place: Position,
    /// The field of the header that tells the length.
    pub field: Ident,
    /// How many bytes the value counts.
    pub unit: Number,
    /// How many of them are no bytes of the tail.
    pub base: Number,
}

/// A header. One with a plain target selects by nothing and has no case.
#[derive(Drop)]
pub struct HeaderText {
    pub ident: Ident,
    pub fields: Sequence<Declared>,
    pub tail: Option<TailText>,
    pub select: Sequence<Ident>,
    pub cases: Sequence<CaseText>,
    pub other: TargetText,
}

#[derive(Drop)]
pub struct MetaText {
    /// Of the word `meta`.
    pub place: Position,
    pub fields: Sequence<Declared>,
}

/// An operand.
#[derive(Drop)]
pub enum LeafText {
    Field(FieldText),
    Param(Ident),
    Number(Number),
}

/// An operator and its place.
#[derive(Clone, Copy)]
pub struct Sign {
    pub place: Position,
    pub op: Op,
}

/// What is assigned: one operand, or two with the operator between them.
#[derive(Drop)]
pub struct ExprText {
    pub left: LeafText,
    pub right: Option<(Sign, LeafText)>,
}

#[derive(Drop)]
pub struct AssignText {
    pub dest: FieldText,
    pub expr: ExprText,
}

#[derive(Drop)]
pub struct ActionText {
    pub ident: Ident,
    pub params: Sequence<Declared>,
    pub assigns: Sequence<AssignText>,
}

/// The key of a table and what goes with it.
#[derive(Drop)]
pub struct KeyText {
    pub kind: Kind,
    pub fields: Sequence<FieldText>,
    pub actions: Sequence<Ident>,
    pub size: Number,
    pub counted: bool,
}

#[derive(Drop)]
pub struct TableText {
    pub ident: Ident,
    pub key: Option<KeyText>,
    pub default: Ident,
    pub args: Sequence<Number>,
}

/// For which outcomes an arm of an `apply` stands.
#[derive(Drop)]
pub enum ArmText {
    Hit,
    Miss,
    Action(Ident),
}

/// The arm that a node stands in: which one of which node, from 0 on. Of an `if` the first arm is its block,
/// the second its `else`.
#[derive(Clone, Copy)]
pub struct Under {
    pub parent: usize,
    pub arm: usize,
}

#[derive(Drop)]
pub enum WhatText {
    Apply {
        table: Ident,
        arms: Sequence<ArmText>,
    },
    If {
        field: FieldText,
        mask: Option<Number>,
        value: Number,
    },
}

/// An `apply` or an `if`.
#[derive(Drop)]
pub struct NodeText {
    /// Of its word.
    pub place: Position,
    pub under: Option<Under>,
    pub what: WhatText,
}

/// The parts of a program's text, each kind in the order of the text.
#[derive(Drop)]
pub struct Source {
    pub headers: Sequence<HeaderText>,
    pub metas: Sequence<MetaText>,
    pub actions: Sequence<ActionText>,
    pub tables: Sequence<TableText>,
    /// The nodes of the control, where there is one.
    pub control: Option<Sequence<NodeText>>,
    /// The end of the text.
    pub end: Position,
}
