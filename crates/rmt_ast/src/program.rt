//! A packet program as a tree. Things are named by their numbers, each from 0 on: fields, headers, actions, tables and
//! nodes by their places in the lists of the program.

use crate::name::Name;
use rmt_bits::answer::{Bytes, Numbers};
use rmt_bits::sequence::Sequence;

/// A whole program.
#[derive(Drop, Debug)]
pub struct Program {
    /// `in_port`, `out_port` and `drop`, then of each header its `valid` and its fields, then the metadata.
    pub fields: Sequence<Field>,
    /// In order of declaration; the parse begins at the first. At most 64.
    pub headers: Sequence<Header>,
    /// In order of declaration; at most 256.
    pub actions: Sequence<Action>,
    /// In order of declaration; each is applied by one node.
    pub tables: Sequence<Table>,
    /// In the order of the control's text; at most 128.
    pub nodes: Sequence<Node>,
}

/// A field of a header, of the metadata, or one that every program has.
#[derive(Drop, Debug)]
pub struct Field {
    /// As it is printed, as in `eth.dst`.
    pub name: Name,
    /// In bits, 1 to 128.
    pub width: u8,
}

/// A header of the parse graph.
#[derive(Drop, Debug)]
pub struct Header {
    /// As it is declared.
    pub name: Name,
    /// The number of the field that says that a packet has the header.
    pub valid: u32,
    /// The numbers of its fields, first one highest in the header's bits.
    pub fields: Numbers,
    /// Its length without the tail, in bytes, 1 to 64.
    pub bytes: u8,
    /// What follows its fields, of a length that one of them gives.
    pub tail: Option<Tail>,
    /// The numbers of those of its fields that its cases look at.
    pub select: Numbers,
    /// In order; the first that matches is taken.
    pub cases: Sequence<Case>,
    /// Where the parse goes where no case matches.
    pub other: Target,
}

/// The part of a header behind its fields, of `value * unit - base` bytes, where `value` is that of a field.
#[derive(Clone, Copy, Debug, PartialEq, Eq)]
pub struct Tail {
    /// The number of a field of the header, of at most 8 bits.
    pub field: u32,
    /// Bytes that each 1 of the field stands for, at least 1.
    pub unit: u8,
    /// Bytes that are taken off.
    pub base: u8,
}

/// A case of a header's select.
#[derive(Drop, Debug)]
pub struct Case {
    /// One for each selected field, in their order.
    pub tests: Sequence<Test>,
    /// Where the parse goes where all of them pass.
    pub target: Target,
}

/// A test of a field: it passes where field and value agree on the bits of the mask.
#[derive(Clone, Copy, Debug, PartialEq, Eq)]
pub struct Test {
    /// It has no bit outside the mask.
    pub value: u128,
    /// It fits the field.
    pub mask: u128,
}

/// Where the parse goes behind a header.
#[derive(Clone, Copy, Debug, PartialEq, Eq)]
pub enum Target {
    /// To the header of this number, which is declared later.
    Node(u32),
    /// To the control; the rest of the frame is the payload.
    Accept,
    /// Nowhere: the frame is rejected.
    Reject,
}

/// An action with its parameters.
#[derive(Drop, Debug)]
pub struct Action {
    /// As it is declared.
    pub name: Name,
    /// The width in bits of each parameter, 1 to 128; at most 16.
    pub params: Bytes,
    /// In order, each on what the earlier ones leave; at most 64.
    pub assigns: Sequence<Assign>,
}

/// An assignment.
#[derive(Clone, Copy, Debug, PartialEq, Eq)]
pub struct Assign {
    /// The number of the field that is written, not `in_port`.
    pub dest: u32,
    /// What it is set to, of its width.
    pub expr: Expr,
}

/// The value of an assignment.
#[derive(Clone, Copy, Debug, PartialEq, Eq)]
pub enum Expr {
    /// One operand.
    One(Leaf),
    /// An operator on two.
    Two(Op, Leaf, Leaf),
}

/// An operand.
#[derive(Clone, Copy, Debug, PartialEq, Eq)]
pub enum Leaf {
    /// The field of this number.
    Field(u32),
    /// The parameter of this number, from 0 on in the action's list.
    Param(u32),
    /// This number.
    Number(u128),
}

/// An operator; sums and differences are modulo two to the width of the field that is written.
#[derive(Clone, Copy, Debug, PartialEq, Eq)]
pub enum Op {
    /// The sum, of at most 32 bits.
    Add,
    /// The first less the second, of at most 32 bits.
    Sub,
    /// The bits that both have.
    And,
    /// The bits that one or both have.
    Or,
    /// The bits that one of them has.
    Xor,
}

/// A table.
#[derive(Drop, Debug)]
pub struct Table {
    /// As it is declared.
    pub name: Name,
    /// How its entries match.
    pub kind: Kind,
    /// The numbers of the key's fields, together at most 640 bits; none in a keyless table, and one where the kind is
    /// prefix.
    pub key: Numbers,
    /// The numbers of the actions that entries may have; at most 14, and none in a keyless table.
    pub actions: Numbers,
    /// The number of the action that runs on a miss.
    pub default: u32,
    /// The arguments of the default, one for each parameter.
    pub args: Sequence<u128>,
    /// The most entries, 1 to 1,048,576; 0 in a keyless table.
    pub size: u32,
    /// Whether each entry counts the packets that hit it.
    pub counted: bool,
}

/// How the entries of a table match its key.
#[derive(Clone, Copy, Debug, PartialEq, Eq)]
pub enum Kind {
    /// Without a key: every packet misses.
    Keyless,
    /// The entry equal to the key.
    Exact,
    /// The longest prefix of the key.
    Prefix,
    /// The entry of least priority number that agrees with the key on its mask, then the earlier one.
    Ternary,
}

/// A node of the control.
#[derive(Clone, Copy, Debug, PartialEq, Eq)]
pub struct Node {
    /// Where it runs; always, where there is none.
    pub guard: Option<Guard>,
    /// What it does there.
    pub what: What,
}

/// A node runs where its parent's outcome is in the mask.
#[derive(Clone, Copy, Debug, PartialEq, Eq)]
pub struct Guard {
    /// The number of an earlier node.
    pub parent: u32,
    /// Bit k stands for the outcome k: 1 for a miss or an `if` that is false, 2 for an `if` that is true, and 2 + i for a
    /// hit with the action i of the table's list. Bit 0 is not set.
    pub mask: u16,
}

/// What a node does.
#[derive(Clone, Copy, Debug, PartialEq, Eq)]
pub enum What {
    /// It applies the table of this number.
    Apply(u32),
    /// It is an `if`.
    Gate {
        /// The number of the field that it tests.
        field: u32,
        /// Where the field passes it, the outcome is 2, and else 1.
        test: Test,
    },
}
