//! The names of a program's tables with a key: by them entries are read and changed without the program.

use crate::name::Name;
use crate::program::Kind;
use rmt_bits::answer::Bytes;
use rmt_bits::sequence::Sequence;

/// Tables, by rising node.
pub type TableNames = Sequence<TableName>;

/// The actions of a table's list, numbered from 0.
pub type ActionNames = Sequence<ActionName>;

/// The ranks of a table's entries, by rising rank, and those of one rank by number.
pub type Ranks = Sequence<RankOf>;

/// The names of the tables with a key.
#[derive(Drop, Debug)]
pub struct Names {
    /// One for each table with a key, by rising node.
    pub tables: TableNames,
}

/// A table with a key, as it is known without the program.
#[derive(Drop, Debug)]
pub struct TableName {
    /// The number of the node that applies the table.
    pub node: u32,
    /// As it is declared; no two tables have one name.
    pub name: Name,
    /// How its entries match; not `Keyless`.
    pub kind: Kind,
    /// The most entries, 1 to 1,048,576.
    pub size: u32,
    /// The width in bits of each field of the key, 1 to 128; one field where the kind is `Prefix`.
    pub keys: Bytes,
    /// The actions that entries may have, in the order of the table's list.
    pub actions: ActionNames,
    /// The ranks of its entries where the kind is `Ternary`, in the order of their rows; else none.
    pub ranks: Ranks,
}

/// An action that entries may have.
#[derive(Drop, Debug)]
pub struct ActionName {
    /// As it is declared; no two actions of a table have one name.
    pub name: Name,
    /// The width in bits of each parameter, 1 to 128; at most 16.
    pub params: Bytes,
}

/// The rank of an entry of a ternary table, which no row of the chip has.
#[derive(Clone, Copy, Debug, PartialEq, Eq)]
pub struct RankOf {
    /// The entry's number, over all tables.
    pub number: u32,
    /// Its priority, of which the least goes first.
    pub rank: u32,
}
