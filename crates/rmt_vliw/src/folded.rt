//! What an action folds to.

use rmt_ast::program::Assign;
use rmt_bits::answer::Bytes;
use rmt_bits::sequence::Sequence;

/// An action as one step: all fields that it writes get their values at once, over the fields as they were before it.
#[derive(Drop, Debug)]
pub struct Folded {
    /// The width in bits of each of the action's parameters.
    pub params: Bytes,
    /// One value for each field that the action writes, in the order in which it first assigns to them.
    pub values: Sequence<Assign>,
}
