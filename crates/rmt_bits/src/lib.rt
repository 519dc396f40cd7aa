//! Bits of numbers, digits and lines of texts, lanes of words, the hash of exact look-ups, and the types that every layer
//! shares.
#![tactic(auto)]

pub mod answer;
pub mod bits;
pub mod counts;
pub mod cuts;
pub mod digits;
pub mod fault;
pub mod groups;
pub mod hash;
pub mod lane;
pub mod lines;
pub mod places;
pub mod sequence;
