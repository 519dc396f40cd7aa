//! The tests of the commands that make, improve and verify images: worked rows over files in memory, and faults of the
//! outside in turn. What the tests of all commands begin with is public.
#![tactic(auto)]

pub mod fixtures;
#[cfg(test)]
mod tests;
