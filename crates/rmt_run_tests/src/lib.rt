//! The tests of the commands that run packets: worked rows over files in memory, the examples, images that no program made,
//! and what runs leave.
#![tactic(auto)]

#[cfg(test)]
mod tests;
