//! The tests of the texts of programs and of entries, and of the messages for people: worked rows on public calls alone.
#![tactic(auto)]

#[cfg(test)]
mod tests;
