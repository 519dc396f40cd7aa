//! The tests of bits, counters, packets, captures and the outside: worked rows and calls with ample memory, on public calls
//! alone. What tests of several crates begin with is public.
#![tactic(auto)]

pub mod fixtures;
#[cfg(test)]
mod tests;
