//! The tests of parsers and their joins, of maps, and of what is verified: worked rows and calls with ample memory, on public
//! calls alone.
#![tactic(auto)]

#[cfg(test)]
mod joins;
#[cfg(test)]
mod maps;
#[cfg(test)]
mod parsers;
#[cfg(test)]
mod verifying;
