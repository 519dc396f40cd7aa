//! The tests of plain runs and of changes of their entries: worked rows and calls with ample memory, on public calls alone.
#![tactic(auto)]

#[cfg(test)]
mod books;
#[cfg(test)]
mod changes;
#[cfg(test)]
mod commits;
#[cfg(test)]
mod loading;
#[cfg(test)]
mod plain;
#[cfg(test)]
mod plans;
#[cfg(test)]
mod steps;
