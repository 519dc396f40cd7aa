//! The tests of the back end and of runs on what it makes: worked rows and calls with ample memory, on public calls alone.
#![tactic(auto)]

#[cfg(test)]
mod actions;
#[cfg(test)]
mod building;
#[cfg(test)]
mod formats;
#[cfg(test)]
mod layouts;
#[cfg(test)]
mod memories;
#[cfg(test)]
mod packing;
#[cfg(test)]
mod running;
