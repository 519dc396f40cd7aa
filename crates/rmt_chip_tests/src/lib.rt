//! The tests of the chip, its cells and queues, and a switch of them: worked rows and calls with ample memory, on public
//! calls alone.
#![tactic(auto)]

#[cfg(test)]
mod cells;
#[cfg(test)]
mod chip;
#[cfg(test)]
mod queues;
#[cfg(test)]
mod switches;
