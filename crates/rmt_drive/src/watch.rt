//! What a run prints.

/// What is printed of a run of the chip.
#[derive(Clone, Copy, Debug, PartialEq, Eq)]
pub enum Watch {
    /// The answers, and behind them counters, cycles and flight.
    Answers,
    /// The vectors in flight at a cycle, counted from 0.
    Vectors { cycle: u32 },
}
