//! How the nodes of a program are placed.

/// How the nodes of a program are placed.
#[derive(Clone, Copy, Debug)]
pub enum Placer {
    /// By the rule.
    ByRule,
    /// As the best of so many tries does, 1 to 1,000.
    ByTries { budget: u32 },
}
