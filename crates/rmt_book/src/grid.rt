//! How the cells of a part lie.

use rmt_config::part_ways::PartWays;

/// How the cells of a part lie.
#[derive(Clone, Copy)]
pub enum Grid {
    /// In the four ways of an exact part, way by way, and in a way row by row.
    Ways(PartWays),
    /// In so many rows of a prefix or ternary part.
    Rows(u32),
}
