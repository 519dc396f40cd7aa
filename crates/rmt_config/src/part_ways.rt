//! The four ways of an exact part.

ghost use Rattle.std.specs.Prelude.{◌+◌, ◌*◌, ◌^◌, ◌<◌, ◌≤◌};

/// The four ways of an exact part. Its cells are numbered by way, by row in the way, and by position in the row.
#[derive(Clone, Copy, Drop)]
pub struct PartWays {
    /// The number of the first one among those of its table.
    pub first: u8,
    /// The rows of a way, at least 1.
    pub rows: u32,
    /// The cells of a row.
    pub per: u16,
    pub ghost some_rows: { 1 ≤ rows },
    pub ghost few_rows: { rows < 2 ^ 20 },
    pub ghost low_ways: { first + 3 < 256 },
    pub ghost few_cells: { 4 * (rows * per) < 2 ^ 32 },
}
