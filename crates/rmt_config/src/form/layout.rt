//! How entries of a memory lie in the blocks that it lists.

ghost use Rattle.std.specs.Prelude.{◌≡◌, ℕ, ◌+◌, ◌-◌, ◌*◌, ◌/◌, ◌^◌, ◌<◌, ◌≤◌};
ghost use Rattle.rmt_config.specs.BlockCounts.{divided_up as divided_up_of, record_width as record_width_of, records_a_row as records_a_row_of};

/// Units of `side` blocks side by side, whose rows have `per` entries of `entry` bits; `units` of them make a quantum.
/// A block has `rows` rows of `bits` bits. A quantum has `ways` ways of `way` cells each, and there are `quanta` of them.
#[derive(Clone, Copy)]
pub struct CellLayout {
    pub bits: u64,
    pub rows: u64,
    pub side: u64,
    pub entry: u64,
    pub per: u64,
    pub units: u64,
    pub way: u64,
    pub ways: u64,
    pub quanta: u64,
}

/// The quotient, rounded up.
pub fn divided_up(a: u64, b: u64) -> u64
    requires some { 0 < b }
    requires fits { a + b < 2 ^ 64 }
    ensures { result ≡ divided_up_of a b }
{
    (a + b - 1) / b
}

/// How many SRAM blocks stand side by side for a record of `n` bits.
pub fn record_width(n: u64) -> u64
    requires { n < 66000 }
    ensures value { result ≡ record_width_of n }
    ensures few { result ≤ 590 }
{
    divided_up(n, 112)
}

/// How many records of `n` bits such a row has.
pub fn records_a_row(n: u64) -> u64
    requires some { 0 < n }
    requires most { n < 66000 }
    ensures value { result ≡ records_a_row_of n }
    ensures least { 0 < result }
    ensures few { result < 113 }
{
    112 * record_width(n) / n
}

/// A number of two digits, of which the lower is below the width.
pub fn joined(high: u64, width: u64, low: u64) -> u64
    requires { high * width + low < 2 ^ 64 }
    ensures { result ≡ high * width + low }
{
    high * width + low
}
