//! How many blocks the memory of a slot lists, by its numbers.

ghost use Rattle.std.specs.Prelude.{◌≡◌, ◌<◌, ◌≤◌, ◌+◌, ◌*◌, ◌^◌};
ghost use Rattle.rmt_config.specs.BlockCounts.{record_units as units_of_records, block_counts, exact_block_counts as counts_of_exact, ternary_block_counts as counts_of_ternary};

use crate::form::layout::{divided_up, record_width, records_a_row};

/// How many blocks a memory lists: of keys, of records and of counters.
#[derive(Clone, Copy, PartialEq, Eq)]
pub struct BlockCounts {
    /// The blocks of keys: of SRAM in an exact part, of TCAM in a ternary part.
    pub keys: u64,
    /// The SRAM blocks of records; none where a record has no bits.
    pub records: u64,
    /// The SRAM blocks of counters; none where hits are not counted.
    pub counters: u64,
}

/// How many record units a quantum of that many times 1,024 cells has; none where a record has no bits.
fn record_units(thousands: u64, bits: u64) -> u64
    requires cells { thousands < 262144 }
    requires data { bits < 65544 }
    ensures value { result ≡ units_of_records thousands bits }
    ensures small { result ≤ 262144 }
{
    if bits == 0 {
        return 0;
    }
    divided_up(thousands, records_a_row(bits))
}

/// The blocks of that many quanta, each with so many key blocks, times 1,024 cells and bits in a record.
fn counts_for(quanta: u8, key_blocks: u16, thousands: u64, bits: u64, counted: bool) -> BlockCounts
    requires cells { thousands < 262144 }
    requires data { bits < 65544 }
    ensures { result ≡ block_counts quanta key_blocks thousands bits counted }
{
    let quanta = quanta as u64;
    let records = record_units(thousands, bits) * record_width(bits);
    BlockCounts {
        keys: quanta * key_blocks as u64,
        records: quanta * records,
        counters: quanta * if counted { thousands } else { 0 },
    }
}

/// The blocks of an exact part: units of `width` blocks with `per` cells a row, and `held` data bits.
pub fn exact_block_counts(width: u8, per: u16, quanta: u8, held: u16, counted: bool) -> BlockCounts
    ensures { result ≡ counts_of_exact width per quanta held counted }
{
    counts_for(
        quanta,
        4 * width as u16,
        4 * per as u64,
        held as u64,
        counted,
    )
}

/// The blocks of a ternary part: a key of that many bits, at most 640, and `held` data bits.
pub fn ternary_block_counts(bits: u32, quanta: u8, held: u16, counted: bool) -> BlockCounts
    requires { bits ≤ 640 }
    ensures { result ≡ counts_of_ternary bits quanta held counted }
{
    counts_for(
        quanta,
        divided_up(bits as u64, 40) as u16,
        2,
        held as u64 + 8,
        counted,
    )
}
