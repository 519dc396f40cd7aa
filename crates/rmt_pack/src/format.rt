//! Memory formats of tables.

ghost use Rattle.std.specs.Prelude.{◌≡◌, ℕ, ◌+◌, ◌<◌, ◌≤◌, ◌^◌, List, [], ◌++◌, ◌∷◌, filter};
ghost use Rattle.rmt_config.specs.BlockCounts.{divided_up as divided_up_of};
ghost use Rattle.rmt_pack.specs.Formats.{memory_format, IsFormat, IsTaken, IsNeed, HasNeed, need_of, no_memory, most_cells as cells_a_row, whole as whole_of, goes_before as is_first, is_in_stage, first_of, exact_layout as layout_of, exact_format as format_of_exact, ternary_format as format_of_ternary};

use rmt_ast::program::{Kind, Table};
use rmt_config::form::block_counts::{exact_block_counts, ternary_block_counts};
use rmt_config::form::layout::divided_up;

/// How the memory of a table is laid out.
#[derive(Clone, Copy, Debug, PartialEq, Eq)]
pub struct Format {
    /// How many SRAM blocks stand side by side in a unit of an exact table, 1 to 8; 0 for every other.
    pub width: u8,
    /// How many cells of an exact table stand in a row of a unit; 0 for every other.
    pub per: u32,
    /// How many quanta the table takes; at least 1.
    pub quanta: u32,
    /// The SRAM blocks of one quantum: those of keys, of records and of counters; at most 106.
    pub sram: u32,
    /// The TCAM blocks of one quantum, at most 16; 0 for an exact table.
    pub tcam: u32,
}

/// What the memory of a table has to hold.
#[derive(Clone, Copy, Debug, PartialEq, Eq)]
pub struct Need {
    /// The bits of a key.
    pub key: u32,
    /// The bits of data that an entry holds for its action.
    pub held: u32,
    /// The most entries.
    pub size: u32,
    /// Whether each entry counts what hits it.
    pub counted: bool,
}

/// The memory format of a table whose key has `key` bits, and whose entries hold `held` bits of data.
///
/// Of the formats of an exact table the one is taken with fewest SRAM blocks for the whole table, then the one with
/// the narrowest units, then the one with most cells a row. Every table has a format. It takes no memory.
pub fn format_of(table: &Table, key: u32, held: u32) -> Format
    // A table with a key has one of 1 to 640 bits, 1 to 1,048,576 entries, and at most 2,048 bits of data.
    requires { HasNeed table.now.kind (need_of table.now key held) }
    ensures taken { result ≡ memory_format table.now.kind (need_of table.now key held) }
    ensures format { IsFormat table.now.kind (need_of table.now key held) result }
    // Of an exact table no format goes before it.
    ensures first { table.now.kind ≡ Kind.Exact → IsTaken (need_of table.now key held) result }
{
    let need = Need {
        key,
        held,
        size: table.size,
        counted: table.counted,
    };
    match table.kind {
        Kind::Keyless => without_memory(),
        Kind::Exact => exact_format(need),
        Kind::Prefix => ternary_format(need),
        Kind::Ternary => ternary_format(need),
    }
}

/// The format of what has no memory.
pub fn without_memory() -> Format
    ensures { result ≡ no_memory }
{
    Format {
        width: 0,
        per: 0,
        quanta: 1,
        sram: 0,
        tcam: 0,
    }
}

/// The quotient of two numbers of 32 bits, rounded up.
pub fn divide_up(a: u32, b: u32) -> u32
    requires positive { 0 < b }
    ensures { result ≡ divided_up_of a b }
{
    divided_up(u64::from(a), u64::from(b)) as u32
}

/// The format of a prefix or ternary table.
fn ternary_format(need: Need) -> Format
    requires { IsNeed need }
    ensures { result ≡ format_of_ternary need }
{
    let blocks = ternary_block_counts(need.key, 1, need.held as u16, need.counted);
    Format {
        width: 0,
        per: 0,
        quanta: divide_up(need.size, 2048),
        sram: (blocks.records + blocks.counters) as u32,
        tcam: divide_up(need.key, 40),
    }
}

/// The most cells in a row of so many blocks.
pub fn most_cells(need: Need, width: u8) -> u32
    requires need { IsNeed need }
    requires width { width ≤ 8 }
    ensures value { result ≡ cells_a_row need width }
    ensures few { result < 100 }
{
    112 * width as u32 / (need.key + 8)
}

/// An exact table in units of so many blocks with so many cells a row.
pub fn exact_layout(need: Need, width: u8, per: u32) -> Format
    requires need { IsNeed need }
    requires width { width ≤ 8 }
    requires has_cells { 0 < per }
    requires few_cells { per < 100 }
    ensures { result ≡ layout_of need width per }
{
    let blocks = exact_block_counts(width, per as u16, 1, need.held as u16, need.counted);
    Format {
        width,
        per,
        quanta: divide_up(need.size + need.size / 8, 4096 * per),
        sram: (blocks.keys + blocks.records + blocks.counters) as u32,
        tcam: 0,
    }
}

/// The SRAM blocks of a whole table.
fn whole(format: &Format) -> u64
    ensures { result ≡ whole_of format.now }
{
    format.quanta as u64 * format.sram as u64
}

/// Whether one format goes before another.
fn goes_before(format: &Format, other: &Format) -> bool
    ensures { result ≡ is_first format.now other.now }
{
    let (blocks, others) = (whole(format), whole(other));
    if blocks != others {
        return blocks < others;
    }
    if format.width != other.width {
        return format.width < other.width;
    }
    other.per < format.per
}

/// The first of some formats and one more, which is passed over where a quantum of it doesn't stand in a stage.
fn with_format(best: Option<Format>, format: Format) -> Option<Format>
    ensures { (fs : List Format) → best ≡ first_of (filter is_in_stage fs) → result ≡ first_of (filter is_in_stage (fs ++ format ∷ [])) }
{
    if format.sram > 106 {
        return best;
    }
    match best {
        None => Some(format),
        Some(other) => {
            if goes_before(&format, &other) {
                Some(format)
            } else {
                Some(other)
            }
        }
    }
}

/// The format of an exact table.
fn exact_format(need: Need) -> Format
    requires { IsNeed need }
    ensures { result ≡ format_of_exact need }
{
    let mut best = None;
    for width in 1..9u8 {
        for per in 1..most_cells(need, width) + 1 {
            best = with_format(best, exact_layout(need, width, per));
        }
    }
    best.unwrap_or(without_memory())
}
