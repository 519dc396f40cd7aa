//! Runs of `plain` and `sim` over one program, its entries and packets, which are to print the same lines.

use rmt_command_tests::fixtures::cases::{COMPILE, PLAIN, SIM, Told, tells};
use rmt_command_tests::fixtures::commands::{Outside, run_over, shelf_of};
use rmt_core::status::Status;
use rmt_io::mem_shelf::MemShelf;
use std::alloc::Global;
use std::test::Fail;

/// A program, its entries and packets, and what comes of them.
#[derive(Clone, Copy)]
pub struct Run<'a> {
    /// The program.
    pub program: &'a [u8],
    /// The entries.
    pub entries: &'a str,
    /// The packets.
    pub packets: &'a str,
    /// How both commands end.
    pub status: Status,
    /// The lines of `plain`.
    pub lines: &'a str,
    /// What `sim` prints behind them.
    pub run: &'a str,
}

/// Whether both commands over a shelf of a program `p`, entries `e` and packets `k` end so and print these lines, and `sim`
/// then its run.
pub fn both_tell<'a>(
    alloc: Global,
    shelf: &mut MemShelf,
    outside: Outside,
    status: Status,
    lines: &'a str,
    run: &'a str,
) -> Result<bool, Fail> {
    run_over(alloc, COMPILE, shelf, outside)?;
    let is_plain = tells(alloc, PLAIN, shelf, outside, status, Told::Is(lines))?;
    let simulated = Told::Both(lines, run);
    Ok(is_plain && tells(alloc, SIM, shelf, outside, status, simulated)?)
}

/// Whether both commands print what is told, where so much is given and taken at once.
pub fn both_print(alloc: Global, run: Run<'_>, outside: Outside) -> Result<bool, Fail> {
    let files = [
        ("p", run.program),
        ("e", run.entries.as_bytes()),
        ("k", run.packets.as_bytes()),
    ];
    let mut shelf = shelf_of(alloc, &files, outside)?;
    both_tell(alloc, &mut shelf, outside, run.status, run.lines, run.run)
}
