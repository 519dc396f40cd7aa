//! Runs of the chip over packet texts: each answer once, the limit, and how many packets are in flight.

ghost use Rattle.std.specs.Prelude.{[], IfOk};
ghost use Rattle.rmt_config.specs.declared.config.Config.{Config};
ghost use Rattle.rmt_chip.specs.Stands.{Stands};
ghost use Rattle.rmt_drive.specs.CommitsOf.{AreCommitsOf};

mod flight;

use rmt_chip::chip::Chip;
use rmt_core::run_chip;
use rmt_core::running::commits::{Commits, commits_of};
use rmt_core::status::Status;
use rmt_image::read_image;
use rmt_io::mem_shelf::MemShelf;
use rmt_io::mem_sink::MemSink;
use rmt_io::shelf::Shelf;
use rmt_tests::fixtures::images::IMAGE;
use std::alloc::{AllocError, Global};
use std::test::*;

/// How many bytes of a packet text may be read here.
const LIMIT: u64 = 64;

/// Thirteen packet lines, of 65 bytes.
const LINES: &[u8] =
    b"0 ff\n0 ff\n0 ff\n0 ff\n0 ff\n0 ff\n0 ff\n0 ff\n0 ff\n0 ff\n0 ff\n0 ff\n0 ff\n";

/// What a run over the first 64 bytes prints.
const WHOLE: &[u8] =
    b"0 1 ff\n1 1 ff\n2 1 ff\n3 1 ff\n4 1 ff\n5 1 ff\n6 1 ff\n7 1 ff\n8 1 ff\n9 1 ff\n10 1 ff\n11 1 ff\n12 1 ff\ncycles 25\nflight 13\n";

/// The numbers of the calls that fail, of the shelf and of the sink.
#[derive(Clone, Copy)]
struct Fails {
    shelf: u64,
    sink: u64,
}

/// No call fails.
const NONE: Fails = Fails { shelf: 0, sink: 0 };

/// A chip, and what changes its entries.
#[derive(Drop)]
struct Lent {
    chip: Chip,
    commits: Option<Commits>,
}

/// The chip of the smallest image, which has no names.
fn smallest_chip(alloc: Global) -> Result<Lent, Fail>
    ensures { IfOk result (λ lent. (c : Config) × Stands c [] lent.chip × AreCommitsOf c lent.commits) }
{
    match read_image(alloc, &IMAGE) {
        Ok(config) => {
            let commits = commits_of(alloc, &config)?;
            let chip = Chip::open(alloc, config)?;
            Ok(Lent { chip, commits })
        }
        Err(fault) => Err(Fail::from(fault)),
    }
}

/// A shelf with a packet text, which is open.
fn opened(alloc: Global, text: &[u8], fails: u64) -> Result<MemShelf, Fail> {
    let name = String::from_str(alloc, "k")?;
    let text = Vec::from_slice(alloc, text)?;
    let mut shelf = MemShelf::new(vec![in alloc; fails]?, 65_536);
    shelf.put_file(&name, &text)?;
    shelf.open(alloc, &name)?;
    Ok(shelf)
}

/// Runs a chip over the open file of a shelf, and answers the status and what was printed.
fn run_over(
    alloc: Global,
    shelf: &mut MemShelf,
    lent: &mut Lent,
    fails: u64,
) -> Result<(Status, Vec<u8>), AllocError>
    requires { (c : Config) × Stands c [] lent.old.chip × AreCommitsOf c lent.old.commits }
{
    let mut out = MemSink::new(vec![in alloc; fails]?, 65_536);
    let (chip, commits) = (&mut lent.chip, &mut lent.commits);
    let status = run_chip(alloc, shelf, LIMIT, chip, commits, &mut out);
    let printed = Vec::from_slice(alloc, out.bytes().as_slice())?;
    Ok((status, printed))
}

/// Runs the chip of the smallest image over a packet text, and answers the status and what was printed.
fn run(alloc: Global, text: &[u8], fails: Fails) -> Result<(Status, Vec<u8>), Fail> {
    let mut lent = smallest_chip(alloc)?;
    let mut shelf = opened(alloc, text, fails.shelf)?;
    Ok(run_over(alloc, &mut shelf, &mut lent, fails.sink)?)
}

/// The shelf's first call opens the file, and its second one reads.
#[test]
fn each_answer(rt: HostRuntime) -> Result<(), Fail> {
    let second = Fails { shelf: 2, sink: 0 };
    let first = Fails { shelf: 0, sink: 1 };
    let bad = b"0 1 ff\nbad packets 1 line 2\n".as_slice();
    let rows: [(&[u8], Fails, Status, &[u8]); 4] = [
        (&LINES[..64], NONE, Status::Done, WHOLE),
        (b"0 ff\n2 abc\n", NONE, Status::BadPackets, bad),
        (b"0 ff\n", second, Status::ReadFault, b""),
        (b"0 ff\n", first, Status::WriteFault, b""),
    ];
    for (text, fails, status, wanted) in rows {
        let (ended, printed) = run(rt.alloc(), text, fails)?;
        assert!(rt; ended == status);
        assert!(rt; printed.as_slice() == wanted);
    }
    Ok(())
}

/// Of a text that is too long a front of the answers may be printed.
#[test]
fn one_byte_too_many(rt: HostRuntime) -> Result<(), Fail> {
    let (ended, printed) = run(rt.alloc(), LINES, NONE)?;
    assert!(rt; ended == Status::TooLong);
    assert!(rt; WHOLE.starts_with(printed.as_slice()));
    Ok(())
}
