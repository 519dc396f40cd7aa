//! Queues: one port full, two copies of one item, cells that are short, and ports of which some are full.

ghost use Rattle.std.specs.Prelude.{◌≡◌, ◌<◌, ◌≤◌, length, nat_eq};
ghost use Rattle.std.specs.List.{All, IsDistinct};
ghost use Rattle.rmt_queues.specs.Lists.{Lists};
ghost use Rattle.rmt_queues.specs.Stands.{Stands};

use rmt_queues::queues::{Offered, Queues};
use std::alloc::{AllocError, Global};
use std::process::Abort;
use std::test::*;

/// The most bytes that an item has.
const MOST: usize = 13_320;

/// What is done.
#[derive(Clone, Copy)]
enum Step {
    /// An item of so many bytes is offered to a port.
    One(u16, usize),
    /// An item of so many bytes is offered to ports 1 and 2.
    Two(usize),
    /// An item of so many bytes is offered to all eight ports.
    Eight(usize),
    /// An item is taken at a port.
    Take(u16),
}

/// Offers an item: how many copies it has, how many were dropped, and 1 where cells were short.
fn offer(queues: &mut Queues, ports: &[u16], item: &[u8]) -> (u32, u32, u32)
    requires some { 1 ≤ length item.now }
    requires small { length item.now ≤ 13320 }
    requires once { IsDistinct nat_eq ports.now }
    requires within { All (λ port. port < 8) ports.now }
    requires eight { (s : Lists) × Stands s queues.old × (length s.queues ≡ 8) }
    ensures eight { (s : Lists) × Stands s queues.new × (length s.queues ≡ 8) }
{
    match queues.offer(ports, item) {
        Offered::CellsFull => (0, 0, 1),
        Offered::Queued { copies, dropped } => (u32::from(copies), u32::from(dropped), 0),
    }
}

/// Takes an item: 1 where one is there, how many bytes it has, and 1 where they are not those of the item.
fn take(queues: &mut Queues, port: u16, item: &[u8], into: &mut [u8]) -> (u32, u32, u32)
    requires within { port < 8 }
    requires room { 13320 ≤ length into.old }
    requires eight { (s : Lists) × Stands s queues.old × (length s.queues ≡ 8) }
    ensures eight { (s : Lists) × Stands s queues.new × (length s.queues ≡ 8) }
{
    match queues.take(port, into) {
        Some(len) => {
            let same = into.get(..len as usize) == item.get(..len as usize);
            (1, len, u32::from(!same))
        }
        None => (0, 0, 0),
    }
}

/// Does a step.
fn act(
    rt: &impl Abort,
    queues: &mut Queues,
    step: Step,
    item: &[u8],
    into: &mut [u8],
) -> (u32, u32, u32)
    requires eight { (s : Lists) × Stands s queues.old × (length s.queues ≡ 8) }
    ensures eight { (s : Lists) × Stands s queues.new × (length s.queues ≡ 8) }
{
    match step {
        Step::One(port, len) => {
            assert!(rt; port < 8 && 1 <= len && len <= item.len() && len <= MOST);
            offer(queues, &[port], &item[..len])
        }
        Step::Two(len) => {
            assert!(rt; 1 <= len && len <= item.len() && len <= MOST);
            offer(queues, &[1, 2], &item[..len])
        }
        Step::Eight(len) => {
            assert!(rt; 1 <= len && len <= item.len() && len <= MOST);
            offer(queues, &[0, 1, 2, 3, 4, 5, 6, 7], &item[..len])
        }
        Step::Take(port) => {
            assert!(rt; port < 8 && into.len() >= MOST);
            take(queues, port, item, into)
        }
    }
}

/// An item of the most bytes, which rise.
fn rising(alloc: Global) -> Result<Vec<u8>, AllocError> {
    let mut item = Vec::new(alloc);
    for number in 0..MOST {
        item.push((number % 251) as u8)?;
    }
    Ok(item)
}

/// Steps, how often each is done, and to what its answers add up.
type Row = (Step, u32, (u32, u32, u32));

/// Does steps over the queues of eight ports, each so many times; each time the answers add up to what is wanted.
fn run(rt: &impl Abort, alloc: Global, depth: u16, rows: &[Row]) -> Result<(), Fail>
    requires some { 1 ≤ depth }
    requires few { depth ≤ 64 }
{
    let mut queues = Queues::new(alloc, 8, depth)?;
    let item = rising(alloc)?;
    let mut into = vec![in alloc; 0u8; MOST]?;
    for (step, times, wanted) in rows {
        let mut sum = (0u32, 0u32, 0u32);
        for _ in 0..*times {
            let (first, second, third) = act(
                rt,
                &mut queues,
                *step,
                item.as_slice(),
                into.as_mut_slice(),
            );
            sum = (
                sum.0.wrapping_add(first),
                sum.1.wrapping_add(second),
                sum.2.wrapping_add(third),
            );
        }
        assert!(rt; sum == *wanted);
    }
    Ok(())
}

const ONE_PORT_FULL: [Row; 3] = [
    (Step::One(1, 9), 100, (64, 36, 0)),
    (Step::Take(1), 65, (64, 576, 0)),
    (Step::Take(0), 1, (0, 0, 0)),
];

const TWO_COPIES: [Row; 3] = [
    (Step::Two(13_320), 1, (2, 0, 0)),
    (Step::Take(1), 2, (1, 13_320, 0)),
    (Step::Take(2), 2, (1, 13_320, 0)),
];

const CELLS_SHORT: [Row; 16] = [
    (Step::Eight(9_224), 1, (8, 0, 0)),
    (Step::One(0, 9_224), 63, (63, 0, 0)),
    (Step::One(1, 9_224), 63, (63, 0, 0)),
    (Step::One(2, 9_224), 63, (63, 0, 0)),
    (Step::One(3, 9_224), 63, (63, 0, 0)),
    (Step::One(4, 9_224), 63, (63, 0, 0)),
    (Step::One(5, 9_224), 63, (63, 0, 0)),
    (Step::One(6, 9_224), 63, (63, 0, 0)),
    (Step::One(7, 9_224), 63, (9, 0, 54)), // 451 items stand, and 141 cells are free
    (Step::One(0, 9_224), 1, (0, 1, 0)), // no port has room, so no cell is wanted
    (Step::One(7, 9_024), 1, (1, 0, 0)), // 141 cells are enough
    (Step::One(7, 1), 1, (0, 0, 1)),
    (Step::Take(0), 1, (1, 9_224, 0)), // seven copies of the first item still stand
    (Step::One(0, 1), 1, (0, 0, 1)),
    (Step::Take(0), 1, (1, 9_224, 0)),
    (Step::One(7, 9_224), 2, (1, 0, 1)),
];

const SOME_FULL: [Row; 9] = [
    (Step::Two(65), 2, (2, 2, 0)),
    (Step::One(4, 64), 1, (1, 0, 0)),
    (Step::Eight(66), 1, (5, 3, 0)),
    (Step::Take(1), 1, (1, 65, 0)),
    (Step::Take(4), 1, (1, 64, 0)),
    (Step::Eight(67), 1, (2, 6, 0)),
    (Step::Take(7), 2, (1, 66, 0)),
    (Step::Take(1), 2, (1, 67, 0)),
    (Step::Take(4), 2, (1, 67, 0)),
];

#[test]
fn one_port_full(rt: HostRuntime) -> Result<(), Fail> {
    run(&rt, rt.alloc(), 64, &ONE_PORT_FULL)
}

#[test]
fn two_copies(rt: HostRuntime) -> Result<(), Fail> {
    run(&rt, rt.alloc(), 64, &TWO_COPIES)
}

#[test]
fn cells_short(rt: HostRuntime) -> Result<(), Fail> {
    run(&rt, rt.alloc(), 64, &CELLS_SHORT)
}

#[test]
fn some_full(rt: HostRuntime) -> Result<(), Fail> {
    run(&rt, rt.alloc(), 1, &SOME_FULL)
}
