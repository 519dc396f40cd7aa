//! Counters of entries.

use rmt_bits::counts::Counts;
use std::alloc::{AllocError, Global};
use std::process::Abort;
use std::test::*;

/// The lines of counters, `ENTRY PACKETS BYTES` each, run by run.
fn lines(alloc: Global, counters: &Counts) -> Result<String, AllocError> {
    let mut out = String::new(alloc);
    for at in 0..counters.len() {
        if let Some(count) = counters.run_at(at).first() {
            write!(out, "{} {} {}\n", count.entry, count.packets, count.bytes)?;
        }
    }
    Ok(out)
}

/// Adds a number, for which room is made.
fn add(rt: &(impl Abort + AllocGlobal), counters: &mut Counts, number: u32) {
    counters.reserve(1).expect(rt, "memory");
    assert!(rt; counters.spare() > 0);
    counters.add(number);
}

/// Numbers above, below and between others, and one that has a counter, with hits before and behind.
#[test]
fn takes_numbers_in_any_order(rt: HostRuntime) -> Result<(), Fail> {
    let mut counters = Counts::of(rt.alloc(), &[40, 20, 40])?;
    counters.hit(20, 100);
    counters.hit(30, 7);
    for &number in &[50, 10, 30, 20] {
        add(&rt, &mut counters, number);
    }
    counters.hit(30, 60);
    counters.hit(30, u64::MAX);
    counters.hit(10, 64);
    counters.hit(11, 64);
    let wanted = "10 1 64\n20 1 100\n30 2 59\n40 0 0\n50 0 0\n";
    assert!(rt; lines(rt.alloc(), &counters)?.as_str() == wanted);
    Ok(())
}

/// How many counters there are, and for how many more there is room.
fn sizes(counters: &Counts) -> (usize, usize) {
    (counters.len(), counters.spare())
}

/// Whether the counters are those of the numbers from 0 on.
fn are_from_zero(counters: &Counts) -> bool {
    for at in 0..counters.len() {
        match counters.get(at) {
            Some(count) if count.entry as usize == at => {}
            _ => return false,
        }
    }
    true
}

/// The counter at a place: its number, packets and bytes.
fn counter_at(counters: &Counts, at: usize) -> Option<(u32, u64, u64)> {
    let count = counters.get(at)?;
    Some((count.entry, count.packets, count.bytes))
}

/// Adds a thousand numbers in a mixed order, where there is room for each.
fn add_thousand(rt: &impl Abort, counters: &mut Counts) {
    for step in 0..1000u32 {
        assert!(rt; counters.spare() > 0);
        counters.add(step * 617 % 1000);
    }
}

/// A thousand numbers in a mixed order: runs are cut, all are there in order, and the room falls by one each.
#[test]
fn cuts_long_runs(rt: HostRuntime) -> Result<(), Fail> {
    let mut counters = Counts::new(rt.alloc());
    assert!(rt; sizes(&counters) == (0, 0));
    counters.reserve(1000)?;
    let room = counters.spare();
    assert!(rt; room >= 1000);
    add_thousand(&rt, &mut counters);
    assert!(rt; sizes(&counters) == (1000, room - 1000));
    counters.hit(999, 5);
    assert!(rt; are_from_zero(&counters));
    assert!(rt; counter_at(&counters, 999) == Some((999, 1, 5)));
    assert!(rt; counter_at(&counters, 1000).is_none());
    Ok(())
}

/// Numbers pushed in their order.
#[test]
fn pushes_rising_numbers(rt: HostRuntime) -> Result<(), Fail> {
    let mut counters = Counts::new(rt.alloc());
    counters.push(3)?;
    assert!(rt; lines(rt.alloc(), &counters)?.as_str() == "3 0 0\n");
    Ok(())
}
