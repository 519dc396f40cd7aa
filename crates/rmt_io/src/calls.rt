//! Counts of calls, and which calls are to fail.

ghost use Rattle.std.specs.Prelude.{◌≡◌, ◌≤◌};
ghost use Rattle.rmt_io.specs.Calls.{fails_next, raised};
ghost use Rattle.rmt_io.specs.Faults.{Rose};

/// A count that rises by one, and stays at its last value.
pub(crate) fn raise(count: u64) -> u64
    ensures value { result ≡ raised count }
    ensures rises { count ≤ result }
    ensures rose { Rose count result }
{
    count.saturating_add(1)
}

/// Whether the call behind `calls` calls is one of those that are to fail.
pub(crate) fn is_failing(fails: &Vec<u64>, calls: u64) -> bool
    ensures { result ≡ fails_next fails.now.items calls }
{
    match calls.checked_add(1) {
        Some(number) => fails.contains(&number),
        None => false,
    }
}
