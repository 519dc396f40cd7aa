//! Starts that rise from 0.

ghost use Rattle.std.specs.Prelude.{◌<◌, ◌↔◌, ℕ, IsTrue, length, slice_index};
ghost use Rattle.rmt_verify.specs.EdgeSpans.{Rise};

/// Whether each start is greater than the one before it.
fn each_rises(starts: &[u16]) -> bool
    ensures { IsTrue result ↔ ((j k : ℕ) → j < k → k < length starts.now → slice_index starts.now j < slice_index starts.now k) }
{
    for at in 1..starts.len() {
        if starts[at] <= starts[at - 1] {
            return false;
        }
    }
    true
}

/// Whether starts rise from 0.
pub fn rise(starts: &[u16]) -> bool
    ensures { IsTrue result ↔ Rise starts.now }
{
    match starts {
        [] => true,
        [first, ..] => *first == 0 && each_rises(starts),
    }
}
