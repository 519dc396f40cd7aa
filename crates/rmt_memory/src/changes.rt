//! Changes of the cells of a memory.

ghost use Rattle.std.specs.Prelude.{◌≡◌, ◌+◌, ◌<◌, ◌∷◌, ◌++◌, length};
ghost use Rattle.rmt_memory.specs.RunWrites.{RunSet, HeadCleared};

use crate::runs::Runs;

/// Fills a run with one byte, and the bytes of three parts behind it.
fn fill(run: &mut [u8], head: u8, first: &[u8], second: &[u8], third: &[u8])
    requires { length run.old ≡ 1 + length first.now + length second.now + length third.now }
    ensures { run.new ≡ head ∷ (first.now ++ (second.now ++ third.now)) }
{
    let (front, back) = run.split_at_mut(1 + first.len() + second.len());
    front[0] = head;
    front[1..1 + first.len()].copy_from_slice(first);
    front[1 + first.len()..].copy_from_slice(second);
    back.copy_from_slice(third);
}

/// Writes a run: one byte, and the bytes of three parts behind it.
pub fn set_run(runs: &mut Runs, at: usize, head: u8, first: &[u8], second: &[u8], third: &[u8])
    requires at { at < runs.old.count }
    requires size { runs.old.size ≡ 1 + length first.now + length second.now + length third.now }
    ensures { RunSet at (head ∷ (first.now ++ (second.now ++ third.now))) runs.old runs.new }
{
    let from = at * runs.size;
    let size = runs.size;
    fill(
        &mut runs.bytes[from..from + size],
        head,
        first,
        second,
        third,
    );
}

/// Makes the first byte of a run 0.
pub fn clear_head(runs: &mut Runs, at: usize)
    requires at { at < runs.old.count }
    requires size { 0 < runs.old.size }
    ensures { HeadCleared at runs.old runs.new }
{
    runs.bytes[at * runs.size] = 0;
}
