//! Counts of what a chip answers.

ghost use Rattle.std.specs.Prelude.{◌≡◌, ◌<◌, ◌+◌, ◌++◌, ◌^◌, List, ℕ, []};
ghost use Rattle.rmt_bits.specs.declared.answer.Verdict.{Verdict as Of};
ghost use Rattle.rmt_drive.specs.Tallies.{Counts, IsBounded, left_of};
ghost use Rattle.rmt_drive.specs.SampleText.{is_sent};

use rmt_bits::answer::Verdict;

/// How many packets were answered, how many of them were sent, and how many bytes these had in all.
#[derive(Clone, Copy, Debug)]
pub struct Tally {
    pub answered: u64,
    pub sent: u64,
    /// A frame's length is below 2^64, and so is the count of frames: the sum fits 128 bits.
    pub bytes: u128,
}

/// No answer yet.
pub fn no_answers() -> Tally
    ensures counts { Counts [] result }
    ensures bounded { IsBounded result }
{
    Tally {
        answered: 0,
        sent: 0,
        bytes: 0,
    }
}

/// Counts what left in a cycle, if anything did.
pub fn count(tally: &mut Tally, left: Option<Verdict>, bytes: &[u8])
    requires bounded { IsBounded tally.old }
    requires room { tally.old.answered + 1 < 2 ^ 64 }
    ensures counts { (answers : List (Of × List ℕ)) → Counts answers tally.old →
        Counts (answers ++ left_of left bytes.now) tally.new }
    ensures bounded { IsBounded tally.new }
{
    let Some(verdict) = left else {
        return;
    };
    tally.answered += 1;
    if is_sent(verdict) {
        tally.sent += 1;
        tally.bytes += bytes.len() as u128;
    }
}

/// Whether the packet of a verdict is sent.
fn is_sent(verdict: Verdict) -> bool
    ensures { result ≡ is_sent verdict }
{
    match verdict {
        Verdict::Short | Verdict::Reject | Verdict::Dropped => false,
        Verdict::Sent { .. } => true,
    }
}
