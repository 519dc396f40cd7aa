//! Entries of a state, and tails of entries, by binary search.

ghost use Rattle.std.specs.Prelude.{◌≡◌, ◌<◌, ◌≤◌, ℕ, length, slice_index_or};
ghost use Rattle.std.specs.List.Sorted.{IsNonDecreasingBy};
ghost use Rattle.rmt_config.specs.Parser.{entry_of, tail_of};
ghost use Rattle.rmt_config.specs.declared.config.ParserEntry.{ParserEntry};
ghost use Rattle.rmt_config.specs.declared.config.TailOf.{TailOf};

use rmt_config::config::{ParserConfig, ParserEntry, TailOf};

/// The place of the first entry of a state, where it has one, among entries that stand by state.
fn first_entry(entries: &[ParserEntry], state: u8) -> usize
    requires { IsNonDecreasingBy (λ (e : ParserEntry). e.state) entries.now }
    ensures before { (k : ℕ) (d : ParserEntry) → k < result → (slice_index_or entries.now k d).state < state }
    ensures behind { (k : ℕ) (d : ParserEntry) → result ≤ k → k < length entries.now → state ≤ (slice_index_or entries.now k d).state }
{
    entries.partition_point(|e| e.state < state)
}

/// The number of the first entry of a state that agrees with the lookup bytes on its mask.
pub fn entry_number(parser: &ParserConfig, state: u8, value: u32) -> Option<usize>
    requires { IsNonDecreasingBy (λ (e : ParserEntry). e.state) parser.now.entries }
    ensures { result ≡ entry_of parser.now state value }
{
    let entries = parser.entries.as_slice();
    for number in first_entry(entries, state)..entries.len() {
        let entry = &entries[number];
        if entry.state != state {
            return None;
        }
        if value & entry.mask == entry.value {
            return Some(number);
        }
    }
    None
}

/// The place of the first tail whose entry isn't before this one, among tails that stand by entry.
fn first_tail(tails: &[TailOf], entry: usize) -> usize
    requires { IsNonDecreasingBy (λ (t : TailOf). t.entry) tails.now }
    ensures before { (k : ℕ) (d : TailOf) → k < result → (slice_index_or tails.now k d).entry < entry }
    ensures behind { (k : ℕ) (d : TailOf) → result ≤ k → k < length tails.now → entry ≤ (slice_index_or tails.now k d).entry }
{
    tails.partition_point(|t| usize::from(t.entry) < entry)
}

/// The tail of the entry with this number, where it has one.
pub fn entry_tail(parser: &ParserConfig, entry: usize) -> Option<TailOf>
    requires { IsNonDecreasingBy (λ (t : TailOf). t.entry) parser.now.tails }
    ensures { result ≡ tail_of parser.now entry }
{
    let tails = parser.tails.as_slice();
    let at = first_tail(tails, entry);
    if at < tails.len() {
        let tail = tails[at];
        if usize::from(tail.entry) == entry {
            return Some(tail);
        }
    }
    None
}
