//! The entries of a table, by their numbers and in the order of their rows.

ghost use Rattle.std.specs.Prelude.{◌≡◌, ◌≢◌, ◌<◌, ◌↔◌, All, AllPairs, Contains, IsTrue, MatchOption, length, option_copied};
ghost use Rattle.rmt_ast.specs.RowOrder.{goes_first as goes_first_of};
ghost use Rattle.rmt_ast.specs.declared.entry.Entry.{Entry as EntryOf};
ghost use Rattle.rmt_config.specs.Commits.{all_entries};
ghost use Rattle.rmt_verify.specs.CellsHeld.{KeepsOrder};

use rmt_ast::entry::Entry;
use rmt_ast::program::Kind;
use rmt_bits::sequence::Sequence;

/// The entry of a number among entries whose numbers rise.
pub fn entry_of(entries: &[Entry], number: u32) -> Option<&Entry>
    requires { AllPairs (λ (a b : EntryOf). a.number < b.number) entries.now }
    ensures { MatchOption (option_copied result) (All (λ (e : EntryOf). e.number ≢ number) entries.now) (λ e. Contains entries.now e × (e.number ≡ number)) }
{
    match entries.binary_search_by_key(&number, |entry| entry.number) {
        Ok(place) => Some(&entries[place]),
        Err(_) => None,
    }
}

/// Whether an entry of a table of a kind goes before another one.
fn goes_first(kind: Kind, first: &Entry, second: &Entry) -> bool
    ensures { result ≡ goes_first_of kind first.now second.now }
{
    match kind {
        Kind::Keyless | Kind::Exact => false,
        Kind::Prefix => {
            second.rank < first.rank || first.rank == second.rank && first.number < second.number
        }
        Kind::Ternary => {
            first.rank < second.rank || first.rank == second.rank && first.number < second.number
        }
    }
}

/// Whether the entry of a second number goes before that of a first one.
fn turns(kind: Kind, entries: &[Entry], first: u32, second: u32) -> bool
    requires rising { AllPairs (λ (a b : EntryOf). a.number < b.number) entries.now }
    ensures breaks { IsTrue result → KeepsOrder kind entries.now first second → ⊥ }
    ensures value { (e f : EntryOf) → Contains entries.now e → Contains entries.now f → e.number ≡ first → f.number ≡ second → result ≡ goes_first_of kind f e }
{
    match (entry_of(entries, first), entry_of(entries, second)) {
        (Some(first), Some(second)) => goes_first(kind, second, first),
        _ => false,
    }
}

/// Whether numbers of entries stand in the order of the entries' rows.
pub fn keep_order(kind: Kind, entries: &[Entry], numbers: &[u32]) -> bool
    requires rising { AllPairs (λ (a b : EntryOf). a.number < b.number) entries.now }
    requires there { All (λ n. (e : EntryOf) × Contains entries.now e × (e.number ≡ n)) numbers.now }
    ensures { IsTrue result ↔ AllPairs (KeepsOrder kind entries.now) numbers.now }
{
    for at in 1..numbers.len() {
        if turns(kind, entries, numbers[at - 1], numbers[at]) {
            return false;
        }
    }
    true
}

/// Whether lists have that many entries together.
pub fn are_as_many(count: usize, lists: &[Sequence<Entry>]) -> bool
    ensures { IsTrue result ↔ count ≡ length (all_entries lists.now) }
{
    let mut left = count;
    for list in lists {
        if left < list.len() {
            return false;
        }
        left -= list.len();
    }
    left == 0
}
