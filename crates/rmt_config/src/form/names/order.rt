//! The ranks of entries in the order of their rows.

ghost use Rattle.std.specs.Prelude.{◌≡◌, ◌&&◌, length, map, nat_le};
ghost use Rattle.std.specs.Str.{bytes_eq};
ghost use Rattle.rmt_ast.specs.declared.names.RankOf.{RankOf};
ghost use Rattle.rmt_ast.specs.Naming.{stands_first};
ghost use Rattle.rmt_config.specs.NamesForm.{each_later};

use rmt_ast::names::RankOf;

/// Whether ranks list these numbers.
fn ranks_list(ranks: &[RankOf], numbers: &[u32]) -> bool
    ensures { result ≡ bytes_eq (map (λ (r : RankOf). r.number) ranks.now) numbers.now }
{
    if ranks.len() != numbers.len() {
        return false;
    }
    for (at, rank) in ranks.iter().enumerate() {
        if rank.number != numbers[at] {
            return false;
        }
    }
    true
}

/// Whether a rank stands before another.
fn goes_before(a: RankOf, b: RankOf) -> bool
    ensures { result ≡ stands_first a b }
{
    a.rank < b.rank || a.rank == b.rank && a.number < b.number
}

/// Whether each rank stands before all later ones.
fn ranks_rise(ranks: &[RankOf]) -> bool
    ensures { result ≡ each_later stands_first ranks.now }
{
    for at in 0..ranks.len() {
        if at + 1 < ranks.len() && !goes_before(ranks[at], ranks[at + 1]) {
            return false;
        }
    }
    true
}

/// Whether ranks list these numbers, which are not too many, and each stands before all later ones.
pub fn ranks_fit(ranks: &[RankOf], numbers: &[u32], size: u32) -> bool
    ensures { result ≡ (bytes_eq (map (λ (r : RankOf). r.number) ranks.now) numbers.now && nat_le (length numbers.now) size && each_later stands_first ranks.now) }
{
    if !ranks_list(ranks, numbers) {
        return false;
    }
    if numbers.len() > size as usize {
        return false;
    }
    ranks_rise(ranks)
}
