//! Sets of numbers, in blocks of 64 bits.

ghost use Rattle.std.specs.Prelude.{◌≡◌, ◌==◌, ◌<◌, ◌/◌, ◌||◌, ◌↔◌, ℕ, IsTrue, length};
ghost use Rattle.rmt_phv.specs.Sets.{has, Meet};

/// Puts a number into a set that has a bit for it.
pub fn insert(set: &mut [u64], number: usize)
    requires { number / 64 < length set.old }
    ensures { (n : ℕ) → has set.new n ≡ ((n == number) || has set.old n) }
{
    set[number / 64] |= 1 << (number % 64);
}

/// Puts the numbers of another set, with as many bits, into a set.
pub fn insert_all(set: &mut [u64], other: &[u64])
    requires { length other.now ≡ length set.old }
    ensures { (n : ℕ) → has set.new n ≡ (has set.old n || has other.now n) }
{
    for (at, more) in other.iter().enumerate() {
        set[at] |= *more;
    }
}

/// Whether some number is in both sets.
pub fn meets(a: &[u64], b: &[u64]) -> bool
    ensures { IsTrue result ↔ Meet a.now b.now }
{
    for (at, block) in a.iter().enumerate() {
        let other = b.get(at).copied().unwrap_or(0);
        if *block & other != 0 {
            return true;
        }
    }
    false
}
