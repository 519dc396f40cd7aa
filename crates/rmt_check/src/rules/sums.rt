//! Sums of widths that stop at a limit.

ghost use Rattle.std.specs.Prelude.{◌≡◌, ℕ, map, min, sum};

/// What is of some width in bits, which may stand in what items share.
pub trait Wide<C> {
    ghost width_in: { C → Self → ℕ };

    fn width_in(&self, shared: &C) -> u128
        ensures { result ≡ width_in shared.now self.now };
}

/// The sum of the widths of some items, and the limit where it is more.
pub fn sum_up_to<C, T: Wide<C>>(limit: u128, shared: &C, items: &[T]) -> u128
    ensures { result ≡ min (sum (map (T.width_in shared.now) items.now)) limit }
{
    let mut sum: u128 = 0;
    for item in items {
        sum = sum.saturating_add(item.width_in(shared)).min(limit);
    }
    sum
}
