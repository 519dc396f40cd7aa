//! Lists of numbers, read as 0 behind their end.

ghost use Rattle.std.specs.Prelude.{◌≡◌, slice_index, slice_set};

/// The number at a place.
pub fn number_at(numbers: &[u128], at: usize) -> u128
    ensures { result ≡ slice_index numbers.now at }
{
    match numbers.get(at) {
        Some(number) => *number,
        None => 0,
    }
}

/// Puts an item at a place; behind the end nothing changes.
pub fn put_at<T: Copy>(items: &mut [T], at: usize, item: T)
    ensures { items.new ≡ slice_set items.old at item }
{
    if at < items.len() {
        items[at] = item;
    }
}
