//! Whether what is kept of a cell is the same.

ghost use Rattle.std.specs.Prelude.{◌≡◌, ◌≤◌, ◌==◌, length};
ghost use Rattle.rmt_bits.specs.Bits.{number_of};
ghost use Rattle.rmt_update.specs.Differences.{is_same_kept};

use crate::book::loading::are_bytes;
use rmt_book::kept::Kept;

/// Whether all bytes are 0.
fn is_zero(bytes: &[u8]) -> bool
    ensures { result ≡ (number_of bytes.now == 0) }
{
    for byte in bytes {
        if *byte != 0 {
            return false;
        }
    }
    true
}

/// Whether bytes are the number that no more bytes are.
fn is_number(bytes: &[u8], short: &[u8]) -> bool
    requires { length short.now ≤ length bytes.now }
    ensures { result ≡ (number_of bytes.now == number_of short.now) }
{
    are_bytes(bytes);
    are_bytes(short);
    let above = bytes.len() - short.len();
    is_zero(&bytes[..above]) && &bytes[above..] == short
}

/// Whether bytes are the same number, the highest first.
fn is_same_number(left: &[u8], right: &[u8]) -> bool
    ensures { result ≡ (number_of left.now == number_of right.now) }
{
    if left.len() < right.len() {
        is_number(right, left)
    } else {
        is_number(left, right)
    }
}

/// Whether two cells of a part hold the same, and have the same number; those of an exact part have no masks.
pub fn is_same_kept(exact: bool, left: &Kept, right: &Kept) -> bool
    ensures { result ≡ is_same_kept exact left.now right.now }
{
    left.visible == right.visible
        && left.code == right.code
        && left.number == right.number
        && is_same_number(left.key.as_slice(), right.key.as_slice())
        && is_same_number(left.held.as_slice(), right.held.as_slice())
        && (exact || is_same_number(left.mask.as_slice(), right.mask.as_slice()))
}
