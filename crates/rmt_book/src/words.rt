//! Bits and bytes of words that stand side by side, the first one lowest.

ghost use Rattle.std.specs.Prelude.{◌≡◌, ◌+◌, ◌*◌, ◌^◌, ◌<◌, ◌≤◌, All, IfOk, length};
ghost use Rattle.rmt_bits.specs.Bits.{bytes_of, slice as slice_of};
ghost use Rattle.rmt_config.specs.BlockCounts.{divided_up};
ghost use Rattle.rmt_book.specs.Words.{joined};

use rmt_bits::bits::slice;
use std::alloc::{AllocError, Global};

/// `len` bits from the bit `low` on, of words of `size` bits each.
pub fn bits_at(words: &[u128], size: u8, low: u64, len: u8) -> u8
    requires some { 0 < size }
    requires most { size ≤ 112 }
    requires small { All (λ w. w < 2 ^ size) words.now }
    requires short { len ≤ 8 }
    requires few { low < 2 ^ 32 }
    requires within { low + len ≤ size * length words.now }
    ensures { result ≡ slice_of (joined size words.now) low len }
{
    let mut value: u128 = 0;
    let mut done: u8 = 0;
    while done < len {
        let at = low + done as u64;
        let place = (at % size as u64) as u8;
        let count = (size - place).min(len - done);
        let bits = slice(words[(at / size as u64) as usize], place, count);
        value += bits << done;
        done += count;
    }
    value as u8
}

/// `len` bits from the bit `low` on as bytes, the highest first, with zero bits on top. The only fault is want of memory.
pub fn bytes_at(
    alloc: Global,
    words: &[u128],
    size: u8,
    low: u64,
    len: u64,
) -> Result<Vec<u8>, AllocError>
    requires some { 0 < size }
    requires most { size ≤ 112 }
    requires small { All (λ w. w < 2 ^ size) words.now }
    requires few { low + len < 2 ^ 32 }
    requires within { low + len ≤ size * length words.now }
    ensures { IfOk result (λ bytes. bytes.items ≡ bytes_of (divided_up len 8) (slice_of (joined size words.now) low len)) }
{
    let count = (len + 7) / 8;
    let mut bytes = Vec::with_capacity(alloc, count as usize)?;
    for at in 0..count {
        let up = 8 * (count - 1 - at);
        let left = (len - up).min(8) as u8;
        bytes.push(bits_at(words, size, low + up, left))?;
    }
    Ok(bytes)
}
