//! Runs of bits, in numbers and in bytes.

ghost use Rattle.std.specs.Prelude.{◌≡◌, ℕ, ◌+◌, ◌-◌, ◌*◌, ◌/◌, ◌%◌, ◌^◌, ◌<◌, ◌≤◌, length, slice_index};
ghost use Rattle.rmt_bits.specs.Bits.{slice as slice_of, deposit as deposit_of, number_of, bits_of_bytes as bits_of};

/// A number whose lowest `len` bits are 1, for `len` up to 128.
pub fn ones(len: u8) -> u128
    requires { len ≤ 128 }
    ensures { result ≡ 2 ^ len - 1 }
{
    if len == 128 {
        u128::MAX
    } else {
        (1 << len) - 1
    }
}

/// `v` without its lowest `by` bits, for `by` up to 128.
fn moved_down(v: u128, by: u8) -> u128
    requires { by ≤ 128 }
    ensures { result ≡ v / 2 ^ by }
{
    if by == 128 { 0 } else { v >> by }
}

/// `v` with `by` zero bits below it, where that fits 128 bits.
fn moved_up(v: u128, by: u8) -> u128
    requires within { by ≤ 128 }
    requires fits { v * 2 ^ by < 2 ^ 128 }
    ensures { result ≡ v * 2 ^ by }
{
    if by == 128 { 0 } else { v << by }
}

/// The `len` bits of `v` from the bit `low` up, where `low + len` is at most 128.
pub fn slice(v: u128, low: u8, len: u8) -> u128
    requires { low + len ≤ 128 }
    ensures { result ≡ slice_of v low len }
{
    moved_down(v, low) & ones(len)
}

/// `v` with `x` in place of its `len` bits from the bit `low` up, where `low + len` is at most
/// 128 and `x` has no more than `len` bits.
pub fn deposit(v: u128, low: u8, len: u8, x: u128) -> u128
    requires within { low + len ≤ 128 }
    requires small { x < 2 ^ len }
    ensures { result ≡ deposit_of v low len x }
{
    let above = low + len;
    let high = moved_up(moved_down(v, above), above);
    high + moved_up(x, low) + (v & ones(low))
}

/// The `len` bits of a word from the bit `low` up, where `low + len` is at most 32.
pub fn word_slice(v: u32, low: u8, len: u8) -> u32
    requires { low + len ≤ 32 }
    ensures value { result ≡ slice_of v low len }
    ensures within { result < 2 ^ len }
{
    let mask: u64 = (1 << len) - 1;
    ((u64::from(v) >> low) & mask) as u32
}

/// A word with `x` in place of its `len` bits from the bit `low` up, where `low + len` is at most 32 and `x` has no more
/// than `len` bits.
pub fn word_deposit(v: u32, low: u8, len: u8, x: u32) -> u32
    requires within { low + len ≤ 32 }
    requires small { x < 2 ^ len }
    ensures { result ≡ deposit_of v low len x }
{
    let above = low + len;
    let below: u64 = (1 << low) - 1;
    let old = u64::from(v);
    let high = (old >> above) << above;
    (high + (u64::from(x) << low) + (old & below)) as u32
}

/// The bits of one byte that a longer run of bits begins with: `len` bits from the bit `low` up.
#[derive(Clone, Copy)]
struct Piece {
    byte: usize,
    low: u8,
    len: u8,
}

fn first_piece(at: usize, left: u8) -> Piece
    requires { 0 < left }
    ensures byte { result.byte ≡ at / 8 }
    ensures place { at % 8 + result.len + result.low ≡ 8 }
    ensures some { 0 < result.len }
    ensures within { result.len ≤ left }
{
    let room = 8 - (at % 8) as u8;
    let len = room.min(left);
    Piece {
        byte: at / 8,
        low: room - len,
        len,
    }
}

/// `len` bits of these bytes from the bit `from` on, as a number; bit 0 is the highest bit of the
/// first byte. At most 128 bits, all of them in the bytes.
pub fn bits_of_bytes(bytes: &[u8], from: u32, len: u8) -> u128
    requires short { len ≤ 128 }
    requires within { from + len ≤ 8 * length bytes.now }
    ensures { result ≡ bits_of bytes.now from len }
{
    let mut value = 0;
    let mut done: u8 = 0;
    while done < len {
        let piece = first_piece(from as usize + usize::from(done), len - done);
        let bits = slice(u128::from(bytes[piece.byte]), piece.low, piece.len);
        value = moved_up(value, piece.len) + bits;
        done += piece.len;
    }
    value
}

fn byte_at(bytes: &[u8], at: usize) -> u8
    requires { at < length bytes.now }
    ensures value { result ≡ slice_index bytes.now at }
    ensures bytes { (k : ℕ) → slice_index bytes.now k < 2 ^ 8 }
{
    bytes[at]
}

/// A byte with bits in place of those of a piece. A whole byte is these bits.
fn byte_with(old: u8, piece: Piece, bits: u128) -> u8
    requires within { piece.low + piece.len ≤ 8 }
    requires small { bits < 2 ^ piece.len }
    ensures { result ≡ deposit_of old piece.low piece.len bits }
{
    if piece.len == 8 {
        bits as u8
    } else {
        deposit(u128::from(old), piece.low, piece.len, bits) as u8
    }
}

/// Puts `value`, of no more than `len` bits, into these bytes, as the `len` bits from the bit
/// `from` on; every other bit stays. At most 128 bits, all of them in the bytes.
pub fn bytes_of_bits(value: u128, len: u8, into: &mut [u8], from: u32)
    requires short { len ≤ 128 }
    requires within { from + len ≤ 8 * length into.old }
    requires small { value < 2 ^ len }
    ensures { number_of into.new
        ≡ deposit_of (number_of into.old) (8 * length into.old - (from + len)) len value }
{
    let mut left = len;
    while left > 0 {
        let piece = first_piece(from as usize + usize::from(len - left), left);
        let bits = slice(value, left - piece.len, piece.len);
        let old = byte_at(into, piece.byte);
        into[piece.byte] = byte_with(old, piece, bits);
        left -= piece.len;
    }
}
