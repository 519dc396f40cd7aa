//! The numbers of entries in the cells of a memory.

ghost use Rattle.std.specs.Prelude.{◌≡◌, ◌^◌, ◌<◌, ◌≤◌, true, false, length};
ghost use Rattle.std.specs.Int.{from_be_bytes, to_be_bytes, w32};

/// In how many bytes the number of an entry stands in its cell.
pub fn number_size(counted: bool) -> usize
    ensures counted { counted ≡ true → result ≡ 4 }
    ensures uncounted { counted ≡ false → result ≡ 0 }
    ensures few { result ≤ 4 }
{
    if counted { 4 } else { 0 }
}

/// A number, which has 32 bits, as four bytes, the highest first.
pub fn number_bytes(number: u32) -> [u8; 4]
    ensures bytes { result ≡ to_be_bytes w32 number }
    ensures few { number < 2 ^ 32 }
{
    number.to_be_bytes()
}

/// The number in four bytes, the highest first.
pub fn number_in(bytes: &[u8]) -> u32
    requires { length bytes.now ≡ 4 }
    ensures { result ≡ from_be_bytes w32 bytes.now }
{
    u32::from_be_bytes([bytes[0], bytes[1], bytes[2], bytes[3]])
}
