//! Numbers that fit their places in an image, as their types say.

ghost use Rattle.std.specs.Prelude.{◌≡◌, ◌^◌, nat_lt};

/// Whether a number fits one byte, as each `u8` does.
pub fn fits_byte(n: u8) -> bool
    ensures { result ≡ nat_lt n 256 }
{
    u16::from(n) < 256
}

/// Whether a number fits two bytes, as each `u16` does.
pub fn fits_two_bytes(n: u16) -> bool
    ensures { result ≡ nat_lt n 65536 }
{
    u32::from(n) < 65536
}

/// Whether a number fits four bytes, as each `u32` does.
pub fn fits_four_bytes(n: u32) -> bool
    ensures { result ≡ nat_lt n (2 ^ 32) }
{
    u64::from(n) < 4294967296
}
