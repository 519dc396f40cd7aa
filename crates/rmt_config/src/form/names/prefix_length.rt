//! The length of a prefix.

ghost use Rattle.std.specs.Prelude.{◌≡◌, ◌-◌, ◌^◌, ◌≤◌};
ghost use Rattle.rmt_config.specs.NamesForm.{prefix_length};

use rmt_bits::bits::ones;

/// That many of the highest bits of a key.
fn highest(bits: u8, length: u8) -> u128
    requires few { bits ≤ 128 }
    requires within { length ≤ bits }
    ensures { result ≡ 2 ^ bits - 2 ^ (bits - length) }
{
    ones(bits) - ones(bits - length)
}

/// How many of the highest bits of a key a mask has, where it has these and no other.
pub fn length_of(bits: u8, mask: u128) -> Option<u8>
    requires { bits ≤ 128 }
    ensures { result ≡ prefix_length bits mask }
{
    for length in 0..bits + 1 {
        if mask == highest(bits, length) {
            return Some(length);
        }
    }
    None
}
