//! How a packet sees cells.

ghost use Rattle.std.specs.Prelude.{◌≡◌, ◌<◌};
ghost use Rattle.rmt_memory.specs.Sights.{seen_by, sight_of};

/// How a packet sees the cells of a slot.
#[derive(Clone, Copy)]
pub struct Sight {
    /// The seed of the hash in the cycle of the look-up.
    pub seed: u8,
    /// Whether the configuration has names, so that the visible bits tell versions apart.
    pub named: bool,
    /// The version that was current as the packet entered.
    pub version: u64,
}

/// The number of a sight, 0 to 2.
pub fn number_of_sight(sight: Sight) -> u8
    ensures value { result ≡ sight_of sight.named sight.version }
    ensures few { result < 3 }
{
    if sight.named {
        1 + (sight.version % 2) as u8
    } else {
        0
    }
}

/// Whether a sight shows a cell with this head.
pub fn is_seen(head: u8, sight: u8) -> bool
    requires { sight < 3 }
    ensures { result ≡ seen_by sight head }
{
    head % 2 == 1 && (head >> sight) % 2 == 1
}
