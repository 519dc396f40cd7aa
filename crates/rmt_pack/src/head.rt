//! The head of an entry.

ghost use Rattle.std.specs.Prelude.{◌≡◌, ◌<◌};
ghost use Rattle.rmt_pack.specs.Head.{number_of_head, head_of};

/// What stands before the key in a cell of an exact part.
#[derive(Clone, Copy, Debug, PartialEq, Eq)]
pub struct Head {
    /// Whether the cell has an entry.
    pub occupied: bool,
    /// When the entry is seen, below 4.
    pub visible: u8,
    /// The number of the entry's instruction in the stage, below 32.
    pub code: u8,
}

/// The 8 bits of a head.
pub(crate) fn byte_of(head: Head) -> u8
    requires visible { head.visible < 4 }
    requires code { head.code < 32 }
    ensures { result ≡ number_of_head head }
{
    let occupied = if head.occupied { 1 } else { 0 };
    occupied + 2 * head.visible + 8 * head.code
}

/// The head that 8 bits say.
pub(crate) fn head_from(bits: u8) -> Head
    ensures { result ≡ head_of bits }
{
    Head {
        occupied: bits % 2 == 1,
        visible: bits / 2 % 4,
        code: bits / 8 % 32,
    }
}
