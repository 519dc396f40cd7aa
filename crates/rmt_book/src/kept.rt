//! A cell with an entry.

ghost use Rattle.std.specs.Prelude.{◌≤◌, length};

/// A cell with an entry: what it holds, and what it doesn't hold of its entry.
#[derive(Drop)]
pub struct Kept {
    /// The number of the cell in its part.
    pub cell: u32,
    /// The visible bits, 1 for even versions and 2 for odd ones.
    pub visible: u8,
    /// The number of its instruction in the stage.
    pub code: u8,
    /// The key, highest byte first.
    pub key: Vec<u8>,
    /// The mask, as long as the key; empty in an exact part.
    pub mask: Vec<u8>,
    /// The data, highest byte first.
    pub held: Vec<u8>,
    /// The number of the entry, over all tables.
    pub number: u32,
    /// The length of a prefix, the priority of a ternary entry, and else 0.
    pub rank: u32,
    pub ghost key_short: { length key.items ≤ 8192 },
    pub ghost mask_short: { length mask.items ≤ 8192 },
    pub ghost held_short: { length held.items ≤ 8192 },
}
