//! What enters the chip.

/// A frame with its port: below 512, and 1 to 9,216 bytes.
#[derive(Clone, Copy, Debug)]
pub struct Frame<'a> {
    pub port: u16,
    pub bytes: &'a [u8],
}
