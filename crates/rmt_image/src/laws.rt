//! How long images are, as a law.

ghost use Rattle.rmt_image.specs.Size.{ImageIsShort};

/// An image has few bytes, but for the numbers of its entries and for its names.
pub fn image_is_short()
    ensures { ImageIsShort }
{}
