//! The rules of form of headers.

ghost use Rattle.std.specs.Prelude.{◌≡◌};
ghost use Rattle.std.specs.List.{list_all};
ghost use Rattle.rmt_config.specs.LaneForm.{header_is_formed, headers_are_formed};

use crate::config::OutHeader;
use crate::form::lane::{count_bits, lane_fits_of, lanes_fit};

/// Whether a header has 1 to 64 bytes, and its lanes together have its bits.
pub fn header_fits(header: &OutHeader) -> bool
    ensures { result ≡ header_is_formed header.now }
{
    lane_fits_of(1, header.valid)
        && 1 <= header.bytes
        && header.bytes <= 64
        && header.pieces.len() < 256
        && lanes_fit(header.pieces.as_slice())
        && count_bits(header.pieces.as_slice()) == 8 * header.bytes as u32
}

fn each_header_fits(headers: &[OutHeader]) -> bool
    ensures { result ≡ list_all header_is_formed headers.now }
{
    headers.iter().all(header_fits)
}

/// Whether these are at most 64 headers, each of which fits.
pub fn headers_fit(headers: &[OutHeader]) -> bool
    ensures { result ≡ headers_are_formed headers.now }
{
    headers.len() <= 64 && each_header_fits(headers)
}
