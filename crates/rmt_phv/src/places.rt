//! Where the fields of a program stand in the header vector.

use rmt_bits::lane::Lane;
use rmt_bits::sequence::Sequence;

/// The lanes of one field, low piece first.
pub type Lanes = Sequence<Lane>;

/// Of each field, by its number, its lanes.
pub type Places = Sequence<Lanes>;
