//! A map with the joins of its parser, as a file tells them.

use rmt_bits::sequence::Sequence;
use rmt_ptcam::joins::Join;
use rmt_refine::map::Map;

/// Where the parts of a program stand in a configuration, and how its parser was made.
#[derive(Drop, Debug)]
pub struct MapFile {
    /// Where the fields, nodes and entries stand.
    pub map: Map,
    /// The joins that make the configuration's parser of the plain one, in order.
    pub joins: Sequence<Join>,
}
