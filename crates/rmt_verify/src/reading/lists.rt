//! The lists of a map.

ghost use Rattle.rmt_verify.specs.Readers.{Gives};
ghost use Rattle.rmt_verify.specs.Reading.{lane_at, lanes_at, join_at, part_at, start_at, cell_at, lists_at};

use crate::fault::{MapFault, Read};
use crate::map_file::MapFile;
use crate::reading::items::{Item, list8_of, list16_of, list32_of};
use crate::reading::number::{byte_of, four_of, two_of};
use rmt_bits::lane::Lane;
use rmt_bits::sequence::Sequence;
use rmt_config::form::lane::lane_fits;
use rmt_pack::placement::{Part, Placement};
use rmt_ptcam::joins::Join;
use rmt_refine::map::{CellOf, Map};
use std::alloc::Global;

impl Item for Lane {
    const LEAST_SIZE: usize = 3;

    ghost item_at = { lane_at };

    #[tactic(auto, unfolding(crate::specs::Reading::lane_at))]
    fn read(_alloc: Global, bytes: &[u8]) -> Read<Lane> {
        let (word, rest) = byte_of(bytes)?;
        let (low, rest) = byte_of(rest)?;
        let (len, rest) = byte_of(rest)?;
        let lane = Lane { word, low, len };
        if !lane_fits(lane) {
            return Err(MapFault::Form);
        }
        Ok((lane, rest))
    }
}

/// The lanes of a field.
impl Item for Sequence<Lane> {
    const LEAST_SIZE: usize = 1;

    ghost item_at = { lanes_at };

    #[tactic(auto, unfolding(crate::specs::Reading::lanes_at))]
    fn read(alloc: Global, bytes: &[u8]) -> Read<Sequence<Lane>> {
        list8_of(alloc, bytes)
    }
}

impl Item for Join {
    const LEAST_SIZE: usize = 3;

    ghost item_at = { join_at };

    #[tactic(auto, unfolding(crate::specs::Reading::join_at))]
    fn read(_alloc: Global, bytes: &[u8]) -> Read<Join> {
        let (state, rest) = byte_of(bytes)?;
        let (entry, rest) = two_of(rest)?;
        Ok((Join { state, entry }, rest))
    }
}

impl Item for Part {
    const LEAST_SIZE: usize = 4;

    ghost item_at = { part_at };

    #[tactic(auto, unfolding(crate::specs::Reading::part_at))]
    fn read(_alloc: Global, bytes: &[u8]) -> Read<Part> {
        let (node, rest) = byte_of(bytes)?;
        let (stage, rest) = byte_of(rest)?;
        let (quanta, rest) = two_of(rest)?;
        let part = Part {
            node: node as u32,
            stage: stage as u32,
            quanta: quanta as u32,
        };
        Ok((part, rest))
    }
}

/// The start of a stage.
impl Item for u16 {
    const LEAST_SIZE: usize = 2;

    ghost item_at = { start_at };

    #[tactic(auto, unfolding(crate::specs::Reading::start_at))]
    fn read(_alloc: Global, bytes: &[u8]) -> Read<u16> {
        two_of(bytes)
    }
}

impl Item for CellOf {
    const LEAST_SIZE: usize = 9;

    ghost item_at = { cell_at };

    #[tactic(auto, unfolding(crate::specs::Reading::cell_at))]
    fn read(_alloc: Global, bytes: &[u8]) -> Read<CellOf> {
        let (entry, rest) = four_of(bytes)?;
        let (stage, rest) = byte_of(rest)?;
        let (cell, rest) = four_of(rest)?;
        let cell = CellOf {
            entry,
            stage: stage as u32,
            cell,
        };
        Ok((cell, rest))
    }
}

/// What stands behind the version.
#[tactic(auto, unfolding(crate::specs::Reading::lists_at))]
pub fn lists_of(alloc: Global, bytes: &[u8]) -> Read<MapFile>
    ensures { Gives (λ x. (x.0, x.1.now)) result (lists_at bytes.now) }
{
    let (places, rest) = list32_of(alloc, bytes)?;
    let (joins, rest) = list16_of(alloc, rest)?;
    let (parts, rest) = list16_of(alloc, rest)?;
    let (starts, rest) = list8_of(alloc, rest)?;
    let (cells, rest) = list32_of(alloc, rest)?;
    let map = Map {
        places,
        placement: Placement { parts },
        starts,
        cells,
    };
    Ok((MapFile { map, joins }, rest))
}
