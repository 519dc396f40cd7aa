//! The groups of a switch.

ghost use Rattle.std.specs.Prelude.{◌≡◌, ◌<◌, ◌≤◌, [], length, replicate, slice_set, slice_index_or, nat_lt, IfOk, nat_eq};
ghost use Rattle.std.specs.List.{All, IsDistinct};
ghost use Rattle.rmt_switch.specs.GroupText.{IsPortList, has_group};

use rmt_bits::sequence::Sequence;
use std::alloc::{AllocError, Global};
use std::marker::Model;

/// How many numbers a group or a port can have.
const NUMBERS: usize = 512;

/// The groups of a text. Contracts see them as 512 lists: for each number the ports of the line of the group of this
/// number, and no port where no line has it.
#[derive(Drop, Debug)]
pub struct Groups {
    table: Vec<Sequence<u16>>,
}

impl Model for Groups {
    ghost use Rattle.std.specs.Prelude.{List, ℕ};
    ghost use Rattle.rmt_switch.specs.GroupText.{AreGroups};

    ghost Value = { List (List ℕ) };

    ghost view = { λ g. g.table.items };

    ghost invariant = { λ g. AreGroups g.table.items };
}

impl Groups {
    /// No group.
    pub fn none(alloc: Global) -> Result<Groups, AllocError>
        ensures { IfOk result (λ groups. groups ≡ replicate 512 []) }
    {
        let mut table = Vec::with_capacity(alloc, NUMBERS)?;
        for _number in 0..NUMBERS {
            table.push(Sequence::new(alloc))?;
        }
        Ok(Groups { table })
    }

    /// The ports of the line of the group of this number, none where no line has it: at most 8, no port twice.
    pub fn ports(&self, number: u16) -> &[u16]
        ensures ports { result.now ≡ slice_index_or self.now number [] }
        ensures few { length result.now ≤ 8 }
        ensures within { All (λ port. port < 512) result.now }
        ensures once { IsDistinct nat_eq result.now }
    {
        match self.table.get(usize::from(number)) {
            Some(ports) => ports.as_slice(),
            None => &[],
        }
    }

    /// Whether a line has the group of this number.
    pub fn has(&self, number: u16) -> bool
        ensures { result ≡ has_group self.now number }
    {
        !self.ports(number).is_empty()
    }

    /// Adds the group of a line.
    pub(crate) fn put(&mut self, number: u16, ports: Sequence<u16>)
        requires number { number < 512 }
        requires ports { IsPortList ports }
        ensures { self.new ≡ slice_set self.old number ports }
    {
        self.table[usize::from(number)] = ports;
    }
}
