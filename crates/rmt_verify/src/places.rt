//! First part: where the fields stand.

ghost use Rattle.std.specs.Prelude.{◌≡◌, ◌↔◌, List, AllPairs, IfOk, IsOkUnless, IsTrue};
ghost use Rattle.std.specs.List.{flat_map};
ghost use Rattle.rmt_bits.specs.declared.fault.OutOfMemory.{OutOfMemory};
ghost use Rattle.rmt_bits.specs.declared.lane.Lane.{Lane};
ghost use Rattle.rmt_phv.specs.Places.{AreApart, KeepsApart};
ghost use Rattle.rmt_refine.specs.Places.{PlacesCarried};
ghost use Rattle.rmt_verify.specs.ReadThere.{ReadThere};

mod actions;
mod cut;
mod headers;
mod lanes;
pub mod lookup;

use crate::all::{all_match, all_pass, every_two};
use crate::fault::VerifyFault;
use actions::WrittenApart;
use cut::are_cut;
use headers::SentFrom;
use lanes::{Apart, InDifferent, InWords};
use lookup::stands_in;
use rmt_ast::program::Program;
use rmt_bits::lane::Lane;
use rmt_config::config::Config;
use rmt_phv::places::{Lanes, Places};
use std::alloc::{AllocError, Global};

/// The lanes of all fields, one after another.
fn all_lanes(alloc: Global, places: &[Lanes]) -> Result<Vec<Lane>, AllocError>
    ensures { IfOk result (λ lanes. lanes.items ≡ flat_map (λ (ls : List Lane). ls) places.now) }
{
    let mut all = Vec::new(alloc);
    for lanes in places {
        all.extend_from_slice(lanes.as_slice())?;
    }
    Ok(all)
}

/// Whether no two lanes have a bit in common.
///
/// No more than 4,096 lanes can lie so in the vector, and it ends at the first two that don't: so it looks at no more
/// than 4,097 lanes, however many there are.
fn all_apart(alloc: Global, places: &[Lanes]) -> Result<bool, AllocError>
    ensures { IfOk result (λ apart. IsTrue apart ↔ AllPairs AreApart (flat_map (λ (ls : List Lane). ls) places.now)) }
{
    let lanes = all_lanes(alloc, places)?;
    Ok(every_two::<Apart>(lanes.as_slice()))
}

/// Whether the fields of a program have places that keep apart.
fn keep_apart(alloc: Global, program: &Program, places: &Places) -> Result<bool, AllocError>
    ensures { IfOk result (λ keep. IsTrue keep ↔ KeepsApart program.now places.now) }
{
    let fields = places.as_slice();
    if !are_cut(program.fields.as_slice(), fields) {
        return Ok(false);
    }
    if !all_pass(&InWords, fields) {
        return Ok(false);
    }
    if !all_pass(&InDifferent, fields) {
        return Ok(false);
    }
    if !all_apart(alloc, fields)? {
        return Ok(false);
    }
    Ok(all_pass(&WrittenApart { places }, program.actions.as_slice()))
}

/// Whether a configuration reads and writes the ports, the drop bit and the headers of a program in these places.
fn are_read_there(program: &Program, places: &Places, config: &Config) -> bool
    ensures { IsTrue result ↔ ReadThere program.now places.now config.now }
{
    stands_in(places, 0, config.in_port)
        && stands_in(places, 1, config.out_port)
        && stands_in(places, 2, config.drop)
        && all_match(
            &SentFrom { places },
            program.headers.as_slice(),
            config.headers.as_slice(),
        )
}

/// Whether the fields of a program have places that keep apart, and a configuration reads and writes the ports, the mark
/// of dropping and the headers there.
///
/// # Errors
///
/// For want of memory.
pub fn places_hold(
    alloc: Global,
    program: &Program,
    places: &Places,
    config: &Config,
) -> Result<bool, VerifyFault>
    ensures exact { IfOk result (λ holds. IsTrue holds ↔ PlacesCarried program.now places.now config.now) }
    ensures only_memory { IsOkUnless result OutOfMemory.NoMemory }
{
    if !keep_apart(alloc, program, places)? {
        return Ok(false);
    }
    Ok(are_read_there(program, places, config))
}
