//! Packing: each piece of a field goes to the first word that serves it.

ghost use Rattle.std.specs.Prelude.{◌≡◌, ◌≢◌, ◌<◌, ◌≤◌, ◌^◌, ◌++◌, [], List, length, IfOk, Err};
ghost use Rattle.rmt_bits.specs.declared.lane.Lane.{Lane};
ghost use Rattle.rmt_ast.specs.declared.program.Program.{Program};
ghost use Rattle.rmt_phv.specs.Packing.{Piece, packing, lanes_for, pieces, pieces_at};
ghost use Rattle.rmt_phv.specs.Places.{KeepsApart};
ghost use Rattle.rmt_phv.specs.WordsSoFar.{AreFilled, IsNext, lanes_or_fault};
ghost use Rattle.rmt_phv.specs.Writers.{AreWriters};

use crate::fault::PhvFull;
use crate::piece::class_of;
use crate::places::{Lanes, Places};
use crate::words::Words;
use crate::writers::{ActionSet, writers_of};
use rmt_ast::program::Program;
use rmt_bits::sequence::Sequence;
use std::alloc::Global;

/// The places of a program's fields in the header vector.
///
/// Fields are taken by number. A field is cut from its low end into pieces of 32 bits and one for the rest, and each
/// piece, low first, gets the lowest free bits of the first word of the least size that holds it, 8, 16 or 32 bits, where
/// there is room, no piece of the same field stands, and no piece of a field that some action assigns together with this
/// one; where no word of that size serves, of the next greater one.
///
/// # Errors
///
/// `At` where no word serves a piece, with the field's number and the least size that holds the piece; else for want of
/// memory.
pub fn pack_fields(alloc: Global, program: &Program) -> Result<Places, PhvFull>
    // As every well-formed program has.
    requires few_fields { length program.now.fields < 2 ^ 32 }
    requires few_actions { length program.now.actions ≤ 256 }
    // Which places, or which piece no word serves, unless memory runs out.
    ensures packed { result ≢ Err PhvFull.NoMemory → result ≡ packing program.now }
    // Pieces don't overlap, and no word holds two pieces of one field, or of two fields that one action assigns.
    ensures places { IfOk result (λ places. KeepsApart program.now places) }
{
    let writers = writers_of(alloc, program)?;
    place_fields(alloc, program, writers.as_slice())
}

/// The places of a program's fields, of each of which is known which actions assign it.
fn place_fields(alloc: Global, program: &Program, writers: &[ActionSet]) -> Result<Places, PhvFull>
    requires few_fields { length program.now.fields < 2 ^ 32 }
    requires writers { AreWriters program.now writers.now }
    ensures { result ≢ Err PhvFull.NoMemory → result ≡ packing program.now }
{
    let mut words = Words::new();
    let mut places = Sequence::new(alloc);
    for (number, field) in program.fields.as_slice().iter().enumerate() {
        let lanes = place_field(
            alloc,
            &mut words,
            &writers[number],
            number as u32,
            field.width,
        )?;
        places.push(lanes)?;
    }
    Ok(places)
}

/// The lanes of the next field, which these actions assign; their bits are taken from then on.
fn place_field(
    alloc: Global,
    words: &mut Words,
    writers: &ActionSet,
    field: u32,
    width: u8,
) -> Result<Lanes, PhvFull>
    ensures placed { result ≢ Err PhvFull.NoMemory → (p : Program) (taken : List Piece) → IsNext p field taken writers.now words.old.words →
        result ≡ lanes_or_fault field (lanes_for p field taken (pieces width)) }
    ensures taken { IfOk result (λ own. (p : Program) (taken : List Piece) → IsNext p field taken writers.now words.old.words →
        AreFilled p (taken ++ pieces_at field own) words.new.words) }
{
    let mut own = Sequence::new(alloc);
    let mut left = width;
    while left > 0 {
        let len = left.min(32);
        let Some(lane) = words.take(len, own.as_slice(), writers) else {
            let class = class_of(len);
            return Err(PhvFull::At { field, class });
        };
        own.push(lane)?;
        left -= len;
    }
    Ok(own)
}
