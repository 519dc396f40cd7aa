//! The extracts of a header, piece by piece.

ghost use Rattle.std.specs.Prelude.{◌≡◌, ◌+◌, ◌≤◌, ◌++◌, ℕ, List, map, reverse, OnOk, IfOk};
ghost use Rattle.rmt_bits.specs.declared.lane.Lane.{Lane};
ghost use Rattle.rmt_config.specs.declared.config.Extract.{Extract};
ghost use Rattle.rmt_config.specs.declared.config.Extract.TheVariants.{One};
ghost use Rattle.rmt_config.specs.LaneForm.{bits_of_lanes};
ghost use Rattle.rmt_ast.specs.Places.{lanes_of};
ghost use Rattle.rmt_ptcam.specs.Plain.{bits_from, extracts_of};
ghost use Rattle.rmt_phv.specs.Places.{high_first};

use rmt_ast::program::Header;
use rmt_bits::lane::Lane;
use rmt_bits::sequence::Sequence;
use rmt_config::config::Extract;
use rmt_phv::places::Places;
use std::alloc::{AllocError, Global};

/// Adds an extract that sets each of these lanes.
fn push_ones(extracts: &mut Sequence<Extract>, lanes: &[Lane]) -> Result<(), AllocError>
    ensures { OnOk result (extracts.new ≡ extracts.old ++ map One lanes.now) }
{
    for lane in lanes {
        extracts.push(Extract::One { lane: *lane })?;
    }
    Ok(())
}

/// Adds the extract that sets a header's valid.
fn push_valid(
    extracts: &mut Sequence<Extract>,
    places: &Places,
    valid: u32,
) -> Result<(), AllocError>
    ensures { OnOk result (extracts.new ≡ extracts.old ++ map One (lanes_of places.now valid)) }
{
    match places.get(valid as usize) {
        Some(lanes) => push_ones(extracts, lanes.as_slice()),
        None => Ok(()),
    }
}

/// Adds an extract for each lane of a field, the high piece first, from a bit on. Gives the bit behind them.
fn push_pieces(
    extracts: &mut Sequence<Extract>,
    lanes: &[Lane],
    from: u16,
) -> Result<u16, AllocError>
    requires { from + bits_of_lanes lanes.now ≤ 512 }
    ensures pushed { IfOk result (λ next. (rest : List Lane) →
        extracts.new ++ bits_from next rest ≡ extracts.old ++ bits_from from (reverse lanes.now ++ rest)) }
    ensures behind { IfOk result (λ next. next ≡ from + bits_of_lanes lanes.now) }
{
    let mut next = from;
    let mut left = lanes.len();
    while left > 0 {
        left -= 1;
        let lane = lanes[left];
        extracts.push(Extract::Bits { from: next, lane })?;
        next += u16::from(lane.len);
    }
    Ok(next)
}

/// The same of the field with this number.
fn push_field(
    extracts: &mut Sequence<Extract>,
    places: &Places,
    field: u32,
    from: u16,
) -> Result<u16, AllocError>
    requires { from + bits_of_lanes (lanes_of places.now field) ≤ 512 }
    ensures pushed { IfOk result (λ next. (rest : List Lane) →
        extracts.new ++ bits_from next rest ≡ extracts.old ++ bits_from from (reverse (lanes_of places.now field) ++ rest)) }
    ensures behind { IfOk result (λ next. next ≡ from + bits_of_lanes (lanes_of places.now field)) }
{
    match places.get(field as usize) {
        Some(lanes) => push_pieces(extracts, lanes.as_slice(), from),
        None => Ok(from),
    }
}

/// Adds the extracts of fields that stand one behind another.
fn push_fields(
    extracts: &mut Sequence<Extract>,
    places: &Places,
    fields: &[u32],
) -> Result<(), AllocError>
    requires { bits_of_lanes (high_first places.now fields.now) ≤ 512 }
    ensures { OnOk result (extracts.new ≡ extracts.old ++ bits_from 0 (high_first places.now fields.now)) }
{
    let mut from: u16 = 0;
    for field in fields {
        from = push_field(extracts, places, *field, from)?;
    }
    Ok(())
}

/// The extracts of a header: valid is set, and then each field gets its bits, the high piece first.
pub fn extracts_for(
    alloc: Global,
    places: &Places,
    header: &Header,
) -> Result<Sequence<Extract>, AllocError>
    requires { bits_of_lanes (high_first places.now header.now.fields) ≤ 512 }
    ensures { IfOk result (λ extracts. extracts ≡ extracts_of places.now header.now) }
{
    let mut extracts = Sequence::new(alloc);
    push_valid(&mut extracts, places, header.valid)?;
    push_fields(&mut extracts, places, header.fields.as_slice())?;
    Ok(extracts)
}
