//! Code 7, widths of fields and parameters, code 8, sizes of headers, and code 21, lengths of tails.

ghost use Rattle.std.specs.Prelude.{◌≡◌, not};
ghost use Rattle.rmt_check.specs.Rules as rules;
ghost use Rattle.rmt_check.specs.Rules.{bad_size, broken_7, broken_8, broken_21, earliest, field_widths, is_width, no_widths, param_widths, when};

use crate::names::lookup::{Lookup, own_key, width};
use crate::rules::places::{earlier, place_when};
use crate::rules::search::{Flaw, earliest_of};
use crate::rules::sums::{Wide, sum_up_to};
use crate::source::{ActionText, Declared, HeaderText, MetaText, Source};
use rmt_lexer::position::Position;

/// A width that is not from 1 to 128.
struct NoWidth;

impl Flaw<(), Declared> for NoWidth {
    ghost places = { λ _ d. when (not (is_width d.width.value)) d.width.place };

    fn at(_shared: &(), declared: &Declared) -> Option<Position> {
        let width = declared.width.value;
        place_when(!(width >= 1 && width <= 128), declared.width.place)
    }
}

impl Flaw<(), HeaderText> for NoWidth {
    ghost places = { λ _ h. field_widths h };

    fn at(_shared: &(), header: &HeaderText) -> Option<Position> {
        earliest_of::<NoWidth, _, _>(&(), header.fields.as_slice())
    }
}

impl Flaw<(), MetaText> for NoWidth {
    ghost places = { λ _ m. no_widths m.fields };

    fn at(_shared: &(), meta: &MetaText) -> Option<Position> {
        earliest_of::<NoWidth, _, _>(&(), meta.fields.as_slice())
    }
}

impl Flaw<(), ActionText> for NoWidth {
    ghost places = { λ _ a. param_widths a };

    fn at(_shared: &(), action: &ActionText) -> Option<Position> {
        earliest_of::<NoWidth, _, _>(&(), action.params.as_slice())
    }
}

/// Where a width is 0 or above 128.
pub fn width_range(source: &Source) -> Option<Position>
    ensures { result ≡ earliest (broken_7 source.now) }
{
    let headers = earliest_of::<NoWidth, _, _>(&(), source.headers.as_slice());
    let metas = earliest_of::<NoWidth, _, _>(&(), source.metas.as_slice());
    let actions = earliest_of::<NoWidth, _, _>(&(), source.actions.as_slice());
    earlier(earlier(headers, metas), actions)
}

impl Wide<()> for Declared {
    ghost width_in = { λ _ d. d.width.value };

    fn width_in(&self, _shared: &()) -> u128 {
        self.width.value
    }
}

/// A header that is not of 1 to 64 whole bytes.
struct NoSize;

impl Flaw<(), HeaderText> for NoSize {
    ghost places = { λ _ h. bad_size h };

    fn at(_shared: &(), header: &HeaderText) -> Option<Position> {
        let bits = sum_up_to(513, &(), header.fields.as_slice());
        let is_size = bits >= 1 && bits <= 512 && bits % 8 == 0;
        place_when(!is_size, header.ident.place)
    }
}

/// Where a header is of 0 bits, of more than 512, or not of whole bytes.
pub fn header_size(source: &Source) -> Option<Position>
    ensures { result ≡ earliest (broken_8 source.now) }
{
    earliest_of::<NoSize, _, _>(&(), source.headers.as_slice())
}

/// Whether these numbers make a tail, of which the field has `width` bits.
fn is_tail_range(width: u128, unit: u128, base: u128) -> bool
    ensures { result ≡ rules.is_tail_range width unit base }
{
    if !(width <= 8 && unit >= 1 && unit <= 255 && base <= 255) {
        return false;
    }
    let greatest = ((1 << width) - 1) * unit;
    base <= greatest && greatest <= base + 64
}

/// A tail of other lengths.
struct BadTail;

impl<N: Lookup> Flaw<N, HeaderText> for BadTail {
    ghost places = { λ n h. rules.bad_tails (N.text n) h };

    fn at(names: &N, header: &HeaderText) -> Option<Position> {
        match &header.tail {
            Some(tail) => {
                let width = width(names, own_key(names, header, &tail.field));
                place_when(
                    !is_tail_range(width, tail.unit.value, tail.base.value),
                    tail.place,
                )
            }
            None => None,
        }
    }
}

/// Where the lengths of a tail are not as they have to be.
pub fn tail_range<N: Lookup>(names: &N) -> Option<Position>
    ensures { result ≡ earliest (broken_21 (N.text names.now)) }
{
    let source = names.source();
    earliest_of::<BadTail, _, _>(names, source.headers.as_slice())
}
