//! Fields that one action writes.

ghost use Rattle.std.specs.Prelude.{All};
ghost use Rattle.rmt_ast.specs.declared.program.Assign.{Assign};
ghost use Rattle.rmt_phv.specs.Places.{WritesApart};
ghost use Rattle.rmt_verify.specs.WrittenApart.{AreApartFrom};

use crate::all::{Test, all_pass};
use crate::places::lanes::share_no_word;
use crate::places::lookup::lanes_at;
use rmt_ast::program::{Action, Assign};
use rmt_phv::places::Places;

/// That an assigned field is this one, or shares no word with it.
#[derive(Drop)]
struct ApartFrom<'a> {
    places: &'a Places,
    field: u32,
}

impl<'a> Test for ApartFrom<'a> {
    type Item = Assign;

    ghost holds = { λ test y. AreApartFrom test.places.now test.field y.dest };

    fn passes(&self, other: &Assign) -> bool {
        self.field == other.dest
            || share_no_word(
                lanes_at(self.places, self.field),
                lanes_at(self.places, other.dest),
            )
    }
}

/// That an assigned field is so beside each of these.
#[derive(Drop)]
struct ApartFromEach<'a> {
    places: &'a Places,
    assigns: &'a [Assign],
}

impl<'a> Test for ApartFromEach<'a> {
    type Item = Assign;

    ghost holds = { λ test x. All (λ (y : Assign). AreApartFrom test.places.now x.dest y.dest) test.assigns.now };

    fn passes(&self, assign: &Assign) -> bool {
        let test = ApartFrom {
            places: self.places,
            field: assign.dest,
        };
        all_pass(&test, self.assigns)
    }
}

/// That the fields that an action writes have their pieces in different words.
#[derive(Drop)]
pub struct WrittenApart<'a> {
    pub places: &'a Places,
}

impl<'a> Test for WrittenApart<'a> {
    type Item = Action;

    ghost holds = { λ test. WritesApart test.places.now };

    fn passes(&self, action: &Action) -> bool {
        let assigns = action.assigns.as_slice();
        let test = ApartFromEach {
            places: self.places,
            assigns,
        };
        all_pass(&test, assigns)
    }
}
