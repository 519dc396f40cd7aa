//! The outcomes for which an arm runs, as bits: that of a miss is 1, and those of a hit are 2 to 15.

ghost use Rattle.std.specs.Prelude.{◌≡◌, ◌≤◌, ◌-◌, bit_and, length};
ghost use Rattle.rmt_check.specs.Meaning.{all_outcomes, arm_mask, mask_in, outcomes_of};
ghost use Rattle.rmt_check.specs.Sizes.{IsSized};

use crate::building::known::number_among;
use crate::names::lookup::Lookup;
use crate::source::{ArmText, WhatText};
use rmt_ast::name_list::NameList;

/// The outcomes of an arm by itself, where the table lists at most 14 actions.
fn outcomes_of(list: &NameList<'_>, arm: &ArmText) -> u16
    requires { length list.now ≤ 14 }
    ensures { result ≡ outcomes_of list.now arm.now }
{
    match arm {
        ArmText::Hit => 65532,
        ArmText::Miss => 2,
        ArmText::Action(action) => 1 << (2 + number_among(list, action.name.as_slice())),
    }
}

/// The outcomes of some arms together.
fn all_outcomes(list: &NameList<'_>, arms: &[ArmText]) -> u16
    requires { length list.now ≤ 14 }
    ensures { result ≡ all_outcomes list.now arms.now }
{
    let mut outcomes = 0;
    for arm in arms {
        outcomes |= outcomes_of(list, arm);
    }
    outcomes
}

/// The outcomes among these that are not among the earlier ones.
fn without(outcomes: u16, earlier: u16) -> u16
    ensures { result ≡ bit_and outcomes (65535 - earlier) }
{
    outcomes & !earlier
}

/// The outcomes for which the arm with this number runs: its own without those of earlier arms.
fn arm_mask(list: &NameList<'_>, arms: &[ArmText], at: usize) -> u16
    requires { length list.now ≤ 14 }
    ensures { result ≡ arm_mask list.now arms.now at }
{
    match arms.get(at) {
        Some(arm) => without(outcomes_of(list, arm), all_outcomes(list, &arms[..at])),
        None => 0,
    }
}

/// The outcomes of a node for which its arm with this number runs.
#[tactic(auto, using(crate::proofs::Bounds::listed_few))]
pub fn mask_in<N: Lookup>(names: &N, node: &WhatText, arm: usize) -> u16
    requires { IsSized (N.text names.now) }
    ensures { result ≡ mask_in (N.text names.now) node.now arm }
{
    match node {
        WhatText::Apply { table, arms } => {
            arm_mask(names.list(table.name.as_slice()), arms.as_slice(), arm)
        }
        WhatText::If { .. } => if arm == 0 { 4 } else { 2 },
    }
}
