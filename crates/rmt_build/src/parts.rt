//! Where the parts of a node stand.

ghost use Rattle.std.specs.Prelude.{◌≡◌, ◌*◌, ◌≤◌, ℕ, AllPairs};
ghost use Rattle.rmt_pack.specs.Placements.{quanta_in as quanta_of};
ghost use Rattle.rmt_place.specs.Placing.{AreTwo};
ghost use Rattle.rmt_build.specs.Plans.{parts_before as parts_up_to, quanta_before as quanta_up_to};

use rmt_pack::placement::Part;

/// How many quanta of a node stand in a stage.
pub fn quanta_in(parts: &[Part], node: u32, stage: u32) -> u32
    requires { AllPairs AreTwo parts.now }
    ensures { result ≡ quanta_of parts.now node stage }
{
    for part in parts {
        if part.node == node && part.stage == stage {
            return part.quanta;
        }
    }
    0
}

/// How many quanta of a node stand before a stage.
pub fn quanta_before(parts: &[Part], node: u32, stage: u32) -> u32
    requires apart { AllPairs AreTwo parts.now }
    requires few { (k : ℕ) → quanta_of parts.now node k ≤ 106 }
    requires stage { stage ≤ 32 }
    ensures quanta { result ≡ quanta_up_to parts.now node stage }
    ensures few { result ≤ 106 * stage }
{
    let mut quanta = 0;
    for earlier in 0..stage {
        quanta += quanta_in(parts, node, earlier);
    }
    quanta
}

/// How many parts of a node stand before a stage.
pub fn parts_before(parts: &[Part], node: u32, stage: u32) -> u8
    requires apart { AllPairs AreTwo parts.now }
    requires stage { stage ≤ 32 }
    ensures parts { result ≡ parts_up_to parts.now node stage }
    ensures few { result ≤ stage }
{
    let mut count = 0;
    for earlier in 0..stage {
        if quanta_in(parts, node, earlier) > 0 {
            count += 1;
        }
    }
    count
}
