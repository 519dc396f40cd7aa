//! How many cells a table has.

ghost use Rattle.std.specs.Prelude.{◌≡◌, ◌*◌, ◌<◌, ◌≤◌};
ghost use Rattle.rmt_filling.specs.EntryCells.{cells_for};

use rmt_ast::program::Kind;

/// How many cells so many quanta of a table have, where a row has `per` cells; none without a key.
pub fn cells_of(kind: Kind, per: u32, quanta: u32) -> u32
    requires quanta { quanta ≤ 3392 }
    requires per { per < 100 }
    ensures { result ≡ cells_for kind per quanta }
{
    match kind {
        Kind::Keyless => 0,
        Kind::Exact => 4096 * quanta * per,
        Kind::Prefix | Kind::Ternary => 2048 * quanta,
    }
}
