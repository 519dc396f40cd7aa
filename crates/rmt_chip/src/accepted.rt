//! Which packets units run for.

ghost use Rattle.std.specs.Prelude.{◌≡◌};
ghost use Rattle.rmt_chip.specs.Held.{is_accepted as is_accepted_of};

use rmt_ptcam::parse::Parsed;

/// Whether the parser accepted the packet, so that units run for it.
pub fn is_accepted(parsed: Parsed) -> bool
    ensures { result ≡ is_accepted_of parsed }
{
    matches!(parsed, Parsed::Accept { .. })
}
