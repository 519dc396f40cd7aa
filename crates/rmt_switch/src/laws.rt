//! What holds of switches, for every list of calls.

ghost use Rattle.rmt_switch.specs.Laws.{EverythingIsSent};

/// Behind any calls, as many rounds as a queue may have items leave nothing: a port gave all copies that were queued for
/// it, in the order of the offers.
pub fn everything_is_sent()
    ensures { EverythingIsSent }
{}
