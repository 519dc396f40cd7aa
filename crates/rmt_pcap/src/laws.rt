//! What holds of every capture file.

ghost use Rattle.rmt_pcap.specs.InTurn.{SaidInTurn};
ghost use Rattle.rmt_pcap.specs.RoundTrip.{ReadBack};

/// Some bytes say the whole record that stands first, and then what the bytes behind it say; where no whole record
/// stands first, they are skipped as one.
pub fn records_in_turn()
    ensures { SaidInTurn }
{}

/// A file that is written with the head of a capture reads back as its items, each with its time and its bytes and none
/// skipped, where each has 1 to 9,216 bytes behind its time.
pub fn written_is_read_back()
    ensures { ReadBack }
{}
