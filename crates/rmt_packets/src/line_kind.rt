//! What the lines of a packet text are.

ghost use Rattle.std.specs.Prelude.{◌≡◌, ◌≢◌, Err};
ghost use Rattle.rmt_packets.specs.LineKinds.{begins_with, kind_of};
ghost use Rattle.rmt_packets.specs.PacketText.{packet_of};
ghost use Rattle.rmt_packets.specs.Pieces.{front_of};

/// What a line of a packet text is that is not passed over.
#[derive(Clone, Copy, Debug, PartialEq, Eq)]
pub enum LineKind {
    /// `+`, a space and an entry line: an entry is added.
    Addition,
    /// `-`, a space and the table and key words of an entry line: an entry is removed.
    Removal,
    /// `commit` and nothing else: the changes since the last commit take effect.
    Commit,
    /// Any other line: a packet is to stand there.
    Packet,
}

/// What a line is that is not passed over.
#[tactic(auto, using(crate::proofs::KindLaws::other_kinds))]
pub fn kind_of(line: &[u8]) -> LineKind
    ensures kind { result ≡ kind_of line.now }

    // A line is what its first 18,444 bytes are.
    ensures front { kind_of (front_of line.now) ≡ kind_of line.now }

    // Only a packet's line says a packet.
    ensures others { kind_of line.now ≢ LineKind.Packet → packet_of line.now ≡ Err 1 }
{
    if begins_with(b'+', line) {
        LineKind::Addition
    } else if begins_with(b'-', line) {
        LineKind::Removal
    } else if line == b"commit".as_slice() {
        LineKind::Commit
    } else {
        LineKind::Packet
    }
}

/// Whether a line begins with a byte and a space.
fn begins_with(sign: u8, line: &[u8]) -> bool
    ensures { result ≡ begins_with sign line.now }
{
    line.first() == Some(&sign) && line.get(1) == Some(&b' ')
}
