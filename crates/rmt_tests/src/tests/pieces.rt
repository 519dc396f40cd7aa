//! Packet texts that are read in pieces.

ghost use Rattle.std.specs.Prelude.{◌+◌, ◌^◌, ◌<◌, ◌≤◌, length, IsTrue};

use rmt_packets::packet_line::{PacketFault, read_packet};
use rmt_packets::pieces::Lines;
use std::alloc::{AllocError, Global};
use std::test::Fail;

/// The number of a ready line, as a byte, and its text, with a line feed behind it.
fn tell(lines: &Lines, into: &mut Vec<u8>) -> Result<(), AllocError>
    requires { IsTrue lines.now.is_ready }
{
    into.push((lines.number() % 256) as u8)?;
    into.extend_from_slice(lines.text())?;
    into.push(b'\n')?;
    Ok(())
}

/// Takes a piece to its end, and tells its lines.
fn take_all(lines: &mut Lines, piece: &[u8], into: &mut Vec<u8>) -> Result<(), AllocError>
    requires short { length piece.now ≤ 65536 }
    requires few { lines.old.taken + length piece.now < 2 ^ 63 }
    ensures { lines.new.taken ≤ lines.old.taken + length piece.now }
{
    let mut from = 0;
    for _turn in 0..=piece.len() {
        let taken = lines.take(&piece[from..]);
        from += taken.used as usize;
        if !taken.ready {
            break;
        }
        tell(lines, into)?;
    }
    Ok(())
}

/// The lines of a text in pieces: one of `first` bytes, and then pieces of `size` bytes.
fn in_pieces(alloc: Global, text: &[u8], first: usize, size: usize) -> Result<Vec<u8>, Fail>
    requires short { length text.now ≤ 65536 }
    requires within { first ≤ length text.now }
    requires some { 0 < size }
{
    let mut told = Vec::new(alloc);
    let mut lines = Lines::new(alloc)?;
    take_all(&mut lines, &text[..first], &mut told)?;
    let mut from = first;
    while from < text.len() {
        let to = from.saturating_add(size).min(text.len());
        take_all(&mut lines, &text[from..to], &mut told)?;
        from = to;
    }
    if lines.finish() {
        tell(&lines, &mut told)?;
    }
    Ok(told)
}

/// The lines of a text of at most 65,536 bytes in such pieces.
fn told_in_pieces(alloc: Global, text: &[u8], first: usize, size: usize) -> Result<Vec<u8>, Fail> {
    if text.len() > 65536 || first > text.len() || size == 0 {
        return Err(Fail::new("no such pieces"));
    }
    in_pieces(alloc, text, first, size)
}

/// Whether these are the lines of a text, wherever its first piece ends.
fn is_told_at_each_cut(
    alloc: Global,
    text: &[u8],
    size: usize,
    wanted: &[u8],
) -> Result<bool, Fail> {
    for first in 0..=text.len() {
        if told_in_pieces(alloc, text, first, size)?.as_slice() != wanted {
            return Ok(false);
        }
    }
    Ok(true)
}

/// A text, and its packet lines, each behind its number.
const TEXTS: [(&[u8], &[u8]); 7] = [
    (b"", b""),
    (b"\n \n# none", b""),
    (b"0 ff", b"\x010 ff\n"),
    (b"0 ff\n", b"\x010 ff\n"),
    (
        b"# none\n0 ff\n\n   \n1 00\n#x\n 2 ab",
        b"\x020 ff\n\x051 00\n\x07 2 ab\n",
    ),
    (b"\n\n\nx\n\ny\n", b"\x04x\n\x06y\n"),
    (b"  #\n#\r\n\r\n", b"\x01  #\n\x03\r\n"),
];

#[test]
fn a_packet_text_cut_at_every_place(rt: HostRuntime) -> Result<(), Fail> {
    for &(text, wanted) in &TEXTS {
        for &size in &[65536, 1, 3] {
            assert!(rt; is_told_at_each_cut(rt.alloc(), text, size, wanted)?);
        }
    }
    Ok(())
}

/// A line of so many such bytes before `z`, and the line `0 ff` behind it.
fn long_text(alloc: Global, count: u16, byte: u8) -> Result<Vec<u8>, AllocError> {
    let mut text = vec![in alloc; byte; count as usize]?;
    text.extend_from_slice(b"z\n0 ff")?;
    Ok(text)
}

/// How many bytes of which kind a line has before `z`, and how many bytes tell it and the line `0 ff` behind it.
const LONG: [(u16, u8, usize); 7] = [
    (18442, b'1', 1 + 18443 + 1 + 6),
    (18443, b'1', 1 + 18444 + 1 + 6),
    (18444, b'1', 1 + 18444 + 1 + 6),
    (30000, b'1', 1 + 18444 + 1 + 6),
    (18444, b' ', 1 + 18444 + 1 + 6),
    (30000, b' ', 1 + 18444 + 1 + 6),
    (30000, b'#', 6),
];

#[test]
fn long_lines_in_pieces(rt: HostRuntime) -> Result<(), Fail> {
    for &(count, byte, wanted) in &LONG {
        let text = long_text(rt.alloc(), count, byte)?;
        for &size in &[1usize, 4096, 40000] {
            assert!(rt; told_in_pieces(rt.alloc(), text.as_slice(), 0, size)?.len() == wanted);
        }
    }
    let spaces = vec![in rt.alloc(); b' '; 30000]?;
    assert!(rt; told_in_pieces(rt.alloc(), spaces.as_slice(), 0, 1000)?.is_empty());
    Ok(())
}

/// What a line's frame is read as.
fn read(alloc: Global, line: &[u8]) -> Result<u16, PacketFault> {
    let mut frame = Vec::new(alloc);
    read_packet(line, &mut frame)
}

/// What is read of a line of so many digits behind the port 7: of the whole line, and of what is told of it in one piece.
fn read_twice(alloc: Global, digits: u16) -> Result<[Result<u16, PacketFault>; 2], Fail> {
    let mut line = b"7 ".to_vec(alloc)?;
    line.resize(digits as usize + 2, b'0')?;
    // behind its number, and before a line feed
    let told = told_in_pieces(alloc, line.as_slice(), 0, 65536)?;
    let front = told.as_slice().get(1..told.len().saturating_sub(1));
    let front = read(alloc, front.unwrap_or(&[]));
    Ok([read(alloc, line.as_slice()), front])
}

/// How many digits stand behind the port, and what is read.
const DIGITS: [(u16, Result<u16, PacketFault>); 5] = [
    (18432, Ok(7)),
    (18433, Err(PacketFault::Code(3))),
    (18434, Err(PacketFault::Code(3))),
    (18442, Err(PacketFault::Code(3))),
    (30000, Err(PacketFault::Code(3))),
];

#[test]
fn a_long_line_is_read_as_its_front(rt: HostRuntime) -> Result<(), Fail> {
    for &(digits, wanted) in &DIGITS {
        assert!(rt; read_twice(rt.alloc(), digits)? == [wanted, wanted]);
    }
    Ok(())
}
