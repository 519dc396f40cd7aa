//! Packet texts line by line, and the lines of answers.

use rmt_bits::answer::Verdict;
use rmt_packets::answer_line::write_line;
use rmt_packets::line_kind::{LineKind, kind_of};
use rmt_packets::lines::{Line, next_line};
use rmt_packets::packet_line::{PacketFault, read_packet};
use std::alloc::{AllocError, Global};
use std::test::*;

#[test]
fn lines_of_a_text(rt: HostRuntime) {
    let text = b"# none\n\n0 ff\n   \n1 00";
    let first = Line {
        number: 3,
        from: 8,
        to: 12,
        next: 13,
    };
    let second = Line {
        number: 5,
        from: 17,
        to: 21,
        next: 21,
    };
    assert!(rt; next_line(text, 0, 1) == Some(first));
    assert!(rt; next_line(text, 13, 4) == Some(second));
    assert!(rt; next_line(text, 21, 6).is_none());
}

/// Whether this is read of a line: the port, and the bytes of the frame.
fn is_read(
    alloc: Global,
    line: &[u8],
    answer: Result<u16, PacketFault>,
    bytes: &[u8],
) -> Result<bool, AllocError> {
    let mut frame = Vec::new(alloc);
    frame.push(7)?;
    Ok(read_packet(line, &mut frame) == answer && frame.as_slice() == bytes)
}

/// A line of so many digits behind the port 0.
fn zeros(alloc: Global, digits: usize) -> Result<Vec<u8>, AllocError> {
    let mut line = b"0 ".to_vec(alloc)?;
    line.extend_from_slice(vec![in alloc; b'0'; digits]?.as_slice())?;
    Ok(line)
}

/// A line, and what is read of it.
type Row = (&'static [u8], Result<u16, PacketFault>, &'static [u8]);

const LINES: [Row; 4] = [
    (b"511 fFa0", Ok(511), &[255, 160]),
    (b"2 abc", Err(PacketFault::Code(1)), &[]),
    (b"512 00", Err(PacketFault::Code(2)), &[]),
    (b"0 ", Err(PacketFault::Code(3)), &[]),
];

#[test]
fn packets_of_lines(rt: HostRuntime) -> Result<(), Fail> {
    for &(line, answer, bytes) in &LINES {
        assert!(rt; is_read(rt.alloc(), line, answer, bytes)?);
    }
    Ok(())
}

/// The longest line that is read, and one digit more.
#[test]
fn packets_of_long_lines(rt: HostRuntime) -> Result<(), Fail> {
    let bytes = vec![in rt.alloc(); 0u8; 9216]?;
    let longest = zeros(rt.alloc(), 18432)?;
    assert!(rt; is_read(rt.alloc(), longest.as_slice(), Ok(0), bytes.as_slice())?);
    let longer = zeros(rt.alloc(), 18433)?;
    let refused = Err(PacketFault::Code(3));
    assert!(rt; is_read(rt.alloc(), longer.as_slice(), refused, &[])?);
    Ok(())
}

const KINDS: [(&[u8], LineKind); 14] = [
    (b"+ b 7 go 6", LineKind::Addition),
    (b"+ ", LineKind::Addition),
    (b"- b 7", LineKind::Removal),
    (b"- ", LineKind::Removal),
    (b"commit", LineKind::Commit),
    (b"0 07", LineKind::Packet),
    (b"+", LineKind::Packet),
    (b"-", LineKind::Packet),
    (b"+b 7 go 6", LineKind::Packet),
    (b" + b 7 go 6", LineKind::Packet),
    (b"commit ", LineKind::Packet),
    (b"commits", LineKind::Packet),
    (b"Commit", LineKind::Packet),
    (b"commi", LineKind::Packet),
];

#[test]
fn kinds_of_lines(rt: HostRuntime) {
    for &(line, kind) in &KINDS {
        assert!(rt; kind_of(line) == kind);
    }
}

const ANSWERS: [(u64, Verdict, &[u8]); 5] = [
    (9, Verdict::Short, &[]),
    (9, Verdict::Reject, &[]),
    (9, Verdict::Dropped, &[]),
    (9, Verdict::Sent { port: 5 }, &[]),
    (10, Verdict::Sent { port: 511 }, &[255, 10]),
];

#[test]
fn lines_of_answers(rt: HostRuntime) -> Result<(), Fail> {
    let mut text = Vec::new(rt.alloc());
    for &(number, verdict, bytes) in &ANSWERS {
        write_line(number, verdict, bytes, &mut text)?;
    }
    let wanted = b"9 drop short\n9 drop reject\n9 drop action\n9 5 -\n10 511 ff0a\n";
    assert!(rt; text.as_slice() == wanted.as_slice());
    Ok(())
}
