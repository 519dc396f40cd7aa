//! Chips of images that are written out, and what they are to answer.

ghost use Rattle.rmt_chip.specs.Inputs.{MayEnter};

use rmt_bits::answer::{Bytes, Verdict};
use rmt_bits::sequence::Sequence;
use rmt_chip::chip::Chip;
use rmt_chip::frame::Frame;
use rmt_chip::out::Out;
use rmt_config::cell_write::CellWrite;
use rmt_image::read_image;
use rmt_image_tests::fixtures::image_texts::push_texts;
use std::alloc::{AllocError, Global};
use std::process::Abort;
use std::test::*;

/// The port and the frame that enter in a cycle, of which an empty one is none, and the answer to them with its bytes.
pub type Row<'a> = (u16, &'a [u8], Option<Verdict>, &'a [u8]);

/// A cycle in which nothing enters.
pub const NOTHING: Row<'static> = (0, &[], None, &[]);

/// A packet is sent to port 0.
pub const SENT: Option<Verdict> = Some(Verdict::Sent { port: 0 });

/// A cycle, an age, a word, and the packet's number with the word's value; None for no packet.
pub type Look = (usize, u16, u8, Option<(u64, u32)>);

/// The front of an image whose header has two bytes, in words 2 and 3. In every image here the header's valid bit is bit 0
/// of word 0, and the drop bit is bit 0 of word 1.
pub const TWO_BYTES: &str = "
524d5449 0001 00 400009 410009 010001       # letters, version, seed, in_port, out_port, drop
01 000001 02 02 020008 030008               # a header with the bytes in words 2 and 3
0001 00                                     # a state that looks at nothing
0001 00 00000000 00000000 02 02 00 03       # an entry that takes 2 bytes and accepts
     01000001 000000020008 000008030008     # it makes the header valid, and fills the words
";

/// A chip of an image that is in form and within the limits.
pub fn open_image(rt: &(impl Abort + AllocGlobal), image: &[u8]) -> Result<Chip, Fail> {
    let config = read_image(rt.alloc(), image)?;
    assert!(rt; config.formed(rt.alloc())?, "a configuration in form");
    assert!(rt; config.fits().is_ok(), "a configuration within limits");
    Ok(Chip::open(rt.alloc(), config)?)
}

/// A chip of an image in several texts.
pub fn open(rt: &(impl Abort + AllocGlobal), texts: &[&str]) -> Result<Chip, Fail> {
    let mut image = Vec::new(rt.alloc());
    push_texts(&mut image, texts)?;
    open_image(rt, image.as_slice())
}

/// The frame of an input.
fn frame_of<'a>(rt: &impl Abort, input: Option<(u16, &'a [u8])>) -> Option<Frame<'a>>
    ensures { MayEnter result }
{
    match input {
        None => None,
        Some((port, bytes)) => {
            assert!(rt; port < 512 && !bytes.is_empty() && bytes.len() <= 9216);
            Some(Frame { port, bytes })
        }
    }
}

/// One cycle.
pub fn step(
    rt: &impl Abort,
    chip: &mut Chip,
    out: &mut Out,
    input: Option<(u16, &[u8])>,
) -> Option<Verdict> {
    assert!(rt; chip.entered() < 1 << 63);
    let frame = frame_of(rt, input);
    chip.clock(frame, out)
}

/// Bytes.
pub fn bytes_of(alloc: Global, bytes: &[u8]) -> Result<Bytes, AllocError> {
    Ok(Sequence::from_vec(Vec::from_slice(alloc, bytes)?))
}

/// A cycle with a changed cell.
pub fn write(
    rt: &impl Abort,
    chip: &mut Chip,
    out: &mut Out,
    write: &CellWrite,
) -> Option<Verdict> {
    assert!(rt; chip.takes(write), "a cell that is taken");
    assert!(rt; chip.spare() > 0, "room for a counter");
    chip.clock_write(write, out)
}

/// A cycle that makes the next version the current one, with a seed.
pub fn commit(rt: &impl Abort, chip: &mut Chip, out: &mut Out, seed: u8) -> Option<Verdict> {
    assert!(rt; chip.version() < 1 << 63);
    chip.clock_commit(seed, out)
}

/// What stands in a table for a cycle.
pub fn at<T: Copy>(rows: &[(usize, T)], cycle: usize) -> Option<T> {
    for (when, what) in rows {
        if *when == cycle {
            return Some(*what);
        }
    }
    None
}

/// What is seen of the packet of an age: its number, and a word.
fn seen(rt: &impl Abort, chip: &Chip, age: u16, word: u8) -> Option<(u64, u32)> {
    assert!(rt; word < 224);
    match chip.probe(age) {
        None => None,
        Some(seen) => Some((seen.number, seen.words.get(word))),
    }
}

/// Compares what is seen in a cycle.
fn look(rt: &impl Abort, chip: &Chip, now: usize, looks: &[Look]) {
    for (cycle, age, word, wanted) in looks {
        if *cycle == now {
            assert!(rt;
                seen(rt, chip, *age, *word) == *wanted,
                "word {word} at age {age} in cycle {cycle}"
            );
        }
    }
}

/// What enters with a row.
fn input_of<'a>(row: Option<&Row<'a>>) -> Option<(u16, &'a [u8])> {
    match row {
        None => None,
        Some((port, frame, _, _)) => {
            if frame.is_empty() {
                None
            } else {
                Some((*port, *frame))
            }
        }
    }
}

/// Compares the answer of a cycle with that of the row that is to leave in it, if there is one.
fn answered(
    rt: &impl Abort,
    cycle: usize,
    verdict: Option<Verdict>,
    bytes: &[u8],
    row: Option<&Row<'_>>,
) {
    let (wanted, sent): (Option<Verdict>, &[u8]) = match row {
        None => (None, &[]),
        Some((_, _, verdict, sent)) => (*verdict, *sent),
    };
    assert!(rt; verdict == wanted, "cycle {cycle}");
    assert!(rt; bytes == sent, "cycle {cycle}");
}

/// A counter: the entry's number, packets and bytes.
pub fn counted(chip: &Chip, at: usize) -> Option<(u32, u64, u64)> {
    match chip.counters().get(at) {
        None => None,
        Some(count) => Some((count.entry, count.packets, count.bytes)),
    }
}

/// Replays rows over a new chip of an image in several texts, and answers its first counter behind them.
pub fn replay_new(
    rt: &(impl Abort + AllocGlobal),
    texts: &[&str],
    latency: u16,
    rows: &[Row<'_>],
    looks: &[Look],
) -> Result<Option<(u32, u64, u64)>, Fail> {
    let mut out = Out::new(rt.alloc())?;
    let mut chip = open(rt, texts)?;
    replay(rt, &mut chip, &mut out, latency, rows, looks);
    Ok(counted(&chip, 0))
}

/// Clocks a chip with an input a cycle, and then with nothing, until two cycles after the last row
/// has left; compares each answer, and what is seen on the way.
pub fn replay(
    rt: &impl Abort,
    chip: &mut Chip,
    out: &mut Out,
    latency: u16,
    rows: &[Row<'_>],
    looks: &[Look],
) {
    assert!(rt; chip.latency() == latency);
    let latency = usize::from(latency);
    let cycles = rows.len().saturating_add(latency + 2);
    for cycle in 0..cycles {
        let input = input_of(rows.get(cycle));
        let verdict = step(rt, chip, out, input);
        let leaving = if cycle < latency {
            None
        } else {
            rows.get(cycle - latency)
        };
        answered(rt, cycle, verdict, out.bytes(), leaving);
        look(rt, chip, cycle, looks);
    }
}
