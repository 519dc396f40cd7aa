//! No answer is written before the packets behind it, as many as are in flight, were read.

ghost use Rattle.std.specs.Prelude.{None, [], false};

use rmt_core::rmt;
use rmt_core::status::Status;
use rmt_io::mem_shelf::MemShelf;
use rmt_io::mem_sink::MemSink;
use rmt_io::shelf::{Shelf, ShelfFault};
use rmt_io::sink::{Sink, SinkFault};
use std::alloc::{AllocError, Global};
use std::cell::Cell;
use std::test::*;

/// How many packets there are.
const PACKETS: u32 = 500;

/// How many packets are in flight at once where all stages take as long as they can.
const FLIGHT: u32 = 385;

/// A shelf with an image and a packet text of one line again and again, which gives at most one line at once.
#[derive(Drop)]
struct LineShelf<'a> {
    image: Vec<u8>,
    line: Vec<u8>,
    /// How many bytes of a line were given.
    position: usize,
    /// How many lines were given to their end.
    given: &'a Cell<u32>,
}

impl Shelf for LineShelf<'_> {
    ghost state = { λ _. record {
      tells = false;
      files = λ _. None;
      rest = [];
      reading_faults = 0;
      writing_faults = 0;
      steady = false;
    } };

    /// Each name is that of the image.
    fn read(
        &mut self,
        _alloc: Global,
        _name: &String,
        limit: u64,
        into: &mut Vec<u8>,
    ) -> Result<(), ShelfFault> {
        into.clear();
        if self.image.len() as u64 > limit {
            return Err(ShelfFault::TooLong);
        }
        match into.extend_from_slice(self.image.as_slice()) {
            Ok(()) => Ok(()),
            Err(_) => Err(ShelfFault::NoMemory),
        }
    }

    /// It keeps no further file.
    fn write(
        &mut self,
        _alloc: Global,
        _name: &String,
        _bytes: &Vec<u8>,
    ) -> Result<(), ShelfFault> {
        Err(ShelfFault::NoMemory)
    }

    /// Each name is that of the packet text.
    fn open(&mut self, _alloc: Global, _name: &String) -> Result<(), ShelfFault> {
        self.position = 0;
        self.given.set(0);
        Ok(())
    }

    fn next(&mut self, into: &mut [u8]) -> Result<usize, ShelfFault> {
        let given = self.given.get();
        if given >= PACKETS {
            return Ok(0);
        }
        let from = self.position.min(self.line.len());
        let left = &self.line.as_slice()[from..];
        let count = left.len().min(into.len());
        into[..count].copy_from_slice(&left[..count]);
        if count == left.len() {
            self.position = 0;
            self.given.set(given + 1);
        } else {
            self.position = from + count;
        }
        Ok(count)
    }
}

/// A sink that takes all that it is given, and keeps how many lines were read when it was first called.
#[derive(Drop)]
struct FirstCall<'a> {
    given: &'a Cell<u32>,
    first: Option<u32>,
}

impl Sink for FirstCall<'_> {
    ghost state = { λ _. record { tells = false; bytes = []; faults = 0 } };

    fn write(&mut self, piece: &[u8]) -> Result<usize, SinkFault> {
        if self.first.is_none() {
            self.first = Some(self.given.get());
        }
        Ok(piece.len())
    }
}

/// A program of 32 tables, each of which adds 1 to what it looks up, so that none begins before the one before it ends.
fn chain(alloc: Global) -> Result<String, AllocError> {
    let mut tables = String::from_str(
        alloc,
        "header h { f : 8; } next accept;\nmeta { x : 8; }\naction inc() { meta.x = meta.x + 1; }\n",
    )?;
    let mut applied = String::from_str(alloc, "control { ")?;
    for i in 0..32u32 {
        let table = format!(in alloc;
            "table t{i} {{ exact meta.x; actions inc; size 1; default inc(); }}\n"
        )?;
        tables.push_str(table.as_str())?;
        applied.push_str(format!(in alloc; "apply t{i}; ")?.as_str())?;
    }
    format!(in alloc; "{tables}{applied}}}\n")
}

/// Words as the program is given them.
fn words_of(alloc: Global, words: &[&str]) -> Result<Vec<String>, AllocError> {
    let mut all = Vec::new(alloc);
    for word in words {
        all.push(String::from_str(alloc, *word)?)?;
    }
    Ok(all)
}

/// Puts a file on a shelf.
fn put(alloc: Global, shelf: &mut MemShelf, name: &str, bytes: &[u8]) -> Result<(), Fail> {
    let name = String::from_str(alloc, name)?;
    let bytes = Vec::from_slice(alloc, bytes)?;
    shelf.put_file(&name, &bytes)?;
    Ok(())
}

/// Compiles the program of a shelf.
fn compile(alloc: Global, shelf: &mut MemShelf) -> Result<(), AllocError> {
    let words = words_of(alloc, &["compile", "p", "e", "i"])?;
    let mut out = MemSink::new(Vec::new(alloc), 65_536);
    let _status = rmt(alloc, &words, shelf, &mut out);
    Ok(())
}

/// The image on a shelf, and no byte where none is there.
fn image_on(alloc: Global, shelf: &MemShelf) -> Result<Vec<u8>, AllocError> {
    let name = String::from_str(alloc, "i")?;
    match shelf.file(&name) {
        Some(image) => Vec::from_slice(alloc, image.as_slice()),
        None => Ok(Vec::new(alloc)),
    }
}

/// The image of the chain.
fn image_of_chain(alloc: Global) -> Result<Vec<u8>, Fail> {
    let program = chain(alloc)?;
    let mut shelf = MemShelf::new(Vec::new(alloc), 65_536);
    put(alloc, &mut shelf, "p", program.as_bytes())?;
    put(alloc, &mut shelf, "e", b"")?;
    compile(alloc, &mut shelf)?;
    Ok(image_on(alloc, &shelf)?)
}

/// The line of a packet with the longest frame.
fn longest_line(alloc: Global) -> Result<Vec<u8>, AllocError> {
    let mut line = Vec::from_slice(alloc, b"0 ")?;
    line.resize(2 + 2 * 9216, b'5')?;
    line.push(b'\n')?;
    Ok(line)
}

/// The answer to packet 0 leaves in the cycle in which packet 384 enters, so 385 lines were read before any is written; and
/// lines are written before the whole text was read.
#[test]
fn in_flight(rt: HostRuntime) -> Result<(), Fail> {
    let alloc = rt.alloc();
    let given = Cell::new(0u32);
    let mut shelf = LineShelf {
        image: image_of_chain(alloc)?,
        line: longest_line(alloc)?,
        position: 0,
        given: &given,
    };
    let mut out = FirstCall {
        given: &given,
        first: None,
    };
    let words = words_of(alloc, &["sim", "i", "k"])?;
    let status = rmt(alloc, &words, &mut shelf, &mut out);
    assert!(rt; status == Status::Done);
    let first = out.first.unwrap_or(0);
    assert!(rt; FLIGHT <= first && first < PACKETS, "{first}");
    Ok(())
}
