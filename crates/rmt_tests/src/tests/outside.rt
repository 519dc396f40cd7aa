//! Sinks in memory and of the machine.

use rmt_io::mem_sink::MemSink;
use rmt_io::sink::{Sink, SinkFault};
use rmt_io::true_sink::TrueSink;
use std::alloc::{AllocError, Global};
use std::cell::Cell;
use std::fmt::Display;
use std::io;
use std::io::ErrorKind;
use std::test::Fail;

/// What a call of a sink in memory answers that takes a byte a call and fails at its call of this number.
fn wanted_of(call: u64, number: u64) -> Result<usize, SinkFault> {
    if call == number {
        Err(SinkFault::Failed)
    } else {
        Ok(1)
    }
}

/// Whether three calls of such a sink answer so, and it has two bytes then.
fn fails_once(alloc: Global, number: u64) -> Result<bool, AllocError> {
    let mut sink = MemSink::new(vec![in alloc; number]?, 1);
    for call in 1..4u64 {
        if sink.write(b"xyz") != wanted_of(call, number) {
            return Ok(false);
        }
    }
    Ok(sink.bytes().as_slice() == b"xx".as_slice())
}

#[test]
fn sink_of_one_byte_a_call(rt: HostRuntime) -> Result<(), Fail> {
    for number in 1..4u64 {
        assert!(rt; fails_once(rt.alloc(), number)?);
    }
    let mut wide = MemSink::new(vec![in rt.alloc()]?, 8);
    assert!(rt; wide.write(b"xyz") == Ok(3));
    Ok(())
}

#[test]
fn standard_output(rt: HostRuntime) -> Result<(), Fail> {
    let mut sink = TrueSink::new(&rt);
    let count = sink.write(b"taken\n")?;
    assert!(rt; 1 <= count && count <= 6);
    Ok(())
}

/// Output that answers each call as it is told: so many bytes taken, or an error.
#[derive(Drop)]
struct Told {
    answers: [Result<usize, ErrorKind>; 6],
    calls: Cell<usize>,
}

impl Print for Told {
    fn print<D: Display + Drop>(&self, _value: D) -> io::Result<()> {
        Err(io::Error::from(ErrorKind::Unsupported))
    }

    fn println<D: Display + Drop>(&self, _value: D) -> io::Result<()> {
        Err(io::Error::from(ErrorKind::Unsupported))
    }

    fn write_all(&self, _bytes: &[u8]) -> io::Result<()> {
        Err(io::Error::from(ErrorKind::Unsupported))
    }

    fn write_some(&self, bytes: &[u8]) -> io::Result<usize> {
        let call = self.calls.get();
        self.calls.set(call.saturating_add(1));
        match self.answers.get(call) {
            Some(Ok(count)) => Ok((*count).min(bytes.len())),
            Some(Err(kind)) => Err(io::Error::from(*kind)),
            None => Err(io::Error::from(ErrorKind::Unsupported)),
        }
    }
}

/// Short writes are told as they were, and an interrupted one is tried again.
#[test]
fn short_writes(rt: HostRuntime) -> Result<(), Fail> {
    let out = Told {
        answers: [
            Ok(1),
            Err(ErrorKind::Interrupted),
            Ok(2),
            Err(ErrorKind::StorageFull),
            Ok(0),
            Ok(3),
        ],
        calls: Cell::new(0),
    };
    let mut sink = TrueSink::new(&out);
    for &answer in &[
        Ok(1),
        Ok(2),
        Err(SinkFault::Failed),
        Err(SinkFault::Failed),
        Ok(3),
    ] {
        assert!(rt; sink.write(b"abcd") == answer);
    }
    Ok(())
}
