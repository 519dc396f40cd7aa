//! How a call of the program ends.

ghost use Rattle.std.specs.Prelude.{◌<◌};

/// How a call ended. The exit status is the place in this order, from 0 on.
#[derive(Clone, Copy, Debug, PartialEq, Eq)]
pub enum Status {
    Done,
    Usage,
    ReadFault,
    WriteFault,
    BadProgram,
    BadEntries,
    NoFit,
    BadImage,
    BadPackets,
    TooLong,
    NoMemory,
}
