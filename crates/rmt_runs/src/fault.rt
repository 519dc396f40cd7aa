//! How a run over the lines of a packet text ends before the end of the text.

/// Why a run ended before the end of its text and before a bad line.
#[derive(Clone, Copy, Debug, PartialEq, Eq)]
pub enum RunFault {
    NoMemory,
    /// The sink failed.
    Write,
    /// The shelf failed.
    Read,
    /// The text has more bytes than may be read.
    TooLong,
}

/// A bad line of a packet text.
#[derive(Clone, Copy, Debug, PartialEq, Eq)]
pub struct Bad {
    /// What is bad about it.
    pub code: u8,
    /// Its number, counted from 1.
    pub line: u64,
}
