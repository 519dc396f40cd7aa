//! The files of the machine.

ghost use Rattle.std.specs.Prelude.{◌≡◌, ◌≢◌, ◌↔◌, ℕ, Bool, false, List, Option, None, [], ◌+◌, ◌-◌, ◌^◌, ◌<◌, ◌≤◌, length, IfSome, IsSome, OnOk, OnErr, IsErrOf, option_copied, string_bytes};
ghost use Rattle.std.specs.Io.{ReadsAtMost};
ghost use Rattle.std.specs.Io.KnownBytes.{Appends, ReadConsumes};
ghost use Rattle.rmt_io.specs.Faults.{Rose};
ghost use Rattle.rmt_io.specs.Transfer.{left_in};
ghost use Rattle.rmt_io.specs.Machine.{IsFaultOf, WasTold, name_kept};

use crate::calls::raise;
use crate::shelf::{Shelf, ShelfFault};
use crate::transfer::{ReadFault, read_next, read_opened, write_through};
use std::alloc::Global;
use std::fs::File;
use std::io::ErrorKind;
use std::rt::Files;

/// A refusal of the machine, or a file that is longer than its limit: the name of the file that was asked for, and why.
#[derive(Debug, Drop)]
pub struct MachineFault {
    pub name: String,
    pub kind: ErrorKind,
}

/// Files of the machine, whose content no contract tells.
#[derive(Drop)]
pub struct TrueShelf<'a, R: Files> {
    rt: &'a R,
    opened: Option<R::File>,
    /// The name of the open file, until a fault of it is kept.
    opened_name: Option<String>,
    reading: u64,
    writing: u64,
    /// The last fault, where there was memory for its name.
    last: Option<MachineFault>,
}

impl<'a, R: Files> TrueShelf<'a, R> {
    /// The files of a runtime, as the one that `main` is given.
    pub fn new(rt: &'a R) -> TrueShelf<'a, R>
        ensures reading { result.reading ≡ 0 }
        ensures writing { result.writing ≡ 0 }
        ensures last { result.last ≡ None }
    {
        TrueShelf {
            rt,
            opened: None,
            opened_name: None,
            reading: 0,
            writing: 0,
            last: None,
        }
    }

    /// The file and the reason of the last fault, where there was memory to keep them; of a file that was longer than the
    /// limit of its reader the reason is `FileTooLarge`.
    pub fn last_fault(&self) -> Option<&MachineFault>
        ensures { option_copied result ≡ self.now.last }
    {
        self.last.as_ref()
    }

    /// Keeps a fault of a named file; where there is no memory for the name, none is kept.
    fn keep_fault(&mut self, name: &String, kind: ErrorKind)
        ensures last { IsFaultOf (string_bytes name.now) kind self.new.last }
        ensures reading { self.new.reading ≡ self.old.reading }
        ensures writing { self.new.writing ≡ self.old.writing }
        ensures opened { self.new.opened ≡ self.old.opened }
    {
        self.last = match name.clone() {
            Ok(name) => Some(MachineFault { name, kind }),
            Err(_) => None,
        };
    }

    /// Keeps a fault of the open file. It needs no memory, since the name was kept when the file was opened.
    fn keep_opened_fault(&mut self, kind: ErrorKind)
        ensures kind { IfSome self.new.last (λ fault. fault.kind ≡ kind) }
        ensures named { name_kept None self.new.last ≡ name_kept self.old.opened_name self.old.last }
        ensures named_next { name_kept self.new.opened_name self.new.last
            ≡ name_kept self.old.opened_name self.old.last }
        ensures reading { self.new.reading ≡ self.old.reading }
        ensures writing { self.new.writing ≡ self.old.writing }
        ensures opened { self.new.opened ≡ self.old.opened }
    {
        match self.opened_name.take() {
            Some(name) => self.last = Some(MachineFault { name, kind }),
            // the fault that is kept, if any, is one of this file
            None => {
                if let Some(fault) = &mut self.last {
                    fault.kind = kind;
                }
            }
        }
    }

    /// Keeps the name of the file that was opened, for its faults.
    fn name_opened(&mut self, name: &String)
        ensures named { IfSome (name_kept self.new.opened_name self.new.last)
            (λ kept. kept ≡ string_bytes name.now) }
        ensures reading { self.new.reading ≡ self.old.reading }
        ensures writing { self.new.writing ≡ self.old.writing }
        ensures opened { self.new.opened ≡ self.old.opened }
    {
        match name.clone() {
            Ok(name) => self.opened_name = Some(name),
            Err(_) => {
                self.opened_name = None;
                // a fault of another file must not pass for one of this file
                self.last = None;
            }
        }
    }

    /// Which fault of a shelf a refusal to read is. Where it is no want of memory, it is counted and kept.
    fn reading_fault(&mut self, name: &String, kind: ErrorKind) -> ShelfFault
        ensures no_memory { result ≡ ShelfFault.NoMemory ↔ kind ≡ ErrorKind.OutOfMemory }
        ensures never_too_long { result ≢ ShelfFault.TooLong }
        ensures counted { result ≡ ShelfFault.Failed → Rose self.old.reading self.new.reading }
        ensures kept { result ≡ ShelfFault.Failed →
            IsFaultOf (string_bytes name.now) kind self.new.last }
        ensures reading { self.old.reading ≤ self.new.reading }
        ensures writing { self.new.writing ≡ self.old.writing }
        ensures opened { self.new.opened ≡ self.old.opened }
    {
        if kind == ErrorKind::OutOfMemory {
            return ShelfFault::NoMemory;
        }
        self.reading = raise(self.reading);
        self.keep_fault(name, kind);
        ShelfFault::Failed
    }

    /// A refusal to write, which is counted and kept.
    fn writing_fault(&mut self, name: &String, kind: ErrorKind) -> ShelfFault
        ensures failed { result ≡ ShelfFault.Failed }
        ensures counted { Rose self.old.writing self.new.writing }
        ensures kept { IsFaultOf (string_bytes name.now) kind self.new.last }
        ensures writing { self.old.writing ≤ self.new.writing }
        ensures reading { self.new.reading ≡ self.old.reading }
        ensures opened { self.new.opened ≡ self.old.opened }
    {
        self.writing = raise(self.writing);
        self.keep_fault(name, kind);
        ShelfFault::Failed
    }

    /// Replaces what `into` held by the bytes of the named file, as the machine gives them when it is opened.
    fn read_file(&mut self, name: &String, limit: u64, into: &mut Vec<u8>) -> Result<(), ShelfFault>
        ensures content { OnOk result
            ((file : R.File) × IfSome (R.File.remaining file) (λ bytes. into.new.items ≡ bytes)) }
        ensures too_long { IsErrOf result ShelfFault.TooLong →
            (file : R.File) × IfSome (R.File.remaining file) (λ bytes. limit < length bytes) }
        ensures within { OnOk result (length into.new.items ≤ limit) }
        ensures emptied { OnErr result (into.new.items ≡ []) }
        // Of a file that is longer than the limit the name is kept, as of one that the system finds too large.
        ensures long_kept { IsErrOf result ShelfFault.TooLong →
            IsFaultOf (string_bytes name.now) ErrorKind.FileTooLarge self.new.last }

        // A fault is counted, and its name is kept.
        ensures told { IsErrOf result ShelfFault.Failed → WasTold (string_bytes name.now) self.old.reading self.new.reading self.new.last }
        ensures reading { self.old.reading ≤ self.new.reading }
        ensures writing { self.new.writing ≡ self.old.writing }
        ensures closed { self.new.opened ≡ None }
    {
        self.opened = None;
        match read_opened(File::open(self.rt, name.as_str()), limit, into) {
            Ok(()) => Ok(()),
            Err(ReadFault::TooLong) => {
                self.keep_fault(name, ErrorKind::FileTooLarge);
                Err(ShelfFault::TooLong)
            }
            Err(ReadFault::Refused(kind)) => Err(self.reading_fault(name, kind)),
        }
    }

    /// Makes the named file these bytes, and has the machine keep them.
    fn write_file(&mut self, name: &String, bytes: &[u8]) -> Result<(), ShelfFault>
        ensures written { OnOk result ((before : R.File) × (after : R.File)
            × Appends (R.File.contents before) (R.File.contents after) bytes.now) }
        ensures never_too_long { IsErrOf result ShelfFault.TooLong → ⊥ }

        // A fault is counted, and its name is kept.
        ensures told { IsErrOf result ShelfFault.Failed → WasTold (string_bytes name.now) self.old.writing self.new.writing self.new.last }
        ensures writing { self.old.writing ≤ self.new.writing }
        ensures reading { self.new.reading ≡ self.old.reading }
        ensures closed { self.new.opened ≡ None }
    {
        self.opened = None;
        match File::create(self.rt, name.as_str()) {
            Ok(mut file) => match write_through(&mut file, bytes) {
                Ok(()) => Ok(()),
                // the file is no longer as before, so want of memory is no answer here
                Err(error) => Err(self.writing_fault(name, error.kind())),
            },
            Err(error) if error.kind() == ErrorKind::OutOfMemory => Err(ShelfFault::NoMemory),
            Err(error) => Err(self.writing_fault(name, error.kind())),
        }
    }

    /// Opens the named file in place of the one that was open.
    fn open_file(&mut self, name: &String) -> Result<(), ShelfFault>
        ensures opened { OnOk result (IsSome self.new.opened) }
        ensures named { OnOk result (IfSome (name_kept self.new.opened_name self.new.last)
            (λ kept. kept ≡ string_bytes name.now)) }
        ensures closed { OnErr result (self.new.opened ≡ None) }
        ensures never_too_long { IsErrOf result ShelfFault.TooLong → ⊥ }

        // A fault is counted, and its name is kept.
        ensures told { IsErrOf result ShelfFault.Failed → WasTold (string_bytes name.now) self.old.reading self.new.reading self.new.last }
        ensures reading { self.old.reading ≤ self.new.reading }
        ensures writing { self.new.writing ≡ self.old.writing }
    {
        self.opened = None;
        match File::open(self.rt, name.as_str()) {
            Ok(file) => {
                self.opened = Some(file);
                self.name_opened(name);
                Ok(())
            }
            Err(error) => Err(self.reading_fault(name, error.kind())),
        }
    }

    /// Puts the next bytes of the open file at the front of `into`, and answers how many they are.
    fn next_bytes(&mut self, into: &mut [u8]) -> Result<usize, ShelfFault>
        ensures within { ReadsAtMost result into.new }
        ensures bytes { ReadConsumes (left_in R.File.remaining self.old.opened)
            (left_in R.File.remaining self.new.opened) result into.new }

        // A fault is counted, and kept under the name of the open file.
        ensures fault { OnErr result (IsErrOf result ShelfFault.Failed) }
        ensures counted { OnErr result (Rose self.old.reading self.new.reading) }
        ensures kept { OnErr result
            (name_kept None self.new.last ≡ name_kept self.old.opened_name self.old.last) }
        ensures named { name_kept self.new.opened_name self.new.last
            ≡ name_kept self.old.opened_name self.old.last }
        ensures reading { self.old.reading ≤ self.new.reading }
        ensures writing { self.new.writing ≡ self.old.writing }
    {
        match read_next(&mut self.opened, into) {
            Ok(count) => Ok(count),
            Err(error) => {
                self.reading = raise(self.reading);
                self.keep_opened_fault(error.kind());
                Err(ShelfFault::Failed)
            }
        }
    }
}

impl<R: Files> Shelf for TrueShelf<'_, R> {
    ghost state = { λ s. record {
      tells = false;
      files = λ _. None;
      rest = [];
      reading_faults = s.reading;
      writing_faults = s.writing;
      steady = false;
    } };

    fn read(
        &mut self,
        _alloc: Global,
        name: &String,
        limit: u64,
        into: &mut Vec<u8>,
    ) -> Result<(), ShelfFault> {
        self.read_file(name, limit, into)
    }

    fn write(&mut self, _alloc: Global, name: &String, bytes: &Vec<u8>) -> Result<(), ShelfFault> {
        self.write_file(name, bytes.as_slice())
    }

    fn open(&mut self, _alloc: Global, name: &String) -> Result<(), ShelfFault> {
        self.open_file(name)
    }

    fn next(&mut self, into: &mut [u8]) -> Result<usize, ShelfFault> {
        self.next_bytes(into)
    }
}
