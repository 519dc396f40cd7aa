//! Files in memory.

ghost use Rattle.std.specs.Prelude.{◌≡◌, ◌≢◌, ◌↔◌, ℕ, false, List, Option, Some, None, ◌+◌, ◌-◌, ◌^◌, ◌<◌, ◌≤◌, [], length, take, drop, min, option_map, IsTrue, IfOk, IfSome, OnOk, OnErr, IsOk, IsErrOf, string_bytes};
ghost use Rattle.std.specs.FinMap as map;
ghost use Rattle.rmt_io.specs.Calls.{fails_next, fails_no_more, raised};
ghost use Rattle.rmt_io.specs.Faults.{Rose};
ghost use Rattle.rmt_io.specs.Files.{MemoryFiles, moved, rest_of, shelf_called, shelf_state};
ghost use Rattle.rmt_io.specs.Outside.{OnlyRead, OnlyWrote};

use crate::calls::{is_failing, raise};
use crate::shelf::{Shelf, ShelfFault};
use std::alloc::Global;
use std::collections::BTreeMap;
use std::marker::Model;

/// An open file of a shelf in memory.
#[derive(Drop)]
struct Opened {
    /// The file's name.
    name: String,
    /// How many of its bytes were given.
    position: usize,
}

/// A shelf in memory, which tells its files: for tests.
///
/// Its calls of `read`, `write`, `open` and `next` are counted together from 1, and those whose numbers it was given
/// fail. A failing `write` leaves the named file as it was. No call of `next` gives more than `most` bytes.
#[derive(Drop)]
pub struct MemShelf {
    files: BTreeMap<String, Vec<u8>>,
    opened: Option<Opened>,
    fails: Vec<u64>,
    most: u32,
    calls: u64,
    reading: u64,
    writing: u64,
}

impl Model for MemShelf {
    ghost use Rattle.std.specs.Prelude.{◌<◌, option_map, string_bytes};
    ghost use Rattle.std.specs.FinMap as map;
    ghost use Rattle.rmt_io.specs.Files.{MemoryFiles, memory_files_code, text_entries};

    ghost Value = { MemoryFiles };

    ghost coded = { memory_files_code };

    ghost view = { λ s. record {
      files = map.from_entries (text_entries s.files.entries);
      opened = option_map (λ o. record { name = string_bytes o.name; position = o.position }) s.opened;
      fails = s.fails.items;
      most = s.most;
      calls = s.calls;
      reading = s.reading;
      writing = s.writing;
    } };

    ghost invariant = { λ s. 0 < s.most };
}

impl MemShelf {
    /// A shelf with no file, whose calls of the numbers in `fails` fail, and whose `next` gives at most `most` bytes.
    pub fn new(fails: Vec<u64>, most: u32) -> MemShelf
        requires { 0 < most }
        ensures { result ≡ record { files = map.empty; opened = None; fails = fails.items; most = most; calls = 0; reading = 0; writing = 0 } }
    {
        let alloc = *fails.allocator();
        MemShelf {
            files: BTreeMap::new(alloc),
            opened: None,
            fails,
            most,
            calls: 0,
            reading: 0,
            writing: 0,
        }
    }

    /// Replaces or makes a file. It is no numbered call; `NoMemory` is its only refusal, and then all is as before.
    pub fn put_file(&mut self, name: &String, bytes: &Vec<u8>) -> Result<(), ShelfFault>
        ensures put { OnOk result (self.new ≡ record self.old { files = map.insert self.old.files (string_bytes name.now) bytes.now.items }) }
        ensures stored { OnOk result (map.get self.new.files (string_bytes name.now) ≡ Some bytes.now.items) }
        ensures others { (other : List ℕ) → other ≢ string_bytes name.now → map.get self.new.files other ≡ map.get self.old.files other }
        ensures unchanged { OnErr result (self.new ≡ self.old) }
        ensures no_memory { OnErr result (IsErrOf result ShelfFault.NoMemory) }
    {
        let alloc = *self.fails.allocator();
        let Ok(name) = String::from_str(alloc, name.as_str()) else {
            return Err(ShelfFault::NoMemory);
        };
        let Ok(bytes) = Vec::from_slice(alloc, bytes.as_slice()) else {
            return Err(ShelfFault::NoMemory);
        };
        match self.files.insert(name, bytes) {
            Ok(_) => Ok(()),
            Err(_) => Err(ShelfFault::NoMemory),
        }
    }

    /// The bytes of the file of a name, or None where there is none.
    pub fn file(&self, name: &String) -> Option<&Vec<u8>>
        ensures { option_map (λ file. file.now.items) result ≡ map.get self.now.files (string_bytes name.now) }
    {
        self.files.get(name.as_str())
    }

    /// Counts a fault of reading.
    fn reading_fault(&mut self) -> ShelfFault
        ensures value { result ≡ ShelfFault.Failed }
        ensures counted { self.new ≡ record self.old { reading = raised self.old.reading } }
        ensures rises { self.old.reading ≤ self.new.reading }
        ensures rose { Rose self.old.reading self.new.reading }
    {
        self.reading = raise(self.reading);
        ShelfFault::Failed
    }

    /// Counts a call, and answers whether it is to fail.
    fn call(&mut self) -> bool
        ensures failing { result ≡ fails_next self.old.fails self.old.calls }
        ensures after { self.new ≡ shelf_called self.old }
        ensures not_failing { IsTrue (fails_no_more self.old.fails self.old.calls) → result ≡ false }
        ensures steady { IsTrue (fails_no_more self.old.fails self.old.calls) → IsTrue (fails_no_more self.new.fails self.new.calls) }
    {
        let failing = is_failing(&self.fails, self.calls);
        self.calls = raise(self.calls);
        failing
    }

    /// Closes the open file.
    fn close(&mut self)
        ensures { self.new ≡ record self.old { opened = None } }
    {
        self.opened = None;
    }

    /// Opens a file that is there at its first byte.
    fn begin(&mut self, alloc: Global, name: &String) -> Result<(), ShelfFault>
        ensures begun { OnOk result (self.new ≡ record self.old { opened = Some (record { name = string_bytes name.now; position = 0 }) }) }
        ensures unchanged { OnErr result (self.new ≡ self.old) }
        ensures no_memory { OnErr result (IsErrOf result ShelfFault.NoMemory) }
    {
        match String::from_str(alloc, name.as_str()) {
            Ok(name) => {
                self.opened = Some(Opened { name, position: 0 });
                Ok(())
            }
            Err(_) => Err(ShelfFault::NoMemory),
        }
    }

    /// What the open file has yet to give.
    fn rest(&self) -> &[u8]
        ensures bytes { result.now ≡ rest_of self.now }
        ensures fits { IfSome self.now.opened (λ o. o.position + length result.now < 2 ^ 64) }
    {
        match &self.opened {
            Some(opened) => match self.file(&opened.name) {
                Some(bytes) => bytes_from(bytes.as_slice(), opened.position),
                None => bytes_from(&[], opened.position),
            },
            None => &[],
        }
    }

    /// Copies the next bytes of the open file to the front of `into`, and answers how many.
    fn give(&self, into: &mut [u8]) -> usize
        ensures count { result ≡ min (length (rest_of self.now)) (min (length into.old) self.now.most) }
        ensures bytes { take result into.new ≡ take result (rest_of self.now) }
        ensures most { 0 < self.now.most }
        ensures fits { IfSome self.now.opened (λ o. o.position + result < 2 ^ 64) }
    {
        let rest = self.rest();
        let count = rest.len().min(into.len().min(self.most as usize));
        into[..count].copy_from_slice(&rest[..count]);
        count
    }

    /// Moves the position in the open file.
    fn advance(&mut self, count: usize)
        requires { IfSome self.old.opened (λ o. o.position + count < 2 ^ 64) }
        ensures { self.new ≡ record self.old { opened = moved count self.old.opened } }
    {
        if let Some(opened) = &mut self.opened {
            opened.position += count;
        }
    }

    /// Puts the bytes of the named file, of which there may be `limit`, into an empty `into`.
    fn copy(&self, name: &String, limit: u64, into: &mut Vec<u8>) -> Result<(), ShelfFault>
        requires { into.old.items ≡ [] }
        ensures content { OnOk result (map.get self.now.files (string_bytes name.now) ≡ Some into.new.items) }
        ensures within { OnOk result (length into.new.items ≤ limit) }
        ensures emptied { OnErr result (into.new.items ≡ []) }
        ensures too_long { IsErrOf result ShelfFault.TooLong →
            (bytes : List ℕ) × (map.get self.now.files (string_bytes name.now) ≡ Some bytes) × (limit < length bytes) }
        ensures absent { IsErrOf result ShelfFault.Failed → map.get self.now.files (string_bytes name.now) ≡ None }
    {
        let Some(bytes) = self.file(name) else {
            return Err(ShelfFault::Failed);
        };
        if bytes.len() as u64 > limit {
            return Err(ShelfFault::TooLong);
        }
        match into.extend_from_slice(bytes.as_slice()) {
            Ok(()) => Ok(()),
            Err(_) => Err(ShelfFault::NoMemory),
        }
    }
}

/// The bytes from a position on, and none where there are fewer.
fn bytes_from(bytes: &[u8], position: usize) -> &[u8]
    ensures bytes { result.now ≡ drop position bytes.now }
    ensures fits { position + length result.now < 2 ^ 64 }
{
    if position <= bytes.len() {
        &bytes[position..]
    } else {
        &[]
    }
}

impl Shelf for MemShelf {
    ghost state = { shelf_state };

    fn read(
        &mut self,
        _alloc: Global,
        name: &String,
        limit: u64,
        into: &mut Vec<u8>,
    ) -> Result<(), ShelfFault>
        ensures content { OnOk result (map.get self.old.files (string_bytes name.now) ≡ Some into.new.items) }
        ensures within { OnOk result (length into.new.items ≤ limit) }
        ensures emptied { OnErr result (into.new.items ≡ []) }
        ensures too_long { IsErrOf result ShelfFault.TooLong →
            (bytes : List ℕ) × (map.get self.old.files (string_bytes name.now) ≡ Some bytes) × (limit < length bytes) }

        // A call whose number is listed fails, and another one only where the file is absent.
        ensures listed { IsTrue (fails_next self.old.fails self.old.calls) → IsErrOf result ShelfFault.Failed }
        ensures unlisted { IsErrOf result ShelfFault.Failed → fails_next self.old.fails self.old.calls ≡ false → map.get self.old.files (string_bytes name.now) ≡ None }
        ensures absent { IsErrOf result ShelfFault.Failed → IsTrue (fails_no_more self.old.fails self.old.calls) → map.get self.old.files (string_bytes name.now) ≡ None }

        // What is counted, and nothing else changes.
        ensures counted { self.new ≡ record (shelf_called self.old) { opened = None; reading = self.new.reading } }
        ensures failed { IsErrOf result ShelfFault.Failed → Rose self.old.reading self.new.reading }
        ensures only_read { OnlyRead (shelf_state self.old) (shelf_state self.new) }
    {
        into.clear();
        self.close();
        if self.call() {
            return Err(self.reading_fault());
        }
        match self.copy(name, limit, into) {
            Ok(()) => Ok(()),
            Err(ShelfFault::Failed) => Err(self.reading_fault()),
            Err(other) => Err(other),
        }
    }

    fn write(&mut self, _alloc: Global, name: &String, bytes: &Vec<u8>) -> Result<(), ShelfFault>
        ensures written { OnOk result (map.get self.new.files (string_bytes name.now) ≡ Some bytes.now.items) }
        ensures others { (other : List ℕ) → other ≢ string_bytes name.now → map.get self.new.files other ≡ map.get self.old.files other }
        ensures unchanged { OnErr result (self.new.files ≡ self.old.files) }
        ensures never_too_long { IsErrOf result ShelfFault.TooLong → ⊥ }

        // A call fails exactly where its number is listed.
        ensures listed { IsErrOf result ShelfFault.Failed ↔ IsTrue (fails_next self.old.fails self.old.calls) }
        ensures never_fails { IsErrOf result ShelfFault.Failed → IsTrue (fails_no_more self.old.fails self.old.calls) → ⊥ }

        // What is counted, and nothing else changes.
        ensures counted { self.new ≡ record (shelf_called self.old) { files = self.new.files; opened = None; writing = self.new.writing } }
        ensures failed { IsErrOf result ShelfFault.Failed → Rose self.old.writing self.new.writing }
        ensures only_wrote { OnlyWrote (string_bytes name.now) (shelf_state self.old) (shelf_state self.new) }
    {
        self.close();
        if self.call() {
            self.writing = raise(self.writing);
            return Err(ShelfFault::Failed);
        }
        self.put_file(name, bytes)
    }

    fn open(&mut self, alloc: Global, name: &String) -> Result<(), ShelfFault>
        ensures opened { OnOk result (map.get self.old.files (string_bytes name.now) ≡ Some (rest_of self.new)) }
        ensures closed { OnErr result (self.new.opened ≡ None) }
        ensures never_too_long { IsErrOf result ShelfFault.TooLong → ⊥ }

        // A call whose number is listed fails, and another one only where the file is absent.
        ensures listed { IsTrue (fails_next self.old.fails self.old.calls) → IsErrOf result ShelfFault.Failed }
        ensures unlisted { IsErrOf result ShelfFault.Failed → fails_next self.old.fails self.old.calls ≡ false → map.get self.old.files (string_bytes name.now) ≡ None }
        ensures absent { IsErrOf result ShelfFault.Failed → IsTrue (fails_no_more self.old.fails self.old.calls) → map.get self.old.files (string_bytes name.now) ≡ None }

        // What is counted, and nothing else changes.
        ensures counted { self.new ≡ record (shelf_called self.old) { opened = self.new.opened; reading = self.new.reading } }
        ensures failed { IsErrOf result ShelfFault.Failed → Rose self.old.reading self.new.reading }
        ensures only_read { OnlyRead (shelf_state self.old) (shelf_state self.new) }
    {
        self.close();
        if self.call() {
            return Err(self.reading_fault());
        }
        if self.file(name).is_none() {
            return Err(self.reading_fault());
        }
        self.begin(alloc, name)
    }

    fn next(&mut self, into: &mut [u8]) -> Result<usize, ShelfFault>
        requires { 0 < length into.old }
        ensures count { IfOk result (λ n. n ≡ min (length (rest_of self.old)) (min (length into.old) self.old.most)) }
        ensures most { IfOk result (λ _. 0 < self.old.most) }
        ensures given { IfOk result (λ n. take n into.new ≡ take n (rest_of self.old)) }
        ensures moves { IfOk result (λ n. self.new.opened ≡ moved n self.old.opened) }
        ensures fault { OnErr result (IsErrOf result ShelfFault.Failed) }
        ensures stays { OnErr result (self.new.opened ≡ self.old.opened) }

        // A call fails exactly where its number is listed.
        ensures listed { IsErrOf result ShelfFault.Failed ↔ IsTrue (fails_next self.old.fails self.old.calls) }
        ensures never_fails { IsTrue (fails_no_more self.old.fails self.old.calls) → IsOk result }

        // What is counted, and nothing else changes.
        ensures counted { self.new ≡ record (shelf_called self.old) { opened = self.new.opened; reading = self.new.reading } }
        ensures failed { OnErr result (Rose self.old.reading self.new.reading) }
        ensures only_read { OnlyRead (shelf_state self.old) (shelf_state self.new) }
    {
        if self.call() {
            return Err(self.reading_fault());
        }
        let count = self.give(into);
        self.advance(count);
        Ok(count)
    }
}
