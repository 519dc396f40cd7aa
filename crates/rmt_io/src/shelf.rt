//! Files as the commands see them.

ghost use Rattle.std.specs.Prelude.{◌≡◌, [], ◌<◌, ◌≤◌, ◌↔◌, length, take, IsTrue, IfOk, OnOk, OnErr, IsOk, IsErrOf, string_bytes};
ghost use Rattle.rmt_io.specs.Outside.{ShelfState, HasFile, HasLonger, LacksFile, KeepsFiles, GaveBytes, ReadingFailed, WritingFailed, OnlyRead, OnlyWrote};

use std::alloc::Global;
use thiserror::Error;

/// Why a shelf did not do what it was asked.
#[derive(Clone, Copy, Debug, Drop, PartialEq, Eq, Error)]
pub enum ShelfFault {
    #[error("the file cannot be read or written")]
    Failed,
    #[error("the file is longer than its limit")]
    TooLong,
    #[error("out of memory")]
    NoMemory,
}

/// Files by name, of which one may be open, with a position in it up to which its bytes were given.
pub trait Shelf {
    /// What contracts see of it.
    ghost state: { Self → ShelfState };

    /// Replaces what `into` held by the bytes of the named file, of which there may be `limit`. No file is open then.
    fn read(
        &mut self,
        alloc: Global,
        name: &String,
        limit: u64,
        into: &mut Vec<u8>,
    ) -> Result<(), ShelfFault>
        ensures content { OnOk result (HasFile (state self.old) (string_bytes name.now) into.new.items) }
        ensures within { OnOk result (length into.new.items ≤ limit) }
        ensures emptied { OnErr result (into.new.items ≡ []) }
        ensures closed { (state self.new).rest ≡ [] }
        ensures only_read { OnlyRead (state self.old) (state self.new) }

        // Longer files alone are too long.
        ensures too_long { IsErrOf result ShelfFault.TooLong → HasLonger (state self.old) (string_bytes name.now) limit }

        // A fault is counted, and a steady shelf, which tells its files, has it only where the file is absent.
        ensures failed { IsErrOf result ShelfFault.Failed → ReadingFailed (state self.old) (state self.new) }
        ensures absent { IsErrOf result ShelfFault.Failed → LacksFile (state self.old) (string_bytes name.now) }
        ensures steady_tells { IsTrue (state self.old).steady → IsTrue (state self.old).tells };

    /// Makes the named file these bytes, whether it was there or not. No file is open then.
    fn write(&mut self, alloc: Global, name: &String, bytes: &Vec<u8>) -> Result<(), ShelfFault>
        ensures written { OnOk result (HasFile (state self.new) (string_bytes name.now) bytes.now.items) }
        ensures no_memory { IsErrOf result ShelfFault.NoMemory → KeepsFiles (state self.old) (state self.new) }
        ensures never_too_long { IsErrOf result ShelfFault.TooLong → ⊥ }
        ensures closed { (state self.new).rest ≡ [] }
        ensures only_wrote { OnlyWrote (string_bytes name.now) (state self.old) (state self.new) }

        // A fault is counted, and a steady shelf, which tells its files, has none.
        ensures failed { IsErrOf result ShelfFault.Failed → WritingFailed (state self.old) (state self.new) }
        ensures never_fails { IsErrOf result ShelfFault.Failed → IsTrue (state self.old).steady → ⊥ }
        ensures steady_tells { IsTrue (state self.old).steady → IsTrue (state self.old).tells };

    /// Opens the named file at its first byte, in place of the one that was open. After a refusal no file is open.
    fn open(&mut self, alloc: Global, name: &String) -> Result<(), ShelfFault>
        ensures opened { OnOk result (HasFile (state self.old) (string_bytes name.now) (state self.new).rest) }
        ensures closed { OnErr result ((state self.new).rest ≡ []) }
        ensures never_too_long { IsErrOf result ShelfFault.TooLong → ⊥ }
        ensures only_read { OnlyRead (state self.old) (state self.new) }

        // A fault is counted, and a steady shelf, which tells its files, has it only where the file is absent.
        ensures failed { IsErrOf result ShelfFault.Failed → ReadingFailed (state self.old) (state self.new) }
        ensures absent { IsErrOf result ShelfFault.Failed → LacksFile (state self.old) (string_bytes name.now) }
        ensures steady_tells { IsTrue (state self.old).steady → IsTrue (state self.old).tells };

    /// Puts the next bytes of the open file at the front of `into`, moves the position behind them, and answers how
    /// many they are: none at the file's end and where no file is open, and else at least one.
    fn next(&mut self, into: &mut [u8]) -> Result<usize, ShelfFault>
        requires { 0 < length into.old }
        ensures within { IfOk result (λ n. n ≤ length into.new) }
        ensures given { IfOk result (λ n. GaveBytes (state self.old) (state self.new) (take n into.new)) }
        ensures end { IfOk result (λ n. IsTrue (state self.old).tells → (n ≡ 0 ↔ (state self.old).rest ≡ [])) }
        ensures only_read { OnlyRead (state self.old) (state self.new) }

        // A fault is counted, and leaves the position; a steady shelf, which tells its files, has none.
        ensures fault { OnErr result (IsErrOf result ShelfFault.Failed) }
        ensures failed { OnErr result (ReadingFailed (state self.old) (state self.new)) }
        ensures stays { OnErr result ((state self.new).rest ≡ (state self.old).rest) }
        ensures never_fails { IsTrue (state self.old).steady → IsOk result }
        ensures steady_tells { IsTrue (state self.old).steady → IsTrue (state self.old).tells };
}
