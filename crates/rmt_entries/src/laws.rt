//! What holds of the entries of every text.

ghost use Rattle.std.specs.Prelude.{◌≡◌, ℕ, List, Ok, Err};
ghost use Rattle.rmt_ast.specs.declared.program.Program.{Program};
ghost use Rattle.rmt_ast.specs.declared.entry.Entry.{Entry};
ghost use Rattle.rmt_ast.specs.EntryLists.{AreEntries};
ghost use Rattle.rmt_ast.specs.WellFormed.{IsProgram};
ghost use Rattle.rmt_entries.specs.Entries.{entries_of};
ghost use Rattle.rmt_entries.specs.declared.fault.EntryFault.TheVariants.{NoMemory};

/// The lists that a text says for a well-formed program are well formed for it; and what is wrong with a text is no
/// want of memory.
pub fn lists_or_fault()
    ensures lists { (p : Program) (text : List ℕ) (lists : List (List Entry)) → IsProgram p → entries_of p text ≡ Ok lists → AreEntries p lists }
    ensures fault { (p : Program) (text : List ℕ) → entries_of p text ≡ Err NoMemory → ⊥ }
{}
