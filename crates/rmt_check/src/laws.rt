//! What the crates above rely on, as laws: programs that break no rule are well formed, and trees have their parts.

ghost use Rattle.std.specs.Prelude.{◌≡◌, ℕ, List, None, Ok};
ghost use Rattle.rmt_ast.specs.declared.program.Program.{Program};
ghost use Rattle.rmt_ast.specs.WellFormed.{IsProgram};
ghost use Rattle.rmt_check.specs.Parts.{Token, Rule, Tree, Source};
ghost use Rattle.rmt_lexer.specs.Text.{tokens_of};
ghost use Rattle.rmt_syntax.specs.Trees.{IsOf, IsText, IsTreeOf, marks};
ghost use Rattle.rmt_check.specs.Found.{IsFound};
ghost use Rattle.rmt_check.specs.Meaning.{program_of, Answers};
ghost use Rattle.rmt_check.specs.Means.{Means, Outcome};
ghost use Rattle.rmt_check.specs.NamedTexts.{HasNameForms, IsShortFor};
ghost use Rattle.rmt_check.specs.Naming.{IsOfText, WordsArePlain};
ghost use Rattle.rmt_check.specs.Reading.{parts, source_of};
ghost use Rattle.rmt_check.specs.Rules.{fault_of};

use rmt_lexer::laws::tokens_or_fault;
use rmt_syntax::laws::{node_parts, token_part, tree_or_fault};

/// The program of a source with the parts of a text is well formed, where the source breaks no rule.
pub fn program_is_well_formed()
    ensures { (s : Source) → IsOfText s → fault_of s ≡ None → IsProgram (program_of s) }
{}

/// What the reader looks for in the text of a rule is there, in each tree of that rule.
pub fn parts_are_found()
    ensures { (r : Rule) (t : Tree) → IsOf r t → IsFound r (parts t) }
{
    node_parts();
    token_part();
}

/// A source that is read from a tree of the grammar has the parts of a text, where no word of the tree has a dot.
pub fn source_is_of_text()
    ensures { (t : Tree) → IsText (marks t) → WordsArePlain t → IsOfText (source_of t) }
{
    node_parts();
    token_part();
}

/// A program that is the answer to a text of bytes is well formed.
pub fn answer_is_well_formed()
    ensures { (text : List ℕ) (tokens : List Token) (t : Tree) (p : Program) → tokens_of text ≡ Ok tokens → IsTreeOf tokens t → Answers (source_of t) (Ok p)
        → IsProgram p }
{
    program_is_well_formed();
    source_is_of_text();
}

/// The names of the tables and actions of a text are names as an image may have them.
pub fn text_has_names()
    ensures { (text : List ℕ) (tokens : List Token) (t : Tree) → tokens_of text ≡ Ok tokens → IsTreeOf tokens t → HasNameForms (program_of (source_of t)) }
{
    node_parts();
    token_part();
}

/// Each text has exactly one meaning, however long it is. A program that it means is well formed and has names that an image
/// may have; and the names of its tables and of the actions in their lists, each action in every list that names it, are
/// together no longer than the text.
pub fn one_meaning()
    ensures some { (text : List ℕ) → (m : Outcome) × Means text m }
    ensures alone { (text : List ℕ) (m n : Outcome) → Means text m → Means text n → m ≡ n }
    ensures formed { (text : List ℕ) (p : Program) → Means text (Ok p) → IsProgram p }
    ensures named { (text : List ℕ) (p : Program) → Means text (Ok p) → HasNameForms p }
    ensures short { (text : List ℕ) (p : Program) → Means text (Ok p) → IsShortFor text p }
{
    tokens_or_fault();
    tree_or_fault();
    answer_is_well_formed();
    text_has_names();
}
