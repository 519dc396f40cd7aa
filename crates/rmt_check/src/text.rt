//! The whole reading of a program's text.

ghost use Rattle.std.specs.Prelude.{◌<◌, length};
ghost use Rattle.rmt_check.specs.Means.{SaysMeaning};

use crate::answer::check;
use rmt_ast::program::Program;
use rmt_lexer::fault::ProgramFault;
use rmt_lexer::tokens;
use rmt_syntax::syntax;
use std::alloc::Global;

/// The program that a text means.
///
/// # Errors
///
/// The fault that the text means: of its tokens (codes 1 and 2), else of the grammar (3 and 4), else of the rules of form
/// (5 to 21); or want of memory.
pub fn read_program(alloc: Global, text: &[u8]) -> Result<Program, ProgramFault>
    requires { length text.now < 4294967295 }
    ensures { SaysMeaning text.now result }
{
    let tokens = tokens(alloc, text)?;
    let tree = syntax(alloc, &tokens)?;
    check(alloc, &tree)
}
