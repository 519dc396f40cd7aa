//! What holds of the tokens of every text.

ghost use Rattle.std.specs.Prelude.{◌≡◌, ◌+◌, ◌≤◌, ℕ, List, length, Ok, Err};
ghost use Rattle.rmt_lexer.specs.Text.{EndsOnce, tokens_of};
ghost use Rattle.rmt_lexer.specs.declared.token.Token.{Token};
ghost use Rattle.rmt_lexer.specs.declared.fault.ProgramFault.TheVariants.{NoMemory};

/// The tokens of a text end once, and are at most one more than its bytes; and what is wrong with a text is no want of
/// memory.
pub fn tokens_or_fault()
    ensures ends { (text : List ℕ) (tokens : List Token) → tokens_of text ≡ Ok tokens → EndsOnce tokens }
    ensures few { (text : List ℕ) (tokens : List Token) → tokens_of text ≡ Ok tokens → length tokens ≤ length text + 1 }
    ensures fault { (text : List ℕ) → tokens_of text ≡ Err NoMemory → ⊥ }
{}
