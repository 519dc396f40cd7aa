//! The tree of a list of tokens, or its first fault.

ghost use Rattle.std.specs.Prelude.{◌≡◌, ◌+◌, ◌<◌, [], ◌∷◌, Some, Err, IfOk, IfErr, OnOk, Bool, true, false, length, slice_get};
ghost use Rattle.rmt_lexer.specs.declared.fault.ProgramFault.TheVariants.{At};
ghost use Rattle.rmt_syntax.specs.declared.grammar.Part.TheVariants.{One, Node};
ghost use Rattle.rmt_syntax.specs.declared.grammar.Phrase.TheVariants.{Done, Whole};
ghost use Rattle.rmt_syntax.specs.declared.terminal.Terminal.TheVariants.{Dot, Name};
ghost use Rattle.rmt_syntax.specs.declared.tree.Rule.TheVariants as rule;
ghost use Rattle.rmt_syntax.specs.declared.tree.Rule.TheVariants.{Block};
ghost use Rattle.rmt_syntax.specs.Grammar.{terminal_of};
ghost use Rattle.rmt_syntax.specs.Trees.{Answers, Gives, IsTreeOf};
ghost use Rattle.rmt_lexer.specs.Text.{EndsOnce};
ghost use Rattle.rmt_syntax.specs.Lookahead.{is_done, is_operand_name, weight};
ghost use Rattle.rmt_syntax.specs.State.{Before, goals_of};

use crate::grammar::{Part, Phrase};
use crate::lookahead::{choice_of, is_done, is_operand_name};
use crate::reader::Reader;
use crate::terminal::{Terminal, is_same, terminal_of};
use crate::tree::{Rule, Tree};
use rmt_lexer::fault::ProgramFault;
use rmt_lexer::token::Token;
use std::alloc::Global;

/// The greatest number of blocks in one another.
const MOST_BLOCKS: u8 = 32;

/// How a step of the parser ends: with the fault that refuses the text, if there is one.
type Step = Result<(), ProgramFault>;

/// The fault of a rule at a token.
fn fault_at(code: u8, token: &Token) -> ProgramFault
    ensures { result ≡ At code token.now.line token.now.column }
{
    ProgramFault::At {
        code,
        line: token.line,
        column: token.column,
    }
}

/// The token at a place.
fn token_at(tokens: &[Token], at: usize) -> &Token
    requires { at < length tokens.now }
    ensures { slice_get tokens.now at ≡ Some result.now }
{
    &tokens[at]
}

/// Whether a token is of a kind.
#[tactic(auto, using(crate::proofs::Sets::same_is, crate::proofs::Sets::same_refl))]
fn is_kind(token: &Token, wanted: Terminal) -> bool
    ensures yes { result ≡ true → terminal_of token.now.what ≡ wanted }
    ensures no { result ≡ false → terminal_of token.now.what ≡ wanted → ⊥ }
{
    is_same(wanted, terminal_of(token))
}

/// Takes a token as the part that comes next, or refuses it.
fn take_part(reader: &mut Reader, tokens: &[Token], at: usize, wanted: Terminal) -> Step
    requires inside { at < length tokens.now }
    requires ends { EndsOnce tokens.now }
    requires next { slice_get reader.old.inner.todo.now 0 ≡ Some (One wanted) }
    requires stands { Before tokens.now at reader.old }
    ensures ok { OnOk result (Before tokens.now (at + 1) reader.new) }
    ensures err { IfErr result (λ fault. Answers tokens.now (Err fault)) }
{
    let token = token_at(tokens, at);
    if !is_kind(token, wanted) {
        return Err(fault_at(3, token));
    }
    reader.take(token.copy(reader.alloc)?)?;
    Ok(())
}

/// Refuses a token where a block is to come and none begins, or a 33rd one does.
fn check_block(reader: &Reader, tokens: &[Token], at: usize, rule: Rule) -> Step
    requires inside { at < length tokens.now }
    requires next { slice_get reader.now.inner.todo.now 0 ≡ Some (Node rule) }
    requires stands { Before tokens.now at reader.now }
    ensures ok { OnOk result (rule ≡ Block → reader.now.depth < 32) }
    ensures err { IfErr result (λ fault. Answers tokens.now (Err fault)) }
{
    let Rule::Block = rule else {
        return Ok(());
    };
    let token = token_at(tokens, at);
    if !is_kind(token, Terminal::OpenBrace) {
        return Err(fault_at(3, token));
    }
    if reader.depth == MOST_BLOCKS {
        return Err(fault_at(4, token));
    }
    Ok(())
}

/// Begins the node that comes next, or refuses the token.
fn enter_node(reader: &mut Reader, tokens: &[Token], at: usize, rule: Rule) -> Step
    requires inside { at < length tokens.now }
    requires next { slice_get reader.old.inner.todo.now 0 ≡ Some (Node rule) }
    requires stands { Before tokens.now at reader.old }
    ensures ok { OnOk result (Before tokens.now at reader.new) }
    ensures lower { OnOk result (weight (goals_of reader.new) < weight (goals_of reader.old)) }
    ensures err { IfErr result (λ fault. Answers tokens.now (Err fault)) }
{
    check_block(reader, tokens, at, rule)?;
    reader.enter(rule)?;
    Ok(())
}

/// Ends the node that is read, or refuses the token behind the text.
fn close_node(reader: &mut Reader, tokens: &[Token], at: usize) -> Step
    requires inside { at < length tokens.now }
    requires next { reader.old.inner.todo.now ≡ [] }
    requires then { reader.old.inner.then ≡ Done }
    requires stands { Before tokens.now at reader.old }
    ensures ok { OnOk result (Before tokens.now at reader.new) }
    ensures lower { OnOk result (weight (goals_of reader.new) < weight (goals_of reader.old)) }
    ensures err { IfErr result (λ fault. Answers tokens.now (Err fault)) }
{
    if reader.close()? {
        Ok(())
    } else {
        Err(fault_at(3, token_at(tokens, at)))
    }
}

/// Goes on with the form of the phrase that begins with the token, or refuses it.
fn choose_form(reader: &mut Reader, tokens: &[Token], at: usize) -> Step
    requires inside { at < length tokens.now }
    requires next { reader.old.inner.todo.now ≡ [] }
    requires then { is_done reader.old.inner.then ≡ false }
    requires name { (t : Token) → slice_get tokens.now at ≡ Some t → is_operand_name reader.old.inner.then (terminal_of t.what) ≡ false }
    requires stands { Before tokens.now at reader.old }
    ensures ok { OnOk result (Before tokens.now at reader.new) }
    ensures lower { OnOk result (weight (goals_of reader.new) < weight (goals_of reader.old)) }
    ensures err { IfErr result (λ fault. Answers tokens.now (Err fault)) }
{
    let token = token_at(tokens, at);
    match choice_of(reader.inner.then, terminal_of(token)) {
        Some(choice) => {
            reader.choose(&choice);
            Ok(())
        }
        None => Err(fault_at(3, token)),
    }
}

/// Whether there is a dot at a place.
fn is_dot(tokens: &[Token], at: usize) -> bool
    ensures dot { result ≡ true → (t : Token) × (slice_get tokens.now at ≡ Some t) × (terminal_of t.what ≡ Dot) }
    ensures other { result ≡ false → (t : Token) → slice_get tokens.now at ≡ Some t → terminal_of t.what ≡ Dot → ⊥ }
{
    match tokens.get(at) {
        Some(token) => is_kind(token, Terminal::Dot),
        None => false,
    }
}

/// Takes a name as an operand, or as the first token of one.
fn take_operand(reader: &mut Reader, tokens: &[Token], at: usize) -> Step
    requires inside { at < length tokens.now }
    requires ends { EndsOnce tokens.now }
    requires next { reader.old.inner.todo.now ≡ [] }
    requires then { reader.old.inner.then ≡ Whole rule.Leaf }
    requires name { (t : Token) → slice_get tokens.now at ≡ Some t → terminal_of t.what ≡ Name }
    requires stands { Before tokens.now at reader.old }
    ensures ok { OnOk result (Before tokens.now (at + 1) reader.new) }
    ensures err { IfErr result (λ fault. Answers tokens.now (Err fault)) }
{
    let token = token_at(tokens, at);
    let name = token.copy(reader.alloc)?;
    if is_dot(tokens, at + 1) {
        reader.take_field(name)?;
        Ok(())
    } else {
        reader.take_name(name)?;
        Ok(())
    }
}

/// Goes on with the phrase that comes next, and tells whether the token is taken.
fn pass_phrase(reader: &mut Reader, tokens: &[Token], at: usize) -> Result<bool, ProgramFault>
    requires inside { at < length tokens.now }
    requires ends { EndsOnce tokens.now }
    requires next { reader.old.inner.todo.now ≡ [] }
    requires stands { Before tokens.now at reader.old }
    ensures taken { IfOk result (λ taken. taken ≡ true → Before tokens.now (at + 1) reader.new) }
    ensures stands { IfOk result (λ taken. taken ≡ false → Before tokens.now at reader.new) }
    ensures lower { IfOk result (λ taken. taken ≡ false → weight (goals_of reader.new) < weight (goals_of reader.old)) }
    ensures err { IfErr result (λ fault. Answers tokens.now (Err fault)) }
{
    let phrase = reader.inner.then;
    if is_done(phrase) {
        close_node(reader, tokens, at)?;
        return Ok(false);
    }
    if is_operand_name(phrase, terminal_of(token_at(tokens, at))) {
        take_operand(reader, tokens, at)?;
        return Ok(true);
    }
    choose_form(reader, tokens, at)?;
    Ok(false)
}

/// Reads one token.
fn read_token(reader: &mut Reader, tokens: &[Token], at: usize) -> Step
    requires inside { at < length tokens.now }
    requires ends { EndsOnce tokens.now }
    requires stands { Before tokens.now at reader.old }
    ensures ok { OnOk result (Before tokens.now (at + 1) reader.new) }
    ensures err { IfErr result (λ fault. Answers tokens.now (Err fault)) }
{
    loop {
        match reader.next() {
            Some(Part::One(wanted)) => return take_part(reader, tokens, at, wanted),
            Some(Part::Node(rule)) => enter_node(reader, tokens, at, rule)?,
            None => {
                if pass_phrase(reader, tokens, at)? {
                    return Ok(());
                }
            }
        }
    }
}

/// The parse tree of these tokens, the last of which is the end and no other. It takes time and memory in proportion to
/// the tokens. Refused for want of memory, and at the earlier of: the first token that cannot stand where it does
/// (code 3), and the first token of a block inside 32 others (code 4).
pub fn syntax(alloc: Global, tokens: &Vec<Token>) -> Result<Tree, ProgramFault>
    requires { EndsOnce tokens.now.items }
    ensures answer { Answers tokens.now.items result }
    ensures only { (other : Tree) → IsTreeOf tokens.now.items other → Gives result other }
{
    let mut reader = Reader::new(alloc);
    for at in 0..tokens.len() {
        read_token(&mut reader, tokens.as_slice(), at)?;
    }
    Ok(reader.finish())
}
