//! Which form of a rule comes, by the next token.

ghost use Rattle.std.specs.Prelude.{◌≡◌, map, option_map};
ghost use Rattle.std.specs.List.{find};
ghost use Rattle.rmt_syntax.specs.Lookahead.{member, first_of, may_begin, is_done, is_operand_name, choice_of};

use crate::grammar::{Choice, Part, Phrase, choices};
use crate::terminal::{Terminal, is_same};
use crate::tree::Rule;

/// A list of terminals.
macro_rules! terminals {
    ($($terminal:ident),*) => { &[$(Terminal::$terminal),*] };
}

/// The terminals that the text of a rule may begin with, in the order of its forms.
fn first_of(rule: Rule) -> &'static [Terminal]
    ensures { result.now ≡ first_of rule }
{
    match rule {
        Rule::Program => terminals![Header, Meta, Action, Table, Control, End],
        Rule::Header => terminals![Header],
        Rule::Next => terminals![Name, Accept, Reject, OpenParen],
        Rule::Case | Rule::Value => terminals![Number],
        Rule::Target => terminals![Name, Accept, Reject],
        Rule::Meta => terminals![Meta],
        Rule::Action => terminals![Action],
        Rule::Param => terminals![Name],
        Rule::Field => terminals![Name, Meta, InPort, OutPort, Drop],
        Rule::Expr | Rule::Leaf => terminals![Name, Meta, InPort, OutPort, Drop, Name, Number],
        Rule::Table => terminals![Table],
        Rule::Key => terminals![Exact, Prefix, Ternary],
        Rule::Control => terminals![Control],
        Rule::Block => terminals![OpenBrace],
        Rule::Stmt => terminals![Apply, If],
        Rule::Arm => terminals![Hit, Miss, Name],
    }
}

/// Whether a terminal is in the list.
fn is_member(terminal: Terminal, terminals: &[Terminal]) -> bool
    ensures { result ≡ member terminal terminals.now }
{
    terminals.iter().any(|other| is_same(*other, terminal))
}

/// Whether a form may begin with a terminal. One without parts may always stand.
fn may_begin(choice: &Choice, terminal: Terminal) -> bool
    ensures { result ≡ may_begin (choice.now.parts.now, choice.now.then) terminal }
{
    match choice.parts {
        [] => true,
        [Part::One(wanted), ..] => is_same(*wanted, terminal),
        [Part::Node(rule), ..] => is_member(terminal, first_of(*rule)),
    }
}

/// The first of these forms that may begin with a terminal.
fn found(forms: &'static [Choice], terminal: Terminal) -> Option<Choice>
    ensures { option_map (λ c. (c.parts.now, c.then)) result ≡ find (λ form. may_begin form terminal) (map (λ c. (c.parts.now, c.then)) forms.now) }
{
    for form in forms {
        if may_begin(form, terminal) {
            return Some(*form);
        }
    }
    None
}

/// Whether nothing more is to come of a phrase.
pub fn is_done(phrase: Phrase) -> bool
    ensures { result ≡ is_done phrase }
{
    match phrase {
        Phrase::Done => true,
        _ => false,
    }
}

/// Whether a name as an operand comes next.
pub fn is_operand_name(phrase: Phrase, terminal: Terminal) -> bool
    ensures { result ≡ is_operand_name phrase terminal }
{
    match phrase {
        Phrase::Whole(Rule::Leaf) => is_same(Terminal::Name, terminal),
        _ => false,
    }
}

/// The form of a phrase at a terminal. A name as an operand has two.
pub fn choice_of(phrase: Phrase, terminal: Terminal) -> Option<Choice>
    ensures { option_map (λ c. (c.parts.now, c.then)) result ≡ choice_of phrase terminal }
{
    found(choices(phrase), terminal)
}
