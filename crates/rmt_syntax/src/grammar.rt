//! The forms of the text of each rule.

ghost use Rattle.std.specs.Prelude.{◌≡◌, map};
ghost use Rattle.rmt_syntax.specs.Grammar.{choices};

use crate::terminal::Terminal;
use crate::tree::Rule;

/// A part of the text of a rule.
#[derive(Clone, Copy)]
pub enum Part {
    /// A token.
    One(Terminal),
    /// The text of a rule.
    Node(Rule),
}

/// What is still to come of the text of a rule.
#[derive(Clone, Copy)]
pub enum Phrase {
    /// All of it.
    Whole(Rule),
    /// The fields of a header, its tail, if any, and what follows them.
    HeaderFields,
    /// The further names of a select.
    SelectNames,
    /// The cases of a select.
    Cases,
    /// The further values of a case.
    MoreValues,
    /// The mask of a value, if any.
    Mask,
    /// The metadata fields.
    MetaFields,
    /// The parameters of an action.
    Params,
    /// Its further parameters.
    MoreParams,
    /// Its assignments.
    Assignments,
    /// What follows the dot of a header's field.
    FieldEnd,
    /// The operator and its second operand, if any.
    Operation,
    /// The key of a table, if any, and its default.
    TableKey,
    /// The arguments of the default.
    Arguments,
    /// Its further arguments.
    MoreArguments,
    /// The further fields of a key.
    KeyFields,
    /// The further actions of a table.
    KeyActions,
    /// The word `counted`, if it stands there.
    Counted,
    /// The statements of a block.
    Statements,
    /// What follows the table of an `apply`.
    Applied,
    /// Its arms.
    Arms,
    /// What follows the field of an `if`.
    Condition,
    /// The `else` of an `if`, if any.
    Otherwise,
    /// Nothing.
    Done,
}

/// One of the forms of a phrase: its parts up to where there is a choice again, and the phrase that goes on from there.
#[derive(Clone, Copy)]
pub struct Choice {
    /// The parts up to the next choice.
    pub parts: &'static [Part],
    /// The phrase that goes on behind them.
    pub then: Phrase,
}

/// Forms, one a row: its tokens, the rules whose texts stand in it in brackets, and the phrase behind them.
macro_rules! forms {
    ($([$($part:tt)*] => $then:tt $(($rule:ident))?),* $(,)?) => {
        &[$(Choice {
            parts: &[$(part!($part)),*],
            then: Phrase::$then $((Rule::$rule))?,
        }),*]
    };
}

/// A part of a form.
macro_rules! part {
    (($rule:ident)) => { Part::Node(Rule::$rule) };
    ($terminal:ident) => { Part::One(Terminal::$terminal) };
}

/// The forms of a phrase. No two begin with the same token, and one without parts stands last.
pub fn choices(phrase: Phrase) -> &'static [Choice]
    ensures { map (λ c. (c.parts.now, c.then)) result.now ≡ choices phrase }
{
    match phrase {
        // program = { header | meta | action | table } [ control ] END
        Phrase::Whole(Rule::Program) => forms![
            [(Header)] => Whole(Program),
            [(Meta)] => Whole(Program),
            [(Action)] => Whole(Program),
            [(Table)] => Whole(Program),
            [(Control) End] => Done,
            [End] => Done,
        ],
        // header = "header" NAME "{" { NAME ":" NUMBER ";" } [ "tail" NAME "*" NUMBER "-" NUMBER ";" ] "}"
        //     "next" next
        Phrase::Whole(Rule::Header) => forms![[Header Name OpenBrace] => HeaderFields],
        Phrase::HeaderFields => forms![
            [Name Colon Number Semicolon] => HeaderFields,
            [Tail Name Star Number Minus Number Semicolon CloseBrace Next (Next)] => Done,
            [CloseBrace Next (Next)] => Done,
        ],
        // next = target ";" | "(" NAME { "," NAME } ")" "{" { case } "else" ":" target ";" "}"
        Phrase::Whole(Rule::Next) => forms![
            [(Target) Semicolon] => Done,
            [OpenParen Name] => SelectNames,
        ],
        Phrase::SelectNames => forms![[Comma Name] => SelectNames, [CloseParen OpenBrace] => Cases],
        Phrase::Cases => forms![
            [(Case)] => Cases,
            [Else Colon (Target) Semicolon CloseBrace] => Done,
        ],
        // case = value { "," value } ":" target ";"
        Phrase::Whole(Rule::Case) => forms![[(Value)] => MoreValues],
        Phrase::MoreValues => forms![
            [Comma (Value)] => MoreValues,
            [Colon (Target) Semicolon] => Done,
        ],
        // value = NUMBER [ "&" NUMBER ]
        Phrase::Whole(Rule::Value) => forms![[Number] => Mask],
        Phrase::Mask => forms![[Ampersand Number] => Done, [] => Done],
        // target = NAME | "accept" | "reject"
        Phrase::Whole(Rule::Target) => forms![[Name] => Done, [Accept] => Done, [Reject] => Done],
        // meta = "meta" "{" { NAME ":" NUMBER ";" } "}"
        Phrase::Whole(Rule::Meta) => forms![[Meta OpenBrace] => MetaFields],
        Phrase::MetaFields => forms![
            [Name Colon Number Semicolon] => MetaFields,
            [CloseBrace] => Done,
        ],
        // action = "action" NAME "(" [ param { "," param } ] ")" "{" { field "=" expr ";" } "}"
        Phrase::Whole(Rule::Action) => forms![[Action Name OpenParen] => Params],
        Phrase::Params => forms![[(Param)] => MoreParams, [CloseParen OpenBrace] => Assignments],
        Phrase::MoreParams => forms![
            [Comma (Param)] => MoreParams,
            [CloseParen OpenBrace] => Assignments,
        ],
        Phrase::Assignments => forms![
            [(Field) Assign (Expr) Semicolon] => Assignments,
            [CloseBrace] => Done,
        ],
        // param = NAME ":" NUMBER
        Phrase::Whole(Rule::Param) => forms![[Name Colon Number] => Done],
        // field = NAME "." NAME | NAME "." "valid" | "meta" "." NAME | "in_port" | "out_port" | "drop"
        Phrase::Whole(Rule::Field) => forms![
            [Name Dot] => FieldEnd,
            [Meta Dot Name] => Done,
            [InPort] => Done,
            [OutPort] => Done,
            [Drop] => Done,
        ],
        Phrase::FieldEnd => forms![[Name] => Done, [Valid] => Done],
        // expr = leaf [ ( "+" | "-" | "&" | "|" | "^" ) leaf ]
        Phrase::Whole(Rule::Expr) => forms![[(Leaf)] => Operation],
        Phrase::Operation => forms![
            [Plus (Leaf)] => Done,
            [Minus (Leaf)] => Done,
            [Ampersand (Leaf)] => Done,
            [Bar (Leaf)] => Done,
            [Caret (Leaf)] => Done,
            [] => Done,
        ],
        // leaf = field | NAME | NUMBER
        Phrase::Whole(Rule::Leaf) => forms![[(Field)] => Done, [Name] => Done, [Number] => Done],
        // table = "table" NAME "{" [ key ] "default" NAME "(" [ NUMBER { "," NUMBER } ] ")" ";" "}"
        Phrase::Whole(Rule::Table) => forms![[Table Name OpenBrace] => TableKey],
        Phrase::TableKey => forms![
            [(Key) Default Name OpenParen] => Arguments,
            [Default Name OpenParen] => Arguments,
        ],
        Phrase::Arguments => forms![
            [Number] => MoreArguments,
            [CloseParen Semicolon CloseBrace] => Done,
        ],
        Phrase::MoreArguments => forms![
            [Comma Number] => MoreArguments,
            [CloseParen Semicolon CloseBrace] => Done,
        ],
        // key = ( "exact" | "prefix" | "ternary" ) field { "," field } ";" "actions" NAME { "," NAME } ";"
        //     "size" NUMBER ";" [ "counted" ";" ]
        Phrase::Whole(Rule::Key) => forms![
            [Exact (Field)] => KeyFields,
            [Prefix (Field)] => KeyFields,
            [Ternary (Field)] => KeyFields,
        ],
        Phrase::KeyFields => forms![
            [Comma (Field)] => KeyFields,
            [Semicolon Actions Name] => KeyActions,
        ],
        Phrase::KeyActions => forms![
            [Comma Name] => KeyActions,
            [Semicolon Size Number Semicolon] => Counted,
        ],
        Phrase::Counted => forms![[Counted Semicolon] => Done, [] => Done],
        // control = "control" block
        Phrase::Whole(Rule::Control) => forms![[Control (Block)] => Done],
        // block = "{" { stmt } "}"
        Phrase::Whole(Rule::Block) => forms![[OpenBrace] => Statements],
        Phrase::Statements => forms![[(Stmt)] => Statements, [CloseBrace] => Done],
        // stmt = "apply" NAME ( ";" | "{" { arm } "}" ) | "if" "(" field [ "&" NUMBER ] "==" NUMBER ")" block
        //     [ "else" block ]
        Phrase::Whole(Rule::Stmt) => forms![
            [Apply Name] => Applied,
            [If OpenParen (Field)] => Condition,
        ],
        Phrase::Applied => forms![[Semicolon] => Done, [OpenBrace] => Arms],
        Phrase::Arms => forms![[(Arm)] => Arms, [CloseBrace] => Done],
        Phrase::Condition => forms![
            [Ampersand Number Equal Number CloseParen (Block)] => Otherwise,
            [Equal Number CloseParen (Block)] => Otherwise,
        ],
        Phrase::Otherwise => forms![[Else (Block)] => Done, [] => Done],
        // arm = ( "hit" | "miss" | NAME ) block
        Phrase::Whole(Rule::Arm) => forms![
            [Hit (Block)] => Done,
            [Miss (Block)] => Done,
            [Name (Block)] => Done,
        ],
        Phrase::Done => &[],
    }
}
