//! What may stand where in a program's text: enough of the grammar to tell for a token what was wanted there.

use crate::grammar_rows::rows_of;
use crate::message::Message;
use crate::scan::{byte_at, is_name_byte, token_from};
use rmt_bits::digits::is_digit;
use std::alloc::Global;

/// A place in the grammar, before a token: of the text, then those of headers, actions, tables and `control`.
#[derive(Clone, Copy)]
pub enum Want {
    Top,
    End,
    HeaderName,
    HeaderOpen,
    HeaderItem,
    FieldColon,
    FieldWidth,
    FieldEnd,
    TailName,
    TailStar,
    TailUnit,
    TailMinus,
    TailBase,
    TailEnd,
    HeaderClose,
    NextWord,
    NextTarget,
    NextEnd,
    SelectName,
    SelectMore,
    SelectOpen,
    Case,
    CaseValue,
    CaseMask,
    CaseMasked,
    CaseNumber,
    CaseTarget,
    CaseEnd,
    ElseColon,
    ElseTarget,
    ElseEnd,
    SelectClose,
    MetaOpen,
    MetaItem,
    MetaColon,
    MetaWidth,
    MetaEnd,
    ActionName,
    ActionOpen,
    ParamOrClose,
    ParamName,
    ParamColon,
    ParamWidth,
    ParamMore,
    BodyOpen,
    BodyItem,
    AssignEqual,
    LeafFirst,
    FirstName,
    FirstEnd,
    LeafSecond,
    SecondName,
    SecondEnd,
    FieldDot,
    FieldName,
    MetaDot,
    MetaName,
    Back,
    TableName,
    TableOpen,
    TableItem,
    KeyField,
    KeyMore,
    ActionsWord,
    ActionsName,
    ActionsMore,
    SizeWord,
    SizeNumber,
    SizeEnd,
    CountedOrDefault,
    CountedEnd,
    DefaultWord,
    DefaultName,
    DefaultOpen,
    ArgOrClose,
    Arg,
    ArgMore,
    DefaultEnd,
    TableClose,
    ControlOpen,
    Stmt,
    AfterIf,
    Close,
    ApplyName,
    ApplyMore,
    Arm,
    ArmOpen,
    IfOpen,
    IfField,
    IfMore,
    IfMask,
    IfEqual,
    IfNumber,
    IfClose,
    ThenOpen,
    ElseOpen,
}

/// What a pair of braces in `control` belongs to.
#[derive(Clone, Copy)]
enum Block {
    Control,
    Then,
    Else,
    Arms,
    Arm,
}

/// A walk over the tokens of a text.
#[derive(Drop)]
pub struct Walk {
    /// What may stand next.
    want: Want,
    /// What may stand behind the field that is being read.
    back: Want,
    /// The open braces of `control`.
    blocks: Vec<Block>,
}

/// The words that are no names.
const RESERVED: [&str; 25] = [
    "header", "next", "accept", "reject", "meta", "action", "table", "exact", "prefix", "ternary",
    "actions", "default", "size", "counted", "control", "apply", "if", "else", "hit", "miss",
    "in_port", "out_port", "drop", "valid", "tail",
];

/// Whether a word is reserved.
pub fn is_reserved(word: &[u8]) -> bool {
    for reserved in RESERVED.iter() {
        if reserved.as_bytes() == word {
            return true;
        }
    }
    false
}

/// Whether a word has the form of a name, reserved or not.
pub fn is_word(word: &[u8]) -> bool {
    let first = byte_at(word, 0);
    is_name_byte(first) && !is_digit(first)
}

/// Whether a token is what a row of the grammar has.
fn is_of(row: &str, word: &[u8]) -> bool {
    match row {
        "NAME" => is_word(word) && !is_reserved(word),
        "NUMBER" => is_digit(byte_at(word, 0)),
        "END" => false,
        _ => row.as_bytes() == word,
    }
}

/// Whether two places of the grammar are one.
pub fn is_same(a: Want, b: Want) -> bool {
    a as u8 == b as u8
}

impl Walk {
    /// A walk before the first token.
    pub fn new(alloc: Global) -> Walk {
        Walk {
            want: Want::Top,
            back: Want::Top,
            blocks: Vec::new(alloc),
        }
    }

    /// What may stand next.
    pub fn want(&self) -> Want {
        self.want
    }

    /// Takes a token, and answers whether it may stand here.
    pub fn take(&mut self, word: &[u8]) -> bool {
        for row in rows_of(self.want) {
            if is_same(row.at, self.want) && is_of(row.token, word) {
                self.back = back_of(self.want, self.back);
                self.open(word);
                self.want = self.reached(row.then);
                return true;
            }
        }
        false
    }

    /// Notes the block that a token opens. Where there is no memory for it, what is wanted later is told wrongly, and
    /// nothing else depends on it.
    fn open(&mut self, word: &[u8]) {
        if word == b"{".as_slice() {
            let block = match self.want {
                Want::ControlOpen => Block::Control,
                Want::ThenOpen => Block::Then,
                Want::ElseOpen => Block::Else,
                Want::ApplyMore => Block::Arms,
                Want::ArmOpen => Block::Arm,
                _ => return,
            };
            let _ = self.blocks.push(block).is_ok();
        }
    }

    /// The place that a row leads to.
    fn reached(&mut self, then: Want) -> Want {
        match then {
            Want::Back => self.back,
            Want::Close => match self.blocks.pop() {
                Some(Block::Control) | None => Want::End,
                Some(Block::Then) => Want::AfterIf,
                Some(Block::Arm) => Want::Arm,
                Some(Block::Else) | Some(Block::Arms) => Want::Stmt,
            },
            other => other,
        }
    }
}

/// What may stand behind the field that begins at a place; what was before, where none begins there.
fn back_of(want: Want, before: Want) -> Want {
    match want {
        Want::BodyItem => Want::AssignEqual,
        Want::LeafFirst => Want::FirstEnd,
        Want::LeafSecond => Want::SecondEnd,
        Want::KeyField => Want::KeyMore,
        Want::IfField => Want::IfMore,
        _ => before,
    }
}

/// The place of the grammar before the token at a position, or before the first token that may not stand where it does.
pub fn want_at(alloc: Global, text: &[u8], position: usize) -> Want {
    let mut walk = Walk::new(alloc);
    let mut at = 0;
    for _ in 0..text.len() {
        match token_from(text, at) {
            Some(token) if token.start < position => {
                if !walk.take(token.word) {
                    break;
                }
                at = token.end;
            }
            _ => break,
        }
    }
    walk.want()
}

/// Says what may stand at a place: `a name, A or B`.
pub fn say_wanted(want: Want, message: &mut Message) {
    let mut left = 0usize;
    for row in rows_of(want) {
        if is_same(row.at, want) {
            left = left.saturating_add(1);
        }
    }
    let mut is_first = true;
    for row in rows_of(want) {
        if is_same(row.at, want) {
            if !is_first {
                message.say(if left == 1 { " or " } else { ", " });
            }
            say_row(row.token, message);
            is_first = false;
            left = left.saturating_sub(1);
        }
    }
}

/// Says what a row of the grammar has.
fn say_row(token: &str, message: &mut Message) {
    match token {
        "NAME" => message.say("a name"),
        "NUMBER" => message.say("a number"),
        "END" => message.say("the end of the text"),
        _ => {
            message.say("`");
            message.say(token);
            message.say("`");
        }
    }
}

/// Whether a name may stand at a place.
pub fn wants_name(want: Want) -> bool {
    for row in rows_of(want) {
        if is_same(row.at, want) && row.token == "NAME" {
            return true;
        }
    }
    false
}
