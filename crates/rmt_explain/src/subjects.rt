//! What a place in a program's text stands beside: the field that is assigned or compared there, and the operand itself.

use crate::fields::{FieldName, Parameter, Width, parameters_of, width_of};
use crate::grammar::{Want, is_word};
use crate::message::Message;
use crate::reader::{Reader, Step};
use crate::scan::token_from;
use std::alloc::Global;

/// What a place stands beside.
#[derive(Clone, Copy)]
pub struct Subject<'t> {
    /// The field that is assigned or compared.
    pub field: FieldName<'t>,
    /// The action in which it is assigned.
    action: &'t [u8],
}

/// A reader's memory of what was named on the way to a place.
#[derive(Drop)]
struct Trail<'t> {
    /// The field that is being named.
    running: FieldName<'t>,
    /// The field that is assigned or compared.
    subject: FieldName<'t>,
    header: &'t [u8],
    action: &'t [u8],
    /// The fields of the header's select.
    selects: Vec<&'t [u8]>,
    /// The number of the case's value.
    value: usize,
}

impl<'t> Trail<'t> {
    /// Nothing was named.
    fn new(alloc: Global) -> Trail<'t> {
        Trail {
            running: FieldName::none(),
            subject: FieldName::none(),
            header: b"".as_slice(),
            action: b"".as_slice(),
            selects: Vec::new(alloc),
            value: 0,
        }
    }

    /// Notes a token. Where memory is refused, the message knows less.
    fn note(&mut self, step: &Step<'t>) {
        self.running = self.running.behind(step);
        match step.want {
            Want::HeaderName => self.header = step.word(),
            Want::ActionName => self.action = step.word(),
            Want::NextTarget => self.selects.clear(),
            Want::SelectName => {
                let _ = self.selects.push(step.word()).is_ok();
            }
            Want::SelectOpen | Want::CaseEnd => self.value = 0,
            Want::CaseValue | Want::CaseMasked if step.is(",") => {
                self.value = self.value.saturating_add(1);
            }
            Want::AssignEqual | Want::IfMore => self.subject = self.running,
            _ => {}
        }
    }

    /// What a place stands beside, where this may stand there.
    fn subject(&self, want: Want) -> Option<Subject<'t>> {
        let field = match want {
            Want::LeafFirst | Want::LeafSecond | Want::IfMask | Want::IfNumber => self.subject,
            Want::Case | Want::CaseNumber | Want::CaseMask => FieldName {
                owner: self.header,
                name: *self.selects.get(self.value)?,
            },
            _ => return None,
        };
        Some(Subject {
            field,
            action: self.action,
        })
    }
}

/// What the place at a position stands beside.
pub fn subject_at<'t>(alloc: Global, text: &'t [u8], position: usize) -> Option<Subject<'t>> {
    let mut reader = Reader::new(alloc, text);
    let mut trail = Trail::new(alloc);
    for _ in 0..text.len() {
        match reader.next_before(position) {
            Some(step) => trail.note(&step),
            None => break,
        }
    }
    trail.subject(reader.want())
}

/// What stands at a place where an operand may.
#[derive(Clone, Copy)]
pub enum Operand<'t> {
    Number(&'t [u8]),
    Field(FieldName<'t>, Width),
    Parameter(Parameter<'t>),
}

impl Operand<'_> {
    /// Its width, where it is declared.
    pub fn width(&self) -> Option<Width> {
        match self {
            Operand::Number(_) => None,
            Operand::Field(_, width) => Some(*width),
            Operand::Parameter(parameter) => Some(parameter.width),
        }
    }

    /// Says it between quotes.
    pub fn say(&self, message: &mut Message) {
        match self {
            Operand::Number(word) => message.quote(word),
            Operand::Field(field, _) => field.say(message),
            Operand::Parameter(parameter) => message.quote(parameter.name),
        }
    }
}

/// The operand at a position.
pub fn operand_at<'t>(
    alloc: Global,
    text: &'t [u8],
    position: usize,
    subject: &Subject,
) -> Option<Operand<'t>> {
    let token = token_from(text, position)?;
    if !is_word(token.word) {
        return Some(Operand::Number(token.word));
    }
    let dot = token_from(text, token.end)?;
    if dot.word == b".".as_slice() {
        let name = token_from(text, dot.end)?.word;
        let field = FieldName {
            owner: token.word,
            name,
        };
        return Some(Operand::Field(field, width_of(alloc, text, field)?));
    }
    let parameters = parameters_of(alloc, text, subject.action)?;
    for parameter in parameters.as_slice() {
        if parameter.name == token.word {
            return Some(Operand::Parameter(*parameter));
        }
    }
    let field = FieldName {
        owner: b"".as_slice(),
        name: token.word,
    };
    Some(Operand::Field(field, width_of(alloc, text, field)?))
}
