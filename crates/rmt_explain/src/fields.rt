//! Fields and parameters as a program's text names and declares them.

use crate::grammar::Want;
use crate::last_line::number_of;
use crate::message::Message;
use crate::reader::{Reader, Step};
use std::alloc::{AllocError, Global};

/// A field as a text names it.
#[derive(Clone, Copy)]
pub struct FieldName<'t> {
    /// The header's name, or `meta`; nothing where the field is one word.
    pub owner: &'t [u8],
    pub name: &'t [u8],
}

/// Where a name is declared, and how wide it is.
#[derive(Clone, Copy)]
pub struct Width {
    /// The position of its declaration in the text; none where it needs no declaration.
    pub position: Option<usize>,
    /// Its bits; 0 where it is not declared.
    pub bits: u64,
}

/// A parameter of an action.
#[derive(Clone, Copy)]
pub struct Parameter<'t> {
    pub name: &'t [u8],
    pub width: Width,
}

impl<'t> FieldName<'t> {
    /// A field of no name.
    pub fn none() -> FieldName<'t> {
        FieldName {
            owner: b"".as_slice(),
            name: b"".as_slice(),
        }
    }

    /// The field that is being named behind a token, where this one was before it.
    pub fn behind(self, step: &Step<'t>) -> FieldName<'t> {
        match step.want {
            Want::BodyItem | Want::LeafFirst | Want::LeafSecond | Want::KeyField | Want::IfField =>
                {
                    FieldName {
                        owner: b"".as_slice(),
                        name: step.word(),
                    }
                }
            Want::FieldName | Want::MetaName => FieldName {
                owner: self.name,
                name: step.word(),
            },
            _ => self,
        }
    }

    /// Says the field between quotes.
    pub fn say(&self, message: &mut Message) {
        if self.owner.is_empty() {
            message.quote(self.name);
        } else {
            message.quote_two(self.owner, self.name);
        }
    }

    /// The width of a field that needs no declaration.
    fn standing_width(&self) -> u64 {
        if self.name == b"valid".as_slice() || self.name == b"drop".as_slice() {
            1
        } else if self.owner.is_empty() {
            9
        } else {
            0
        }
    }
}

/// The widths of fields, as the text declares them.
pub fn widths_of(
    alloc: Global,
    text: &[u8],
    fields: &[FieldName],
) -> Result<Vec<Width>, AllocError> {
    let mut widths = Vec::new(alloc);
    for field in fields {
        widths.push(Width {
            position: None,
            bits: field.standing_width(),
        })?;
    }
    let mut reader = Reader::new(alloc, text);
    let mut owner = b"".as_slice();
    let mut name = b"".as_slice();
    let mut position = 0;
    for _ in 0..text.len() {
        let Some(step) = reader.next() else {
            break;
        };
        match step.want {
            Want::HeaderName => owner = step.word(),
            Want::MetaOpen => owner = b"meta".as_slice(),
            Want::HeaderItem | Want::MetaItem => {
                name = step.word();
                position = step.token.start;
            }
            Want::FieldWidth | Want::MetaWidth => {
                let width = Width {
                    position: Some(position),
                    bits: number_of(step.word()),
                };
                note_width(
                    fields,
                    widths.as_mut_slice(),
                    FieldName { owner, name },
                    width,
                );
            }
            _ => {}
        }
    }
    Ok(widths)
}

/// Notes the width of a field that is declared, where it is among some fields.
fn note_width(fields: &[FieldName], widths: &mut [Width], found: FieldName, width: Width) {
    for k in 0..fields.len() {
        if fields[k].name == found.name && fields[k].owner == found.owner {
            if let Some(place) = widths.get_mut(k) {
                *place = width;
            }
        }
    }
}

/// The width of a field, as the text declares it.
pub fn width_of(alloc: Global, text: &[u8], field: FieldName) -> Option<Width> {
    let widths = widths_of(alloc, text, &[field]).ok()?;
    let width = widths.first()?;
    if width.bits == 0 { None } else { Some(*width) }
}

/// The parameters of an action, as the text declares it; none where it declares no such action.
pub fn parameters_of<'t>(
    alloc: Global,
    text: &'t [u8],
    action: &[u8],
) -> Option<Vec<Parameter<'t>>> {
    let mut parameters = Vec::new(alloc);
    let mut reader = Reader::new(alloc, text);
    let mut is_inside = false;
    let mut name = b"".as_slice();
    let mut position = 0;
    for _ in 0..text.len() {
        let step = reader.next()?;
        match step.want {
            Want::ActionName => is_inside = step.word() == action,
            Want::ParamOrClose | Want::ParamName => {
                name = step.word();
                position = step.token.start;
            }
            Want::ParamWidth if is_inside => {
                let width = Width {
                    position: Some(position),
                    bits: number_of(step.word()),
                };
                parameters.push(Parameter { name, width }).ok()?;
            }
            Want::BodyOpen if is_inside => return Some(parameters),
            _ => {}
        }
    }
    None
}
