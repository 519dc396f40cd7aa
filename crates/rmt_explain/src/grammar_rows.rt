//! The grammar of programs as rows: at a place, with a token, to the next place.

mod actions;
mod control;
mod headers;
mod tables;

use crate::grammar::Want;
use crate::grammar_rows::actions::ACTION_ROWS;
use crate::grammar_rows::control::CONTROL_ROWS;
use crate::grammar_rows::headers::HEADER_ROWS;
use crate::grammar_rows::tables::TABLE_ROWS;

/// At a place a token may stand, behind which another place is reached.
#[derive(Clone, Copy)]
pub struct Row {
    pub at: Want,
    /// A sign, a reserved word, `NAME`, `NUMBER`, or `END` for the end of the text.
    pub token: &'static str,
    pub then: Want,
}

/// The rows of a text's declarations and of its end.
const TEXT_ROWS: [Row; 7] = [
    Row {
        at: Want::Top,
        token: "header",
        then: Want::HeaderName,
    },
    Row {
        at: Want::Top,
        token: "meta",
        then: Want::MetaOpen,
    },
    Row {
        at: Want::Top,
        token: "action",
        then: Want::ActionName,
    },
    Row {
        at: Want::Top,
        token: "table",
        then: Want::TableName,
    },
    Row {
        at: Want::Top,
        token: "control",
        then: Want::ControlOpen,
    },
    Row {
        at: Want::Top,
        token: "END",
        then: Want::End,
    },
    Row {
        at: Want::End,
        token: "END",
        then: Want::End,
    },
];

/// The rows among which those of a place are, side by side.
pub fn rows_of(want: Want) -> &'static [Row] {
    let place = want as u8;
    if place < Want::HeaderName as u8 {
        &TEXT_ROWS
    } else if place < Want::ActionName as u8 {
        &HEADER_ROWS
    } else if place < Want::TableName as u8 {
        &ACTION_ROWS
    } else if place < Want::ControlOpen as u8 {
        &TABLE_ROWS
    } else {
        &CONTROL_ROWS
    }
}
