//! The rows of `control`.

use crate::grammar::Want;
use crate::grammar_rows::Row;

pub const CONTROL_ROWS: [Row; 30] = [
    Row {
        at: Want::ControlOpen,
        token: "{",
        then: Want::Stmt,
    },
    Row {
        at: Want::Stmt,
        token: "apply",
        then: Want::ApplyName,
    },
    Row {
        at: Want::Stmt,
        token: "if",
        then: Want::IfOpen,
    },
    Row {
        at: Want::Stmt,
        token: "}",
        then: Want::Close,
    },
    Row {
        at: Want::AfterIf,
        token: "else",
        then: Want::ElseOpen,
    },
    Row {
        at: Want::AfterIf,
        token: "apply",
        then: Want::ApplyName,
    },
    Row {
        at: Want::AfterIf,
        token: "if",
        then: Want::IfOpen,
    },
    Row {
        at: Want::AfterIf,
        token: "}",
        then: Want::Close,
    },
    Row {
        at: Want::ApplyName,
        token: "NAME",
        then: Want::ApplyMore,
    },
    Row {
        at: Want::ApplyMore,
        token: ";",
        then: Want::Stmt,
    },
    Row {
        at: Want::ApplyMore,
        token: "{",
        then: Want::Arm,
    },
    Row {
        at: Want::Arm,
        token: "hit",
        then: Want::ArmOpen,
    },
    Row {
        at: Want::Arm,
        token: "miss",
        then: Want::ArmOpen,
    },
    Row {
        at: Want::Arm,
        token: "NAME",
        then: Want::ArmOpen,
    },
    Row {
        at: Want::Arm,
        token: "}",
        then: Want::Close,
    },
    Row {
        at: Want::ArmOpen,
        token: "{",
        then: Want::Stmt,
    },
    Row {
        at: Want::IfOpen,
        token: "(",
        then: Want::IfField,
    },
    Row {
        at: Want::IfField,
        token: "NAME",
        then: Want::FieldDot,
    },
    Row {
        at: Want::IfField,
        token: "meta",
        then: Want::MetaDot,
    },
    Row {
        at: Want::IfField,
        token: "in_port",
        then: Want::IfMore,
    },
    Row {
        at: Want::IfField,
        token: "out_port",
        then: Want::IfMore,
    },
    Row {
        at: Want::IfField,
        token: "drop",
        then: Want::IfMore,
    },
    Row {
        at: Want::IfMore,
        token: "&",
        then: Want::IfMask,
    },
    Row {
        at: Want::IfMore,
        token: "==",
        then: Want::IfNumber,
    },
    Row {
        at: Want::IfMask,
        token: "NUMBER",
        then: Want::IfEqual,
    },
    Row {
        at: Want::IfEqual,
        token: "==",
        then: Want::IfNumber,
    },
    Row {
        at: Want::IfNumber,
        token: "NUMBER",
        then: Want::IfClose,
    },
    Row {
        at: Want::IfClose,
        token: ")",
        then: Want::ThenOpen,
    },
    Row {
        at: Want::ThenOpen,
        token: "{",
        then: Want::Stmt,
    },
    Row {
        at: Want::ElseOpen,
        token: "{",
        then: Want::Stmt,
    },
];
