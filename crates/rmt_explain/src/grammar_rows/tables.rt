//! The rows of tables.

use crate::grammar::Want;
use crate::grammar_rows::Row;

pub const TABLE_ROWS: [Row; 33] = [
    Row {
        at: Want::TableName,
        token: "NAME",
        then: Want::TableOpen,
    },
    Row {
        at: Want::TableOpen,
        token: "{",
        then: Want::TableItem,
    },
    Row {
        at: Want::TableItem,
        token: "exact",
        then: Want::KeyField,
    },
    Row {
        at: Want::TableItem,
        token: "prefix",
        then: Want::KeyField,
    },
    Row {
        at: Want::TableItem,
        token: "ternary",
        then: Want::KeyField,
    },
    Row {
        at: Want::TableItem,
        token: "default",
        then: Want::DefaultName,
    },
    Row {
        at: Want::KeyField,
        token: "NAME",
        then: Want::FieldDot,
    },
    Row {
        at: Want::KeyField,
        token: "meta",
        then: Want::MetaDot,
    },
    Row {
        at: Want::KeyField,
        token: "in_port",
        then: Want::KeyMore,
    },
    Row {
        at: Want::KeyField,
        token: "out_port",
        then: Want::KeyMore,
    },
    Row {
        at: Want::KeyField,
        token: "drop",
        then: Want::KeyMore,
    },
    Row {
        at: Want::KeyMore,
        token: ",",
        then: Want::KeyField,
    },
    Row {
        at: Want::KeyMore,
        token: ";",
        then: Want::ActionsWord,
    },
    Row {
        at: Want::ActionsWord,
        token: "actions",
        then: Want::ActionsName,
    },
    Row {
        at: Want::ActionsName,
        token: "NAME",
        then: Want::ActionsMore,
    },
    Row {
        at: Want::ActionsMore,
        token: ",",
        then: Want::ActionsName,
    },
    Row {
        at: Want::ActionsMore,
        token: ";",
        then: Want::SizeWord,
    },
    Row {
        at: Want::SizeWord,
        token: "size",
        then: Want::SizeNumber,
    },
    Row {
        at: Want::SizeNumber,
        token: "NUMBER",
        then: Want::SizeEnd,
    },
    Row {
        at: Want::SizeEnd,
        token: ";",
        then: Want::CountedOrDefault,
    },
    Row {
        at: Want::CountedOrDefault,
        token: "counted",
        then: Want::CountedEnd,
    },
    Row {
        at: Want::CountedOrDefault,
        token: "default",
        then: Want::DefaultName,
    },
    Row {
        at: Want::CountedEnd,
        token: ";",
        then: Want::DefaultWord,
    },
    Row {
        at: Want::DefaultWord,
        token: "default",
        then: Want::DefaultName,
    },
    Row {
        at: Want::DefaultName,
        token: "NAME",
        then: Want::DefaultOpen,
    },
    Row {
        at: Want::DefaultOpen,
        token: "(",
        then: Want::ArgOrClose,
    },
    Row {
        at: Want::ArgOrClose,
        token: "NUMBER",
        then: Want::ArgMore,
    },
    Row {
        at: Want::ArgOrClose,
        token: ")",
        then: Want::DefaultEnd,
    },
    Row {
        at: Want::Arg,
        token: "NUMBER",
        then: Want::ArgMore,
    },
    Row {
        at: Want::ArgMore,
        token: ",",
        then: Want::Arg,
    },
    Row {
        at: Want::ArgMore,
        token: ")",
        then: Want::DefaultEnd,
    },
    Row {
        at: Want::DefaultEnd,
        token: ";",
        then: Want::TableClose,
    },
    Row {
        at: Want::TableClose,
        token: "}",
        then: Want::Top,
    },
];
