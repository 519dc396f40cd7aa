//! The rows of actions and fields.

use crate::grammar::Want;
use crate::grammar_rows::Row;

pub const ACTION_ROWS: [Row; 50] = [
    Row {
        at: Want::ActionName,
        token: "NAME",
        then: Want::ActionOpen,
    },
    Row {
        at: Want::ActionOpen,
        token: "(",
        then: Want::ParamOrClose,
    },
    Row {
        at: Want::ParamOrClose,
        token: "NAME",
        then: Want::ParamColon,
    },
    Row {
        at: Want::ParamOrClose,
        token: ")",
        then: Want::BodyOpen,
    },
    Row {
        at: Want::ParamName,
        token: "NAME",
        then: Want::ParamColon,
    },
    Row {
        at: Want::ParamColon,
        token: ":",
        then: Want::ParamWidth,
    },
    Row {
        at: Want::ParamWidth,
        token: "NUMBER",
        then: Want::ParamMore,
    },
    Row {
        at: Want::ParamMore,
        token: ",",
        then: Want::ParamName,
    },
    Row {
        at: Want::ParamMore,
        token: ")",
        then: Want::BodyOpen,
    },
    Row {
        at: Want::BodyOpen,
        token: "{",
        then: Want::BodyItem,
    },
    Row {
        at: Want::BodyItem,
        token: "NAME",
        then: Want::FieldDot,
    },
    Row {
        at: Want::BodyItem,
        token: "meta",
        then: Want::MetaDot,
    },
    Row {
        at: Want::BodyItem,
        token: "in_port",
        then: Want::AssignEqual,
    },
    Row {
        at: Want::BodyItem,
        token: "out_port",
        then: Want::AssignEqual,
    },
    Row {
        at: Want::BodyItem,
        token: "drop",
        then: Want::AssignEqual,
    },
    Row {
        at: Want::BodyItem,
        token: "}",
        then: Want::Top,
    },
    Row {
        at: Want::AssignEqual,
        token: "=",
        then: Want::LeafFirst,
    },
    Row {
        at: Want::LeafFirst,
        token: "NUMBER",
        then: Want::FirstEnd,
    },
    Row {
        at: Want::LeafFirst,
        token: "NAME",
        then: Want::FirstName,
    },
    Row {
        at: Want::LeafFirst,
        token: "meta",
        then: Want::MetaDot,
    },
    Row {
        at: Want::LeafFirst,
        token: "in_port",
        then: Want::FirstEnd,
    },
    Row {
        at: Want::LeafFirst,
        token: "out_port",
        then: Want::FirstEnd,
    },
    Row {
        at: Want::LeafFirst,
        token: "drop",
        then: Want::FirstEnd,
    },
    Row {
        at: Want::FirstName,
        token: ".",
        then: Want::FieldName,
    },
    Row {
        at: Want::FirstName,
        token: "+",
        then: Want::LeafSecond,
    },
    Row {
        at: Want::FirstName,
        token: "-",
        then: Want::LeafSecond,
    },
    Row {
        at: Want::FirstName,
        token: "&",
        then: Want::LeafSecond,
    },
    Row {
        at: Want::FirstName,
        token: "|",
        then: Want::LeafSecond,
    },
    Row {
        at: Want::FirstName,
        token: "^",
        then: Want::LeafSecond,
    },
    Row {
        at: Want::FirstName,
        token: ";",
        then: Want::BodyItem,
    },
    Row {
        at: Want::FirstEnd,
        token: "+",
        then: Want::LeafSecond,
    },
    Row {
        at: Want::FirstEnd,
        token: "-",
        then: Want::LeafSecond,
    },
    Row {
        at: Want::FirstEnd,
        token: "&",
        then: Want::LeafSecond,
    },
    Row {
        at: Want::FirstEnd,
        token: "|",
        then: Want::LeafSecond,
    },
    Row {
        at: Want::FirstEnd,
        token: "^",
        then: Want::LeafSecond,
    },
    Row {
        at: Want::FirstEnd,
        token: ";",
        then: Want::BodyItem,
    },
    Row {
        at: Want::LeafSecond,
        token: "NUMBER",
        then: Want::SecondEnd,
    },
    Row {
        at: Want::LeafSecond,
        token: "NAME",
        then: Want::SecondName,
    },
    Row {
        at: Want::LeafSecond,
        token: "meta",
        then: Want::MetaDot,
    },
    Row {
        at: Want::LeafSecond,
        token: "in_port",
        then: Want::SecondEnd,
    },
    Row {
        at: Want::LeafSecond,
        token: "out_port",
        then: Want::SecondEnd,
    },
    Row {
        at: Want::LeafSecond,
        token: "drop",
        then: Want::SecondEnd,
    },
    Row {
        at: Want::SecondName,
        token: ".",
        then: Want::FieldName,
    },
    Row {
        at: Want::SecondName,
        token: ";",
        then: Want::BodyItem,
    },
    Row {
        at: Want::SecondEnd,
        token: ";",
        then: Want::BodyItem,
    },
    Row {
        at: Want::FieldDot,
        token: ".",
        then: Want::FieldName,
    },
    Row {
        at: Want::FieldName,
        token: "NAME",
        then: Want::Back,
    },
    Row {
        at: Want::FieldName,
        token: "valid",
        then: Want::Back,
    },
    Row {
        at: Want::MetaDot,
        token: ".",
        then: Want::MetaName,
    },
    Row {
        at: Want::MetaName,
        token: "NAME",
        then: Want::Back,
    },
];
