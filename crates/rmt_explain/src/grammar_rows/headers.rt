//! The rows of headers, selects and metadata.

use crate::grammar::Want;
use crate::grammar_rows::Row;

pub const HEADER_ROWS: [Row; 50] = [
    Row {
        at: Want::HeaderName,
        token: "NAME",
        then: Want::HeaderOpen,
    },
    Row {
        at: Want::HeaderOpen,
        token: "{",
        then: Want::HeaderItem,
    },
    Row {
        at: Want::HeaderItem,
        token: "NAME",
        then: Want::FieldColon,
    },
    Row {
        at: Want::HeaderItem,
        token: "tail",
        then: Want::TailName,
    },
    Row {
        at: Want::HeaderItem,
        token: "}",
        then: Want::NextWord,
    },
    Row {
        at: Want::FieldColon,
        token: ":",
        then: Want::FieldWidth,
    },
    Row {
        at: Want::FieldWidth,
        token: "NUMBER",
        then: Want::FieldEnd,
    },
    Row {
        at: Want::FieldEnd,
        token: ";",
        then: Want::HeaderItem,
    },
    Row {
        at: Want::TailName,
        token: "NAME",
        then: Want::TailStar,
    },
    Row {
        at: Want::TailStar,
        token: "*",
        then: Want::TailUnit,
    },
    Row {
        at: Want::TailUnit,
        token: "NUMBER",
        then: Want::TailMinus,
    },
    Row {
        at: Want::TailMinus,
        token: "-",
        then: Want::TailBase,
    },
    Row {
        at: Want::TailBase,
        token: "NUMBER",
        then: Want::TailEnd,
    },
    Row {
        at: Want::TailEnd,
        token: ";",
        then: Want::HeaderClose,
    },
    Row {
        at: Want::HeaderClose,
        token: "}",
        then: Want::NextWord,
    },
    Row {
        at: Want::NextWord,
        token: "next",
        then: Want::NextTarget,
    },
    Row {
        at: Want::NextTarget,
        token: "NAME",
        then: Want::NextEnd,
    },
    Row {
        at: Want::NextTarget,
        token: "accept",
        then: Want::NextEnd,
    },
    Row {
        at: Want::NextTarget,
        token: "reject",
        then: Want::NextEnd,
    },
    Row {
        at: Want::NextTarget,
        token: "(",
        then: Want::SelectName,
    },
    Row {
        at: Want::NextEnd,
        token: ";",
        then: Want::Top,
    },
    Row {
        at: Want::SelectName,
        token: "NAME",
        then: Want::SelectMore,
    },
    Row {
        at: Want::SelectMore,
        token: ",",
        then: Want::SelectName,
    },
    Row {
        at: Want::SelectMore,
        token: ")",
        then: Want::SelectOpen,
    },
    Row {
        at: Want::SelectOpen,
        token: "{",
        then: Want::Case,
    },
    Row {
        at: Want::Case,
        token: "NUMBER",
        then: Want::CaseValue,
    },
    Row {
        at: Want::Case,
        token: "else",
        then: Want::ElseColon,
    },
    Row {
        at: Want::CaseValue,
        token: "&",
        then: Want::CaseMask,
    },
    Row {
        at: Want::CaseValue,
        token: ",",
        then: Want::CaseNumber,
    },
    Row {
        at: Want::CaseValue,
        token: ":",
        then: Want::CaseTarget,
    },
    Row {
        at: Want::CaseMask,
        token: "NUMBER",
        then: Want::CaseMasked,
    },
    Row {
        at: Want::CaseMasked,
        token: ",",
        then: Want::CaseNumber,
    },
    Row {
        at: Want::CaseMasked,
        token: ":",
        then: Want::CaseTarget,
    },
    Row {
        at: Want::CaseNumber,
        token: "NUMBER",
        then: Want::CaseValue,
    },
    Row {
        at: Want::CaseTarget,
        token: "NAME",
        then: Want::CaseEnd,
    },
    Row {
        at: Want::CaseTarget,
        token: "accept",
        then: Want::CaseEnd,
    },
    Row {
        at: Want::CaseTarget,
        token: "reject",
        then: Want::CaseEnd,
    },
    Row {
        at: Want::CaseEnd,
        token: ";",
        then: Want::Case,
    },
    Row {
        at: Want::ElseColon,
        token: ":",
        then: Want::ElseTarget,
    },
    Row {
        at: Want::ElseTarget,
        token: "NAME",
        then: Want::ElseEnd,
    },
    Row {
        at: Want::ElseTarget,
        token: "accept",
        then: Want::ElseEnd,
    },
    Row {
        at: Want::ElseTarget,
        token: "reject",
        then: Want::ElseEnd,
    },
    Row {
        at: Want::ElseEnd,
        token: ";",
        then: Want::SelectClose,
    },
    Row {
        at: Want::SelectClose,
        token: "}",
        then: Want::Top,
    },
    Row {
        at: Want::MetaOpen,
        token: "{",
        then: Want::MetaItem,
    },
    Row {
        at: Want::MetaItem,
        token: "NAME",
        then: Want::MetaColon,
    },
    Row {
        at: Want::MetaItem,
        token: "}",
        then: Want::Top,
    },
    Row {
        at: Want::MetaColon,
        token: ":",
        then: Want::MetaWidth,
    },
    Row {
        at: Want::MetaWidth,
        token: "NUMBER",
        then: Want::MetaEnd,
    },
    Row {
        at: Want::MetaEnd,
        token: ";",
        then: Want::MetaItem,
    },
];
