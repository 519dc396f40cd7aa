//! Packet lines, as they are read, and answer lines, as they are printed.
#![tactic(auto)]

pub mod answer_line;
pub mod line_kind;
pub mod lines;
pub mod packet_line;
pub mod pieces;
