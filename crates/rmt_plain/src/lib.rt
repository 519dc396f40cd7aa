//! Runs a packet program on one packet after another, table by table, and counts hits of entries. Between packets the
//! entries may change.
#![tactic(auto)]

mod act;
mod answer;
mod control;
mod counters;
pub mod fault;
mod fields;
mod grouping;
mod lookup;
mod marks;
mod matching;
mod numbers;
pub mod plain;
mod reached;
mod run;
mod sent;
mod walk;
