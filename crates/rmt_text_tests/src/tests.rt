//! What texts of programs and entries say, each way in which one is bad, and messages.

mod check;
mod compare;
mod entries;
mod messages;
mod names;
mod tails;
mod tokens;
mod trees;
