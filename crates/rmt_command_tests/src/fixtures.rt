//! What the tests of the commands begin with.

pub mod captures;
pub mod cases;
pub mod commands;
pub mod images;
pub mod programs;
