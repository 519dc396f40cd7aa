//! The tests of images and of what is reported of them: worked rows and calls with ample memory, on public calls alone.
#![tactic(auto)]

pub mod fixtures;
#[cfg(test)]
mod image_names;
#[cfg(test)]
mod image_rules;
#[cfg(test)]
mod images;
#[cfg(test)]
mod reports;
