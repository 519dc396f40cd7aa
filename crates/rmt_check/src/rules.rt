//! The rules of form. The function of a code answers the earliest place at which its rule is broken; the head of each
//! file tells the codes that it decides.

pub mod applied;
pub mod arguments;
pub mod assigned;
pub mod counts;
pub mod keys;
pub mod later;
pub mod name_twice;
pub mod same_width;
pub mod unknown;
pub mod widths;

// What the rules share.
pub mod parts;
pub mod places;
pub mod repeats;
pub mod search;
pub mod sums;
