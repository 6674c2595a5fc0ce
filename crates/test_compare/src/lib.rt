// The index beside its model: one call made on both, each with an array of its own, compared and
// counted; and the table of what was counted.
#![tactic(auto)]

pub mod arrays;
pub mod compare;
pub mod family;
mod kind;
mod lines;
mod said;
pub mod tally;
