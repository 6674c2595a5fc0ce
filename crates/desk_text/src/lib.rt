// The text of the desk program: a line, and the call that it is.
#![tactic(auto)]

pub mod fields;
pub mod line;
