// What makes and moves segments: the empty index of a format, the split of a key's segment, and the merge of
// a key's block and its buddy.
#![tactic(auto)]

pub mod empty;
pub mod merge;
mod read;
pub mod split;
