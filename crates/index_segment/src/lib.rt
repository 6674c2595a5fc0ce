// The 128 words of one segment, lent as a part of the array: the search for a key, the slot for a
// put, the copy step of a split, the slots of a merge, and listing. Slot j is word 2 * j, the key, and
// word 2 * j + 1, the value. A segment is lent as a slice and not as an array: document 01 names the form, a slice
// part starting mid-array.
#![tactic(auto)]

pub mod bucket;
pub mod choice;
pub mod copy;
pub mod listing;
mod live;
pub mod merge;
pub mod probe;
mod slot;
