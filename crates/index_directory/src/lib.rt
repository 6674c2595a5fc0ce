// The directory of the index: the scan over the blocks, the free segment, and the directory's part of a
// split, of a merge and of a mend.
#![tactic(auto)]

pub mod bit_set;
pub mod buddy;
pub mod double;
pub mod free;
pub mod join;
pub mod mend;
pub mod scan;
pub mod update;
