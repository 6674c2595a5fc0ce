// The entries of a block that a merge makes: document 02, wish 6.
ghost use Rattle.std.specs.Prelude.{◌≤◌};
ghost use Rattle.stores.specs.Executed.{Executed, due_limit};
ghost use Rattle.index_directory.specs.Buddies.{joining_of, Joinable};

use index_layout::entry::{block_width, pack_entry};
use index_layout::header::pow2;
use stores::Budget;

// A block of the directory of this depth: its local depth, its first index and its segment. Without it the
// function below would take seven parameters.
#[derive(Clone, Copy)]
pub struct JoinedBlock {
    pub depth: u32,
    pub local_depth: u32,
    pub start: usize,
    pub segment: usize,
}

// Stores the entry of the whole block, from left to right: from the first store on it leads the block, so
// that mending finishes the merge.
pub fn join_entries(words: &mut [u64], block: JoinedBlock, budget: &mut Budget)
    requires { Joinable block words.old × (budget.old.due ≤ due_limit) }
    ensures { Executed (joining_of block) budget.old words.old budget.new words.new }
{
    let first = pow2(block.depth) + block.start;
    let count = block_width(block.depth, block.local_depth);
    let entry = pack_entry(block.segment, block.local_depth);
    // By index: a store takes its address.
    for t in 0..count {
        budget.store(words, first + t, entry);
    }
}
