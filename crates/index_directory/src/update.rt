// The update of the entries of a block that is split: step 4 of a split.
ghost use Rattle.std.specs.Prelude.{◌+◌, ◌^◌, ◌≤◌, ◌<◌, length};
ghost use Rattle.stores.specs.Executed.{Executed, due_limit};
ghost use Rattle.index_directory.specs.Updates.{filling, updating_of, Updatable};

use index_layout::entry::{block_width, pack_entry};
use index_layout::header::pow2;
use stores::Budget;

// Stores `entry` in the `count` words from `first` on, from right to left.
fn fill_entries(words: &mut [u64], first: usize, count: usize, entry: u64, budget: &mut Budget)
    requires { (first + count ≤ length words.old) × (budget.old.due + count < 2 ^ 32) }
    ensures { Executed (filling first count entry) budget.old words.old budget.new words.new }
{
    // By index: a store takes its address.
    for t in 0..count {
        let from_right = count - 1 - t;
        budget.store(words, first + from_right, entry);
    }
}

// A block of the directory of this depth, with its local depth and its first index, and the segments
// of its left half and of its right half. Without it the update would take eight parameters.
#[derive(Clone, Copy)]
pub struct Halves {
    pub depth: u32,
    pub local_depth: u32,
    pub start: usize,
    pub segment: usize,
    pub new_segment: usize,
}

// Updates the entries of the block, from right to left: the right half gets the new segment, the left
// half keeps its own, both one deeper.
pub fn update_entries(words: &mut [u64], halves: Halves, budget: &mut Budget)
    requires { Updatable halves words.old × (budget.old.due ≤ due_limit) }
    ensures { Executed (updating_of halves) budget.old words.old budget.new words.new }
{
    let depth = halves.depth;
    let local_depth = halves.local_depth;
    let half = block_width(depth, local_depth + 1);
    let left = pow2(depth) + halves.start;
    let right = left + half;
    let left_entry = pack_entry(halves.segment, local_depth + 1);
    let right_entry = pack_entry(halves.new_segment, local_depth + 1);
    fill_entries(words, right, half, right_entry, budget);
    fill_entries(words, left, half, left_entry, budget);
}
