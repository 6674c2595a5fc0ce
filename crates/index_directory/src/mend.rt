// The stores of a mend.
ghost use Rattle.std.specs.Prelude.{◌≡◌, ◌≤◌, ◌<◌, ltb, length};
ghost use Rattle.stores.specs.Lists.{pick};
ghost use Rattle.stores.specs.Executed.{Executed, due_limit};
ghost use Rattle.index_rules.specs.Layout.{local_depth};
ghost use Rattle.index_rules.specs.Mend.{mending};
ghost use Rattle.index_directory.specs.Updates.{correction};
ghost use Rattle.index_directory.specs.Scans.{block_led_by, LeadersRead};

use crate::scan::LedBlock;
use index_layout::entry::{block_width, local_depth_of};
use index_layout::header::{Header, pow2};
use stores::Budget;

// The block of index `i`, whose entry is `entry`: the block of the index before, until it ends.
fn next_block(block: LedBlock, entry: u64, i: usize, depth: u32) -> LedBlock
    requires { (depth ≤ 12) × (i < 4096) × (block.end ≤ i → local_depth entry ≤ depth) }
    ensures { result ≡ pick (ltb i block.end) block (block_led_by depth i entry) }
{
    if i < block.end {
        return block;
    }
    let end = i + block_width(depth, local_depth_of(entry));
    LedBlock {
        leading: entry,
        end,
    }
}

// Stores the leading entry at `at`, if another stands there.
fn mend_entry(words: &mut [u64], at: usize, leading: u64, budget: &mut Budget)
    requires { (at < length words.old) × (budget.old.due < 4294967295) }
    ensures { Executed (correction words.old at leading) budget.old words.old budget.new words.new }
{
    if words[at] != leading {
        budget.store(words, at, leading);
    }
}

// One pass over the entries: each that differs from its block's leading entry gets that entry. A
// leading entry is never stored, so the one that was read stays right under every allowance.
pub fn mend_entries(words: &mut [u64], header: Header, budget: &mut Budget)
    requires { LeadersRead header words.old × (budget.old.due ≤ due_limit) }
    ensures { Executed (mending words.old) budget.old words.old budget.new words.new }
{
    let count = pow2(header.depth);
    let mut block = LedBlock { leading: 0, end: 0 };
    // By index: a turn stores into the array that it reads.
    for i in 0..count {
        let at = count + i;
        block = next_block(block, words[at], i, header.depth);
        mend_entry(words, at, block.leading, budget);
    }
}
