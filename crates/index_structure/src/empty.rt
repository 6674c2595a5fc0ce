// The stores of a format.
ghost use Rattle.std.specs.Prelude.{◌≡◌, true, ◌+◌, ◌≤◌, length};
ghost use Rattle.stores.specs.Executed.{Executed, begun, due_limit};
ghost use Rattle.index_rules.specs.Layout.{valid_shape, words_for};
ghost use Rattle.index_rules.specs.Format.{clearing, format_stores};

use cells::clear_key;
use index_layout::SLOTS;
use index_layout::header::{pack_header, segment_base};
use stores::Budget;

// Stores 0 as the key of each slot of the segment at `base`, rising.
fn clear_keys(words: &mut [u64], base: usize, budget: &mut Budget)
    requires { (base + 128 ≤ length words.old) × (budget.old.due ≤ due_limit) }
    ensures { Executed (clearing base) budget.old words.old budget.new words.new }
{
    // By index: a store takes its address.
    for slot in 0..SLOTS {
        clear_key(words, base, slot, budget);
    }
}

// Makes an empty index of this shape. Word 0 is not valid before the last store, so a cut leaves no
// index.
pub fn store_empty(words: &mut [u64], max_depth: u32, segments: u32, allowance: u32) -> Budget
    requires { (valid_shape max_depth segments ≡ true) × (words_for max_depth segments ≤ length words.old) }
    ensures { Executed (format_stores max_depth segments) (begun allowance) words.old result words.new }
{
    let mut budget = Budget::new(allowance);
    budget.store(words, 0, 0);
    budget.store(words, 1, 0);
    let base = segment_base(max_depth, 0);
    clear_keys(words, base, &mut budget);
    let word = pack_header(0, max_depth, segments);
    budget.store(words, 0, word);
    budget
}
