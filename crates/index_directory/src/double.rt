// The doubling of the directory: step 2 of a split.
ghost use Rattle.std.specs.Prelude.{◌+◌, ◌*◌, ◌/◌, ◌≤◌, ◌<◌, [], ◌∷◌, length};
ghost use Rattle.stores.specs.Store.{store, word};
ghost use Rattle.stores.specs.Executed.{Executed, due_limit};
ghost use Rattle.index_rules.specs.Split.{doubling};
ghost use Rattle.index_layout.specs.Headers.{Describes};

use index_layout::header::{Header, pack_header, pow2};
use stores::Budget;

// Stores entry `e` of the next depth, where the present directory has `count` entries.
fn double_entry(words: &mut [u64], count: usize, e: usize, budget: &mut Budget)
    requires { (e < 2 * count) × (4 * count ≤ length words.old) × (budget.old.due < 4294967295) }
    ensures { Executed (store (2 * count + e) (word words.old (count + e / 2)) ∷ []) budget.old words.old budget.new words.new }
{
    let entry = words[count + e / 2];
    budget.store(words, 2 * count + e, entry);
}

// Doubles the directory: the entries of the next depth, rising, then word 0. The entries that are
// read, those of the present depth, are none that are written.
pub fn double(words: &mut [u64], header: Header, budget: &mut Budget)
    requires { Describes header words.old × (header.depth < header.max_depth) × (budget.old.due ≤ due_limit) }
    ensures { Executed (doubling words.old) budget.old words.old budget.new words.new }
{
    let count = pow2(header.depth);
    // By index: a turn stores into the array that it reads.
    for e in 0..2 * count {
        double_entry(words, count, e, budget);
    }
    let word = pack_header(header.depth + 1, header.max_depth, header.segments);
    budget.store(words, 0, word);
}
