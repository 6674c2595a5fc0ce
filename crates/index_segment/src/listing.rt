// The live records of a segment: their number, and their words in a lent list.
ghost use Rattle.std.specs.Prelude.{ℕ, ◌+◌, ◌*◌, ◌≤◌, ◌≡◌, true, List, length};
ghost use Rattle.index_rules.specs.Keys.{live};
ghost use Rattle.index_rules.specs.Listing.{words_of};
ghost use Rattle.index_layout.specs.Blocks.{shared};
ghost use Rattle.index_segment.specs.Slot.{SlotHolds};
ghost use Rattle.stores.specs.Written.{Written};
ghost use Rattle.index_segment.specs.Listing.{block_records, slot_words, Counted};

use crate::live::is_live;
use crate::slot::slots;
use cells::Record;
use index_layout::key::Block;

// The number of live records of the block's segment.
// By a loop: the chain of `filter` and `count` branches on each key, and takes up to seven times the time.
pub fn count_live(segment: &[u64], block: Block) -> usize
    requires { length segment.now ≡ 128 }
    ensures { Counted segment.now block.local_depth (shared block) result }
{
    let mut count = 0;
    for [key, _] in slots(segment) {
        if is_live(block, *key) {
            count += 1;
        }
    }
    count
}

// Writes a slot's record to the list, key, then value, if the key is live. Answers the position
// behind what is written. The list and the position go through three functions, of which one loops: no struct of both.
fn write_slot(list: &mut [u64], at: usize, held: Record, block: Block) -> usize
    requires { live block.local_depth (shared block) held.key ≡ true → at + 2 ≤ length list.old }
    ensures { (a : List ℕ) (slot : ℕ) → SlotHolds a slot held → Written (slot_words a block slot) at list.old result list.new }
{
    let key = held.key;
    if is_live(block, key) {
        list[at] = key;
        list[at + 1] = held.value;
        return at + 2;
    }
    at
}

// Writes the live records to the list from position `at` on, each as key, then value, slots rising.
// Answers the position behind them.
pub fn write_live(segment: &[u64], block: Block, list: &mut [u64], at: usize) -> usize
    requires { (length segment.now ≡ 128) × (at + 2 * length (block_records segment.now block) ≤ length list.old) }
    ensures { Written (words_of (block_records segment.now block)) at list.old result list.new }
{
    let mut next = at;
    for [key, value] in slots(segment) {
        let held = Record {
            key: *key,
            value: *value,
        };
        next = write_slot(list, next, held, block);
    }
    next
}
