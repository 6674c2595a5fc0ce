// The slots of a merge: document 02, wish 6. The left segment is the document's a, the right one its b;
// `joined` is the block that the two halves make.
ghost use Rattle.std.specs.Prelude.{◌*◌, ◌≤◌, ◌<◌, ◌≡◌, length};
ghost use Rattle.stores.specs.Executed.{Executed, due_limit};
ghost use Rattle.index_rules.specs.Merge.{both_live, merging_slots};
ghost use Rattle.index_layout.specs.Blocks.{shared};
ghost use Rattle.index_segment.specs.Merge.{both_keys_live, sides_merged};

use crate::live::is_live_in_half;
use crate::slot::slots;
use cells::{Record, clear_key, store_record};
use index_layout::SEGMENT_WORDS;
use index_layout::key::Block;
use stores::Budget;

// What a slot holds on both sides: the left segment's key, and the right one's record.
#[derive(Clone, Copy)]
pub(crate) struct Sides {
    pub left_key: u64,
    pub right: Record,
}

// One key is live in the left half and the other in the right half.
fn both_keys_live(joined: Block, left_key: u64, key: u64) -> bool
    ensures { result ≡ both_keys_live joined left_key key }
{
    is_live_in_half(joined, 0, left_key) && is_live_in_half(joined, 1, key)
}

// Some slot is live on both sides: what merge refuses with 15.
pub fn some_both_live(left: &[u64], right: &[u64], joined: Block) -> bool
    requires { (length left.now ≡ 128) × (length right.now ≡ 128) }
    ensures { result ≡ both_live left.now 0 right.now 0 joined.local_depth (shared joined) }
{
    // A `for` and no `any`: tried, and what `any` says of a `zip` does not close the proof.
    for (left_slot, right_slot) in slots(left).iter().zip(slots(right)) {
        if both_keys_live(joined, left_slot[0], right_slot[0]) {
            return true;
        }
    }
    false
}

// One slot of the left segment: the right one's record, if it is live there, value, then key. Where
// neither is live, a key that is not 0 is cleared: it could be live in the joined block.
fn merge_slot(segment: &mut [u64], slot: usize, sides: Sides, joined: Block, budget: &mut Budget)
    requires { (length segment.old ≡ 128) × (slot < 64) × (budget.old.due ≤ 2 * due_limit) }
    ensures { Executed (sides_merged joined slot sides) budget.old segment.old budget.new segment.new }
{
    if is_live_in_half(joined, 1, sides.right.key) {
        store_record(segment, 0, slot, sides.right, budget);
    } else if sides.left_key != 0 && !is_live_in_half(joined, 0, sides.left_key) {
        clear_key(segment, 0, slot, budget);
    }
}

// The slots of the left segment, rising, which is lent to be written; `left` and `right` are the words of
// both segments before the merge.
pub fn merge_records(
    left: [u64; SEGMENT_WORDS],
    right: [u64; SEGMENT_WORDS],
    segment: &mut [u64],
    joined: Block,
    budget: &mut Budget,
)
    requires { (length segment.old ≡ 128) × (budget.old.due ≤ due_limit) }
    ensures { Executed (merging_slots left 0 right 0 joined.local_depth (shared joined)) budget.old segment.old budget.new segment.new }
{
    // The left slot by its number, and no `zip`: tried, and under `enumerate` no law says which turn it is.
    let left_slots = slots(&left);
    for (slot, [key, value]) in slots(&right).iter().enumerate() {
        let sides = Sides {
            left_key: left_slots[slot][0],
            right: Record {
                key: *key,
                value: *value,
            },
        };
        merge_slot(segment, slot, sides, joined, budget);
    }
}
