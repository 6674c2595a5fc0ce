// The copy step of a split.
ghost use Rattle.std.specs.Prelude.{◌*◌, ◌≤◌, ◌<◌, ◌≡◌, length};
ghost use Rattle.stores.specs.Executed.{Executed, due_limit};
ghost use Rattle.index_rules.specs.Split.{copying};
ghost use Rattle.index_layout.specs.Blocks.{shared};
ghost use Rattle.index_segment.specs.Slot.{SlotCopied};

use crate::live::moves;
use crate::slot::slots;
use cells::{Record, clear_key, store_record};
use index_layout::SEGMENT_WORDS;
use index_layout::key::Block;
use stores::Budget;

// One slot of the copy step: a record that moves goes to the same slot of the new segment, value
// before key, so that a cut between the two shows no record with another's value. In place of any
// other record the key word is cleared.
fn copy_slot(new_segment: &mut [u64], slot: usize, held: Record, block: Block, budget: &mut Budget)
    requires { (length new_segment.old ≡ 128) × (slot < 64) × (budget.old.due ≤ 2 * due_limit) }
    ensures { SlotCopied held block slot budget.old new_segment.old budget.new new_segment.new }
{
    if moves(block, held.key) {
        store_record(new_segment, 0, slot, held, budget);
    } else {
        clear_key(new_segment, 0, slot, budget);
    }
}

// Copies to the new segment the records of the old one, the block's, that a split moves, slots rising
// (document 01, split, step 3).
pub fn copy_records(
    old: [u64; SEGMENT_WORDS],
    new_segment: &mut [u64],
    block: Block,
    budget: &mut Budget,
)
    requires { (length new_segment.old ≡ 128) × (budget.old.due ≤ due_limit) }
    ensures { Executed (copying old 0 0 block.local_depth (shared block)) budget.old new_segment.old budget.new new_segment.new }
{
    for (slot, [key, value]) in slots(&old).iter().enumerate() {
        let held = Record {
            key: *key,
            value: *value,
        };
        copy_slot(new_segment, slot, held, block, budget);
    }
}
