// The plan of a merge (document 02, wish 6): the key's block and its buddy become the block one depth
// shallower, in the left segment.
use std::array;
use test_array::array::{SLOTS, entry_address, entry_of};
use test_array::blocks::{
    Block, block_at, block_of, indices_of, key_address_in, key_in, record_in,
};
use test_array::draft::Draft;
use test_array::outcomes::{Refusal, Reply};
use test_array::records::Record;
use test_array::route::is_live;
use test_array::scan::tests_of_change;

// The block led at the first index of the other half of the block one depth shallower, if there is such a
// block and the half has one depth. The starts of two such halves differ by the weight of one bit, which is
// their width.
fn buddy_of(words: &[u64], block: Block) -> Option<Block> {
    let buddy = block_at(words, block.shape, block.start ^ block.width);
    let is_half = block.local_depth != 0 && buddy.local_depth == block.local_depth;
    is_half.then_some(buddy)
}

// Whether the key in a slot of a block is live there.
fn is_live_in(words: &[u64], block: Block, slot: u32) -> bool {
    is_live(key_in(words, block, slot), block)
}

// Whether some slot is live on both sides.
fn is_both_live(words: &[u64], block: Block, buddy: Block) -> bool {
    (0..SLOTS).any(|slot| is_live_in(words, block, slot) && is_live_in(words, buddy, slot))
}

// What a slot of the left segment comes to have: the right one's record, no key, or what it has.
#[derive(Clone, Copy)]
enum Merged {
    Moved(Record),
    Cleared,
    Kept,
}

// One slot of the left segment: the right one's record if that is live; or no key, where neither is live and
// the left one's key is not 0.
fn merged_slot(words: &[u64], left: Block, right: Block, slot: u32) -> Merged {
    if is_live_in(words, right, slot) {
        Merged::Moved(record_in(words, right, slot))
    } else if key_in(words, left, slot) != 0 && !is_live_in(words, left, slot) {
        Merged::Cleared
    } else {
        Merged::Kept
    }
}

// Makes the stores of the left segment. What goes there is read before the first one, since in a damaged array
// both halves can name one segment.
fn join_slots(draft: &mut Draft, left: Block, right: Block) {
    let words = draft.words();
    let merged: [Merged; SLOTS as usize] = array::from_fn(|slot| merged_slot(
        words,
        left,
        right,
        slot as u32,
    ));
    for (slot, merged) in (0..SLOTS).zip(merged) {
        let at = key_address_in(left, slot);
        match merged {
            Merged::Moved(record) => draft.note_record(at, record),
            Merged::Cleared => draft.note(at, 0),
            Merged::Kept => {}
        }
    }
}

// Gives the entries of both halves, the left one first, the left segment, one depth shallower.
fn join_entries(draft: &mut Draft, left: Block, right: Block) {
    let entry = entry_of(left.segment, left.local_depth.saturating_sub(1));
    for index in indices_of(left).chain(indices_of(right)) {
        draft.note(entry_address(left.shape.depth, index), entry);
    }
}

// Makes one block of two halves.
fn join(draft: &mut Draft, left: Block, right: Block) {
    join_slots(draft, left, right);
    join_entries(draft, left, right);
}

// Plans a merge.
pub(crate) fn plan_merge(draft: &mut Draft, key: u64) -> Result<Reply, Refusal> {
    let shape = tests_of_change(draft.words(), draft.length(), key)?;
    let block = block_of(draft.words(), shape, key);
    let buddy = buddy_of(draft.words(), block).ok_or(Refusal::NoBuddy)?;
    if is_both_live(draft.words(), block, buddy) {
        return Err(Refusal::BothLive);
    }
    if block.start < buddy.start {
        join(draft, block, buddy);
    } else {
        join(draft, buddy, block);
    }
    Ok(Reply::Done)
}
