// The split of a segment, as stores on the draft.
use test_array::array::{
    SLOTS, Shape, entry_address, entry_at, entry_of, first_word, key_address, power, segment_of,
};
use test_array::blocks::{Block, block_of, indices_of, record_in};
use test_array::draft::Draft;
use test_array::outcomes::Refusal;
use test_array::route::{is_live, route_bit};

// The segments of the largest index.
const SEGMENTS: usize = 4096;

// For each segment whether an entry of the directory names it.
fn named_segments(words: &[u64], depth: u32) -> [bool; SEGMENTS] {
    let mut named = [false; SEGMENTS];
    for index in 0..power(depth) {
        let segment = segment_of(entry_at(words, depth, index));
        if let Some(mark) = named.get_mut(segment as usize) {
            *mark = true;
        }
    }
    named
}

// The smallest number below S that no entry names (split, step 1).
fn free_segment(words: &[u64], shape: Shape) -> Option<u32> {
    let named = named_segments(words, shape.depth);
    (0..shape.segments).find(|segment| named.get(*segment as usize) == Some(&false))
}

// Doubles the directory (split, step 2): its entries, rising, of which entry e gets the entry floor(e / 2) of
// before, and then word 0 with the depth that is one more. It answers the new shape.
fn double(draft: &mut Draft, shape: Shape) -> Shape {
    let depth = shape.depth.saturating_add(1);
    for index in 0..power(depth) {
        let entry = entry_at(draft.words(), shape.depth, index / 2);
        draft.note(entry_address(depth, index), entry);
    }
    let doubled = Shape { depth, ..shape };
    draft.note(0, first_word(doubled));
    doubled
}

// One slot of the copy step (split, step 3): a live record whose route bit number L is 1 goes to the
// same slot of the new segment; any other slot is emptied there.
fn copy_slot(draft: &mut Draft, block: Block, new_segment: u32, slot: u32) {
    let record = record_in(draft.words(), block, slot);
    let at = key_address(block.shape.max_depth, new_segment, slot);
    if is_live(record.key, block) && route_bit(record.key, block.local_depth) == 1 {
        draft.note_record(at, record);
    } else {
        draft.note(at, 0);
    }
}

// The entries of a block (split, step 4), from right to left: the right half gets the new segment, then the
// left half the old one, both one deeper.
fn halve(draft: &mut Draft, block: Block, new_segment: u32) {
    let deeper = block.local_depth.saturating_add(1);
    for index in indices_of(block).rev() {
        let is_left = index < block.start.saturating_add(block.width / 2);
        let segment = if is_left { block.segment } else { new_segment };
        let at = entry_address(block.shape.depth, index);
        draft.note(at, entry_of(segment, deeper));
    }
}

// Divides a block between its segment and the new one.
fn divide(draft: &mut Draft, block: Block, new_segment: u32) {
    for slot in 0..SLOTS {
        copy_slot(draft, block, new_segment, slot);
    }
    halve(draft, block, new_segment);
}

// Splits a key's block, if that can be, with a doubling where it has one index. It answers the shape behind it.
pub(crate) fn split(draft: &mut Draft, block: Block, key: u64) -> Result<Shape, Refusal> {
    let mut shape = block.shape;
    if block.local_depth == shape.max_depth {
        return Err(Refusal::TooDeep);
    }
    let new_segment = free_segment(draft.words(), shape).ok_or(Refusal::NoSegment)?;
    if block.local_depth == shape.depth {
        shape = double(draft, shape);
    }
    let block = block_of(draft.words(), shape, key);
    divide(draft, block, new_segment);
    Ok(shape)
}
