// The blocks of the directory, and the slots of a block's segment.
ghost use Rattle.std.specs.Prelude.{◌≤◌};

use crate::array::{Shape, entry_at, key_address, local_depth_of, power, segment_of};
use crate::records::Record;
use crate::route::index_at;
use crate::words::word_at;
use std::ops::Range;

// A block: the shape of its array, the segment and the local depth that its entry gives, its first index, its
// indices.
#[derive(Clone, Copy)]
pub struct Block {
    pub shape: Shape,
    pub segment: u32,
    pub local_depth: u32,
    pub start: u32,
    pub width: u32,
}

// The indices of a block of this local depth, 1 where the local depth is more than the depth.
fn width_of(depth: u32, local_depth: u32) -> u32
    ensures { 1 ≤ result }
{
    power(depth.saturating_sub(local_depth))
}

// The block that the entry at an index belongs to.
pub fn block_at(words: &[u64], shape: Shape, index: u32) -> Block {
    let entry = entry_at(words, shape.depth, index);
    let local_depth = local_depth_of(entry);
    let width = width_of(shape.depth, local_depth);
    Block {
        shape,
        segment: segment_of(entry),
        local_depth,
        start: index - index % width,
        width,
    }
}

// The block that a key's entry belongs to.
pub fn block_of(words: &[u64], shape: Shape, key: u64) -> Block {
    block_at(words, shape, index_at(key, shape.depth))
}

// The directory indices of a block.
pub fn indices_of(block: Block) -> Range<u32> {
    block.start..block.start.saturating_add(block.width)
}

// The address of the key of a slot of the block's segment; its value is behind it.
pub fn key_address_in(block: Block, slot: u32) -> usize
    ensures { result ≤ 2199023255552 }
{
    key_address(block.shape.max_depth, block.segment, slot)
}

// The key of a slot of the block's segment.
pub fn key_in(words: &[u64], block: Block, slot: u32) -> u64 {
    word_at(words, key_address_in(block, slot))
}

// The value of a slot of the block's segment.
pub fn value_in(words: &[u64], block: Block, slot: u32) -> u64 {
    word_at(words, key_address_in(block, slot) + 1)
}

// The record in a slot of the block's segment, live or not.
pub fn record_in(words: &[u64], block: Block, slot: u32) -> Record {
    Record {
        key: key_in(words, block, slot),
        value: value_in(words, block, slot),
    }
}

// Whether a block's local depth and segment are in range.
pub fn is_in_range(block: Block) -> bool {
    block.local_depth <= block.shape.depth && block.segment < block.shape.segments
}
