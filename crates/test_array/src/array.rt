// The array of words as the model sees it: word 0, entries, addresses.
ghost use Rattle.std.specs.Prelude.{◌≤◌};

use crate::words::word_at;

// Document 02's mark in bits 32 to 63 of word 0, and the weights of the fields.
const MARK: u64 = 0x50414746;

const MARK_UNIT: u64 = 4294967296;

pub const SEGMENTS_UNIT: u64 = 65536;

pub const MAX_DEPTH_UNIT: u64 = 256;

// The weight of an entry's local depth.
pub const LOCAL_DEPTH_UNIT: u64 = 4294967296;

// The words and the slots of a segment.
const SEGMENT_WORDS: usize = 128;

pub const SLOTS: u32 = 64;

// The fields of word 0: document 01's G, D and S.
#[derive(Clone, Copy)]
pub struct Shape {
    pub depth: u32,
    pub max_depth: u32,
    pub segments: u32,
}

// 2 to the power of a number up to 16; 65,536 above.
pub fn power(exponent: u32) -> u32
    ensures { (1 ≤ result) × (result ≤ 65536) }
{
    1 << exponent.min(16)
}

// The shape of these fields, if document 01 allows them: D 2 to 12, G at most D, S 1 to 2^D.
pub fn shape_from(depth: u64, max_depth: u64, segments: u64) -> Option<Shape> {
    if max_depth < 2 || 12 < max_depth || max_depth < depth {
        return None;
    }
    if segments < 1 || u64::from(power(max_depth as u32)) < segments {
        return None;
    }
    Some(Shape {
        depth: depth as u32,
        max_depth: max_depth as u32,
        segments: segments as u32,
    })
}

// The words before a segment: 2^(D+1) + 128 s. Before segment S, one behind the last, these are all the
// words that an index takes.
pub fn words_before(max_depth: u32, segment: u32) -> usize
    ensures { result ≤ 1099511627776 }
{
    2 * (power(max_depth) as usize) + SEGMENT_WORDS * (segment as usize)
}

// The fields of a word 0, allowed or not.
pub fn fields_of(first: u64) -> Shape {
    Shape {
        depth: (first % MAX_DEPTH_UNIT) as u32,
        max_depth: (first / MAX_DEPTH_UNIT % 256) as u32,
        segments: (first / SEGMENTS_UNIT % 65536) as u32,
    }
}

// The shape that word 0 gives to an array of this length, if it is sound: it has the mark, its fields are allowed,
// and the array has the words for them; so no array of no words is.
pub fn shape_of(words: &[u64], length: usize) -> Option<Shape> {
    let first = word_at(words, 0);
    if first / MARK_UNIT != MARK {
        return None;
    }
    let fields = fields_of(first);
    let shape = shape_from(
        u64::from(fields.depth),
        u64::from(fields.max_depth),
        u64::from(fields.segments),
    )?;
    if length < words_before(shape.max_depth, shape.segments) {
        return None;
    }
    Some(shape)
}

// The word 0 of this shape.
pub fn first_word(shape: Shape) -> u64 {
    MARK * MARK_UNIT
        + shape.segments as u64 * SEGMENTS_UNIT
        + shape.max_depth as u64 * MAX_DEPTH_UNIT
        + shape.depth as u64
}

// The address of an entry in the directory of this depth.
pub fn entry_address(depth: u32, index: u32) -> usize {
    power(depth) as usize + index as usize
}

// The entry at an index of the directory of this depth.
pub fn entry_at(words: &[u64], depth: u32, index: u32) -> u64 {
    word_at(words, entry_address(depth, index))
}

// An entry from its parts.
pub fn entry_of(segment: u32, local_depth: u32) -> u64 {
    local_depth as u64 * LOCAL_DEPTH_UNIT + segment as u64
}

// The segment number of an entry.
pub fn segment_of(entry: u64) -> u32 {
    (entry % LOCAL_DEPTH_UNIT) as u32
}

// The local depth of an entry.
pub fn local_depth_of(entry: u64) -> u32 {
    (entry / LOCAL_DEPTH_UNIT) as u32
}

// The address of a slot's key; its value is behind it.
pub fn key_address(max_depth: u32, segment: u32, slot: u32) -> usize
    ensures { result ≤ 2199023255552 }
{
    words_before(max_depth, segment) + 2 * (slot as usize)
}
