// Where things stand in the array of words, and what a word of it says: constants, word 0, entries, a
// key's bucket and directory bits, and a key's place.
#![tactic(auto)]

pub mod entry;
pub mod header;
pub mod key;
pub mod place;

// The words, the slots and the buckets of a segment.
pub const SEGMENT_WORDS: usize = 128;

pub const SLOTS: usize = 64;

pub const BUCKETS: usize = 16;

// The words of a slot: the key, then the value.
pub const SLOT_WORDS: usize = 2;

// The slots and the words of a bucket, and the buckets of a probe window.
pub const BUCKET_SLOTS: usize = 4;

pub const BUCKET_WORDS: usize = 8;

pub const WINDOW_BUCKETS: usize = 4;

// The largest D of document 01.
pub const MOST_DEPTH: u32 = 12;
