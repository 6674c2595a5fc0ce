// The way from a key to its index and its slots, and from a folded key back to the key.
use crate::array::{SLOTS, power};
use crate::blocks::Block;

// The buckets of a segment, and the slots of a bucket.
const BUCKETS: u64 = 16;

const BUCKET_SLOTS: u32 = 4;

// What a key is divided by in its folded key.
const FOLD: u64 = 1024;

// Document 02's folded key: the exclusive or, bit by bit, of the key and floor(key / 1,024).
fn folded(key: u64) -> u64 {
    key ^ (key / FOLD)
}

// The key whose folded key is this number, for a test that chooses where its keys go: the exclusive or of
// the number shifted down by 0, 10, 20 .. 60 bits, here of two, of four and then of all.
pub fn unfolded(number: u64) -> u64 {
    let two = number ^ (number / FOLD);
    let four = two ^ (two >> 20);
    four ^ (four >> 40)
}

// Route bit `number` of a key, the first being 0: bit 4 of the folded key and those above.
pub fn route_bit(key: u64, number: u32) -> u64 {
    folded(key) / BUCKETS / power(number) as u64 % 2
}

// The key's index in the directory of this depth: the weights of its route bits that are 1, the first
// bit being the heaviest.
pub fn index_at(key: u64, depth: u32) -> u32 {
    let mut index: u32 = 0;
    for number in 0..depth {
        let weight = power(depth - 1 - number);
        if route_bit(key, number) == 1 {
            index = index.wrapping_add(weight);
        }
    }
    index
}

// Whether a key is live in a block: it is not 0, and its index lies in the block.
pub fn is_live(key: u64, block: Block) -> bool {
    if key == 0 {
        return false;
    }
    let index = index_at(key, block.shape.depth);
    block.start <= index && index - block.start < block.width
}

// Slot `number` of a key's window, the first being 0. The slots of four buckets on, bucket 0
// following 15, are sixteen slots on, slot 0 following 63.
pub fn window_slot(key: u64, number: u32) -> u32 {
    let first = (folded(key) % BUCKETS) as u32 * BUCKET_SLOTS;
    (first + number % SLOTS) % SLOTS
}
