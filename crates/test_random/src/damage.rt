// Random damage to an array: one place is spoiled, as word 0, an entry or a slot.
use test_array::array::{
    LOCAL_DEPTH_UNIT, MAX_DEPTH_UNIT, SEGMENTS_UNIT, Shape, entry_address, entry_at, power,
    words_before,
};
use test_array::words::{set_word, word_at};

// The weight of the upper half of a word: the mark of word 0, and an entry's local depth.
const UPPER_HALF: u64 = LOCAL_DEPTH_UNIT;

// A random number below a bound, 0 where the bound is 0.
fn below(roll: u64, bound: u32) -> u32 {
    if bound == 0 {
        return 0;
    }
    (roll % UPPER_HALF) as u32 % bound
}

// Word 0 with one field more or less by one, of which the mark becomes document 01's, or another word.
fn spoiled_first(first: u64, roll: u64) -> u64 {
    match roll % 10 {
        0 => first.wrapping_add(1),
        1 => first.wrapping_sub(1),
        2 => first.wrapping_add(MAX_DEPTH_UNIT),
        3 => first.wrapping_sub(MAX_DEPTH_UNIT),
        4 => first.wrapping_add(SEGMENTS_UNIT),
        5 => first.wrapping_sub(SEGMENTS_UNIT),
        6 => first.wrapping_sub(UPPER_HALF),
        7 => first % SEGMENTS_UNIT + first / UPPER_HALF % UPPER_HALF * UPPER_HALF,
        8 => first / MAX_DEPTH_UNIT * MAX_DEPTH_UNIT + roll / 16 % 14,
        _ => roll,
    }
}

// An entry spoiled: its depth or segment more or less by one, out of range, another in range, or
// another entry's word.
fn spoiled_entry(entry: u64, other: u64, shape: Shape, roll: u64) -> u64 {
    let depths = entry / UPPER_HALF * UPPER_HALF;
    let segment = below(roll / 65536, shape.segments) as u64;
    match roll % 8 {
        0 => entry.wrapping_add(UPPER_HALF),
        1 => entry.wrapping_sub(UPPER_HALF),
        2 => entry.wrapping_add(1),
        3 => other,
        4 => depths.wrapping_add(shape.segments as u64),
        5 => (shape.depth as u64 % 256 + 1) * UPPER_HALF + entry % UPPER_HALF,
        6 => depths.wrapping_add(segment),
        _ => below(roll / 4096, shape.depth % 256 + 1) as u64 * UPPER_HALF + segment,
    }
}

// Spoils an entry of the directory.
fn spoil_entry(words: &mut [u64], shape: Shape, roll: u64) {
    let count = power(shape.depth);
    let at = count as usize + below(roll / 8, count) as usize;
    let other = word_at(words, count as usize + below(roll / 65536, count) as usize);
    let entry = word_at(words, at);
    set_word(words, at, spoiled_entry(entry, other, shape, roll));
}

// Gives an entry the word of the one that shares a block one shallower with it, so that a block of one
// index and its buddy name one segment.
fn share_segment(words: &mut [u64], shape: Shape, roll: u64) {
    let index = below(roll / 8, power(shape.depth));
    let buddy = entry_at(words, shape.depth, index ^ 1);
    set_word(words, entry_address(shape.depth, index), buddy);
}

// Spoils a slot: a stray key, a second copy of its record nearby, no key, or any key.
fn spoil_slot(words: &mut [u64], stray: u64, shape: Shape, roll: u64) {
    let base = words_before(shape.max_depth, below(roll / 8, shape.segments));
    let slot = (roll / 65536 % 64) as usize;
    let near = base + 2 * ((slot + (roll / 4194304 % 8) as usize) % 64);
    let key = word_at(words, near);
    let value = word_at(words, near + 1);
    let spoiled = match roll % 4 {
        0 => stray,
        1 => key,
        2 => 0,
        _ => roll,
    };
    let at = base + 2 * slot;
    set_word(words, at, spoiled);
    set_word(words, at + 1, value.wrapping_add(1));
}

// Spoils one place of an array, or none.
pub fn spoil(words: &mut [u64], stray: u64, shape: Shape, roll: u64) {
    match roll % 16 {
        0..=1 => {
            let first = word_at(words, 0);
            set_word(words, 0, spoiled_first(first, roll / 16));
        }
        2..=7 => spoil_entry(words, shape, roll / 16),
        8..=9 => share_segment(words, shape, roll / 16),
        10..=14 => spoil_slot(words, stray, shape, roll / 16),
        _ => {}
    }
}
