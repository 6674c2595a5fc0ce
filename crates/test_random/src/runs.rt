// Random runs: a run's keys, which stand in the plain table, and its calls.
ghost use Rattle.std.specs.Prelude.{◌<◌};

use crate::generator::{Rolls, own_part};
use crate::table::{Entry, Table, size_of};
use test_array::array::{Shape, power, shape_of};
use test_array::block_listing::live_records;
use test_array::blocks::{Block, block_at, block_of};
use test_array::route::unfolded;
use test_array::words::WORDS;
use test_model::{ALL_STORES, Call, Change};

// The words of a list array that is always enough for one block.
pub const PART_WORDS: usize = 128;

// More than every index of a directory. A list's own index may be any number.
const INDICES: u64 = 65536;

// The weight of the upper half of a word.
const UPPER_HALF: u64 = 4294967296;

// The folded key of a key of a run. By the seed they are running numbers; of a few buckets, with any
// route bits; of one bucket and few routes, so that segments get deep; or half of one route and half
// spread, so that shallow blocks stand in a deep directory.
fn folded_for(seed: u64, number: u64, roll: u64) -> u64 {
    let own = own_part(number);
    match seed % 4 {
        0 => number % 65536 + 1,
        1 => own + roll % 3 + roll / 16 % 256 * 16,
        2 => own + 13 + roll / 8 % 2 * 16 + seed / 4 % 256 * 64,
        _ => if number % 2 == 0 {
            own + 14
        } else {
            own + roll % 2 + 16 + roll / 16 % 64 * 32
        },
    }
}

// A key of a run.
fn key_for(seed: u64, number: u64, roll: u64) -> u64 {
    unfolded(folded_for(seed, number, roll))
}

// Draws the keys of a run, each without a value.
pub fn draw_keys(seed: u64) -> Table {
    let mut table = Table::default();
    for ((number, entry), roll) in (0..).zip(table.iter_mut()).zip(Rolls::seeded(seed)) {
        *entry = Entry {
            key: key_for(seed, number, roll),
            value: None,
        };
    }
    table
}

// The number of the key that a step is about.
pub fn entry_for(roll: u64) -> usize
    ensures { result < 48 }
{
    (roll / 16 % 48) as usize
}

// The allowance of a remove: half of them all stores, the others none or one.
fn remove_allowance(roll: u64) -> u32 {
    if roll % 2 == 0 {
        return ALL_STORES;
    }
    (roll / 1024 % 2) as u32
}

// The room of a list: just enough for `size` records, one word less, none, or plenty.
fn room_for(size: usize, roll: u64) -> usize {
    let enough = 2 * (size % 1024);
    match roll % 4 {
        0 => enough,
        1 => enough.saturating_sub(1),
        2 => 0,
        _ => WORDS,
    }
}

// An index of no directory: 2^G, some way behind it, an index that is right but for its upper bits, or the
// largest number.
fn index_beyond(block: Block, roll: u64) -> u64 {
    let end = power(block.shape.depth) as u64;
    match roll % 4 {
        0 => end,
        1 => end + roll / 4 % 256,
        2 => UPPER_HALF + block.start as u64,
        _ => u64::MAX,
    }
}

// The index of a list of one block: where the key's block begins, in its middle, behind it, a small number,
// or one beyond the directory.
fn index_for(block: Block, roll: u64) -> u64 {
    match roll % 8 {
        0..=2 => block.start as u64,
        3 => block.start.wrapping_add(block.width / 2) as u64,
        4 => block.start.wrapping_add(block.width) as u64,
        5..=6 => roll / 8 % 8,
        _ => index_beyond(block, roll / 8),
    }
}

// The room of a list of one block: the words that are always enough, one less, just enough for its records,
// one less or one more, or none.
fn part_room(enough: usize, roll: u64) -> usize {
    let needed = enough % WORDS;
    match roll % 8 {
        0..=2 => PART_WORDS,
        3 => PART_WORDS - 1,
        4 => needed,
        5 => needed.saturating_sub(1),
        6 => needed + 1,
        _ => 0,
    }
}

// What an array that is no store is read as.
const NO_SHAPE: Shape = Shape {
    depth: 0,
    max_depth: 0,
    segments: 0,
};

// A list of one block of an array, near the block of a key.
pub fn list_block_for(words: &[u64], key: u64, roll: u64) -> Call {
    let shape = shape_of(words, words.len()).unwrap_or(NO_SHAPE);
    let index = index_for(block_of(words, shape, key), roll);
    let listed = block_at(words, shape, (index % INDICES) as u32);
    let enough = 2 * live_records(words, listed).len();
    Call::ListBlock {
        index,
        room: part_room(enough, roll / 16384),
    }
}

// A call that changes nothing: one in four a get, the others a list of one block.
fn reading_call(words: &[u64], key: u64, roll: u64) -> Call {
    if roll % 4 == 0 {
        return Call::Get { key };
    }
    list_block_for(words, key, roll / 4)
}

// A format with a shape that is refused, as a run may have it.
fn refused_format(roll: u64) -> Change {
    let (max_depth, segments) = match roll % 4 {
        0 => (1, 1),
        1 => (13, 1),
        2 => (4, 17),
        _ => (12, 4096),
    };
    Change::Format {
        max_depth,
        segments,
    }
}

// The call of a step on an array, by a random number. Half are puts that all their stores are allowed, one
// in eight of these a merge instead.
pub fn call_for(words: &[u64], table: &Table, roll: u64) -> Call {
    let key = table[entry_for(roll)].key;
    let value = roll / 1024;
    match roll % 16 {
        0..=6 => Change::Put { key, value }.whole(),
        7 => Change::Merge { key }.whole(),
        8 | 9 => Change::Remove { key }.allowed(remove_allowance(roll)),
        10 => reading_call(words, key, value),
        11 => Call::List {
            room: room_for(size_of(table), value),
        },
        12 => Change::Mend.allowed((value % 2) as u32),
        13 => refused_format(value).whole(),
        14 => Change::Put { key, value }.allowed((value % 128) as u32),
        _ => Change::Merge { key }.allowed((value % 8) as u32),
    }
}

// Whether a call that made this many stores is to be cut everywhere: a put that splits and one in eight
// others, and every merge that makes stores.
pub fn is_to_cut(change: Change, stores: u32) -> bool {
    match change {
        Change::Put { value, .. } => 2 < stores || value % 8 == 0,
        _ => 0 < stores,
    }
}

// The allowance of the mends behind a call that was cut.
pub fn mend_allowance(change: Change, allowance: u32) -> u32 {
    match change {
        Change::Put { value, .. } => (value % 2) as u32,
        Change::Merge { .. } => allowance % 2,
        _ => 0,
    }
}
