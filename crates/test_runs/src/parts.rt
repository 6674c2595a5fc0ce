// The listing in parts: lists of one block with 128 words each, joined from index 0 on, are the full listing
// (document 02, wish 7).
use test_array::outcomes::Reply;
use test_array::records::{Record, Records, is_list_of};
use test_array::words::WORDS;
use test_compare::arrays::Arrays;
use test_model::Call;
use test_random::runs::PART_WORDS;

// The most blocks of a run, at depth 6.
const MOST_BLOCKS: u32 = 64;

// Puts the first records of a list array behind the others.
fn append(joined: &mut Records, list: &[u64], records: u64) {
    for pair in list.chunks_exact(2).take(records as usize) {
        if let [key, value] = *pair {
            let _ = joined.try_push(Record { key, value });
        }
    }
}

// Lists the block at an index, and puts what it lists behind the joined records. Answers the next block's index.
fn join_part(arrays: &mut Arrays, joined: &mut Records, index: u64) -> Option<u64> {
    let seen = arrays.compare(Call::ListBlock {
        index,
        room: PART_WORDS,
    });
    let Ok(Reply::Listed { records, next }) = seen.reply else {
        arrays.expect(false);
        return None;
    };
    append(joined, &arrays.listed, records);
    next
}

// Lists the blocks from index 0 on, each where the one before says, and joins what they list.
fn join_parts(arrays: &mut Arrays) -> Records {
    let mut joined = Records::new();
    let mut index: Option<u64> = Some(0);
    for _ in 0..MOST_BLOCKS {
        if let Some(at) = index {
            index = join_part(arrays, &mut joined, at);
        }
    }
    arrays.expect(index.is_none());
    joined
}

// Compares the joined parts with the full listing, word for word.
pub(crate) fn compare_parts(arrays: &mut Arrays) {
    let joined = join_parts(arrays);
    let whole = arrays.compare(Call::List { room: WORDS });
    let is_whole = is_list_of(&arrays.listed, &joined);
    arrays.expect(is_whole && matches!(whole.reply, Ok(Reply::Value(_))));
}
