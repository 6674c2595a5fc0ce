// Family 4 of the test: the put and the merge with the most stores, D = 12 and S = 13. Sixty-four keys that
// share their first twelve route bits fill segment 0; the put parts from them at the last and makes 9,764
// stores. Once its key is removed again, merges join the blocks, the deepest first; the last one moves all
// sixty-four records and has all 4,096 entries to store. Both are run with every allowance around the
// borders of their phases. The block of the sixty-four keys is the largest that a list of one block meets:
// it takes 128 words.
#![tactic(auto)]

use std::io;
use test_array::array::power;
use test_array::outcomes::{Outcome, Refusal, Reply};
use test_array::route::unfolded;
use test_compare::arrays::Arrays;
use test_compare::family::run_family;
use test_model::{Call, Change};

// The words for D = 12, S = 13.
const WORST_WORDS: usize = 9856;

const WORST_PUT_STORES: u32 = 9764;

const WORST_MERGE_STORES: u32 = 4224;

// The put's folded key, 5 × 65,536 + 0x7FF0, and that of a key that it meets, 0xFFF0.
const WORST_FOLDED: u64 = 360432;

const MET_FOLDED: u64 = 65520;

// The splits of the put, and the stores of a split's copy step and entry update. Each merge moves the same
// records as the copy step.
const SPLITS: u32 = 12;

const COPY_STORES: u32 = 128;

const UPDATE_STORES: u32 = 2;

// The records of a block with no free slot, and the words that a list of it takes.
const BLOCK_RECORDS: u64 = 64;

const BLOCK_WORDS: usize = 128;

// The index of the block of the sixty-four keys behind the put: the last of the directory.
const MET_INDEX: u64 = 4095;

// How far the allowances that are run around a border are from it.
const REACH: u32 = 10;

// The put with the most stores.
fn worst_put() -> Change {
    Change::Put {
        key: unfolded(WORST_FOLDED),
        value: 1,
    }
}

// The merge of the block that the sixty-four keys are in.
fn merge_met() -> Change {
    Change::Merge {
        key: unfolded(MET_FOLDED),
    }
}

// Puts the sixty-four keys; a key's value is its folded key and `added`.
fn fill_segment(arrays: &mut Arrays, added: u64) {
    for i in 0..64 {
        let folded = i / 16 * 65536 + MET_FOLDED + i % 16;
        let put = Change::Put {
            key: unfolded(folded),
            value: folded.wrapping_add(added),
        };
        arrays.compare(put.whole());
    }
}

// The saved arrays, as a case of their own.
fn restore(arrays: &mut Arrays) {
    arrays.begin_case(WORST_WORDS);
    arrays.restore();
}

// Looks up the key of this folded key.
fn look_up(arrays: &mut Arrays, folded: u64) {
    arrays.compare(Call::Get {
        key: unfolded(folded),
    });
}

// A call with one allowance, lookups of the put's key and of one that it meets, a mend cut at once and a
// whole one.
fn cut_worst(arrays: &mut Arrays, change: Change, allowance: u32) {
    restore(arrays);
    arrays.compare(change.allowed(allowance));
    look_up(arrays, WORST_FOLDED);
    look_up(arrays, MET_FOLDED);
    arrays.compare(Change::Mend.allowed(0));
    arrays.compare(Change::Mend.whole());
}

// A call with every allowance around a border: up to ten below it, itself, and ten above.
fn cut_around(arrays: &mut Arrays, change: Change, border: u32) {
    for allowance in border.saturating_sub(REACH)..=border.saturating_add(REACH) {
        cut_worst(arrays, change, allowance);
    }
}

// The borders of one split: behind the doubling, the copy step and the entry update. It answers the
// stores due at its end.
fn cut_split(arrays: &mut Arrays, split: u32, due: u32) -> u32 {
    let doubled = due.wrapping_add(2 * power(split) + 1);
    let copied = doubled.wrapping_add(COPY_STORES);
    let updated = copied.wrapping_add(UPDATE_STORES);
    cut_around(arrays, worst_put(), doubled);
    cut_around(arrays, worst_put(), copied);
    cut_around(arrays, worst_put(), updated);
    updated
}

// The borders of all splits. Behind them the record's two stores are due.
fn cut_splits(arrays: &mut Arrays) {
    let mut due: u32 = 0;
    for split in 0..SPLITS {
        due = cut_split(arrays, split, due);
    }
    arrays.expect(due.wrapping_add(2) == WORST_PUT_STORES);
}

// A whole call, with its number of stores.
fn expect_stores(arrays: &mut Arrays, change: Change, stores: u32) {
    let seen = arrays.compare(change.whole());
    let due = Outcome {
        reply: Ok(Reply::Done),
        stores,
    };
    arrays.expect(seen == due);
}

// Lists the block at an index into this many words, and answers the reply.
fn list_block(arrays: &mut Arrays, index: u64, room: usize) -> Result<Reply, Refusal> {
    arrays.compare(Call::ListBlock { index, room }).reply
}

// A list of the last block, of which every slot is live: 128 words are enough, one less is not.
fn list_largest(arrays: &mut Arrays, index: u64) {
    let short = list_block(arrays, index, BLOCK_WORDS - 1);
    arrays.expect(short == Err(Refusal::ShortList));
    let seen = list_block(arrays, index, BLOCK_WORDS);
    let due = Reply::Listed {
        records: BLOCK_RECORDS,
        next: None,
    };
    arrays.expect(seen == Ok(due));
}

// Lists of the thirteen blocks behind the put, each at the index that the one before says. Those before the
// last have the put's record alone.
fn list_blocks(arrays: &mut Arrays) {
    let mut index: u64 = 0;
    let mut listed: u64 = 0;
    for _ in 0..SPLITS {
        let seen = list_block(arrays, index, BLOCK_WORDS);
        if let Ok(
            Reply::Listed {
                records,
                next: Some(next),
            },
        ) = seen
        {
            index = next;
            listed = listed.wrapping_add(records);
        }
    }
    arrays.expect(index == MET_INDEX && listed == 1);
    list_largest(arrays, index);
}

// The segment filled and saved, the whole put, and then the cut ones.
fn test_put(arrays: &mut Arrays) {
    arrays.begin_case(WORST_WORDS);
    let format = Change::Format {
        max_depth: 12,
        segments: 13,
    };
    arrays.compare(format.whole());
    fill_segment(arrays, 1);
    list_largest(arrays, 0);
    arrays.save();
    expect_stores(arrays, worst_put(), WORST_PUT_STORES);
    cut_splits(arrays);
}

// Joins the blocks behind the put, whose key is taken away, up to depth 1: the first merge has two entries
// to store, each on twice as many.
fn join_blocks(arrays: &mut Arrays) {
    for number in 1..SPLITS {
        expect_stores(arrays, merge_met(), COPY_STORES + power(number));
    }
}

// The two blocks of depth 1 saved, the whole merge, and then the cut ones: before its records, behind them
// and behind the entries.
fn cut_merges(arrays: &mut Arrays) {
    arrays.save();
    expect_stores(arrays, merge_met(), WORST_MERGE_STORES);
    for border in [0, COPY_STORES, WORST_MERGE_STORES] {
        cut_around(arrays, merge_met(), border);
    }
}

// The whole put on the arrays saved before it, the blocks listed, its key taken away, and the merges. Before
// the last one the keys get new values: segment 0 has their records still, stale, with the values that they
// had.
fn test_merge(arrays: &mut Arrays) {
    restore(arrays);
    expect_stores(arrays, worst_put(), WORST_PUT_STORES);
    list_blocks(arrays);
    let remove = Change::Remove {
        key: unfolded(WORST_FOLDED),
    };
    expect_stores(arrays, remove, 1);
    join_blocks(arrays);
    fill_segment(arrays, 2);
    cut_merges(arrays);
}

// The put, then the merge.
fn test_worst(arrays: &mut Arrays) {
    test_put(arrays);
    test_merge(arrays);
}

fn main(rt: HostRuntime) -> io::Result<()> {
    run_family(&rt, "4 most stores", test_worst)
}
