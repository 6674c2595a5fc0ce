// The merge of a key's block and its buddy: document 02, wish 6.
ghost use Rattle.std.specs.Prelude.{◌≡◌, ◌≤◌};
ghost use Rattle.stores.specs.Executed.{Executed, begun, due_limit};
ghost use Rattle.index_rules.specs.Merge.{key_merging};
ghost use Rattle.index_layout.specs.Places.{KeyPlace};
ghost use Rattle.index_structure.specs.Merges.{both_live_in, slots_in, Mergeable, PairFits, MergingAt, PairReady, HalvesBelow, MergedBy};

use crate::read::read_segment;
use index_directory::buddy::{Pair, find_pair};
use index_directory::join::{JoinedBlock, join_entries};
use index_layout::SEGMENT_WORDS;
use index_layout::header::segment_base;
use index_layout::key::Block;
use index_layout::place::Place;
use index_segment::merge::{merge_records, some_both_live};
use replies::Refusal;
use stores::Budget;

// The two halves as the slots take them: where their segments stand, document 02's a and b, and the block
// that they make. The test and the stores both take it.
#[derive(Clone, Copy)]
pub struct Merging {
    pub left_base: usize,
    pub right_base: usize,
    pub joined: Block,
}

// The halves of the pair, for the key's place.
fn merging_of(place: Place, pair: Pair) -> Merging
    requires { PairFits place pair }
    ensures { MergingAt place pair result }
{
    let max_depth = place.header.max_depth;
    let left_base = segment_base(max_depth, pair.left);
    let right_base = segment_base(max_depth, pair.right);
    let joined = Block {
        local_depth: place.local_depth - 1,
        bits: place.bits,
    };
    Merging {
        left_base,
        right_base,
        joined,
    }
}

// Some slot is live in both segments. In a damaged array they may be one.
fn both_live(words: &[u64], merging: Merging) -> bool
    requires { Mergeable merging words.now }
    ensures { result ≡ both_live_in words.now merging }
{
    let left_base = merging.left_base;
    let right_base = merging.right_base;
    some_both_live(
        &words[left_base..left_base + SEGMENT_WORDS],
        &words[right_base..right_base + SEGMENT_WORDS],
        merging.joined,
    )
}

// The slots. Both segments are read as values first, so that nothing is read that was written; then the
// left one is lent to be written.
fn merge_slots(words: &mut [u64], merging: Merging, budget: &mut Budget)
    requires { Mergeable merging words.old × (budget.old.due ≤ due_limit) }
    ensures { Executed (slots_in words.old merging) budget.old words.old budget.new words.new }
{
    let left_base = merging.left_base;
    let right_base = merging.right_base;
    let left = read_segment(words, left_base);
    let right = read_segment(words, right_base);
    merge_records(
        left,
        right,
        &mut words[left_base..left_base + SEGMENT_WORDS],
        merging.joined,
        budget,
    );
}

// The stores of a merge of these halves: the slots of the left segment, then the entries of the joined
// block. Answers the budget behind them.
fn join_halves(words: &mut [u64], place: Place, pair: Pair, allowance: u32) -> Budget
    requires { PairReady place pair words.old }
    ensures { Executed (key_merging words.old place.key) (begun allowance) words.old result words.new }
{
    let merging = merging_of(place, pair);
    let mut budget = Budget::new(allowance);
    merge_slots(words, merging, &mut budget);
    let block = JoinedBlock {
        depth: place.header.depth,
        local_depth: place.local_depth - 1,
        start: pair.start,
        segment: pair.left,
    };
    join_entries(words, block, &mut budget);
    budget
}

// Merges the key's block and its buddy, if it has one of the same depth and no slot is live on both
// sides: answers the budget behind its stores.
pub fn merge(words: &mut [u64], place: Place, allowance: u32) -> Result<Budget, Refusal>
    requires { KeyPlace place words.old × HalvesBelow place words.old }
    ensures { MergedBy result place allowance words.old words.new }
{
    let pair = find_pair(words, place).ok_or(Refusal::NoBuddy)?;
    if both_live(words, merging_of(place, pair)) {
        return Err(Refusal::BothLive);
    }
    Ok(join_halves(words, place, pair, allowance))
}
