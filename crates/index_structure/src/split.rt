// The split of a key's segment: document 01, split.
ghost use Rattle.std.specs.Prelude.{◌+◌, ◌≤◌};
ghost use Rattle.stores.specs.Executed.{Executed, begun, due_limit};
ghost use Rattle.index_rules.specs.Split.{splitting};
ghost use Rattle.index_layout.specs.Places.{KeyPlace};
ghost use Rattle.index_structure.specs.Splits.{halving_at, Halvable, CanSplit, SplitBy};

use crate::read::read_segment;
use index_directory::double::double;
use index_directory::free::free_segment;
use index_directory::update::{Halves, update_entries};
use index_layout::SEGMENT_WORDS;
use index_layout::entry::block_start;
use index_layout::header::segment_base;
use index_layout::key::{Block, directory_index};
use index_layout::place::Place;
use index_segment::copy::copy_records;
use replies::Refusal;
use stores::Budget;

// Steps 3 and 4 of a split: the key's place, the directory's depth behind any doubling, and the new
// segment. Without it `halve` would take seven parameters.
#[derive(Clone, Copy)]
pub struct Halving {
    pub place: Place,
    pub depth: u32,
    pub new_segment: usize,
}

// Steps 3 and 4: the copy step from the words of the old segment, then the entries of the key's block.
// The new segment is lent on to be written.
fn halve(words: &mut [u64], old: [u64; SEGMENT_WORDS], halving: Halving, budget: &mut Budget)
    requires { Halvable halving words.old × (budget.old.due + 128 ≤ due_limit) }
    ensures { Executed (halving_at old halving) budget.old words.old budget.new words.new }
{
    let place = halving.place;
    let depth = halving.depth;
    let new_segment = halving.new_segment;
    let bits = place.bits;
    let local_depth = place.local_depth;
    let base = segment_base(place.header.max_depth, new_segment);
    let block = Block { local_depth, bits };
    copy_records(old, &mut words[base..base + SEGMENT_WORDS], block, budget);
    let start = block_start(directory_index(bits, depth), depth, local_depth);
    let halves = Halves {
        depth,
        local_depth,
        start,
        segment: place.segment,
        new_segment,
    };
    update_entries(words, halves, budget);
}

// Steps 2 to 4, into the new segment: answers the budget behind them. A segment as deep as the
// directory has the directory doubled first. The old segment is read before the first store. Its words
// in this frame also keep the compiler from putting the split's loops into the recursive put.
fn split_into(words: &mut [u64], place: Place, new_segment: usize, allowance: u32) -> Budget
    requires { CanSplit place new_segment words.old }
    ensures { Executed (splitting words.old place.key new_segment) (begun allowance) words.old result words.new }
{
    let header = place.header;
    let depth = header.depth;
    let old = read_segment(words, place.base);
    let mut budget = Budget::new(allowance);
    if place.local_depth == depth {
        double(words, header, &mut budget);
        let halving = Halving {
            place,
            depth: depth + 1,
            new_segment,
        };
        halve(words, old, halving, &mut budget);
        return budget;
    }
    let halving = Halving {
        place,
        depth,
        new_segment,
    };
    halve(words, old, halving, &mut budget);
    budget
}

// Splits the key's segment into itself and the smallest free segment, if the segment is not too deep
// and one is free: answers the budget behind its stores. Whether the rest of the directory is consistent
// does not matter.
pub fn split(words: &mut [u64], place: Place, allowance: u32) -> Result<Budget, Refusal>
    requires { KeyPlace place words.old }
    ensures { SplitBy result place allowance words.old words.new }
{
    let header = place.header;
    if place.local_depth == header.max_depth {
        return Err(Refusal::TooDeep);
    }
    let new_segment = free_segment(words, header).ok_or(Refusal::NoSegment)?;
    Ok(split_into(words, place, new_segment, allowance))
}
