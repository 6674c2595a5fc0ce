// A slot of a key's segment: which has the key, which a put takes, and what is stored there.
ghost use Rattle.std.specs.Prelude.{◌≡◌, ◌+◌, ◌≤◌, ◌<◌, length};
ghost use Rattle.index_rules.specs.Slots.{hit};
ghost use Rattle.index_rules.specs.Put.{key_choice};
ghost use Rattle.replies.specs.Replies.{changed};
ghost use Rattle.index_layout.specs.Places.{KeyPlace};
ghost use Rattle.index_segment.specs.Answers.{choice_of};
ghost use Rattle.stores.specs.Options.{option_of};
ghost use Rattle.replies.specs.Answered.{Answered};
ghost use Rattle.index.specs.Slots.{value_put, record_put, key_removed};

use cells::{Record, clear_key, store_record, store_value};
use index_layout::SEGMENT_WORDS;
use index_layout::key::Block;
use index_layout::place::Place;
use index_segment::choice::{Choice, choose};
use index_segment::probe::find;
use replies::{Answer, Reply, after_stores};
use stores::Budget;

// The first slot of the key's probe window that holds the key, in the segment at `base`.
pub(crate) fn find_at(words: &[u64], base: usize, key: u64) -> Option<usize>
    requires { base + 128 ≤ length words.now }
    ensures { option_of result ≡ hit words.now base key }
{
    find(&words[base..base + SEGMENT_WORDS], key)
}

// The slot for a put of the key.
pub(crate) fn choose_at(words: &[u64], place: Place) -> Choice
    requires { KeyPlace place words.now }
    ensures { choice_of result ≡ key_choice words.now place.key }
{
    let base = place.base;
    let block = Block {
        local_depth: place.local_depth,
        bits: place.bits,
    };
    choose(&words[base..base + SEGMENT_WORDS], block, place.key)
}

// Stores the value at the slot that has the key.
#[tactic(auto, using(index_layout::proofs::Places::place_bounds))]
pub(crate) fn put_value(
    words: &mut [u64],
    place: Place,
    slot: usize,
    value: u64,
    allowance: u32,
) -> Answer
    requires { (slot < 64) × KeyPlace place words.old }
    ensures { Answered (changed allowance (value_put place value slot) words.old) result words.new }
{
    let mut budget = Budget::new(allowance);
    store_value(words, place.base, slot, value, &mut budget);
    after_stores(Ok(Reply::Done), budget)
}

// Stores value, then key, at a usable slot: a cut between the two shows no record with another's value.
#[tactic(auto, using(index_layout::proofs::Places::place_bounds))]
pub(crate) fn put_record(
    words: &mut [u64],
    place: Place,
    slot: usize,
    value: u64,
    allowance: u32,
) -> Answer
    requires { (slot < 64) × KeyPlace place words.old }
    ensures { Answered (changed allowance (record_put place value slot) words.old) result words.new }
{
    let record = Record {
        key: place.key,
        value,
    };
    let mut budget = Budget::new(allowance);
    store_record(words, place.base, slot, record, &mut budget);
    after_stores(Ok(Reply::Done), budget)
}

// Clears the key of the slot that has it.
#[tactic(auto, using(index_layout::proofs::Places::place_bounds))]
pub(crate) fn clear_slot(words: &mut [u64], place: Place, slot: usize, allowance: u32) -> Answer
    requires { (slot < 64) × KeyPlace place words.old }
    ensures { Answered (changed allowance (key_removed place slot) words.old) result words.new }
{
    let mut budget = Budget::new(allowance);
    clear_key(words, place.base, slot, &mut budget);
    after_stores(Ok(Reply::Done), budget)
}
