// The calls of document 01: format, get, put, remove, mend, list; and document 02's merge and list of one
// block. Every array, also the empty one, and every argument gets an answer; none has a requirement.
#![tactic(auto)]

mod blocks;
mod listing;
mod place;
mod slot;

ghost use Rattle.std.specs.Prelude.{◌≡◌, length};
ghost use Rattle.replies.specs.Replies.{said_by};
ghost use Rattle.replies.specs.Answered.{Answered, Wrote};
ghost use Rattle.index_rules.specs.declared.Call.TheVariants.{Format, Get, Put, Remove, Merge, Mend};
ghost use Rattle.index_rules.specs.Get.{get as getOf};
ghost use Rattle.index_rules.specs.Listing.{list as listing};
ghost use Rattle.index_rules.specs.ListBlock.{list_block};
ghost use Rattle.index_rules.specs.Step.{outcome_of, Performed};
ghost use Rattle.index.specs.Blocks.{ListedBy};

use cells::value_at;
use index_directory::mend::mend_entries;
use index_directory::scan::scan;
use index_layout::header::{read_header, valid_shape, words_for};
use index_rules::Call;
use index_segment::choice::Choice;
use index_structure::empty::store_empty;
use index_structure::merge::merge as merge_halves;
use index_structure::split::split;
use listing::{
    count_block, count_records, find_block, following, header_to_list, write_block, write_records,
};
use place::{place_to_change, place_to_read};
use replies::{Answer, Refusal, Reply, after_stores, without_store};
use slot::{choose_at, clear_slot, find_at, put_record, put_value};
use stores::Budget;

// Format: an empty index of largest depth `depth` (document 01: D) with `segments` segments (S).
pub fn format(words: &mut [u64], depth: u64, segments: u64, allowance: u32) -> Answer
    ensures { Answered (outcome_of words.old (Format depth segments allowance)) result words.new }
{
    if !valid_shape(depth, segments) {
        return without_store(Err(Refusal::BadShape));
    }
    if words.len() < words_for(depth, segments) {
        return without_store(Err(Refusal::TooShort));
    }
    let budget = store_empty(words, depth as u32, segments as u32, allowance);
    after_stores(Ok(Reply::Done), budget)
}

// Get: the value of the key, or absent. It reads word 0, the key's entry and the probe window alone.
pub fn get(words: &[u64], key: u64) -> Answer
    ensures { Answered (outcome_of words.now (Get key)) result words.now }
{
    without_store(get_reply(words, key))
}

// The reply of a get.
fn get_reply(words: &[u64], key: u64) -> Result<Reply, Refusal>
    ensures { said_by result ≡ getOf words.now key }
{
    let place = place_to_read(words, key)?;
    let Some(slot) = find_at(words, place.base, place.key) else {
        return Ok(Reply::Absent);
    };
    Ok(Reply::Value(value_at(words, place.base, slot)))
}

// The calls that store answer a refusal by a `match` and not by `?`: it is an answer, with its number of stores.

// Put: the value at the first hit; else value and key into a usable slot; else a split, and the put
// begins again with the allowance that is left. The depth still unused falls by one each time.
pub fn put(words: &mut [u64], key: u64, value: u64, allowance: u32) -> Answer
    ensures { Answered (outcome_of words.old (Put key value allowance)) result words.new }
{
    let place = match place_to_change(words, key) {
        Ok(place) => place,
        Err(refusal) => return without_store(Err(refusal)),
    };
    match choose_at(words, place) {
        Choice::Found(slot) => return put_value(words, place, slot, value, allowance),
        Choice::Into(slot) => return put_record(words, place, slot, value, allowance),
        Choice::Full => {}
    }
    let budget = match split(words, place, allowance) {
        Ok(budget) => budget,
        Err(refused) => return without_store(Err(refused)),
    };
    if budget.is_cut() {
        return after_stores(Ok(Reply::Done), budget);
    }
    let made = budget.made();
    let rest = put(words, key, value, allowance - made);
    Answer {
        reply: rest.reply,
        stores: made + rest.stores,
    }
}

// Remove: the key word at the first hit is cleared; or the key is absent. The hit is found as a put
// finds it.
pub fn remove(words: &mut [u64], key: u64, allowance: u32) -> Answer
    ensures { Answered (outcome_of words.old (Remove key allowance)) result words.new }
{
    let place = match place_to_change(words, key) {
        Ok(place) => place,
        Err(refusal) => return without_store(Err(refusal)),
    };
    let Choice::Found(slot) = choose_at(words, place) else {
        return without_store(Ok(Reply::Absent));
    };
    clear_slot(words, place, slot, allowance)
}

// Merge: the key's block and its buddy become one block, one depth shallower, with the left segment; the
// right one comes free. No page changes (document 02, wish 6).
pub fn merge(words: &mut [u64], key: u64, allowance: u32) -> Answer
    ensures { Answered (outcome_of words.old (Merge key allowance)) result words.new }
{
    let place = match place_to_change(words, key) {
        Ok(place) => place,
        Err(refusal) => return without_store(Err(refusal)),
    };
    match merge_halves(words, place, allowance) {
        Ok(budget) => after_stores(Ok(Reply::Done), budget),
        Err(refused) => without_store(Err(refused)),
    }
}

// Mend: each entry that differs from its block's leader gets the leader's word, from left to right. Such an
// entry is what a mend is for: of what the scan refuses only 'broken' stops it.
pub fn mend(words: &mut [u64], allowance: u32) -> Answer
    ensures { Answered (outcome_of words.old (Mend allowance)) result words.new }
{
    let header = match read_header(words) {
        Ok(header) => header,
        Err(refusal) => return without_store(Err(refusal)),
    };
    // One pattern in another was tried: the check keeps no fact where it does not fit.
    if let Err(refusal) = scan(words, header) {
        if let Refusal::Broken = refusal {
            return without_store(Err(refusal));
        }
    }
    let mut budget = Budget::new(allowance);
    mend_entries(words, header, &mut budget);
    after_stores(Ok(Reply::Done), budget)
}

// List: every live record into the list array, each as key, then value; words behind them stay. The
// records come block by block from the left of the directory, and by rising slot number within a
// segment.
pub fn list(words: &[u64], list: &mut [u64]) -> Answer
    ensures { Wrote (listing words.now (length list.old)) result list.old list.new }
{
    without_store(list_reply(words, list))
}

// The reply of a list, which writes the records.
fn list_reply(words: &[u64], list: &mut [u64]) -> Result<Reply, Refusal>
    ensures { ListedBy (listing words.now (length list.old)) result list.old list.new }
{
    let header = header_to_list(words)?;
    let count = count_records(words, header);
    if list.len() < 2 * count {
        return Err(Refusal::ShortList);
    }
    write_records(words, header, list);
    Ok(Reply::Value(count as u64))
}

// List of one block: the live records of the block that `index` leads, by rising slot number; and the
// index of the block that follows, or that it was the last. Joined from index 0 on, the answers are the
// list (document 02, wish 7).
pub fn list_block(words: &[u64], index: u64, list: &mut [u64]) -> Answer
    ensures { Wrote (list_block words.now index (length list.old)) result list.old list.new }
{
    without_store(list_block_reply(words, index, list))
}

// The reply of a list of one block, which writes its records.
fn list_block_reply(words: &[u64], index: u64, list: &mut [u64]) -> Result<Reply, Refusal>
    ensures { ListedBy (list_block words.now index (length list.old)) result list.old list.new }
{
    let header = header_to_list(words)?;
    let place = find_block(words, header, index).ok_or(Refusal::NoLeader)?;
    let records = count_block(words, place);
    if list.len() < 2 * records {
        return Err(Refusal::ShortList);
    }
    write_block(words, place, list, 0);
    Ok(Reply::Listed(records as u64, following(header, place.next)))
}

// One call given as data, on the index array and the list array. Only the listings touch the list array.
pub fn perform(words: &mut [u64], list: &mut [u64], call: Call) -> Answer
    ensures { Performed call words.old list.old result words.new list.new }
{
    match call {
        Call::Format {
            depth,
            segments,
            allowance,
        } => format(words, depth, segments, allowance),
        Call::Get { key } => get(words, key),
        Call::Put {
            key,
            value,
            allowance,
        } => put(words, key, value, allowance),
        Call::Remove { key, allowance } => remove(words, key, allowance),
        Call::Merge { key, allowance } => merge(words, key, allowance),
        Call::Mend { allowance } => mend(words, allowance),
        Call::List => crate::list(words, list),
        Call::ListBlock { index } => list_block(words, index, list),
    }
}
