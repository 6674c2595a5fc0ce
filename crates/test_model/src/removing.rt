// The plan of a remove.
use test_array::blocks::{block_of, key_address_in};
use test_array::draft::Draft;
use test_array::outcomes::{Refusal, Reply};
use test_array::placing::find_held;
use test_array::scan::tests_of_change;

// Plans a remove, if nothing is in the way: the key word at the first slot that holds the key becomes 0.
pub(crate) fn plan_remove(draft: &mut Draft, key: u64) -> Result<Reply, Refusal> {
    let shape = tests_of_change(draft.words(), draft.length(), key)?;
    let block = block_of(draft.words(), shape, key);
    let Some(slot) = find_held(draft.words(), block, key, key) else {
        return Ok(Reply::Absent);
    };
    draft.note(key_address_in(block, slot), 0);
    Ok(Reply::Done)
}
