// The plan of a put: a new value, or a new record, where need be behind splits that make room for it.
use crate::splitting::split;
use test_array::blocks::{Block, block_of, key_address_in};
use test_array::draft::Draft;
use test_array::outcomes::{Refusal, Reply};
use test_array::placing::{find_held, find_room};
use test_array::records::Record;
use test_array::scan::tests_of_change;

// The attempts that a put can need: one behind each split, of which a block of depth 0 allows twelve, and the
// first one.
const ATTEMPTS: u32 = 13;

// One attempt of a put: a new value if the key is held, else its record in the slot that takes a new key. It
// says whether there was such a slot.
fn is_placed(draft: &mut Draft, block: Block, record: Record) -> bool {
    let key = record.key;
    if let Some(slot) = find_held(draft.words(), block, key, key) {
        draft.note(key_address_in(block, slot) + 1, record.value);
        return true;
    }
    let Some(slot) = find_room(draft.words(), block, key) else {
        return false;
    };
    draft.note_record(key_address_in(block, slot), record);
    true
}

// Plans a put, if nothing is in the way: attempts, with a split of the key's block behind each that finds no
// slot. A block that was split at every depth is too deep.
pub(crate) fn plan_put(draft: &mut Draft, record: Record) -> Result<Reply, Refusal> {
    let mut shape = tests_of_change(draft.words(), draft.length(), record.key)?;
    for _ in 0..ATTEMPTS {
        let block = block_of(draft.words(), shape, record.key);
        if is_placed(draft, block, record) {
            return Ok(Reply::Done);
        }
        shape = split(draft, block, record.key)?;
    }
    Err(Refusal::TooDeep)
}
