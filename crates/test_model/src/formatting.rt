// The plan of a format.
use test_array::array::{SLOTS, Shape, first_word, key_address, shape_from, words_before};
use test_array::draft::Draft;
use test_array::outcomes::{Refusal, Reply};

// The stores of a format, in document 01's order: word 0 and the entry of depth 0 become 0, the keys of
// segment 0 too, and then word 0 is made sound.
fn note_empty(draft: &mut Draft, shape: Shape) {
    draft.note(0, 0);
    draft.note(1, 0);
    for slot in 0..SLOTS {
        draft.note(key_address(shape.max_depth, 0, slot), 0);
    }
    draft.note(0, first_word(shape));
}

// Plans an empty index, if its shape is allowed and the array has the words.
pub(crate) fn plan_format(
    draft: &mut Draft,
    max_depth: u64,
    segments: u64,
) -> Result<Reply, Refusal> {
    let shape = shape_from(0, max_depth, segments).ok_or(Refusal::BadShape)?;
    if draft.length() < words_before(shape.max_depth, shape.segments) {
        return Err(Refusal::TooShort);
    }
    note_empty(draft, shape);
    Ok(Reply::Done)
}
