// The plan of a mend.
use test_array::array::{Shape, entry_address, entry_at, power, shape_of};
use test_array::draft::Draft;
use test_array::outcomes::{Refusal, Reply};
use test_array::scan::{Marks, leading_entry, mark_blocks};

// Mends the entries from left to right, by the marks of their blocks: one that is unequal to its leader
// gets the leader's word.
fn mend_entries(draft: &mut Draft, shape: Shape, marks: &Marks) {
    for index in 0..power(shape.depth) {
        let leading = leading_entry(draft.words(), shape, marks, index);
        if entry_at(draft.words(), shape.depth, index) != leading {
            draft.note(entry_address(shape.depth, index), leading);
        }
    }
}

// Plans a mend, if each leader is sound.
pub(crate) fn plan_mend(draft: &mut Draft) -> Result<Reply, Refusal> {
    let shape = shape_of(draft.words(), draft.length()).ok_or(Refusal::NoStore)?;
    let marks = mark_blocks(draft.words(), shape)?;
    mend_entries(draft, shape, &marks);
    Ok(Reply::Done)
}
