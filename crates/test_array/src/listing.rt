// The list: its records, in document 02's order (wish 3), block by block from the left of the directory, and by
// rising slot number within a segment.
use crate::array::{SLOTS, Shape, power};
use crate::blocks::{Block, block_at, record_in};
use crate::outcomes::Refusal;
use crate::records::Records;
use crate::route::is_live;
use crate::scan::tests_of_list;

// Puts the records of a block that are live behind the others, slots rising.
pub fn collect_block(words: &[u64], block: Block, records: &mut Records) {
    for slot in 0..SLOTS {
        let record = record_in(words, block, slot);
        if is_live(record.key, block) {
            let _ = records.try_push(record);
        }
    }
}

// The records of an index whose directory is tidy. In such a directory an index leads its block if that starts
// at it.
fn records_of(words: &[u64], shape: Shape) -> Records {
    let mut records = Records::new();
    let count = power(shape.depth);
    for index in 0..count {
        let block = block_at(words, shape, index);
        if block.start == index {
            collect_block(words, block, &mut records);
        }
    }
    records
}

// The records, if `room` words of a list array hold them, two for each.
pub fn fitting(records: Records, room: usize) -> Result<Records, Refusal> {
    if room / 2 < records.len() {
        return Err(Refusal::ShortList);
    }
    Ok(records)
}

// A list: the records that it writes.
pub fn list(words: &[u64], length: usize, room: usize) -> Result<Records, Refusal> {
    let shape = tests_of_list(words, length)?;
    fitting(records_of(words, shape), room)
}
