// The list of one block (document 02, wish 7): the block that the walk has a leader for at an index.
use crate::array::{Shape, power};
use crate::blocks::{Block, block_at};
use crate::listing::{collect_block, fitting};
use crate::outcomes::Refusal;
use crate::records::Records;
use crate::scan::{has_leader, tests_of_list};

// What a list of one block answers: the records that it writes, and the next block's index, if there is one.
#[derive(Drop)]
pub struct Part {
    pub records: Records,
    pub next: Option<u64>,
}

// The records of a block that are live, slots rising.
pub fn live_records(words: &[u64], block: Block) -> Records {
    let mut records = Records::new();
    collect_block(words, block, &mut records);
    records
}

// The block that the walk has a leader for at an index. The call's own may be any number.
fn block_led(words: &[u64], shape: Shape, index: u64) -> Option<Block> {
    let index = u32::try_from(index).ok()?;
    has_leader(words, shape, index).then(|| block_at(words, shape, index))
}

// The index behind a block, if that is not the directory's end.
fn next_behind(block: Block) -> Option<u64> {
    let behind = block.start as u64 + block.width as u64;
    (behind < power(block.shape.depth) as u64).then_some(behind)
}

// A list of one block.
pub fn list_block(words: &[u64], length: usize, index: u64, room: usize) -> Result<Part, Refusal> {
    let shape = tests_of_list(words, length)?;
    let block = block_led(words, shape, index).ok_or(Refusal::NoLeader)?;
    Ok(Part {
        records: fitting(live_records(words, block), room)?,
        next: next_behind(block),
    })
}
