// The scan over the blocks, document 01's walk, by marking: an index without a mark leads a block, and
// the whole block is marked with it.
use crate::array::{Shape, entry_at, power, shape_of};
use crate::blocks::{Block, block_at, is_in_range};
use crate::outcomes::Refusal;

// The indices of the deepest directory.
const INDICES: usize = 4096;

// For each index the one that leads its block, once that is marked.
pub type Marks = [Option<u32>; INDICES];

// Marks the indices of a block with the one that leads it.
fn mark_block(marks: &mut Marks, block: Block) {
    let indices = marks.iter_mut().skip(block.start as usize);
    for mark in indices.take(block.width as usize) {
        *mark = Some(block.start);
    }
}

// The index that leads the block of an index, if that is marked.
fn leader_of(marks: &Marks, index: u32) -> Option<u32> {
    marks.get(index as usize).copied().flatten()
}

// Goes to an index. With a mark nothing is left to do; without one it leads a block, which is marked if
// the leader is sound: in range, and at the block's start.
fn visit(words: &[u64], shape: Shape, marks: &mut Marks, index: u32) -> Result<(), Refusal> {
    if leader_of(marks, index).is_some() {
        return Ok(());
    }
    let block = block_at(words, shape, index);
    if !is_in_range(block) || block.start != index {
        return Err(Refusal::Broken);
    }
    mark_block(marks, block);
    Ok(())
}

// The marks of all blocks; broken at a leader that is not sound.
pub fn mark_blocks(words: &[u64], shape: Shape) -> Result<Marks, Refusal> {
    let mut marks = [None; INDICES];
    for index in 0..power(shape.depth) {
        visit(words, shape, &mut marks, index)?;
    }
    Ok(marks)
}

// The entry that leads the block of an index, by its mark; the index's own, where it has none.
pub fn leading_entry(words: &[u64], shape: Shape, marks: &Marks, index: u32) -> u64 {
    entry_at(words, shape.depth, leader_of(marks, index).unwrap_or(index))
}

// The walk's verdict: broken at a leader that is not sound, unmended if an entry is unequal to its leader.
fn walk(words: &[u64], shape: Shape) -> Result<(), Refusal> {
    let marks = mark_blocks(words, shape)?;
    let is_mended = (0..power(shape.depth)).all(|i| entry_at(words, shape.depth, i)
        == leading_entry(words, shape, &marks, i));
    if is_mended {
        Ok(())
    } else {
        Err(Refusal::Unmended)
    }
}

// Whether the walk came to an index as a leader.
pub fn has_leader(words: &[u64], shape: Shape, index: u32) -> bool {
    mark_blocks(words, shape).is_ok_and(|marks| leader_of(&marks, index) == Some(index))
}

// What a list, of all blocks or of one, tests before anything else. It answers the shape.
pub fn tests_of_list(words: &[u64], length: usize) -> Result<Shape, Refusal> {
    let shape = shape_of(words, length).ok_or(Refusal::NoStore)?;
    walk(words, shape)?;
    Ok(shape)
}

// What a put, a remove or a merge tests before anything else, in document 01's order. It answers the shape.
pub fn tests_of_change(words: &[u64], length: usize, key: u64) -> Result<Shape, Refusal> {
    let shape = shape_of(words, length).ok_or(Refusal::NoStore)?;
    if key == 0 {
        return Err(Refusal::NoKey);
    }
    walk(words, shape)?;
    Ok(shape)
}
