// The get.
use crate::array::shape_of;
use crate::blocks::{block_of, is_in_range, value_in};
use crate::outcomes::{Refusal, Reply};
use crate::placing::find_held;

// A get: the value of a key. It goes by the key's own entry alone.
pub fn get(words: &[u64], length: usize, key: u64) -> Result<Reply, Refusal> {
    let shape = shape_of(words, length).ok_or(Refusal::NoStore)?;
    if key == 0 {
        return Err(Refusal::NoKey);
    }
    let block = block_of(words, shape, key);
    if !is_in_range(block) {
        return Err(Refusal::Broken);
    }
    Ok(match find_held(words, block, key, key) {
        Some(slot) => Reply::Value(value_in(words, block, slot)),
        None => Reply::Absent,
    })
}
