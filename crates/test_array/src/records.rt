// Records, and a list array beside them: whether it holds the same records in the same order, and nothing behind
// them.
use crate::words::WORDS;
use arrayvec::ArrayVec;

// A record: a page's key and its value.
#[derive(Clone, Copy, PartialEq, Eq, Default)]
pub struct Record {
    pub key: u64,
    pub value: u64,
}

// The records that fit into a list array. One more is lost, and shows as a difference.
const MOST_RECORDS: usize = WORDS / 2;

pub type Records = ArrayVec<Record, MOST_RECORDS>;

// What each word holds before a list.
pub const LIST_FILL: u64 = 0xABABABABABABABAB;

// Whether a list array holds these records, key then value, and behind them the words of before.
pub fn is_list_of(list: &[u64], records: &[Record]) -> bool {
    let Some((written, behind)) = list.split_at_checked(2 * records.len()) else {
        return false;
    };
    let pairs = written.chunks_exact(2);
    pairs.zip(records).all(|(pair, record)| pair == [record.key, record.value].as_slice())
        && behind.iter().all(|word| *word == LIST_FILL)
}
