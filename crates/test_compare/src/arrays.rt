// The arrays of the test: that of the index, that of the model, a saved one, and the list array of the last
// list; how many words of them are lent to a call; and the counts. The words behind those lent are compared
// too, so an array is no vector of just the words lent.
//
// The index's array has `INDEX_WORDS` words, `WORDS` at least, and the others `WORDS`. Where the index's has more, an
// index can be lent more than the model has: the model is told how many, and the first `WORDS` words are saved and
// compared. Where it has as many, the model is told of those that the index is lent.
ghost use Rattle.std.specs.Prelude.{◌≡◌, ◌<◌, ◌≤◌, min};

use crate::tally::Tally;
use test_array::words::{Cells, WORDS};

#[derive(Clone, Copy)]
pub struct ArraysOf<const INDEX_WORDS: usize> {
    pub index: [u64; INDEX_WORDS],
    pub model: Cells,
    pub saved: Cells,
    pub listed: Cells,
    pub tally: Tally,
    length: usize,
}

// Arrays that all have the same length.
pub type Arrays = ArraysOf<WORDS>;

impl<const INDEX_WORDS: usize> ArraysOf<INDEX_WORDS> {
    // Arrays of 0, with nothing lent and nothing counted.
    pub fn new() -> ArraysOf<INDEX_WORDS> {
        ArraysOf {
            index: [0; INDEX_WORDS],
            model: [0; WORDS],
            saved: [0; WORDS],
            listed: [0; WORDS],
            tally: Tally::default(),
            length: 0,
        }
    }

    // Begins a case: counts it, and lends so many words, the first of the arrays, to the calls that follow.
    pub fn begin_case(&mut self, length: usize) {
        self.tally.count_case();
        self.length = length;
    }

    // How many words the model is told of: those that the index is lent; or, where the index's array is the longer
    // one, those of the case, be it more than that array has.
    pub(crate) fn length(&self) -> usize
        ensures alike { INDEX_WORDS ≤ 10000 → result ≡ min self.now.length INDEX_WORDS }
        ensures longer { 10000 < INDEX_WORDS → result ≡ self.now.length }
    {
        if INDEX_WORDS <= WORDS {
            self.lent()
        } else {
            self.length
        }
    }

    // How many words the index is lent.
    pub(crate) fn lent(&self) -> usize
        ensures exact { result ≡ min self.now.length INDEX_WORDS }
        ensures within { result ≤ INDEX_WORDS }
    {
        self.length.min(INDEX_WORDS)
    }

    // Whether the index's and the model's array have the same words, those that are not lent too.
    pub(crate) fn is_same(&self) -> bool {
        self.index.first_chunk() == Some(&self.model)
    }

    // Saves the index's array.
    pub fn save(&mut self) {
        if let Some(words) = self.index.first_chunk() {
            self.saved = *words;
        }
    }

    // The index's and the model's array as saved.
    pub fn restore(&mut self) {
        if let Some(words) = self.index.first_chunk_mut() {
            *words = self.saved;
        }
        self.model.copy_from_slice(&self.saved);
    }

    // The model's array as saved.
    pub fn take_saved(&mut self) {
        self.model.copy_from_slice(&self.saved);
    }

    // Gives the model's array the words of the index's.
    pub fn copy_to_model(&mut self) {
        if let Some(words) = self.index.first_chunk() {
            self.model = *words;
        }
    }

    // Counts a comparison: a difference if it failed.
    pub fn expect(&mut self, holds: bool) {
        self.tally.expect(holds);
    }
}

#[cfg(test)]
mod tests {
    use super::*;
    use std::test::Fail;
    use test_array::outcomes::{Refusal, Reply};
    use test_model::{ALL_STORES, Change};

    // A case of so many words, and a format that needs more than the model's array has. Answers the index's reply.
    fn format_long<const INDEX_WORDS: usize>(
        arrays: &mut ArraysOf<INDEX_WORDS>,
        words: usize,
    ) -> Result<Reply, Refusal> {
        arrays.begin_case(words);
        let format = Change::Format {
            max_depth: 7,
            segments: 100,
        };
        arrays.compare(format.allowed(ALL_STORES)).reply
    }

    // Fails the test with these words, where it doesn't hold.
    fn must(holds: bool, failure: &'static str) -> Result<(), Fail> {
        if holds {
            Ok(())
        } else {
            Err(Fail::new(failure))
        }
    }

    #[test]
    fn arrays_of_one_length_are_lent_alike() -> Result<(), Fail> {
        let mut arrays = Arrays::new();
        let reply = format_long(&mut arrays, 20000);
        must(reply == Err(Refusal::TooShort), "the format is not refused")?;
        must(arrays.length() == WORDS, "the model is told of other words")?;
        must(arrays.tally.differences() == 0, "index and model differ")
    }

    #[test]
    fn a_longer_index_is_lent_more() -> Result<(), Fail> {
        let mut arrays: ArraysOf<30000> = ArraysOf::new();
        let reply = format_long(&mut arrays, 40000);
        must(reply == Ok(Reply::Done), "the format is not done")?;
        must(arrays.lent() == 30000, "the index is lent other words")?;
        must(arrays.length() == 40000, "the model is told of other words")?;
        must(arrays.tally.differences() == 0, "index and model differ")
    }
}
