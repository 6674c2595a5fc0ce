// The array of an index, lent as a slice. A read outside the slice gives 0 and a store there does nothing, so
// that nothing needs a fact on addresses; a store that is lost so shows as a difference.

// The most words of an index: those of the put with the most stores, and some behind.
pub const WORDS: usize = 10000;

// An array of the test. What a call is lent of it are its first words.
pub type Cells = [u64; WORDS];

// The word at an address of an index, 0 outside.
pub fn word_at(words: &[u64], at: usize) -> u64 {
    words.get(at).copied().unwrap_or(0)
}

// Stores a word at an address of an index; outside it does nothing.
pub fn set_word(words: &mut [u64], at: usize, value: u64) {
    if let Some(word) = words.get_mut(at) {
        *word = value;
    }
}
