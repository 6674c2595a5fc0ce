// A set of the numbers below 4,096 as bits of words: which numbers it holds says specs/BitSets.antt.
ghost use Rattle.std.specs.Prelude.{◌<◌};
ghost use Rattle.index_directory.specs.BitSets.{IsBitSet, Empty, Inserted, SmallestMissing};

// The bits of a word.
const WORD_BITS: usize = 64;

// The words of a set. The empty set is all zeros.
pub const SET_WORDS: usize = 64;

// Number n is in the set where bit n mod 64 of word n / 64 is 1. Any slice of 64 words is a set too: the functions take one.
#[derive(Clone, Copy)]
pub struct BitSet {
    pub words: [u64; SET_WORDS],
}

impl BitSet {
    // The empty set.
    pub fn new() -> BitSet
        ensures { Empty result.words }
    {
        let words = [0; SET_WORDS];
        BitSet { words }
    }

    // As `insert`.
    pub fn insert(&mut self, number: usize)
        requires { number < 4096 }
        ensures { Inserted number self.old.words self.new.words }
    {
        insert(&mut self.words, number);
    }

    // As `smallest_missing`.
    pub fn smallest_missing(&self) -> usize
        ensures { SmallestMissing result self.now.words }
    {
        smallest_missing(&self.words)
    }
}

// Puts the number into the set, where it may be already (document 02, wish 8: notes it).
pub fn insert(set: &mut [u64], number: usize)
    requires { IsBitSet set.old × (number < 4096) }
    ensures { Inserted number set.old set.new }
{
    let at = number / WORD_BITS;
    set[at] |= 1u64 << (number % WORD_BITS);
}

// The smallest number that is not in the set, which is 4,096 where all below it are: in the first word
// that is not full, its lowest bit that is 0.
pub fn smallest_missing(set: &[u64]) -> usize
    requires { IsBitSet set.now }
    ensures { SmallestMissing result set.now }
{
    for (i, word) in set.iter().enumerate() {
        if *word != u64::MAX {
            return WORD_BITS * i + word.trailing_ones() as usize;
        }
    }
    WORD_BITS * SET_WORDS
}
