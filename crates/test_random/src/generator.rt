// A seeded generator of 64-bit numbers: xorshift, with the shifts 13, 7 and 17. A user draws one
// number for each step and takes it apart.
ghost use Rattle.std.specs.Prelude.{◌≤◌};

// The weight of a key's own number in its folded key, above every bit that the index reads.
const OWN_UNIT: u64 = 4294967296;

// The numbers behind a first one, without end.
#[derive(Clone, Copy)]
pub struct Rolls {
    last: u64,
}

impl Rolls {
    // The numbers behind this one.
    pub fn after(number: u64) -> Rolls {
        Rolls { last: number }
    }

    // The numbers for a seed.
    pub fn seeded(seed: u64) -> Rolls {
        let number = seed % 4294967296 * 2654435769 + 88172645463325252;
        Rolls::after(next(next(next(number))))
    }
}

impl Iterator for Rolls {
    type Item = u64;

    fn next(&mut self) -> Option<u64> {
        self.last = next(self.last);
        Some(self.last)
    }
}

// The number behind this one. From a number other than 0 it is never 0.
pub fn next(number: u64) -> u64 {
    let first = number ^ (number << 13);
    let second = first ^ (first >> 7);
    second ^ (second << 17)
}

// A folded key with no bit set that the index reads: number + 1, above those bits. It keeps keys apart
// that are alike below.
pub fn own_part(number: u64) -> u64
    ensures { result ≤ 281474976710656 }
{
    (number % 65536 + 1) * OWN_UNIT
}

// Fills the words of an array at random: a format has to stand any.
pub fn scatter(words: &mut [u64], seed: u64) {
    for (word, roll) in words.iter_mut().zip(Rolls::seeded(seed)) {
        *word = roll;
    }
}
