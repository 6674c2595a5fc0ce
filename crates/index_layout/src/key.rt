// A key, opened: its bucket and its directory bits. The bits of a block, and the index of either.
ghost use Rattle.std.specs.Prelude.{◌≡◌, ◌^◌, ◌≤◌, ◌<◌};
ghost use Rattle.index_rules.specs.Keys.{bucket, directory_bits, first_bits, block_bits};

use crate::{BUCKETS, MOST_DEPTH};

// The numbers of four bits with their bits in reverse order: that of n is hexadecimal digit number n,
// the last one being 0.
const REVERSED: u64 = 0xF7B3D591E6A2C480;

// What a key is divided by in its folded key.
const FOLD_UNIT: u64 = 1024;

// A key's bucket, and its directory bits as one number, the first bit lowest.
#[derive(Clone, Copy)]
pub struct OpenKey {
    pub bucket: usize,
    pub bits: u64,
}

// The keys of a block of the directory: its local depth, and the directory bits that they share, as
// one number whose higher bits do not matter.
#[derive(Clone, Copy)]
pub struct Block {
    pub local_depth: u32,
    pub bits: u64,
    pub ghost shallow: { local_depth ≤ 12 },
}

// Opens a key: bucket and directory bits are those of the folded key.
pub fn open_key(key: u64) -> OpenKey
    ensures { (result.bucket ≡ bucket key) × (result.bits ≡ directory_bits key) }
{
    let folded = key ^ (key / FOLD_UNIT);
    OpenKey {
        bucket: folded as usize % BUCKETS,
        bits: folded / BUCKETS as u64,
    }
}

// The first four of the bits, the first one heaviest.
fn first_four(bits: u64) -> usize
    ensures { result ≡ first_bits bits 4 }
{
    let place = (bits % 16) as u32;
    ((REVERSED >> (4 * place)) % 16) as usize
}

// The index of these directory bits in the directory of this depth: the first ones, the first
// heaviest. They are the first of the most bits that an index has, which are taken four at a time.
pub fn directory_index(bits: u64, depth: u32) -> usize
    requires { depth ≤ 12 }
    ensures { result ≡ first_bits bits depth }
{
    let all = 256 * first_four(bits) + 16 * first_four(bits / 16) + first_four(bits / 256);
    all >> (MOST_DEPTH - depth)
}

// The directory bits of the block of local depth `local_depth` that holds index `i`: the first bits of
// the index, in reverse order.
pub fn block_bits(i: usize, depth: u32, local_depth: u32) -> u64
    requires { (local_depth ≤ depth) × (depth ≤ 12) × (i < 2 ^ depth) }
    ensures { first_bits result local_depth ≡ block_bits depth local_depth i }
{
    let mut bits = i >> (depth - local_depth);
    let mut reversed: u64 = 0;
    for _ in 0..local_depth {
        reversed = 2 * reversed + (bits % 2) as u64;
        bits = bits / 2;
    }
    reversed
}
