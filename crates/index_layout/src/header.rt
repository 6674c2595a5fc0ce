// Word 0: what it says, whether it is valid, and how it is packed; and where segments stand.
ghost use Rattle.std.specs.Prelude.{◌≡◌, true, ◌^◌, ◌≤◌, ◌<◌};
ghost use Rattle.index_rules.specs.Layout.{header, words_for, valid_shape, segment_address};
ghost use Rattle.index_layout.specs.Headers.{header_said, header_of};

use crate::{MOST_DEPTH, SEGMENT_WORDS};
use replies::Refusal;

// The smallest D of document 01.
const MIN_MAX_DEPTH: u64 = 2;

// The values of the 8 bits of a depth.
const DEPTH_VALUES: u64 = 256;

// The weight of the lowest bit of D in word 0.
const MAX_DEPTH_UNIT: u64 = 256;

// The values of the 16 bits of S.
const SEGMENTS_VALUES: u64 = 65536;

// The weight of the lowest bit of S in word 0.
const SEGMENTS_UNIT: u64 = 65536;

// The mark in bits 32 to 63 of word 0.
const MARK: u64 = 0x50414746;

// The weight of the lowest bit of the mark in word 0.
const MARK_UNIT: u64 = 4294967296;

// What a valid word 0 says: document 01's G, D and S.
#[derive(Clone, Copy)]
pub struct Header {
    pub depth: u32,
    pub max_depth: u32,
    pub segments: u32,
}

// 2 to the power `exponent`.
pub fn pow2(exponent: u32) -> usize
    requires { exponent ≤ 13 }
    ensures { result ≡ 2 ^ exponent }
{
    1usize << exponent
}

// Whether D and S are ones that document 01 allows.
pub fn valid_shape(max_depth: u64, segments: u64) -> bool
    ensures { result ≡ valid_shape max_depth segments }
{
    if max_depth < MIN_MAX_DEPTH {
        return false;
    }
    if (MOST_DEPTH as u64) < max_depth {
        return false;
    }
    if segments < 1 {
        return false;
    }
    segments <= pow2(max_depth as u32) as u64
}

// The number of words that D and S take.
#[tactic(auto, using(crate::proofs::Shapes::shape))]
pub fn words_for(max_depth: u64, segments: u64) -> usize
    requires { valid_shape max_depth segments ≡ true }
    ensures { result ≡ words_for max_depth segments }
{
    pow2(max_depth as u32 + 1) + SEGMENT_WORDS * segments as usize
}

// The address of a segment, where the largest depth is `max_depth`.
pub fn segment_base(max_depth: u32, segment: usize) -> usize
    requires { (max_depth ≤ 12) × (segment ≤ 4096) }
    ensures { result ≡ segment_address max_depth segment }
{
    pow2(max_depth + 1) + SEGMENT_WORDS * segment
}

// Word 0 with these G, D and S. No `From`, which takes no `requires`: the numbers must fit their fields.
pub fn pack_header(depth: u32, max_depth: u32, segments: u32) -> u64
    requires { (depth < 2 ^ 8) × (max_depth < 2 ^ 8) × (segments < 2 ^ 16) }
    ensures { result ≡ header depth max_depth segments }
{
    depth as u64
        + MAX_DEPTH_UNIT * max_depth as u64
        + SEGMENTS_UNIT * segments as u64
        + MARK_UNIT * MARK
}

// Reads word 0 of any array, the empty one too. Where it is not valid, the array is no store.
pub fn read_header(words: &[u64]) -> Result<Header, Refusal>
    ensures { header_said result ≡ header_of words.now }
{
    if words.len() == 0 {
        return Err(Refusal::NoStore);
    }
    let word = words[0];
    let depth = word % DEPTH_VALUES;
    let max_depth = word / MAX_DEPTH_UNIT % DEPTH_VALUES;
    let segments = word / SEGMENTS_UNIT % SEGMENTS_VALUES;
    if word / MARK_UNIT != MARK {
        return Err(Refusal::NoStore);
    }
    if !valid_shape(max_depth, segments) {
        return Err(Refusal::NoStore);
    }
    if max_depth < depth {
        return Err(Refusal::NoStore);
    }
    if words.len() < words_for(max_depth, segments) {
        return Err(Refusal::NoStore);
    }
    Ok(Header {
        depth: depth as u32,
        max_depth: max_depth as u32,
        segments: segments as u32,
    })
}
