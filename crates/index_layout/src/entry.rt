// Entries of the directory, and the blocks that they stand in.
ghost use Rattle.std.specs.Prelude.{◌≡◌, ◌^◌, ◌≤◌, ◌<◌};
ghost use Rattle.index_rules.specs.Layout.{segment_of, local_depth, entry};
ghost use Rattle.index_rules.specs.Keys.{width, block_start};
ghost use Rattle.index_layout.specs.Headers.{Describes};
ghost use Rattle.index_layout.specs.Entries.{entry_said, entry_of, entry_read};

use crate::header::{Header, pow2};
use replies::Refusal;

// The weight of the lowest bit of the local depth in an entry.
const DEPTH_UNIT: u64 = 4294967296;

// An entry taken apart: its segment number and its local depth.
#[derive(Clone, Copy)]
pub struct Entry {
    pub segment: usize,
    pub depth: u32,
}

// The segment number of an entry.
pub fn segment_of(entry: u64) -> usize
    ensures { result ≡ segment_of entry }
{
    (entry % DEPTH_UNIT) as usize
}

// The local depth of an entry, which can be any number of 32 bits.
pub fn local_depth_of(entry: u64) -> u32
    ensures { result ≡ local_depth entry }
{
    (entry / DEPTH_UNIT) as u32
}

// The entry of this segment and local depth. No `From`, which takes no `requires`: the segment must fit its field.
pub fn pack_entry(segment: usize, depth: u32) -> u64
    requires { segment < 2 ^ 32 }
    ensures { result ≡ entry segment depth }
{
    segment as u64 + DEPTH_UNIT * depth as u64
}

// Takes an entry apart, in a directory of this depth with this number of segments. One that is out of
// range is broken.
pub fn open_entry(entry: u64, depth: u32, segments: u32) -> Result<Entry, Refusal>
    ensures { entry_said result ≡ entry_of depth segments entry }
{
    let segment = segment_of(entry);
    let local_depth = local_depth_of(entry);
    if depth < local_depth {
        return Err(Refusal::Broken);
    }
    if segments as usize <= segment {
        return Err(Refusal::Broken);
    }
    Ok(Entry {
        segment,
        depth: local_depth,
    })
}

// Reads entry `i` of the present directory.
#[tactic(auto, using(crate::proofs::Shapes::bounds))]
pub fn read_entry(words: &[u64], header: Header, i: usize) -> Result<Entry, Refusal>
    requires { Describes header words.now × (i < 2 ^ header.depth) }
    ensures { entry_said result ≡ entry_read words.now i }
{
    let at = pow2(header.depth) + i;
    open_entry(words[at], header.depth, header.segments)
}

// The number of indices in a block of this local depth.
pub fn block_width(depth: u32, local_depth: u32) -> usize
    requires { (local_depth ≤ depth) × (depth ≤ 12) }
    ensures { result ≡ width depth local_depth }
{
    pow2(depth - local_depth)
}

// The first index of the block of local depth `local_depth` that holds index `i`.
pub fn block_start(i: usize, depth: u32, local_depth: u32) -> usize
    requires { (local_depth ≤ depth) × (depth ≤ 12) × (i < 2 ^ depth) }
    ensures { result ≡ block_start depth local_depth i }
{
    let width = block_width(depth, local_depth);
    i - (i & (width - 1))
}
