// Which keys are live in the segment of a block, in one of its halves, and which of them a split moves.
ghost use Rattle.std.specs.Prelude.{ℕ, suc, ◌+◌, ◌*◌, ◌≤◌, ◌<◌, ◌≡◌, List};
ghost use Rattle.index_rules.specs.Layout.{key_at};
ghost use Rattle.index_rules.specs.Keys.{directory_bits, live};
ghost use Rattle.index_rules.specs.Split.{moves};
ghost use Rattle.index_layout.specs.Blocks.{shared};

use index_layout::key::{Block, open_key};

// The key with these directory bits is live in the block's segment: the first of them are the block's. The
// compiler takes the mask out of the loops that call this.
fn is_live_by(block: Block, key: u64, bits: u64) -> bool
    requires { bits ≡ directory_bits key }
    ensures { result ≡ live block.local_depth (shared block) key }
{
    let mask = (1u64 << block.local_depth) - 1;
    key != 0 && bits & mask == block.bits & mask
}

// The key is live in the block's segment.
pub(crate) fn is_live(block: Block, key: u64) -> bool
    ensures { result ≡ live block.local_depth (shared block) key }
{
    let opened = open_key(key);
    is_live_by(block, key, opened.bits)
}

// The key is live in one half of the block, by its next directory bit, whose number is the local depth:
// `half` is 0 for the left half and 1 for the right one. The key is opened once for all its bits.
pub(crate) fn is_live_in_half(block: Block, half: u64, key: u64) -> bool
    requires { half < 2 }
    ensures { result ≡ live (suc block.local_depth) (2 * shared block + half) key }
{
    let opened = open_key(key);
    is_live_by(block, key, opened.bits) && (opened.bits >> block.local_depth) % 2 == half
}

// A split of the block's segment moves a record with the key: it is live in the right half.
pub(crate) fn moves(block: Block, key: u64) -> bool
    ensures { (a : List ℕ) (j : ℕ) → key_at a 0 j ≡ key → result ≡ moves a 0 block.local_depth (shared block) j }
{
    is_live_in_half(block, 1, key)
}
