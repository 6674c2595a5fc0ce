// The listing: of all blocks of the directory, from the left, and of one block.
ghost use Rattle.std.specs.Prelude.{◌≡◌, true, ◌+◌, ◌*◌, ◌^◌, ◌≤◌, length};
ghost use Rattle.index_rules.specs.Listing.{records, words_of};
ghost use Rattle.index_rules.specs.ListBlock.{leads, following as whatFollows};
ghost use Rattle.index_directory.specs.Scans.{LeadersRead};
ghost use Rattle.stores.specs.Options.{option_of};
ghost use Rattle.stores.specs.Written.{Written};
ghost use Rattle.index.specs.Blocks.{ListableRead, ListableBy, BlockRead, FoundAt, PlaceInside, place_records};

use crate::blocks::Blocks;
use index_directory::scan::scan;
use index_layout::SEGMENT_WORDS;
use index_layout::entry::{block_width, local_depth_of, segment_of};
use index_layout::header::{Header, pow2, read_header, segment_base};
use index_layout::key::{Block, block_bits};
use index_segment::listing::{count_live, write_live};
use replies::Refusal;

// The tests in front of a listing: 1, and 3 and 4 for the whole directory.
pub(crate) fn header_to_list(words: &[u64]) -> Result<Header, Refusal>
    ensures { ListableBy result words.now }
{
    let header = read_header(words)?;
    scan(words, header)?;
    Ok(header)
}

// A block as a listing needs it: where its segment stands, what its keys share, and the index behind
// it.
#[derive(Clone, Copy)]
pub struct BlockPlace {
    pub base: usize,
    pub block: Block,
    pub next: usize,
}

// The block that index `i` leads. Its entry needs no test: the leaders are known to be valid.
pub(crate) fn read_block(words: &[u64], header: Header, i: usize) -> BlockPlace
    requires { LeadersRead header words.now × (leads words.now i ≡ true) }
    ensures { BlockRead words.now i result }
{
    let at = pow2(header.depth) + i;
    let entry = words[at];
    let local_depth = local_depth_of(entry);
    let base = segment_base(header.max_depth, segment_of(entry));
    let bits = block_bits(i, header.depth, local_depth);
    let next = i + block_width(header.depth, local_depth);
    BlockPlace {
        base,
        block: Block { local_depth, bits },
        next,
    }
}

// The block that any index leads in an index that can be listed, or none where it leads none. There each entry is its leader's, so
// that the entry at the index tells whether a block begins there: no second scan.
pub(crate) fn find_block(words: &[u64], header: Header, index: u64) -> Option<BlockPlace>
    requires { ListableRead header words.now }
    ensures { FoundAt result words.now index }
{
    let count = pow2(header.depth);
    if index >= count as u64 {
        return None;
    }
    let i = index as usize;
    let local_depth = local_depth_of(words[count + i]);
    let width = block_width(header.depth, local_depth);
    if i & (width - 1) != 0 {
        return None;
    }
    Some(read_block(words, header, i))
}

// What follows a block: the block at the index behind it, or none at the directory's end.
pub(crate) fn following(header: Header, next: usize) -> Option<u64>
    requires { header.depth ≤ 12 }
    ensures { option_of result ≡ whatFollows next (2 ^ header.depth) }
{
    (next < pow2(header.depth)).then_some(next as u64)
}

// The number of live records of a block.
pub(crate) fn count_block(words: &[u64], place: BlockPlace) -> usize
    requires { PlaceInside place words.now }
    ensures { (result ≡ length (place_records words.now place)) × (result ≤ 64) }
{
    let base = place.base;
    count_live(&words[base..base + SEGMENT_WORDS], place.block)
}

// Writes the live records of a block to the list from position `at` on, each as key, then value, slots
// rising. Answers the position behind them.
pub(crate) fn write_block(words: &[u64], place: BlockPlace, list: &mut [u64], at: usize) -> usize
    requires { PlaceInside place words.now × (at + 2 * length (place_records words.now place) ≤ length list.old) }
    ensures { Written (words_of (place_records words.now place)) at list.old result list.new }
{
    let base = place.base;
    write_live(&words[base..base + SEGMENT_WORDS], place.block, list, at)
}

// The number of live records of an index whose leaders are valid. The header stands beside the array, as in the scan: the
// iterator is the struct of both.
pub(crate) fn count_records(words: &[u64], header: Header) -> usize
    requires { LeadersRead header words.now }
    ensures { (result ≡ length (records words.now)) × (result ≤ 262144) }
{
    let mut total = 0;
    for place in Blocks::new(words, header) {
        total += count_block(words, place);
    }
    total
}

// Writes the live records of such an index to the list: its blocks joined. Answers the number of words
// written.
pub(crate) fn write_records(words: &[u64], header: Header, list: &mut [u64]) -> usize
    requires { LeadersRead header words.now × (2 * length (records words.now) ≤ length list.old) }
    ensures { Written (words_of (records words.now)) 0 list.old result list.new }
{
    let mut at = 0;
    for place in Blocks::new(words, header) {
        at = write_block(words, place, list, at);
    }
    at
}
