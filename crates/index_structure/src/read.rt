// A segment read as a value.
ghost use Rattle.std.specs.Prelude.{◌≡◌, ◌+◌, ◌≤◌, length};
ghost use Rattle.index_segment.specs.Slot.{segment_in};

use index_layout::SEGMENT_WORDS;

// The words of the segment at `base`, as a value: what moves records reads them first, and then writes the
// array.
pub(crate) fn read_segment(words: &[u64], base: usize) -> [u64; SEGMENT_WORDS]
    requires { base + 128 ≤ length words.now }
    ensures { result ≡ segment_in words.now base }
{
    <[u64; SEGMENT_WORDS]>::try_from(&words[base..base + SEGMENT_WORDS]).unwrap()
}
