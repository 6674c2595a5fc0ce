// The slots of a segment or of a bucket.
ghost use Rattle.std.specs.Prelude.{◌≡◌, ◌/◌, length};
ghost use Rattle.std.specs.Simd.{first_chunks};

use index_layout::SLOT_WORDS;

// The slots that these words make, each its key, then its value.
pub(crate) fn slots(words: &[u64]) -> &[[u64; SLOT_WORDS]]
    ensures pairs { result.now ≡ first_chunks 2 (length words.now / 2) words.now }
    ensures count { length result.now ≡ length words.now / 2 }
{
    words.as_chunks::<SLOT_WORDS>().0
}
