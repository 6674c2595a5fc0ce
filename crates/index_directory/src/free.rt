// The search for a free segment: one pass over the entries notes the segments that they name in a set,
// and the answer is read from the set.
ghost use Rattle.std.specs.Prelude.{◌≡◌, ◌≤◌};
ghost use Rattle.stores.specs.Options.{option_of};
ghost use Rattle.index_rules.specs.Slots.{free_segment};
ghost use Rattle.index_layout.specs.Headers.{Describes};
ghost use Rattle.index_directory.specs.BitSets.{IsBitSet, Empty};
ghost use Rattle.index_directory.specs.Frees.{free_in, NotedEntry, HoldsNamed};

use crate::bit_set::{BitSet, insert, smallest_missing};
use index_layout::entry::segment_of;
use index_layout::header::{Header, pow2};

// Notes the segment that the entry names, if it is below S: an entry can name any number of 32 bits.
fn note_entry(set: &mut [u64], entry: u64, segments: usize)
    requires { IsBitSet set.old × (segments ≤ 4096) }
    ensures { NotedEntry entry segments set.old set.new }
{
    let segment = segment_of(entry);
    if segment < segments {
        insert(set, segment);
    }
}

// Notes in the empty set the segments that the entries of the present directory name: the one pass.
pub fn note_named(words: &[u64], header: Header, set: &mut [u64])
    requires { Describes header words.now × IsBitSet set.old × Empty set.old }
    ensures { HoldsNamed set.new words.now }
{
    let count = pow2(header.depth);
    let segments = header.segments as usize;
    for entry in &words[count..2 * count] {
        note_entry(set, *entry, segments);
    }
}

// The answer from the set and S alone.
pub fn free_in(set: &[u64], segments: usize) -> Option<usize>
    requires { IsBitSet set.now }
    ensures { option_of result ≡ free_in set.now segments }
{
    let number = smallest_missing(set);
    (number < segments).then_some(number)
}

// The smallest segment number below S that no entry of the present directory names.
pub fn free_segment(words: &[u64], header: Header) -> Option<usize>
    requires { Describes header words.now }
    ensures { option_of result ≡ free_segment words.now }
{
    let mut set = BitSet::new();
    note_named(words, header, &mut set.words);
    free_in(&set.words, header.segments as usize)
}
