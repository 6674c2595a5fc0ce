// Where a key stands: found once for get, put, remove and merge.
ghost use Rattle.index_rules.specs.Get.{entry_tests};
ghost use Rattle.index_layout.specs.Headers.{Describes};
ghost use Rattle.index_layout.specs.Places.{PlacedBy};

use crate::entry::read_entry;
use crate::header::{Header, segment_base};
use crate::key::{directory_index, open_key};
use replies::Refusal;

// What word 0 says, the key and its directory bits, the segment that its entry names with its local
// depth, and where that segment stands.
#[derive(Clone, Copy)]
pub struct Place {
    pub header: Header,
    pub key: u64,
    pub bits: u64,
    pub segment: usize,
    pub local_depth: u32,
    pub base: usize,
}

// The place of the key by its entry, or the refusal of an entry that is out of range.
pub fn place_of(words: &[u64], header: Header, key: u64) -> Result<Place, Refusal>
    requires { Describes header words.now }
    ensures { PlacedBy result words.now key (entry_tests words.now key) }
{
    let opened = open_key(key);
    let bits = opened.bits;
    let i = directory_index(bits, header.depth);
    // `let .. else` and not `?`: document 01 names this form for the entry reader's refusal.
    let Ok(entry) = read_entry(words, header, i) else {
        return Err(Refusal::Broken);
    };
    let base = segment_base(header.max_depth, entry.segment);
    Ok(Place {
        header,
        key,
        bits,
        segment: entry.segment,
        local_depth: entry.depth,
        base,
    })
}
