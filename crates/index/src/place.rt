// The tests in front of the calls with a key, in document 01's order, and the key's place behind them.
ghost use Rattle.index_rules.specs.Get.{get_tests};
ghost use Rattle.index_rules.specs.Put.{put_tests};
ghost use Rattle.index_layout.specs.Places.{PlacedBy};

use index_directory::scan::scan;
use index_layout::header::read_header;
use index_layout::place::{Place, place_of};
use replies::Refusal;

// For get: 1, 2, and 3 for the key's own entry.
pub(crate) fn place_to_read(words: &[u64], key: u64) -> Result<Place, Refusal>
    ensures { PlacedBy result words.now key (get_tests words.now key) }
{
    let header = read_header(words)?;
    if key == 0 {
        return Err(Refusal::NoKey);
    }
    place_of(words, header, key)
}

// The same two tests in front, and then another order: a parameter that says whether to scan would be a switch.
// For put, remove and merge: 1, 2, and 3 and 4 for the whole directory. The place is read before the scan, so
// that the scan's loop has the registers to itself.
pub(crate) fn place_to_change(words: &[u64], key: u64) -> Result<Place, Refusal>
    ensures { PlacedBy result words.now key (put_tests words.now key) }
{
    let header = read_header(words)?;
    if key == 0 {
        return Err(Refusal::NoKey);
    }
    let placed = place_of(words, header, key);
    scan(words, header)?;
    placed
}
