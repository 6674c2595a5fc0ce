// The search for a key, and for a slot that can take it.
use crate::blocks::{Block, key_in};
use crate::route::{is_live, window_slot};

// The slots of a window.
const WINDOW_SLOTS: u32 = 16;

// The first slot of the key's window that is wanted.
fn find_in_window<F: Fn(u32) -> bool>(key: u64, is_wanted: F) -> Option<u32>
    requires { F.IsAlwaysCallable is_wanted }
{
    (0..WINDOW_SLOTS)
        .map(|number| window_slot(key, number))
        .find(|slot| is_wanted(*slot))
}

// The first slot of the key's window that holds a word as its key. The word is the key itself, or 0 for an
// empty slot.
pub fn find_held(words: &[u64], block: Block, key: u64, held: u64) -> Option<u32> {
    find_in_window(key, |slot| key_in(words, block, slot) == held)
}

// The first slot of the key's window that is stale in the block. None of them is empty.
fn find_stale(words: &[u64], block: Block, key: u64) -> Option<u32> {
    find_in_window(key, |slot| !is_live(key_in(words, block, slot), block))
}

// The slot that takes a new key: the first empty one of its window, and only where none is empty the first
// stale one (document 02, wish 1).
pub fn find_room(words: &[u64], block: Block, key: u64) -> Option<u32> {
    let empty = find_held(words, block, key, 0);
    empty.or_else(|| find_stale(words, block, key))
}
