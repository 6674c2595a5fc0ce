// The search for a key in its probe window.
ghost use Rattle.std.specs.Prelude.{◌≡◌, length};
ghost use Rattle.index_rules.specs.Slots.{hit};
ghost use Rattle.stores.specs.Options.{option_of};

use crate::bucket::{bucket_at, window_bucket};
use index_layout::{BUCKET_SLOTS, WINDOW_BUCKETS};

// The first slot of the key's probe window that holds the key. An empty slot does not end the
// search: behind it there may be keys that were put before a remove. Document 01 names the form: nested
// loops over four buckets and four slots, left by a label.
pub fn find(segment: &[u64], key: u64) -> Option<usize>
    requires { length segment.now ≡ 128 }
    ensures { option_of result ≡ hit segment.now 0 key }
{
    let mut found = None;
    'search: for b in 0..WINDOW_BUCKETS {
        let number = window_bucket(key, b);
        let bucket = bucket_at(segment, number);
        for j in 0..BUCKET_SLOTS {
            if bucket.words[2 * j] == key {
                found = Some(BUCKET_SLOTS * number + j);
                break 'search;
            }
        }
    }
    found
}
