// The calls of the index for C and Rust, those of the header page_index.h. Each is the index's call, its
// answer told in three numbers. The month board's are in `month_board`.
#![tactic(auto)]

mod month_board;

ghost use Rattle.std.specs.Prelude.{◌≡◌, length};
ghost use Rattle.index_rules.specs.declared.Call.TheVariants.{Format, Get, Put, Remove, Merge, Mend};
ghost use Rattle.replies.specs.Replies.{said_by};
ghost use Rattle.index_rules.specs.Listing.{list as listing};
ghost use Rattle.index_rules.specs.Step.{outcome_of};
ghost use Rattle.page_index.specs.Told.{Tells, Told, ToldWriting, ToldBlock};

use replies::{Answer, Reply};

// The code of the reply absent; done is 0, a refusal has its number.
const ABSENT: u32 = 255;

// An answer: C's `struct page_index_reply`, with a number for the reply, as the C interface has it.
#[repr(C)]
#[derive(Clone, Copy)]
pub struct PageIndexReply {
    pub code: u32,
    pub stores: u32,
    pub value: u64,
}

// An answer in three numbers.
impl From<Answer> for PageIndexReply {
    ghost from_gives = { λ answer told. Tells (said_by answer.reply) answer.stores told };

    fn from(answer: Answer) -> PageIndexReply {
        let (code, value) = match answer.reply {
            Ok(Reply::Done) => (0, 0),
            Ok(Reply::Value(found)) => (0, found),
            Ok(Reply::Listed(count, _)) => (0, count),
            Ok(Reply::Absent) => (ABSENT, 0),
            Err(refusal) => (u32::from(refusal), 0),
        };
        PageIndexReply {
            code,
            stores: answer.stores,
            value,
        }
    }
}

// Format: `depth` is document 01's D, `segments` its S.
#[unsafe(no_mangle)]
pub extern "C" fn page_index_format(
    words: &mut [u64],
    depth: u64,
    segments: u64,
    allowance: u32,
) -> PageIndexReply
    ensures { Told (outcome_of words.old (Format depth segments allowance)) result words.new }
{
    index::format(words, depth, segments, allowance).into()
}

// Get.
#[unsafe(no_mangle)]
pub extern "C" fn page_index_get(words: &[u64], key: u64) -> PageIndexReply
    ensures { Told (outcome_of words.now (Get key)) result words.now }
{
    index::get(words, key).into()
}

// Put.
#[unsafe(no_mangle)]
pub extern "C" fn page_index_put(
    words: &mut [u64],
    key: u64,
    value: u64,
    allowance: u32,
) -> PageIndexReply
    ensures { Told (outcome_of words.old (Put key value allowance)) result words.new }
{
    index::put(words, key, value, allowance).into()
}

// Remove.
#[unsafe(no_mangle)]
pub extern "C" fn page_index_remove(words: &mut [u64], key: u64, allowance: u32) -> PageIndexReply
    ensures { Told (outcome_of words.old (Remove key allowance)) result words.new }
{
    index::remove(words, key, allowance).into()
}

// Merge.
#[unsafe(no_mangle)]
pub extern "C" fn page_index_merge(words: &mut [u64], key: u64, allowance: u32) -> PageIndexReply
    ensures { Told (outcome_of words.old (Merge key allowance)) result words.new }
{
    index::merge(words, key, allowance).into()
}

// Mend.
#[unsafe(no_mangle)]
pub extern "C" fn page_index_mend(words: &mut [u64], allowance: u32) -> PageIndexReply
    ensures { Told (outcome_of words.old (Mend allowance)) result words.new }
{
    index::mend(words, allowance).into()
}

// List.
#[unsafe(no_mangle)]
pub extern "C" fn page_index_list(words: &[u64], list: &mut [u64]) -> PageIndexReply
    ensures { ToldWriting (listing words.now (length list.old)) result list.old list.new }
{
    index::list(words, list).into()
}

// List of one block. `next` gets the index of the block that follows, or 0 after the last; a refusal
// leaves it as it was.
#[unsafe(no_mangle)]
pub extern "C" fn page_index_list_block(
    words: &[u64],
    index: u64,
    list: &mut [u64],
    next: &mut u64,
) -> PageIndexReply
    ensures { ToldBlock words.now index result list.old list.new next.old next.new }
{
    let answer = index::list_block(words, index, list);
    if let Ok(Reply::Listed(_, following)) = answer.reply {
        *next = following.unwrap_or(0);
    }
    answer.into()
}
