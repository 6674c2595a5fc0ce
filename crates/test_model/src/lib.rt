// The model: document 01's calls, as document 02 changes and adds to them, written a second time, from the
// documents alone. It shares no function and no definition with `index` or `index_rules`, and works in another
// way: a call that stores first makes all its due stores on a copy and notes each, whatever the allowance;
// then the first noted stores, as many as are allowed, are made on the words. Blocks and used segments are
// found by marking. What the calls only read is in `test_array`.
//
// An index is the first `length` words of an array. The array may have fewer: what lies behind it is read as 0, and a
// store there is lost.
#![tactic(auto)]

mod formatting;
mod mending;
mod merging;
mod putting;
mod removing;
mod splitting;

use formatting::plan_format;
use mending::plan_mend;
use merging::plan_merge;
use putting::plan_put;
use removing::plan_remove;
use test_array::block_listing::list_block;
use test_array::draft::Draft;
use test_array::getting::get;
use test_array::listing::list;
use test_array::outcomes::{Outcome, Refusal, Reply};
use test_array::records::{Record, Records};

// An allowance that cuts no call off.
pub const ALL_STORES: u32 = 4294967295;

// A call that stores.
#[derive(Clone, Copy)]
pub enum Change {
    Format { max_depth: u64, segments: u64 },
    Put { key: u64, value: u64 },
    Remove { key: u64 },
    Merge { key: u64 },
    Mend,
}

// A call: one that stores, with the stores that it may make; or one that only reads. A list, of all blocks or
// of the one at a directory index, has the words of its list array.
#[derive(Clone, Copy)]
pub enum Call {
    Change { change: Change, allowance: u32 },
    Get { key: u64 },
    List { room: usize },
    ListBlock { index: u64, room: usize },
}

impl Change {
    // The call with this allowance.
    pub fn allowed(self, allowance: u32) -> Call {
        Call::Change {
            change: self,
            allowance,
        }
    }

    // The call that all its stores are allowed.
    pub fn whole(self) -> Call {
        self.allowed(ALL_STORES)
    }

    // Its due stores, on the draft, and its reply.
    fn plan(self, draft: &mut Draft) -> Result<Reply, Refusal> {
        match self {
            Change::Format {
                max_depth,
                segments,
            } => plan_format(draft, max_depth, segments),
            Change::Put { key, value } => plan_put(draft, Record { key, value }),
            Change::Remove { key } => plan_remove(draft, key),
            Change::Merge { key } => plan_merge(draft, key),
            Change::Mend => plan_mend(draft),
        }
    }

    // Makes the call on the first `length` words of an array.
    fn perform(self, words: &mut [u64], length: usize, allowance: u32) -> Outcome {
        let mut draft = Draft::new(words, length);
        let reply = self.plan(&mut draft);
        draft.carry_out(words, reply, allowance)
    }
}

// What a list replies.
fn list_reply(words: &[u64], length: usize, room: usize) -> Result<Reply, Refusal> {
    let records = list(words, length, room)?;
    Ok(Reply::Value(records.len() as u64))
}

// What a list of one block replies.
fn list_block_reply(
    words: &[u64],
    length: usize,
    index: u64,
    room: usize,
) -> Result<Reply, Refusal> {
    let part = list_block(words, length, index, room)?;
    Ok(Reply::Listed {
        records: part.records.len() as u64,
        next: part.next,
    })
}

impl Call {
    // The call with another allowance.
    pub fn allowed(self, allowance: u32) -> Call {
        match self {
            Call::Change { change, .. } => change.allowed(allowance),
            _ => self,
        }
    }

    // Makes the call on the first `length` words of an array.
    pub fn perform(self, words: &mut [u64], length: usize) -> Outcome {
        let reply = match self {
            Call::Change { change, allowance } => return change.perform(words, length, allowance),
            Call::Get { key } => get(words, length, key),
            Call::List { room } => list_reply(words, length, room),
            Call::ListBlock { index, room } => list_block_reply(words, length, index, room),
        };
        Outcome { reply, stores: 0 }
    }

    // The records that the call writes into its list array: none, if it is refused or no list.
    pub fn records(self, words: &[u64], length: usize) -> Records {
        match self {
            Call::List { room } => list(words, length, room).unwrap_or_default(),
            Call::ListBlock { index, room } => list_block(words, length, index, room)
                .map(|part| part.records)
                .unwrap_or_default(),
            _ => Records::new(),
        }
    }
}
