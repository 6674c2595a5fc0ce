// What the calls of a store answer: refusals and their numbers, replies, answers. It knows no store.
#![tactic(auto)]

ghost use Rattle.std.specs.Prelude.{◌≡◌};
ghost use Rattle.replies.specs.Replies.{number_of, said_by};
ghost use Rattle.replies.specs.Answered.{AfterStores};

use stores::Budget;

// Document 01, 'Replies that say no': the ten refusals, in the order of its table; and those that
// document 02 adds, in the order of their numbers.
#[derive(Clone, Copy)]
pub enum Refusal {
    NoStore = 1,
    NoKey,
    Broken,
    Unmended,
    TooDeep,
    NoSegment,
    CutOff,
    BadShape,
    TooShort,
    ShortList,
    BadYear,
    BadMonth,
    BadNumber,
    NoBuddy,
    BothLive,
    NoLeader,
}

// The reply of a call that is done or finds nothing: done; done with a value, which is what a get found or how
// many records a list wrote; done with how many records of one block were written, and the index of the block that
// follows, if it was not the last; absent, for get and remove.
#[derive(Clone, Copy)]
pub enum Reply {
    Done,
    Value(u64),
    Listed(u64, Option<u64>),
    Absent,
}

// The answer of a call: its reply or its refusal, and the number of stores it made.
#[derive(Clone, Copy)]
pub struct Answer {
    pub reply: Result<Reply, Refusal>,
    pub stores: u32,
}

// The answer of a call that made no store.
pub fn without_store(reply: Result<Reply, Refusal>) -> Answer
    ensures { (result.reply ≡ reply) × (result.stores ≡ 0) }
{
    Answer { reply, stores: 0 }
}

// The answer of a call behind its stores: the reply, or cut off where more stores are due than it may make.
pub fn after_stores(reply: Result<Reply, Refusal>, budget: Budget) -> Answer
    ensures { AfterStores result (said_by reply) budget }
{
    let reply = if budget.is_cut() {
        Err(Refusal::CutOff)
    } else {
        reply
    };
    Answer {
        reply,
        stores: budget.made(),
    }
}

// The number of a refusal.
impl From<Refusal> for u32 {
    ghost from_gives = { λ refusal number. number ≡ number_of refusal };

    fn from(refusal: Refusal) -> u32 {
        refusal as u32
    }
}
