// What a call of the model answers.

// The refusals of documents 01 and 02, with their numbers there.
#[derive(Clone, Copy, PartialEq, Eq)]
pub enum Refusal {
    NoStore = 1,
    NoKey,
    Broken,
    Unmended,
    TooDeep,
    NoSegment,
    CutOff,
    BadShape,
    TooShort,
    ShortList,
    NoBuddy = 14,
    BothLive,
    NoLeader,
}

// All refusals, in the order of their numbers.
const REFUSALS: [Refusal; 13] = [
    Refusal::NoStore,
    Refusal::NoKey,
    Refusal::Broken,
    Refusal::Unmended,
    Refusal::TooDeep,
    Refusal::NoSegment,
    Refusal::CutOff,
    Refusal::BadShape,
    Refusal::TooShort,
    Refusal::ShortList,
    Refusal::NoBuddy,
    Refusal::BothLive,
    Refusal::NoLeader,
];

// A number that no refusal of the index has, as those of the board.
#[derive(Clone, Copy, PartialEq, Eq)]
pub struct UnknownNumber(pub u32);

impl TryFrom<u32> for Refusal {
    type Error = UnknownNumber;

    fn try_from(number: u32) -> Result<Refusal, UnknownNumber> {
        let mut refusals = REFUSALS.iter().copied();
        refusals
            .find(|refusal| *refusal as u32 == number)
            .ok_or(UnknownNumber(number))
    }
}

// The reply of a call that is not refused: done; a get's value, or a list's number of records; that of a list of
// one block, with the next block's index where there is one; or absent.
#[derive(Clone, Copy, PartialEq, Eq)]
pub enum Reply {
    Done,
    Value(u64),
    Listed { records: u64, next: Option<u64> },
    Absent,
}

// What a call answers, and the stores that it made.
#[derive(Clone, Copy, PartialEq, Eq)]
pub struct Outcome {
    pub reply: Result<Reply, Refusal>,
    pub stores: u32,
}
