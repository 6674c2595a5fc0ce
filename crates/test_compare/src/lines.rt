// The lines of the table that say how often each reply came.
use test_array::outcomes::{Refusal, Reply};

// What a line counts: done, with whatever value; a refusal; or absent.
#[derive(Clone, Copy, PartialEq, Eq)]
pub enum Line {
    Done,
    Refused(Refusal),
    Absent,
}

impl From<Result<Reply, Refusal>> for Line {
    fn from(reply: Result<Reply, Refusal>) -> Line {
        match reply {
            Ok(Reply::Absent) => Line::Absent,
            Ok(_) => Line::Done,
            Err(refusal) => Line::Refused(refusal),
        }
    }
}

pub(crate) const LINE_COUNT: usize = 15;

// The lines with their names: done, the ten refusals of document 01, the two of a merge, that of a list of one
// block, absent.
pub(crate) const LINES: [(Line, &str); LINE_COUNT] = [
    (Line::Done, "done"),
    (Line::Refused(Refusal::NoStore), "1 no store"),
    (Line::Refused(Refusal::NoKey), "2 no key"),
    (Line::Refused(Refusal::Broken), "3 broken"),
    (Line::Refused(Refusal::Unmended), "4 unmended"),
    (Line::Refused(Refusal::TooDeep), "5 too deep"),
    (Line::Refused(Refusal::NoSegment), "6 no segment"),
    (Line::Refused(Refusal::CutOff), "7 cut off"),
    (Line::Refused(Refusal::BadShape), "8 bad shape"),
    (Line::Refused(Refusal::TooShort), "9 too short"),
    (Line::Refused(Refusal::ShortList), "10 short list"),
    (Line::Refused(Refusal::NoBuddy), "14 no buddy"),
    (Line::Refused(Refusal::BothLive), "15 both live"),
    (Line::Refused(Refusal::NoLeader), "16 no leader"),
    (Line::Absent, "absent"),
];
