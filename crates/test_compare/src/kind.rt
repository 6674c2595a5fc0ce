// The calls without what they are given, and what the documents allow each to reply.
use test_array::outcomes::{Refusal, Reply};
use test_model::{Call, Change};

// The calls, in the order of the table's columns.
#[derive(Clone, Copy, PartialEq, Eq)]
pub enum Kind {
    Format,
    Get,
    Put,
    Remove,
    Merge,
    Mend,
    List,
    ListBlock,
}

// How many calls there are.
pub(crate) const KINDS: usize = 8;

impl From<Call> for Kind {
    fn from(call: Call) -> Kind {
        match call {
            Call::Change { change, .. } => Kind::from(change),
            Call::Get { .. } => Kind::Get,
            Call::List { .. } => Kind::List,
            Call::ListBlock { .. } => Kind::ListBlock,
        }
    }
}

impl From<Change> for Kind {
    fn from(change: Change) -> Kind {
        match change {
            Change::Format { .. } => Kind::Format,
            Change::Put { .. } => Kind::Put,
            Change::Remove { .. } => Kind::Remove,
            Change::Merge { .. } => Kind::Merge,
            Change::Mend => Kind::Mend,
        }
    }
}

impl Kind {
    // Whether the call makes stores.
    fn is_change(self) -> bool {
        !matches!(self, Kind::Get | Kind::List | Kind::ListBlock)
    }

    // Whether the call has a key.
    fn has_key(self) -> bool {
        matches!(self, Kind::Get | Kind::Put | Kind::Remove | Kind::Merge)
    }

    // Whether the call writes a list array.
    fn is_list(self) -> bool {
        matches!(self, Kind::List | Kind::ListBlock)
    }

    // Whether the call may be refused so, by document 01's table of refusals, and by document 02 for a merge and
    // a list of one block.
    fn may_refuse(self, refusal: Refusal) -> bool {
        match refusal {
            Refusal::NoStore | Refusal::Broken => self != Kind::Format,
            Refusal::NoKey => self.has_key(),
            Refusal::Unmended => !matches!(self, Kind::Format | Kind::Get | Kind::Mend),
            Refusal::TooDeep | Refusal::NoSegment => self == Kind::Put,
            Refusal::CutOff => self.is_change(),
            Refusal::BadShape | Refusal::TooShort => self == Kind::Format,
            Refusal::ShortList => self.is_list(),
            Refusal::NoBuddy | Refusal::BothLive => self == Kind::Merge,
            Refusal::NoLeader => self == Kind::ListBlock,
        }
    }

    // Whether the documents allow the call this reply. No block is behind another at index 0.
    pub(crate) fn may_say(self, reply: Result<Reply, Refusal>) -> bool {
        match reply {
            Ok(Reply::Done) => self.is_change(),
            Ok(Reply::Value(_)) => matches!(self, Kind::Get | Kind::List),
            Ok(Reply::Listed { next, .. }) => self == Kind::ListBlock && next != Some(0),
            Ok(Reply::Absent) => matches!(self, Kind::Get | Kind::Remove),
            Err(refusal) => self.may_refuse(refusal),
        }
    }
}
