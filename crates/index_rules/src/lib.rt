// The calls of the index as data. No code runs here.
#![tactic(auto)]

// One call as data. A format's depth is document 01's D, its segments document 01's S; the
// allowance is the number of stores that the call may make.
#[derive(Clone, Copy)]
pub enum Call {
    Format {
        depth: u64,
        segments: u64,
        allowance: u32,
    },
    Get {
        key: u64,
    },
    Put {
        key: u64,
        value: u64,
        allowance: u32,
    },
    Remove {
        key: u64,
        allowance: u32,
    },
    Merge {
        key: u64,
        allowance: u32,
    },
    Mend {
        allowance: u32,
    },
    List,
    ListBlock {
        index: u64,
    },
}
