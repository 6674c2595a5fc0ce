// Text: numbers read and written, lines and fields. It knows no call and no store.
#![tactic(auto)]

pub mod number;
pub mod output;
pub mod parts;
pub mod script;

pub const TAB: u8 = b'\t';

pub const LINE_FEED: u8 = b'\n';
