// The lower half of the model, written from the documents alone; it depends on no other crate of the
// repository. It has the array: words, entries, blocks, keys and slots as document 01 fixes them; the scan and
// the search for a key; the calls that store nothing; a list array beside records; and the draft on which
// `test_model` makes the calls that store.
#![tactic(auto)]

pub mod array;
pub mod block_listing;
pub mod blocks;
pub mod draft;
pub mod getting;
pub mod listing;
pub mod outcomes;
pub mod placing;
pub mod records;
pub mod route;
pub mod scan;
pub mod words;
