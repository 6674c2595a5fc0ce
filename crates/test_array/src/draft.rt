// A call's draft: a copy of the words on which all due stores are made, whatever the allowance, and these stores
// in order.
use crate::outcomes::{Outcome, Refusal, Reply};
use crate::records::Record;
use crate::words::{WORDS, set_word};
use arrayvec::ArrayVec;

// The stores that can be noted; document 01's bound is 9,764.
const MOST_STORES: usize = 9998;

// A store: an address and what is stored there.
#[derive(Clone, Copy, Default)]
struct Store {
    at: usize,
    value: u64,
}

#[derive(Drop)]
pub struct Draft {
    words: ArrayVec<u64, WORDS>,
    length: usize,
    due: ArrayVec<Store, MOST_STORES>,
}

impl Draft {
    // A draft of an index, the first `length` words of an array, with no store due.
    pub fn new(words: &[u64], length: usize) -> Draft {
        let mut copy = ArrayVec::new();
        let _ = copy.try_extend_from_slice(&words[..length.min(words.len())]);
        Draft {
            words: copy,
            length,
            due: ArrayVec::new(),
        }
    }

    // The words with all due stores made.
    pub fn words(&self) -> &[u64] {
        self.words.as_slice()
    }

    // How many words the index has.
    pub fn length(&self) -> usize {
        self.length
    }

    // Makes a store on the copy and notes it behind the others.
    pub fn note(&mut self, at: usize, value: u64) {
        set_word(self.words.as_mut_slice(), at, value);
        let _ = self.due.try_push(Store { at, value });
    }

    // Makes a record's two stores into the slot whose key is at this address: value, then key.
    pub fn note_record(&mut self, at: usize, record: Record) {
        self.note(at.wrapping_add(1), record.value);
        self.note(at, record.key);
    }

    // Makes the due stores on the words, as many as are allowed, and answers the reply, or cut off if more are
    // due.
    pub fn carry_out(
        &self,
        words: &mut [u64],
        reply: Result<Reply, Refusal>,
        allowance: u32,
    ) -> Outcome {
        for store in self.due.iter().take(allowance as usize) {
            set_word(words, store.at, store.value);
        }
        let due = self.due.len() as u32;
        if allowance < due {
            return Outcome {
                reply: Err(Refusal::CutOff),
                stores: allowance,
            };
        }
        Outcome { reply, stores: due }
    }
}
