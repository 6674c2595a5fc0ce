// One call made on the index and on the model, each with an array of its own, and compared: reply,
// number of stores, every word, and the list array. The answers are of the index, in the model's words.
use crate::arrays::ArraysOf;
use crate::kind::Kind;
use crate::said::{request_of, said_by};
use replies::Answer;
use test_array::outcomes::Outcome;
use test_array::records::{LIST_FILL, is_list_of};
use test_array::words::WORDS;
use test_model::Call;

// Makes a call of the index that lists nothing. Nobody compares or counts it.
pub fn make(words: &mut [u64], call: Call) -> Answer {
    index::perform(words, &mut [], request_of(call))
}

impl<const INDEX_WORDS: usize> ArraysOf<INDEX_WORDS> {
    // Compares a call's answer with what is due, and counts it; `is_right` says whether the call left the right
    // words. Where no call of the index may answer so, what was due is counted.
    pub fn judge(&mut self, call: Call, answer: Answer, due: Outcome, is_right: bool) -> Outcome {
        let kind = Kind::from(call);
        let said = said_by(answer);
        self.expect(is_right && said == Ok(due) && kind.may_say(due.reply));
        let said = said.unwrap_or(due);
        self.tally.count_call(kind, said);
        said
    }

    // Makes a list, of all blocks or of one, on both, with `room` words of a list array. The list array is kept.
    fn compare_list(&mut self, call: Call, room: usize) -> Outcome {
        let mut list = [LIST_FILL; WORDS];
        let lent = self.lent();
        let words = &mut self.index[..lent];
        let answer = index::perform(words, &mut list[..room.min(WORDS)], request_of(call));
        let length = self.length();
        let records = call.records(&self.model, length);
        let due = call.perform(&mut self.model, length);
        self.listed = list;
        let is_right = is_list_of(&list, &records) && self.is_same();
        self.judge(call, answer, due, is_right)
    }

    // Makes a call that lists nothing on both.
    fn compare_other(&mut self, call: Call) -> Outcome {
        let lent = self.lent();
        let answer = make(&mut self.index[..lent], call);
        let length = self.length();
        let due = call.perform(&mut self.model, length);
        let is_right = self.is_same();
        self.judge(call, answer, due, is_right)
    }

    // Makes a call on both, and compares and counts it.
    pub fn compare(&mut self, call: Call) -> Outcome {
        match call {
            Call::List { room } | Call::ListBlock { room, .. } => self.compare_list(call, room),
            _ => self.compare_other(call),
        }
    }
}
