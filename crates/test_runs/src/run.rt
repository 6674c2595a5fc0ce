// A run: its steps, the calls that are cut, and the keys that are taken away at its end.
use crate::parts::compare_parts;
use replies::Reply as Said;
use test_array::array::words_before;
use test_array::outcomes::{Refusal, Reply};
use test_compare::arrays::Arrays;
use test_model::{ALL_STORES, Call, Change};
use test_random::generator::{Rolls, scatter};
use test_random::runs::{call_for, draw_keys, entry_for, is_to_cut, mend_allowance};
use test_random::settings::Setting;
use test_random::table::{Entry, KEYS, Table};

// The steps of a run.
const STEPS: usize = 160;

// One key of so many is followed by a listing in parts.
const KEYS_BETWEEN_LISTS: usize = 8;

// The arrays of a run, and the plain table with its keys.
#[derive(Drop)]
pub(crate) struct Run<'a> {
    arrays: &'a mut Arrays,
    table: Table,
}

// Whether a lookup in the index says what the table says of a key.
fn is_as_told(words: &[u64], entry: Entry) -> bool {
    match index::get(words, entry.key).reply {
        Ok(Said::Value(value)) => entry.value == Some(value),
        Ok(Said::Absent) => entry.value.is_none(),
        _ => false,
    }
}

impl Run<'_> {
    // Looks every key up in the index, and counts where it differs from the table.
    fn look_up_all(&mut self) {
        self.arrays.tally.count_lookups(KEYS);
        for entry in self.table {
            let is_right = is_as_told(&self.arrays.index, entry);
            self.arrays.expect(is_right);
        }
    }

    // A lookup of every key, where a mend may be awaited, and a mend; whether it was cut off.
    fn mend_is_cut(&mut self, allowance: u32) -> bool {
        self.look_up_all();
        let seen = self.arrays.compare(Change::Mend.allowed(allowance));
        seen.reply == Err(Refusal::CutOff)
    }

    // Mends until a mend is done, the first two with this allowance.
    fn recover(&mut self, allowance: u32) {
        if self.mend_is_cut(allowance) && self.mend_is_cut(allowance) {
            self.mend_is_cut(ALL_STORES);
        }
    }

    // Makes a call again. No merge changes the table, so every key is looked up behind one.
    fn make_again(&mut self, change: Change) {
        self.arrays.compare(change.whole());
        if let Change::Merge { .. } = change {
            self.look_up_all();
        }
    }

    // A call cut after `allowance` stores, the mends behind it, a lookup of every key, and the call again.
    fn cut_once(&mut self, change: Change, allowance: u32) {
        self.arrays.restore();
        self.arrays.compare(change.allowed(allowance));
        self.recover(allowance % 3);
        self.look_up_all();
        self.make_again(change);
    }

    // A call cut at every number of its stores, and then made whole.
    fn cut_everywhere(&mut self, change: Change, stores: u32) {
        for allowance in 0..stores {
            self.cut_once(change, allowance);
        }
        self.arrays.restore();
        self.arrays.compare(change.whole());
    }

    // Tells the table of a done call on the key of this number.
    fn tell(&mut self, number: usize, change: Change) {
        if let Some(entry) = self.table.get_mut(number) {
            entry.tell(change);
        }
    }

    // A put or a merge that all its stores are allowed, cut everywhere first if it is to be.
    fn whole_step(&mut self, number: usize, change: Change) {
        self.arrays.save();
        let whole = self.arrays.compare(change.whole());
        if is_to_cut(change, whole.stores) {
            self.cut_everywhere(change, whole.stores);
        }
        if whole.reply == Ok(Reply::Done) {
            self.tell(number, change);
        }
    }

    // A call, and the mends that a cut calls for.
    fn call_step(&mut self, number: usize, call: Call) {
        let seen = self.arrays.compare(call);
        let Call::Change { change, allowance } = call else {
            return;
        };
        if seen.reply == Err(Refusal::CutOff) {
            self.recover(mend_allowance(change, allowance));
        }
        if seen.reply == Ok(Reply::Done) {
            self.tell(number, change);
        }
    }

    // One step of a run, by a random number.
    fn step(&mut self, roll: u64) {
        let number = entry_for(roll);
        let call = call_for(&self.arrays.index, &self.table, roll);
        match (roll % 16, call) {
            (0..=7, Call::Change { change, .. }) => self.whole_step(number, change),
            (12, _) => self.recover((roll / 1024 % 2) as u32),
            _ => self.call_step(number, call),
        }
    }

    // The steps of a run, with a lookup of every key behind each.
    fn take_steps(&mut self, seed: u64) {
        for roll in Rolls::seeded(seed).take(STEPS) {
            self.step(roll);
            self.look_up_all();
        }
    }

    // Takes a key away, and merges its block with the buddy if that can be. Behind some of the keys the index is
    // listed in parts.
    fn clear_key(&mut self, number: usize, key: u64) {
        self.call_step(number, Change::Remove { key }.whole());
        self.whole_step(number, Change::Merge { key });
        self.look_up_all();
        if number % KEYS_BETWEEN_LISTS == 0 {
            compare_parts(self.arrays);
        }
    }

    // Takes all keys away, one by one, with the merges that come to be possible.
    fn clear(&mut self) {
        for (number, entry) in (0..).zip(self.table) {
            self.clear_key(number, entry.key);
        }
    }
}

// A run on arrays of just its words, from a format on.
pub(crate) fn make_run(arrays: &mut Arrays, setting: Setting) {
    arrays.begin_case(words_before(setting.max_depth, setting.segments));
    scatter(&mut arrays.index, setting.seed);
    arrays.copy_to_model();
    arrays.compare(setting.format().whole());
    let mut run = Run {
        arrays,
        table: draw_keys(setting.seed),
    };
    run.take_steps(setting.seed);
    compare_parts(run.arrays);
    run.clear();
}
