// A word stored under an allowance.
#![tactic(auto)]

ghost use Rattle.std.specs.Prelude.{◌≡◌, ◌<◌, min, ltb, [], ◌∷◌, length};
ghost use Rattle.stores.specs.Store.{store};
ghost use Rattle.stores.specs.Executed.{Executed, begun};

// The stores of a call: how many it may make, and how many have come due. It is neither copied nor dropped: a call has one
// from its first store on, and answers by it.
pub struct Budget {
    allowance: u32,
    due: u32,
}

impl Budget {
    // Of a call that may make so many stores; none is due yet.
    pub fn new(allowance: u32) -> Budget
        ensures { result ≡ begun allowance }
    {
        Budget { allowance, due: 0 }
    }

    // Of such a call, of whose stores so many have come due. No call of the library begins in the middle of its stores; who
    // counts stores in another way goes on by it.
    pub fn resume(allowance: u32, due: u32) -> Budget
        ensures { (result.allowance ≡ allowance) × (result.due ≡ due) }
    {
        Budget { allowance, due }
    }

    // Stores `value` at `at` if fewer than `allowance` stores were due before. The number of due stores rises
    // whether or not the word is stored, so a caller tests for the cut once, behind its last store.
    pub fn store(&mut self, words: &mut [u64], at: usize, value: u64)
        requires { (at < length words.old) × (self.old.due < 4294967295) }
        ensures { Executed (store at value ∷ []) self.old words.old self.new words.new }
    {
        if self.due < self.allowance {
            words[at] = value;
        }
        self.due += 1;
    }

    // How many stores have come due. No call of the library asks: it is for code that lends its own budget, and that learns with an
    // allowance of 0 how many stores are needed, or behind a cut how many more than it allowed.
    pub fn due(&self) -> u32
        ensures { result ≡ self.now.due }
    {
        // Beyond the allowance too.
        self.due
    }

    // Whether the call is cut off: more stores are due than it may make.
    pub fn is_cut(&self) -> bool
        ensures { result ≡ ltb self.now.allowance self.now.due }
    {
        self.allowance < self.due
    }

    // The number of stores that were made, at the end of the call.
    pub fn made(self) -> u32
        ensures { result ≡ min self.allowance self.due }
    {
        let Budget { allowance, due } = self;
        allowance.min(due)
    }
}
