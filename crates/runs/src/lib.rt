// Runs of calls on a store of words: the abstract map, the claim about a run, and its proof for every
// store with an invariant. No code runs here.
#![tactic(auto)]
