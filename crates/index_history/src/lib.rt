// The history rule: a statement over the rules and its proof. No code runs here.
#![tactic(auto)]
