// The history rule over the board's calls: a statement and its proof. No code runs here.
#![tactic(auto)]
