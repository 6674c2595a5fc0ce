// The laws of the index's definitions, and what is stated of them beyond the documents' own sentences. No code runs here.
#![tactic(auto)]
