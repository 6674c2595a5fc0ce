// Random numbers, keys, calls and damages, for the test programs, the settings of long runs, and the plain
// table that is told of a run. It knows the model's calls, and no index.
#![tactic(auto)]

pub mod damage;
pub mod generator;
pub mod runs;
pub mod settings;
pub mod table;
