// Family 2 of the test: long runs by document 01's rule, at the depths 2 to 6, with keys that collide.
// Puts that split and merges are cut at every number of their stores, mended and made again. A run ends
// with its keys taken away one by one, and a merge behind each. After each step, and where a call was cut
// before each mend, every key is looked up and compared with the plain table. Behind the random steps, and
// behind one key of eight that are taken away, the lists of one block, joined, are compared with the full
// listing.
#![tactic(auto)]

mod parts;
mod run;

use run::make_run;
use std::io;
use test_compare::arrays::Arrays;
use test_compare::family::run_family;
use test_random::settings::setting_for;

// The runs.
const RUNS: u32 = 160;

// All runs.
fn test_runs(arrays: &mut Arrays) {
    for number in 0..RUNS {
        make_run(arrays, setting_for(number));
    }
}

fn main(rt: HostRuntime) -> io::Result<()> {
    run_family(&rt, "2 runs", test_runs)
}
