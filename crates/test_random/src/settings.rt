// The settings of long runs.
use test_array::array::power;
use test_model::Change;

// The runs at each depth.
const RUNS_PER_DEPTH: u32 = 32;

// A run: its largest depth and segments, and its first random number.
#[derive(Clone, Copy)]
pub struct Setting {
    pub max_depth: u32,
    pub segments: u32,
    pub seed: u64,
}

impl Setting {
    // The format that a run begins with.
    pub fn format(self) -> Change {
        Change::Format {
            max_depth: u64::from(self.max_depth),
            segments: u64::from(self.segments),
        }
    }
}

// The segments of a run: all that its depth allows, three quarters, half, or a few.
fn segments_for(max_depth: u32, run: u32) -> u32 {
    let most = power(max_depth);
    match run / 4 % 4 {
        0 => most,
        1 => most - most / 4,
        2 => most / 2,
        _ => 1 + run % 3,
    }
}

// What a run is given, by its number: the depths rise from 2.
pub fn setting_for(number: u32) -> Setting {
    let max_depth = 2 + number / RUNS_PER_DEPTH;
    let run = number % RUNS_PER_DEPTH;
    Setting {
        max_depth,
        segments: segments_for(max_depth, run),
        seed: max_depth as u64 * 64 + run as u64,
    }
}
