// Which job it is: its year, month and number; and its key.
ghost use Rattle.std.specs.Prelude.{◌≡◌, ◌+◌, ◌/◌, ◌%◌, ◌<◌, ◌≤◌};
ghost use Rattle.board.specs.Jobs.{job_key};

use crate::job::{LAST_MONTH, LAST_NUMBER};

// How many jobs a month may have, and a year.
const MONTH_JOBS: u64 = LAST_NUMBER + 1;

pub(crate) const YEAR_JOBS: u64 = LAST_MONTH * MONTH_JOBS;

// What a job's key takes of a year and of a month.
const YEAR_KEYS: u64 = 65536;

const MONTH_KEYS: u64 = 4096;

// Which job. Its month and number are ones that there may be, and its year is 9999 at most: year 0 the tests refuse.
#[derive(Clone, Copy)]
pub struct JobId {
    pub year: u64,
    pub month: u64,
    pub number: u64,
    ghost in_year: { (year ≤ 9999) × (1 ≤ month) × (month ≤ 12) × (number ≤ 4095) },
}

impl JobId {
    // The job at this place among those of its year, of which the months rise, and the numbers within a month.
    pub(crate) fn at(year: u64, place: u64) -> JobId
        requires { (year ≤ 9999) × (place < 49152) }
        ensures { (result.year ≡ year) × (result.month ≡ place / 4096 + 1) × (result.number ≡ place % 4096) }
    {
        JobId {
            year,
            month: place / MONTH_JOBS + 1,
            number: place % MONTH_JOBS,
        }
    }

    // The key of the job.
    pub(crate) fn key(self) -> u64
        ensures { result ≡ job_key self.year self.month self.number }
    {
        self.year * YEAR_KEYS + self.month * MONTH_KEYS + self.number
    }
}
