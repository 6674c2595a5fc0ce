// The first pass of a print: each job of the year is looked up, and the bytes of the lines are counted.
ghost use Rattle.std.specs.Prelude.{◌≤◌, [], ◌∷◌};
ghost use Rattle.board.specs.Print.{lookup, year_lookups, all_numbers};
ghost use Rattle.board.specs.Passes.{CountedBy};

use crate::id::{JobId, YEAR_JOBS};
use crate::line::line_length;
use replies::{Refusal, Reply};

// Looks a job up, and counts the bytes of its line: 0 where it is not found.
fn count_job(words: &[u64], id: JobId) -> Result<usize, Refusal>
    ensures { CountedBy result (lookup words.now id.year id.month id.number ∷ []) }
{
    match index::get(words, id.key()).reply? {
        Reply::Value(pages) => Ok(line_length(id, pages)),
        _ => Ok(0),
    }
}

// The same for all jobs of a year.
pub(crate) fn count_year(words: &[u64], year: u64) -> Result<usize, Refusal>
    requires { year ≤ 9999 }
    ensures { CountedBy result (year_lookups words.now year all_numbers) }
{
    let mut bytes = 0;
    for place in 0..YEAR_JOBS {
        bytes += count_job(words, JobId::at(year, place))?;
    }
    Ok(bytes)
}
