// The second pass of a print: each job of the year is looked up again, and its line written where it is
// found.
ghost use Rattle.std.specs.Prelude.{◌≤◌, [], ◌∷◌, length};
ghost use Rattle.stores.specs.Written.{Written};
ghost use Rattle.text.specs.Output.{HasRoom, Appended};
ghost use Rattle.board.specs.Print.{lookup, year_lookups, all_numbers, lines_in};
ghost use Rattle.board.specs.Passes.{bytes_of};

use crate::id::{JobId, YEAR_JOBS};
use crate::line::write_line;
use replies::Reply;
use text::output::Output;

// Looks a job up, and writes its line where it is found.
fn write_job(words: &[u64], id: JobId, output: &mut Output)
    requires { HasRoom (lines_in (lookup words.now id.year id.month id.number ∷ [])) output.old }
    ensures { Appended (lines_in (lookup words.now id.year id.month id.number ∷ [])) output.old output.new }
{
    let answer = index::get(words, id.key());
    let Ok(reply) = answer.reply else {
        return;
    };
    let Reply::Value(pages) = reply else {
        return;
    };
    write_line(id, pages, output);
}

// Writes the lines of a year from the buffer's start on, and answers the number of bytes.
pub(crate) fn write_year(words: &[u64], year: u64, buffer: &mut [u8]) -> usize
    requires low { year ≤ 9999 }
    requires room { bytes_of (year_lookups words.now year all_numbers) ≤ length buffer.old }
    ensures { Written (lines_in (year_lookups words.now year all_numbers)) 0 buffer.old result buffer.new }
{
    let mut output = Output::new(buffer);
    for place in 0..YEAR_JOBS {
        write_job(words, JobId::at(year, place), &mut output);
    }
    output.written
}
