// The line of a job: its length, and its bytes.
ghost use Rattle.std.specs.Prelude.{◌≡◌, length};
ghost use Rattle.text.specs.Output.{HasRoom, Appended};
ghost use Rattle.board.specs.Print.{job, job_line};

use crate::id::JobId;
use crate::month::month_name;
use text::LINE_FEED;
use text::number::decimal_length;
use text::output::Output;

// The bytes of a line beside its two numbers: a name of three, two tabs and a line feed.
const AROUND_NUMBERS: usize = 6;

// The number of bytes of a job's line. All names are equally long.
pub(crate) fn line_length(id: JobId, pages: u64) -> usize
    ensures { result ≡ length (job_line (job id.month id.number pages)) }
{
    AROUND_NUMBERS + decimal_length(id.number) + decimal_length(pages)
}

// Writes the line of a job.
pub(crate) fn write_line(id: JobId, pages: u64, output: &mut Output)
    requires { HasRoom (job_line (job id.month id.number pages)) output.old }
    ensures { Appended (job_line (job id.month id.number pages)) output.old output.new }
{
    output.text(&month_name(id.month));
    output.field(id.number);
    output.field(pages);
    output.byte(LINE_FEED);
}
