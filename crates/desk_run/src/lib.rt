// A script run on an index: each line's call is made, and its answer written to the output.
#![tactic(auto)]

mod output;

ghost use Rattle.std.specs.Prelude.{◌*◌, length};
ghost use Rattle.text.specs.Output.{HasSpace, Appended};
ghost use Rattle.text.specs.Parts.{lines_of};
ghost use Rattle.desk_text.specs.Output.{line_room};
ghost use Rattle.desk_run.specs.Run.{lines_output};
ghost use Rattle.desk_run.specs.Progress.{LineRan, OutputWritten};

use desk_text::line::read_line;
use output::{LINE_ROOM, write_answer, write_mark};
use text::output::Output;
use text::script::Lines;

// The most bytes of a script.
pub const MOST_BYTES: usize = 16384;

// The bytes of the output array: a script has at most a line for two bytes, and each line has room.
pub const OUTPUT_BYTES: usize = MOST_BYTES / 2 * LINE_ROOM;

// The words that the desk program owns, and those of the list array that it lends.
const INDEX_WORDS: usize = 4160;

const LIST_WORDS: usize = 512;

// Runs one line on the index, and writes its line of output; for a line that is no call a question mark.
fn run_line(line: &[u8], words: &mut [u64], list: &mut [u64], output: &mut Output)
    requires { HasSpace line_room output.old }
    ensures { LineRan line.now list.old words.old output.old words.new output.new }
{
    let Some(called) = read_line(line) else {
        return write_mark(b'?', output);
    };
    let answer = index::perform(words, list, called.call);
    write_answer(called.letter, answer, output)
}

// Runs all lines of a script.
fn run_lines(script: &[u8], words: &mut [u64], list: &mut [u64], output: &mut Output)
    requires { HasSpace (line_room * length (lines_of script.now)) output.old }
    ensures { Appended (lines_output (length list.old) words.old script.now) output.old output.new }
{
    for line in Lines::of(script) {
        run_line(line, words, list, output);
    }
}

// Runs the script as the desk program does, on an index of words that are all 0, and answers the
// number of bytes written. A script of too many bytes is not run, and an exclamation mark says so. The
// list array is room for listings: no output depends on what it holds.
pub fn run(script: &[u8], out: &mut [u8; OUTPUT_BYTES]) -> usize
    ensures { OutputWritten script.now out.old result out.new }
{
    let mut output = Output::new(out);
    if MOST_BYTES < script.len() {
        write_mark(b'!', &mut output);
        return output.written;
    }
    let mut words = [0u64; INDEX_WORDS];
    let mut list = [0u64; LIST_WORDS];
    run_lines(script, &mut words, &mut list, &mut output);
    output.written
}
