// The month board (document 02, wish 2): each of planning's jobs is a record of the index, under a key
// made of its year, month and number. Every array, every buffer and every argument gets an answer;
// no call has a requirement. The index's own calls format and mend the board's array.
#![tactic(auto)]

mod count;
mod id;
mod job;
mod line;
mod month;
mod write;

ghost use Rattle.std.specs.Prelude.{length};
ghost use Rattle.replies.specs.Answered.{Answered, Wrote};
ghost use Rattle.board.specs.Jobs.{set_job, read_job, remove_job};
ghost use Rattle.board.specs.Print.{print_year};

use count::count_year;
use job::{key_of, valid_year};
use replies::{Answer, Refusal, Reply, without_store};
use write::write_year;

// Sets a job's pages: the index's put on the job's key. A `match` here and in the two calls below, and no `?`: a refusal is
// an answer, with its number of stores.
pub fn set(
    words: &mut [u64],
    year: u64,
    month: u64,
    number: u64,
    pages: u64,
    allowance: u32,
) -> Answer
    ensures { Answered (set_job words.old year month number pages allowance) result words.new }
{
    match key_of(year, month, number) {
        Ok(key) => index::put(words, key, pages, allowance),
        Err(refusal) => without_store(Err(refusal)),
    }
}

// Reads a job's pages: the index's get.
pub fn read(words: &[u64], year: u64, month: u64, number: u64) -> Answer
    ensures { Answered (read_job words.now year month number) result words.now }
{
    match key_of(year, month, number) {
        Ok(key) => index::get(words, key),
        Err(refusal) => without_store(Err(refusal)),
    }
}

// Removes a job: the index's remove.
pub fn remove(words: &mut [u64], year: u64, month: u64, number: u64, allowance: u32) -> Answer
    ensures { Answered (remove_job words.old year month number allowance) result words.new }
{
    match key_of(year, month, number) {
        Ok(key) => index::remove(words, key, allowance),
        Err(refusal) => without_store(Err(refusal)),
    }
}

// Prints a year's jobs into the buffer, a line each, and answers the number of bytes; bytes behind them
// stay. It looks each job up twice, first to learn whether the lines fit: nothing is written before.
pub fn print(words: &[u64], year: u64, buffer: &mut [u8]) -> Answer
    ensures { Wrote (print_year words.now year (length buffer.old)) result buffer.old buffer.new }
{
    if !valid_year(year) {
        return without_store(Err(Refusal::BadYear));
    }
    let bytes = match count_year(words, year) {
        Ok(bytes) => bytes,
        Err(refusal) => return without_store(Err(refusal)),
    };
    if buffer.len() < bytes {
        return without_store(Err(Refusal::ShortList));
    }
    let written = write_year(words, year, buffer);
    without_store(Ok(Reply::Value(written as u64)))
}
