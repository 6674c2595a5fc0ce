// The calls of the month board for C and Rust, those of the header month_board.h.
ghost use Rattle.std.specs.Prelude.{length};
ghost use Rattle.board.specs.Jobs.{set_job, read_job, remove_job};
ghost use Rattle.board.specs.Print.{print_year};
ghost use Rattle.page_index.specs.Told.{Told, ToldWriting};

use crate::PageIndexReply;

// Sets a job's pages.
#[unsafe(no_mangle)]
pub extern "C" fn month_board_set(
    words: &mut [u64],
    year: u64,
    month: u64,
    number: u64,
    pages: u64,
    allowance: u32,
) -> PageIndexReply
    ensures { Told (set_job words.old year month number pages allowance) result words.new }
{
    board::set(words, year, month, number, pages, allowance).into()
}

// Reads a job's pages.
#[unsafe(no_mangle)]
pub extern "C" fn month_board_read(
    words: &[u64],
    year: u64,
    month: u64,
    number: u64,
) -> PageIndexReply
    ensures { Told (read_job words.now year month number) result words.now }
{
    board::read(words, year, month, number).into()
}

// Removes a job.
#[unsafe(no_mangle)]
pub extern "C" fn month_board_remove(
    words: &mut [u64],
    year: u64,
    month: u64,
    number: u64,
    allowance: u32,
) -> PageIndexReply
    ensures { Told (remove_job words.old year month number allowance) result words.new }
{
    board::remove(words, year, month, number, allowance).into()
}

// Prints a year's jobs into the buffer.
#[unsafe(no_mangle)]
pub extern "C" fn month_board_print(words: &[u64], year: u64, buffer: &mut [u8]) -> PageIndexReply
    ensures { ToldWriting (print_year words.now year (length buffer.old)) result buffer.old buffer.new }
{
    board::print(words, year, buffer).into()
}
